//! The texts of signed values.

ghost use Rattle.std.specs.Prelude.{◌≡◌, ◌↔◌, ℕ, List, IfOk, IsTrue, Some};
ghost use Rattle.std.specs.Option.{option_copied};
ghost use Rattle.std.specs.String.{string_bytes};
ghost use Rattle.cookie.specs.Signing as spec;
ghost use Rattle.cookie.specs.Trials.{IsCode};

use super::key::Key;
use super::printing::code_text;
use base64::engine::general_purpose::STANDARD;
use seal::equal_bytes;
use std::alloc::{AllocError, Global};

// The base64 of 32 bytes.
pub(super) const CODE_LEN: usize = 44;

/// The signing of `value`: its code under the key's signing half (HMAC with SHA-256, RFC 2104) in
/// base64, which has 44 characters, and then the value.
///
/// # Errors
///
/// Want of memory.
pub fn signed_text(alloc: Global, key: &Key, value: &str) -> Result<String, AllocError>
    ensures { IfOk result (λ text. string_bytes text ≡ spec.signing key.now value.now) }
{
    let code = key.code(value.as_bytes());
    let mut text = String::with_capacity(alloc, CODE_LEN + value.len())?;
    STANDARD.encode_string(&code, &mut text)?;
    text.push_str(value)?;
    Ok(text)
}

/// The value that `text` is the signing of, a slice of it, and none where it is no signing under
/// this key.
pub fn verified_value<'t>(key: &Key, text: &'t str) -> Option<&'t str>
    ensures { (value : List ℕ) → (option_copied result ≡ Some value) ↔ (text.now ≡ spec.signing key.now value) }
{
    seal::laws::lengths();
    let Some((code, value)) = text.split_at_checked(CODE_LEN) else {
        return None;
    };
    let right = code_text(&key.code(value.as_bytes()));
    if equal_bytes(code.as_bytes(), &right) {
        Some(value)
    } else {
        None
    }
}

/// Whether a text is the code of the value in base64, as a signing begins with it.
pub(super) fn is_code(key: &Key, code: &[u8], value: &[u8]) -> bool
    ensures { IsTrue result ↔ IsCode code.now value.now key.now }
{
    equal_bytes(code, &code_text(&key.code(value)))
}
