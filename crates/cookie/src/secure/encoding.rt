//! Base64 with the standard alphabet and padding (RFC 4648, section 4), canonical texts alone.

ghost use Rattle.std.specs.Prelude.{◌≡◌, ◌↔◌, ℕ, List, Vec, Some, IfOk};
ghost use Rattle.std.specs.Option.{option_map};
ghost use Rattle.std.specs.String.{string_bytes};
ghost use Rattle.cookie.specs.Base64.{IsBase64};

use base64::DecodeAllocError;
use base64::engine::general_purpose::STANDARD;
use std::alloc::{AllocError, Global};

/// The base64 of the bytes.
///
/// # Errors
///
/// Want of memory.
pub fn encoded(alloc: Global, bytes: &[u8]) -> Result<String, AllocError>
    ensures { IfOk result (λ text. IsBase64 bytes.now (string_bytes text)) }
{
    STANDARD.encode(alloc, bytes)
}

/// The bytes that the text is the base64 of, or none where it is that of none.
///
/// # Errors
///
/// Want of memory.
pub fn decoded(alloc: Global, text: &str) -> Result<Option<Vec<u8>>, AllocError>
    ensures { IfOk result (λ bytes. (b : List ℕ)
        → (option_map (λ v. v.items) bytes ≡ Some b) ↔ IsBase64 b text.now) }
{
    match STANDARD.decode(alloc, text.as_bytes()) {
        Ok(bytes) => Ok(Some(bytes)),
        Err(DecodeAllocError::OutOfMemory) => Err(AllocError),
        Err(DecodeAllocError::DecodeError(_)) => Ok(None),
    }
}
