//! The texts of sealed values.

ghost use Rattle.std.specs.Prelude.{◌≡◌, ◌≤◌, ◌<◌, ◌-◌, ◌+◌, ◌↔◌, ◌⊎◌, ℕ, List, Vec, length, take, drop, Some};
ghost use Rattle.std.specs.Prelude.{MatchOption, IfOk, IfErr, IsErrOf, IsTrue};
ghost use Rattle.std.specs.List.{slice_range};
ghost use Rattle.std.specs.Option.{option_map};
ghost use Rattle.std.specs.Str.{IsUtf8};
ghost use Rattle.std.specs.String.{string_bytes};
ghost use Rattle.seal.specs.Gcm.{IsSealable};
ghost use Rattle.cookie.specs.Sealing as spec;
ghost use Rattle.cookie.specs.Trials.{AreSealed};

use super::encoding::{decoded, encoded};
use super::key::Key;
use super::private_error::PrivateError;
use rand_core::TryRng;
use seal::{is_opened_in_registers, open_in_registers, seal_in_registers};
use std::alloc::{AllocError, Global};

const NONCE_LEN: usize = 12;

const TAG_LEN: usize = 16;

/// Whether the standard allows a value and a name of these lengths to be sealed: values of at most
/// 2^36 - 32 bytes under names of less than 2^61.
pub fn is_sealable(name: &str, value: &str) -> bool
    ensures lengths { result ≡ spec.is_sealable name.now value.now }
    ensures sealable { IsTrue result ↔ IsSealable name.now value.now }
{
    seal::is_sealable(name.as_bytes(), value.as_bytes())
}

/// The twelve bytes of one fill of the generator, or none where the fill fails: a generator whose
/// error type has no value gives them each time.
pub fn nonce<R: TryRng>(rng: &mut R) -> Option<[u8; 12]>
    ensures { MatchOption result R.Error (λ nonce. R.may_fill rng.old nonce rng.new) }
{
    let mut nonce = [0; NONCE_LEN];
    match rng.try_fill_bytes(&mut nonce) {
        Ok(()) => Some(nonce),
        Err(_) => None,
    }
}

// Nonce, ciphertext and tag of the value.
fn sealed_bytes(
    alloc: Global,
    key: &Key,
    name: &str,
    value: &str,
    nonce: &[u8; 12],
) -> Result<Vec<u8>, AllocError>
    requires { IsSealable name.now value.now }
    ensures { IfOk result (λ bytes. spec.IsSealedAs key.now name.now value.now nonce.now bytes.items) }
{
    let mut bytes = Vec::with_capacity(alloc, NONCE_LEN + value.len() + TAG_LEN)?;
    bytes.extend_from_slice(nonce)?;
    bytes.extend_from_slice(value.as_bytes())?;
    let tag = seal_in_registers(
        key.encryption(),
        nonce,
        name.as_bytes(),
        &mut bytes[NONCE_LEN..],
    )
    .unwrap();
    bytes.extend_from_slice(&tag)?;
    Ok(bytes)
}

/// The sealing of `value` under the nonce: the base64 of nonce, ciphertext and tag of AES-256-GCM
/// (SP 800-38D) under the key's encryption half, with `name` as additional data.
///
/// # Errors
///
/// `TooLong` where name and value can't be sealed for their lengths, else `OutOfMemory`.
pub fn sealed_text(
    alloc: Global,
    key: &Key,
    name: &str,
    value: &str,
    nonce: &[u8; 12],
) -> Result<String, PrivateError>
    ensures ok { IfOk result (λ text.
        spec.IsSealingUnder key.now name.now value.now nonce.now (string_bytes text)) }
    ensures err { IfErr result (λ e. (e ≡ PrivateError.TooLong) ⊎ (e ≡ PrivateError.OutOfMemory)) }
    ensures too_long { IsErrOf result PrivateError.TooLong ↔ (¬ IsSealable name.now value.now) }
{
    if !is_sealable(name, value) {
        return Err(PrivateError::TooLong);
    }
    let bytes = sealed_bytes(alloc, key, name, value, nonce)?;
    let text = encoded(alloc, &bytes)?;
    Ok(text)
}

/// The sealing of `value`, as [`sealed_text`] gives it, under the nonce of one fill of the
/// generator.
///
/// # Errors
///
/// `TooLong` where name and value can't be sealed for their lengths, and the generator is then not
/// asked; else `Rng` where its fill fails, which it can only where the generator's error type has
/// a value; else `OutOfMemory`.
pub fn sealed_by<R: TryRng>(
    alloc: Global,
    key: &Key,
    name: &str,
    value: &str,
    rng: &mut R,
) -> Result<String, PrivateError>
    ensures ok { IfOk result (λ text. (nonce : List ℕ) × (length nonce ≡ 12) × R.may_fill rng.old nonce rng.new
        × spec.IsSealingUnder key.now name.now value.now nonce (string_bytes text)) }
    ensures too_long { IsErrOf result PrivateError.TooLong ↔ (¬ IsSealable name.now value.now) }
    ensures unasked { IsErrOf result PrivateError.TooLong → rng.new ≡ rng.old }
    ensures failed { IsErrOf result PrivateError.Rng → R.Error }
    ensures out_of_memory { IsErrOf result PrivateError.OutOfMemory
        → (nonce : List ℕ) × (length nonce ≡ 12) × R.may_fill rng.old nonce rng.new }
{
    if !is_sealable(name, value) {
        return Err(PrivateError::TooLong);
    }
    let Some(nonce) = nonce(rng) else {
        return Err(PrivateError::Rng);
    };
    sealed_text(alloc, key, name, value, &nonce)
}

// The nonce in front.
fn nonce_of(bytes: &[u8]) -> [u8; 12]
    requires { 12 ≤ length bytes.now }
    ensures { result ≡ take 12 bytes.now }
{
    *bytes.first_chunk::<NONCE_LEN>().unwrap()
}

// The tag at the end.
fn tag_of(bytes: &[u8]) -> [u8; 16]
    requires { 16 ≤ length bytes.now }
    ensures { result ≡ drop (length bytes.now - 16) bytes.now }
{
    *bytes.last_chunk::<TAG_LEN>().unwrap()
}

// What stands between nonce and tag.
fn without_ends(mut bytes: Vec<u8>) -> Vec<u8>
    requires { 28 ≤ length bytes.items }
    ensures { result.items ≡ slice_range bytes.items 12 (length bytes.items - 16) }
{
    let end = bytes.len() - TAG_LEN;
    bytes.copy_within(NONCE_LEN..end, 0);
    bytes.truncate(end - NONCE_LEN);
    bytes
}

// What the bytes are sealed from, in the memory that they take.
fn opened_bytes(key: &Key, name: &str, mut bytes: Vec<u8>) -> Option<Vec<u8>>
    ensures { (value : List ℕ) → (option_map (λ v. v.items) result ≡ Some value)
        ↔ ((nonce : List ℕ) × (length nonce ≡ 12) × spec.IsSealedAs key.now name.now value nonce bytes.items) }
{
    seal::laws::lengths();
    seal::laws::opening_is_the_converse();
    let encryption = key.encryption();
    if bytes.len() < NONCE_LEN + TAG_LEN {
        return None;
    }
    let nonce = nonce_of(&bytes);
    let tag = tag_of(&bytes);
    let end = bytes.len() - TAG_LEN;
    let text = &mut bytes[NONCE_LEN..end];
    match open_in_registers(encryption, &nonce, name.as_bytes(), text, &tag) {
        Ok(()) => Some(without_ends(bytes)),
        Err(_) => None,
    }
}

// The text that the bytes are sealed from.
fn opened_text(key: &Key, name: &str, bytes: Vec<u8>) -> Option<String>
    ensures { (value : List ℕ) → (option_map string_bytes result ≡ Some value)
        ↔ (IsUtf8 value × (nonce : List ℕ) × (length nonce ≡ 12)
        × spec.IsSealedAs key.now name.now value nonce bytes.items) }
{
    let Some(value) = opened_bytes(key, name, bytes) else {
        return None;
    };
    match String::from_utf8(value) {
        Ok(text) => Some(text),
        Err(_) => None,
    }
}

/// The value that `text` is a sealing of under this key and name, and none where it is no such
/// sealing under any nonce, or where the value isn't UTF-8.
///
/// # Errors
///
/// Want of memory.
pub fn opened_value(
    alloc: Global,
    key: &Key,
    name: &str,
    text: &str,
) -> Result<Option<String>, AllocError>
    ensures { IfOk result (λ opened. (value : List ℕ) → (option_map string_bytes opened ≡ Some value)
        ↔ (IsUtf8 value × spec.IsSealing key.now name.now value text.now)) }
{
    match decoded(alloc, text)? {
        Some(bytes) => Ok(opened_text(key, name, bytes)),
        None => Ok(None),
    }
}

/// Whether nonce, ciphertext and tag are sealed from some value under this key and name. Nothing is deciphered.
pub(super) fn is_sealed_under(key: &Key, name: &str, bytes: &[u8]) -> bool
    ensures { IsTrue result ↔ AreSealed name.now bytes.now key.now }
{
    seal::laws::lengths();
    let encryption = key.encryption();
    if bytes.len() < NONCE_LEN + TAG_LEN {
        return false;
    }
    let nonce = nonce_of(bytes);
    let tag = tag_of(bytes);
    let text = &bytes[NONCE_LEN..bytes.len() - TAG_LEN];
    is_opened_in_registers(encryption, &nonce, name.as_bytes(), text, &tag)
}
