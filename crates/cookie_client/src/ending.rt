//! The texts of values that end at a moment.
//!
//! Such a text is `~` and the signing or the sealing of a date and the value, under a key that is derived of the
//! session's key and the cookie's name. So neither form reads the other's texts, a text reads under its name alone, and
//! none reads from its moment on.
ghost use Rattle.std.specs.Prelude.{◌≡◌, ◌∷◌, ◌↔◌, ◌⊎◌, ℕ, List, length, map, IfOk, IsErrOf, MatchOption, string_bytes};
ghost use Rattle.std.specs.Prelude.{IsTrue};
ghost use Rattle.std.specs.Option.{option_copied};
ghost use Rattle.jiff.specs.Words.{civil_nanos};
ghost use Rattle.cookie_client.specs.Ending as spec;
ghost use Rattle.cookie.specs.Signing.{signing};
ghost use Rattle.cookie.specs.Trials.{GivesValue};
ghost use Rattle.cookie_client.specs.Ending.{IsKeptUntil, IsReadBefore, IsSealedUntil, IsValueBefore};
ghost use Rattle.cookie_client.specs.Ending.{ReadsGiven, ReadsUntil};
ghost use Rattle.cookie_client.specs.Ending.{dated_text, placed};

use cookie::secure::{opened_by_ring, sealed_by, signed_text, verified_by_ring};
use cookie::{EarlierKey, Key, KeyRing, PrivateError};
use jiff::civil::DateTime;
use rand_core::TryRng;
use saved_text::laws::dates_are_of_one_moment;
use saved_text::{SavedDate, date_of};
use std::alloc::{AllocError, Global};

const LABEL: &[u8] = b"COOKIE;UNTIL:";

// The length of a date.
const STAMP_LEN: usize = 20;

// The most bytes that can be sealed, and of how many fewer than these a name may be (SP 800-38D, section 5.2.1.1).
const MOST_SEALED: usize = (1 << 36) - 32;

const NAME_LIMIT: usize = 1 << 61;

/// How a value that ends is kept.
#[derive(Clone, Copy, Debug, PartialEq, Eq)]
pub enum EndingWay {
    /// With its code before it.
    Signed,
    /// Encrypted.
    Sealed,
}

/// The key of the values that end under a name: derived as [`Key::derive_from`] does it, of `COOKIE;UNTIL:`, the key's
/// 64 bytes and the name.
///
/// # Errors
///
/// Want of memory.
pub fn ending_key(alloc: Global, key: &Key, name: &str) -> Result<Key, AllocError>
    ensures { IfOk result (λ derived. derived ≡ spec.ending_key key.now name.now) }
{
    let mut master = Vec::new(alloc);
    master.extend_from_slice(LABEL)?;
    master.extend_from_slice(key.master())?;
    master.extend_from_slice(name.as_bytes())?;
    Ok(Key::derive_from(&master))
}

// Each key of a ring as such a key.
fn ending_ring(alloc: Global, ring: &KeyRing, name: &str) -> Result<KeyRing, AllocError>
    ensures { IfOk result (λ derived. derived ≡ spec.ending_ring name.now ring.now) }
{
    let current = ending_key(alloc, ring.current(), name)?;
    let earlier = ending_keys(alloc, ring.earlier(), name)?;
    Ok(KeyRing::with_earlier(alloc, current, earlier).unwrap())
}

// Each of the earlier keys as such a key, with the same end.
fn ending_keys(
    alloc: Global,
    earlier: &[EarlierKey],
    name: &str,
) -> Result<Vec<EarlierKey>, AllocError>
    ensures { IfOk result (λ keys. keys.items ≡ map (spec.ending_earlier name.now) earlier.now) }
{
    let mut keys = Vec::new(alloc);
    for it in earlier {
        keys.push(ending_earlier(alloc, it, name)?)?;
    }
    Ok(keys)
}

fn ending_earlier(alloc: Global, earlier: &EarlierKey, name: &str) -> Result<EarlierKey, AllocError>
    ensures { IfOk result (λ derived. derived ≡ spec.ending_earlier name.now earlier.now) }
{
    let key = ending_key(alloc, &earlier.key, name)?;
    Ok(EarlierKey {
        key,
        until: earlier.until,
    })
}

/// The text of a value until a moment of the years 0 to 9999 in UTC, signed under a name: `~`, and then, as
/// [`signed_text`] gives it under the [`ending_key`], the code of date and value, the date in the form
/// `2026-11-28T12:00:00Z` without a fraction of a second, and the value.
///
/// # Errors
///
/// Want of memory.
pub fn signed_until(
    alloc: Global,
    key: &Key,
    name: &str,
    value: &str,
    until: DateTime,
) -> Result<String, AllocError>
    ensures { IfOk result (λ text. string_bytes text ≡ spec.signed_until key.now name.now value.now until) }
{
    let dated = dated(alloc, until, value)?;
    let key = ending_key(alloc, key, name)?;
    marked(alloc, &signed_text(alloc, &key, &dated)?)
}

/// Whether a value until a moment can be sealed under a name, for their lengths: values of at most 2^36 - 52 bytes
/// under names of less than 2^61.
pub fn is_sealable_until(name: &str, value: &str) -> bool
    ensures { result ≡ spec.is_sealable_until name.now value.now }
{
    value.len() <= MOST_SEALED - STAMP_LEN && name.len() < NAME_LIMIT
}

/// The text of a value until a moment of the years 0 to 9999 in UTC, sealed under a name: `~`, and then, as
/// [`sealed_by`] gives it under the [`ending_key`] and the name, the sealing of date and value, the date as in
/// [`signed_until`].
///
/// # Errors
///
/// `TooLong` where name and value can't be sealed for their lengths, and the generator is then not asked; else `Rng`
/// where its fill fails, which it can only where the generator's error type has a value; else `OutOfMemory`, before its
/// fill or behind it.
pub fn sealed_until<R: TryRng>(
    alloc: Global,
    key: &Key,
    name: &str,
    value: &str,
    until: DateTime,
    rng: &mut R,
) -> Result<String, PrivateError>
    ensures ok { IfOk result (λ text. (nonce : List ℕ) × (length nonce ≡ 12) × R.may_fill rng.old nonce rng.new
        × IsSealedUntil key.now name.now value.now until nonce (string_bytes text)) }
    ensures too_long { IsErrOf result PrivateError.TooLong ↔ (¬ IsTrue (spec.is_sealable_until name.now value.now)) }
    ensures unasked { IsErrOf result PrivateError.TooLong → rng.new ≡ rng.old }
    ensures failed { IsErrOf result PrivateError.Rng → R.Error }
    ensures out_of_memory { IsErrOf result PrivateError.OutOfMemory → (rng.new ≡ rng.old)
        ⊎ ((nonce : List ℕ) × (length nonce ≡ 12) × R.may_fill rng.old nonce rng.new) }
{
    if !is_sealable_until(name, value) {
        return Err(PrivateError::TooLong);
    }
    let dated = dated(alloc, until, value)?;
    let key = ending_key(alloc, key, name)?;
    let sealed = sealed_by(alloc, &key, name, &dated, rng)?;
    Ok(marked(alloc, &sealed)?)
}

/// The value that a text stands for under a name by [`EndingWay::Signed`], where the moment, in UTC, is before its end,
/// with the place of the first key of the ring that counts and that signed it; none where there is no such key, and
/// from its end on.
///
/// Each key that counts is tried, whatever the others do.
///
/// # Errors
///
/// Want of memory.
pub fn verified_until(
    alloc: Global,
    ring: &KeyRing,
    now: DateTime,
    name: &str,
    text: &str,
) -> Result<Option<(String, usize)>, AllocError>
    ensures { IfOk result (λ read. ReadsUntil EndingWay.Signed now ring.now name.now text.now (placed read)) }
{
    let Some(rest) = text.strip_prefix('~') else {
        return Ok(None);
    };
    let ring = ending_ring(alloc, ring, name)?;
    read_signed(alloc, &ring, now, rest)
}

// What a ring reads of the signing of a dated text.
fn read_signed(
    alloc: Global,
    ring: &KeyRing,
    now: DateTime,
    text: &str,
) -> Result<Option<(String, usize)>, AllocError>
    ensures { IfOk result (λ read.
        ReadsGiven (λ key dated. text.now ≡ signing key dated) now ring.now (placed read)) }
{
    match verified_by_ring(ring, now, text) {
        Some((dated, place)) => read_before(alloc, now, dated, place),
        None => Ok(None),
    }
}

/// The value that a text stands for under a name by [`EndingWay::Sealed`], where the moment, in UTC, is before its end,
/// with the place of the first key of the ring that counts and that sealed it; none where there is no such key, and
/// from its end on.
///
/// Each key that counts is tried, whatever the others do, and the text is deciphered when all were.
///
/// # Errors
///
/// Want of memory.
pub fn opened_until(
    alloc: Global,
    ring: &KeyRing,
    now: DateTime,
    name: &str,
    text: &str,
) -> Result<Option<(String, usize)>, AllocError>
    ensures { IfOk result (λ read. ReadsUntil EndingWay.Sealed now ring.now name.now text.now (placed read)) }
{
    let Some(rest) = text.strip_prefix('~') else {
        return Ok(None);
    };
    let ring = ending_ring(alloc, ring, name)?;
    read_sealed(alloc, &ring, now, name, rest)
}

// What a ring reads of a sealing of a dated text.
fn read_sealed(
    alloc: Global,
    ring: &KeyRing,
    now: DateTime,
    name: &str,
    text: &str,
) -> Result<Option<(String, usize)>, AllocError>
    ensures { IfOk result (λ read. ReadsGiven (GivesValue name.now text.now) now ring.now (placed read)) }
{
    match opened_by_ring(alloc, ring, now, name, text)? {
        Some((dated, place)) => read_before(alloc, now, &dated, place),
        None => Ok(None),
    }
}

/// The text of a value until a moment under a name, in a way, as [`signed_until`] and [`sealed_until`] give it.
///
/// # Errors
///
/// Those of [`sealed_until`] by `Sealed`, and `OutOfMemory` by `Signed`, which leaves the generator alone.
pub fn text_until<R: TryRng>(
    alloc: Global,
    key: &Key,
    way: EndingWay,
    name: &str,
    value: &str,
    until: DateTime,
    rng: &mut R,
) -> Result<String, PrivateError>
    ensures ok { IfOk result (λ text. IsKeptUntil (λ nonce. R.may_fill rng.old nonce rng.new) way key.now name.now
        value.now until (string_bytes text)) }
    ensures too_long { IsErrOf result PrivateError.TooLong
        ↔ ((way ≡ EndingWay.Sealed) × (¬ IsTrue (spec.is_sealable_until name.now value.now))) }
    ensures unasked { (way ≡ EndingWay.Signed) ⊎ IsErrOf result PrivateError.TooLong → rng.new ≡ rng.old }
    ensures failed { IsErrOf result PrivateError.Rng → (way ≡ EndingWay.Sealed) × R.Error }
    ensures out_of_memory { IsErrOf result PrivateError.OutOfMemory → (rng.new ≡ rng.old)
        ⊎ ((nonce : List ℕ) × (length nonce ≡ 12) × R.may_fill rng.old nonce rng.new) }
{
    match way {
        EndingWay::Signed => Ok(signed_until(alloc, key, name, value, until)?),
        EndingWay::Sealed => sealed_until(alloc, key, name, value, until, rng),
    }
}

/// The value that a text stands for under a name in a way, with the place of the key, as [`verified_until`] and
/// [`opened_until`] read it.
///
/// # Errors
///
/// Want of memory.
pub fn read_until(
    alloc: Global,
    ring: &KeyRing,
    now: DateTime,
    way: EndingWay,
    name: &str,
    text: &str,
) -> Result<Option<(String, usize)>, AllocError>
    ensures { IfOk result (λ read. ReadsUntil way now ring.now name.now text.now (placed read)) }
{
    match way {
        EndingWay::Signed => verified_until(alloc, ring, now, name, text),
        EndingWay::Sealed => opened_until(alloc, ring, now, name, text),
    }
}

// What is read at a moment of a dated text that the key of a place gives.
fn read_before(
    alloc: Global,
    now: DateTime,
    dated: &str,
    place: usize,
) -> Result<Option<(String, usize)>, AllocError>
    ensures { IfOk result (λ read. IsReadBefore (civil_nanos now) dated.now place (placed read)) }
{
    match value_before(now, dated) {
        Some(value) => Ok(Some((String::from_str(alloc, value)?, place))),
        None => Ok(None),
    }
}

// The value of a dated text whose end is behind the moment.
fn value_before(now: DateTime, dated: &str) -> Option<&str>
    ensures { MatchOption result ((value : List ℕ) → ¬ (IsValueBefore (civil_nanos now) dated.now value))
        (λ value. IsValueBefore (civil_nanos now) dated.now value.now) }
{
    dates_are_of_one_moment();
    let Some((stamp, value)) = dated.split_at_checked(STAMP_LEN) else {
        return None;
    };
    match date_of(stamp) {
        Some(end) if now < end => Some(value),
        _ => None,
    }
}

// Date and value.
fn dated(alloc: Global, until: DateTime, value: &str) -> Result<String, AllocError>
    ensures { IfOk result (λ text. string_bytes text ≡ dated_text until value.now) }
{
    let mut text = SavedDate(until).to_string(alloc)?;
    text.push_str(value)?;
    Ok(text)
}

// The text behind the mark.
fn marked(alloc: Global, text: &str) -> Result<String, AllocError>
    ensures { IfOk result (λ marked. string_bytes marked ≡ spec.mark ∷ text.now) }
{
    let mut marked = String::from_str(alloc, "~")?;
    marked.push_str(text)?;
    Ok(marked)
}
