//! The values of sealed texts under a ring of keys.

ghost use Rattle.std.specs.Prelude.{◌≡◌, ◌+◌, ℕ, List, Some, IfOk, MatchOption};
ghost use Rattle.std.specs.String.{string_bytes};
ghost use Rattle.cookie.specs.KeyRing.{GivesUnder};
ghost use Rattle.cookie.specs.KeyRing as spec;
ghost use Rattle.cookie.specs.Trials.{GivesBelow, GivesValue, told};

use super::encoding::decoded;
use super::key::Key;
use super::key_ring::KeyRing;
use super::sealing::{is_sealed_under, opened_value};
use super::trials::{PLACES, Trial, verdicts};
use jiff::civil::DateTime;
use std::alloc::{AllocError, Global};

// The bytes of a text that may be a sealing under the name.
#[derive(Drop)]
struct Sealed<'t> {
    name: &'t str,
    bytes: &'t [u8],
}

impl<'t> Trial for Sealed<'t> {
    ghost use Rattle.cookie.specs.Trials.{AreSealed};

    ghost Opens = { λ t key. AreSealed t.name.now t.bytes.now key };

    fn is_opened_by(&self, key: &Key) -> bool {
        is_sealed_under(key, self.name, self.bytes)
    }
}

/// The value that `text` is a sealing of under the name, under the first key of the ring that counts at the moment in
/// UTC and under which it is a sealing of UTF-8, with the place of that key; none where there is no such key.
///
/// Each key that counts is tried, whatever the others do, and the text is deciphered when all were.
///
/// # Errors
///
/// Want of memory.
pub fn opened_by_ring(
    alloc: Global,
    ring: &KeyRing,
    now: DateTime,
    name: &str,
    text: &str,
) -> Result<Option<(String, usize)>, AllocError>
    ensures { IfOk result (λ opened. GivesUnder (GivesValue name.now text.now) now ring.now
        (told opened)) }
{
    let Some(bytes) = decoded(alloc, text)? else {
        return Ok(None);
    };
    let verdicts = verdicts(
        ring,
        now,
        &Sealed {
            name,
            bytes: &bytes,
        },
    );
    let mut opened = None;
    for place in 0..PLACES {
        if verdicts[place] {
            opened = or_opened_at(opened, alloc, ring, place, now, name, text)?;
        }
    }
    Ok(opened)
}

// What was opened before, else the value that the key of a place opens, where it counts.
fn or_opened_at(
    before: Option<(String, usize)>,
    alloc: Global,
    ring: &KeyRing,
    place: usize,
    now: DateTime,
    name: &str,
    text: &str,
) -> Result<Option<(String, usize)>, AllocError>
    ensures { IfOk result (λ opened. GivesBelow (GivesValue name.now text.now) now ring.now place (told before)
        → GivesBelow (GivesValue name.now text.now) now ring.now (place + 1) (told opened)) }
{
    match before {
        Some(opened) => Ok(Some(opened)),
        None => opened_at(alloc, ring, place, now, name, text),
    }
}

// The value that the key of a place opens, where it counts.
fn opened_at(
    alloc: Global,
    ring: &KeyRing,
    place: usize,
    now: DateTime,
    name: &str,
    text: &str,
) -> Result<Option<(String, usize)>, AllocError>
    ensures { IfOk result (λ opened. MatchOption opened
        ((key value : List ℕ) → spec.key_at now ring.now place ≡ Some key → ¬ (GivesValue name.now text.now key value))
        (λ o. (o.1 ≡ place) × (key : List ℕ) × (spec.key_at now ring.now place ≡ Some key)
        × GivesValue name.now text.now key (string_bytes o.0))) }
{
    let Some(key) = ring.key_at(place, now) else {
        return Ok(None);
    };
    match opened_value(alloc, key, name, text)? {
        Some(value) => Ok(Some((value, place))),
        None => Ok(None),
    }
}
