//! The values of signed texts under a ring of keys.

ghost use Rattle.std.specs.Prelude.{◌≡◌};
ghost use Rattle.std.specs.Option.{option_map};
ghost use Rattle.cookie.specs.Signing.{signing};
ghost use Rattle.cookie.specs.KeyRing.{GivesUnder};

use super::key::Key;
use super::key_ring::KeyRing;
use super::signing::{CODE_LEN, is_code};
use super::trials::{Trial, first_place, verdicts};
use jiff::civil::DateTime;

// The two parts of a text that may be a signing.
#[derive(Drop)]
struct Signed<'t> {
    code: &'t [u8],
    value: &'t [u8],
}

impl<'t> Trial for Signed<'t> {
    ghost use Rattle.cookie.specs.Trials.{IsCode};

    ghost Opens = { λ t key. IsCode t.code.now t.value.now key };

    fn is_opened_by(&self, key: &Key) -> bool {
        is_code(key, self.code, self.value)
    }
}

/// The value that `text` is the signing of, a slice of it, under the first key of the ring that counts at the moment in
/// UTC and that it is a signing under, with the place of that key; none where there is no such key.
///
/// Each key that counts is tried, whatever the others do.
pub fn verified_by_ring<'t>(
    ring: &KeyRing,
    now: DateTime,
    text: &'t str,
) -> Option<(&'t str, usize)>
    ensures { GivesUnder (λ key value. text.now ≡ signing key value) now ring.now
        (option_map (λ r. (r.0.now, r.1)) result) }
{
    seal::laws::lengths();
    let Some((code, value)) = text.split_at_checked(CODE_LEN) else {
        return None;
    };
    let signed = Signed {
        code: code.as_bytes(),
        value: value.as_bytes(),
    };
    match first_place(&verdicts(ring, now, &signed)) {
        Some(place) => Some((value, place)),
        None => None,
    }
}
