//! Which keys of a ring open a text: each that counts is tried, and the choice is made when all were.

ghost use Rattle.std.specs.Prelude.{◌<◌, ◌↔◌, ℕ, List, IsTrue, MatchOption};
ghost use Rattle.cookie.specs.Trials as spec;

use super::key::Key;
use super::key_ring::KeyRing;
use jiff::civil::DateTime;

/// How many places a ring has at most.
pub(super) const PLACES: usize = 17;

/// A text that keys are tried on.
pub(super) trait Trial {
    ghost Opens: { Self → List ℕ → Type 0 };

    /// Whether the key opens it, in a time that doesn't tell.
    fn is_opened_by(&self, key: &Key) -> bool
        ensures { IsTrue result ↔ Opens self.now key.now };
}

/// For each place whether its key counts and opens the text. Each key that counts is tried, whatever the others do.
pub(super) fn verdicts<T: Trial>(ring: &KeyRing, now: DateTime, trial: &T) -> [bool; PLACES]
    ensures { spec.AreVerdicts (T.Opens trial.now) now ring.now result }
{
    let mut verdicts = [false; PLACES];
    for place in 0..ring.places() {
        if let Some(key) = ring.key_at(place, now) {
            verdicts[place] = trial.is_opened_by(key);
        }
    }
    verdicts
}

/// The first place whose verdict is true. All are looked at.
pub(super) fn first_place(verdicts: &[bool; PLACES]) -> Option<usize>
    ensures { MatchOption result ((p : ℕ) → p < 17 → ¬ (spec.IsYes verdicts.now p))
        (λ place. (place < 17) × spec.IsYes verdicts.now place
        × ((p : ℕ) → p < place → ¬ (spec.IsYes verdicts.now p))) }
{
    let mut first = None;
    for place in 0..PLACES {
        if verdicts[place] && first.is_none() {
            first = Some(place);
        }
    }
    first
}
