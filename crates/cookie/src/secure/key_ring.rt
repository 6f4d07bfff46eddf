//! Keys that change: a current one, and earlier ones that are still read.

ghost use Rattle.std.specs.Prelude.{◌≡◌, ◌≤◌, ◌<◌, ◌+◌, ◌↔◌, ◌⊎◌, ◌∷◌, length, IfOk, IfErr, IsOk, IsErrOf, OnOk, OnErr};
ghost use Rattle.std.specs.Option.{option_copied};
ghost use Rattle.std.specs.List.{filter};
ghost use Rattle.cookie.specs.KeyRing as spec;

use super::key::Key;
use jiff::civil::DateTime;
use std::alloc::{AllocError, Global};
use std::marker::Model;
use thiserror::Error;

const MOST_EARLIER: usize = 16;

/// Why keys make no ring.
#[derive(Clone, Copy, Debug, PartialEq, Eq, Error)]
pub enum KeyRingError {
    /// There are over 16 earlier keys: this many.
    #[error("TooMany({0})")]
    TooMany(usize),
    /// There is no memory for them.
    #[error("OutOfMemory")]
    OutOfMemory,
}

impl From<AllocError> for KeyRingError {
    ghost use Rattle.cookie.specs.declared.secure.key_ring.KeyRingError.TheVariants.{OutOfMemory};

    ghost from_gives = { λ _ e. e ≡ OutOfMemory };

    fn from(_: AllocError) -> KeyRingError {
        KeyRingError::OutOfMemory
    }
}

/// A key that was the current one of a ring.
#[derive(Debug, Drop)]
pub struct EarlierKey {
    /// The key.
    pub key: Key,
    /// The moment in UTC from which it counts no more, and none where it counts at each.
    pub until: Option<DateTime>,
}

impl EarlierKey {
    /// Whether it counts at a moment in UTC: before its end.
    pub fn counts(&self, now: DateTime) -> bool
        ensures { result ≡ spec.counts now self.now }
    {
        match self.until {
            Some(until) => now < until,
            None => true,
        }
    }

    // The same.
    fn copied(&self) -> EarlierKey
        ensures { result ≡ self.now }
    {
        EarlierKey {
            key: self.key.copied(),
            until: self.until,
        }
    }
}

/// A current key and at most 16 earlier ones, in their order: the current one signs and seals, and what each of them
/// signed or sealed is read while it counts.
///
/// The place of a key is 0 for the current one, 1 for the first of the earlier ones.
///
/// ```
/// let mut ring = KeyRing::new(alloc, Key::generate(&mut rng));
/// ring.rotate(Key::generate(&mut rng), now, Some(next_week))?;
/// let read = jar.signed_ring(&ring, now).get_with_place("user")?;
/// ```
#[derive(Debug, Drop)]
pub struct KeyRing {
    alloc: Global,
    current: Key,
    earlier: Vec<EarlierKey>,
}

impl Model for KeyRing {
    ghost use Rattle.std.specs.Prelude.{◌≤◌, length};
    ghost use Rattle.cookie.specs.KeyRing.{Ring};

    ghost Value = { Ring };

    ghost view = { λ r. record { current = r.current; earlier = r.earlier.items } };

    ghost invariant = { λ r. length r.earlier.items ≤ 16 };
}

impl KeyRing {
    /// The ring of one key. No memory is taken.
    pub fn new(alloc: Global, current: Key) -> KeyRing
        ensures { result ≡ spec.alone current }
    {
        KeyRing {
            alloc,
            current,
            earlier: Vec::new(alloc),
        }
    }

    /// The ring of a current key and earlier ones, as they were kept elsewhere. No memory is taken.
    ///
    /// # Errors
    ///
    /// `TooMany` with the number of earlier keys where there are over 16.
    pub fn with_earlier(
        alloc: Global,
        current: Key,
        earlier: Vec<EarlierKey>,
    ) -> Result<KeyRing, KeyRingError>
        ensures accepted { IsOk result ↔ (length earlier.items ≤ 16) }
        ensures ring { IfOk result (λ ring. (ring.current ≡ current) × (ring.earlier ≡ earlier.items)) }
        ensures too_many { IfErr result (λ e. e ≡ KeyRingError.TooMany (length earlier.items)) }
    {
        if earlier.len() > MOST_EARLIER {
            return Err(KeyRingError::TooMany(earlier.len()));
        }
        Ok(KeyRing {
            alloc,
            current,
            earlier,
        })
    }

    /// Makes `new` the current key. The one that was becomes the first of the earlier ones, until `keep_until`; those
    /// that no longer count at `now` are dropped.
    ///
    /// # Errors
    ///
    /// `TooMany` with the number of earlier keys where over 16 would be left, else `OutOfMemory`. The ring is unchanged
    /// then.
    pub fn rotate(
        &mut self,
        new: Key,
        now: DateTime,
        keep_until: Option<DateTime>,
    ) -> Result<(), KeyRingError>
        ensures ok { OnOk result (self.new ≡ spec.rotated new now keep_until self.old) }
        ensures err { OnErr result (self.new ≡ self.old) }
        ensures too_many { IsErrOf result (KeyRingError.TooMany (length (spec.kept now keep_until self.old)))
            ↔ (16 < length (spec.kept now keep_until self.old)) }
        ensures causes { IfErr result (λ e. (e ≡ KeyRingError.OutOfMemory)
            ⊎ (e ≡ KeyRingError.TooMany (length (spec.kept now keep_until self.old)))) }
    {
        let last = EarlierKey {
            key: self.current.copied(),
            until: keep_until,
        };
        let count = count_kept(&last, &self.earlier, now);
        if count > MOST_EARLIER {
            return Err(KeyRingError::TooMany(count));
        }
        let earlier = kept(self.alloc, last, &self.earlier, now)?;
        self.current = new;
        self.earlier = earlier;
        Ok(())
    }

    /// The key that signs and seals.
    pub fn current(&self) -> &Key
        ensures { result.now ≡ self.now.current }
    {
        &self.current
    }

    /// The earlier keys, in their order, those that no longer count too.
    pub fn earlier(&self) -> &[EarlierKey]
        ensures keys { result.now ≡ self.now.earlier }
        ensures few { length result.now ≤ 16 }
    {
        &self.earlier
    }

    /// How many keys there are, those that no longer count too: their places are below it.
    pub fn places(&self) -> usize
        ensures places { result ≡ length self.now.earlier + 1 }
        ensures few { result ≤ 17 }
    {
        self.earlier.len() + 1
    }

    /// The key of a place, where it counts at the moment in UTC.
    pub fn key_at(&self, place: usize, now: DateTime) -> Option<&Key>
        ensures { option_copied result ≡ spec.key_at now self.now place }
    {
        if place == 0 {
            return Some(&self.current);
        }
        match self.earlier.get(place - 1) {
            Some(earlier) if earlier.counts(now) => Some(&earlier.key),
            _ => None,
        }
    }
}

// How many of them count at the moment.
fn count_kept(last: &EarlierKey, earlier: &[EarlierKey], now: DateTime) -> usize
    ensures { result ≡ length (filter (spec.counts now) (last.now ∷ earlier.now)) }
{
    let mut count = usize::from(last.counts(now));
    for it in earlier {
        if it.counts(now) {
            count += 1;
        }
    }
    count
}

// Those that count at the moment.
fn kept(
    alloc: Global,
    last: EarlierKey,
    earlier: &[EarlierKey],
    now: DateTime,
) -> Result<Vec<EarlierKey>, AllocError>
    ensures { IfOk result (λ kept. kept.items ≡ filter (spec.counts now) (last ∷ earlier.now)) }
{
    let mut kept = Vec::with_capacity(alloc, MOST_EARLIER)?;
    if last.counts(now) {
        kept.push(last)?;
    }
    for it in earlier {
        if it.counts(now) {
            kept.push(it.copied())?;
        }
    }
    Ok(kept)
}
