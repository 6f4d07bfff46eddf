//! Child jars that seal values by the current key of a ring, and read what each of its keys sealed.

ghost use Rattle.std.specs.Prelude.{◌≡◌, ◌↔◌, ℕ, List, length, None, IsOk, IfOk, OnOk, OnErr, IsErrOf};
ghost use Rattle.std.specs.FinMap as finmap;
ghost use Rattle.seal.specs.Gcm.{IsSealable};
ghost use Rattle.cookie_text.specs.Record.{Seen};
ghost use Rattle.cookie.specs.KeyRing.{IsFoundUnder, IsReadUnder, ReadsFoundUnder, ReadsUnder};
ghost use Rattle.cookie.specs.Reading.{IsSealed};
ghost use Rattle.cookie.specs.Sealing.{SealsAs};
ghost use Rattle.cookie.specs.Jar as spec;

use super::key_ring::KeyRing;
use super::placed::without_place;
use super::private_error::PrivateError;
use super::private_jar::sealed;
use super::ring_sealing::opened_by_ring;
use crate::jar::CookieJar;
use cookie_text::Cookie;
use jiff::civil::DateTime;
use rand_core::TryRng;
use std::alloc::AllocError;

impl CookieJar {
    ghost use Rattle.cookie.specs.PrivateRingJars.{borrow_of, jar_read, jar_written, moment_of, ring_of};
    ghost use Rattle.cookie.specs.PrivateRingJars.{written_moment, written_ring};

    /// A child jar that reads the cookies which a key of the ring sealed, as those count at a moment in UTC.
    pub fn private_ring<'a>(&'a self, ring: &'a KeyRing, now: DateTime) -> PrivateRingJar<'a>
        ensures jar { jar_read result ≡ self.now }
        ensures ring { ring_of result ≡ ring.now }
        ensures moment { moment_of result ≡ now }
    {
        PrivateRingJar {
            parent: self,
            ring,
            moment: now,
        }
    }

    /// A child jar that reads the cookies which a key of the ring sealed, as those count at a moment in UTC, and seals
    /// those that it adds by the current key.
    pub fn private_ring_mut<'a>(
        &'a mut self,
        ring: &'a KeyRing,
        now: DateTime,
    ) -> PrivateRingJarMut<'a>
        ensures same_reference { borrow_of result ≡ self.entry.ghost_name }
        ensures jar { jar_written result ≡ self.old }
        ensures ring { written_ring result ≡ ring.now }
        ensures moment { written_moment result ≡ now }
    {
        PrivateRingJarMut {
            parent: self,
            ring,
            moment: now,
        }
    }
}

/// The cookies of a jar that a key of a ring sealed, to read.
#[derive(Drop)]
pub struct PrivateRingJar<'a> {
    parent: &'a CookieJar,
    ring: &'a KeyRing,
    moment: DateTime,
}

impl<'a> PrivateRingJar<'a> {
    ghost use Rattle.cookie.specs.PrivateRingJars.{jar_read, moment_of, ring_of};

    /// The cookie with the value, in UTF-8, that its own is a sealing of under the cookie's name and any nonce, by the
    /// first key of the ring that counts and by which it is such a sealing; none where there is no such key.
    ///
    /// # Errors
    ///
    /// Want of memory.
    pub fn decrypt(&self, cookie: Cookie<'static>) -> Result<Option<Cookie<'static>>, AllocError>
        ensures { IfOk result (λ read.
            IsReadUnder IsSealed (moment_of self.now) (ring_of self.now) cookie.entry read) }
    {
        let read = opened(self.parent, self.ring, self.moment, cookie)?;
        Ok(without_place(read))
    }

    /// A copy of the jar's cookie of this name as [`PrivateRingJar::decrypt`] reads it.
    ///
    /// # Errors
    ///
    /// Want of memory.
    pub fn get(&self, name: &str) -> Result<Option<Cookie<'static>>, AllocError>
        ensures { IfOk result (λ read. IsFoundUnder IsSealed (moment_of self.now) (ring_of self.now)
            (spec.view (jar_read self.now) name.now) read) }
    {
        let read = found(self.parent, self.ring, self.moment, name)?;
        Ok(without_place(read))
    }

    /// The same with the place of the key in the ring: where that isn't 0, a site can set the value anew, under the
    /// current key.
    ///
    /// # Errors
    ///
    /// Want of memory.
    pub fn get_with_place(&self, name: &str) -> Result<Option<(Cookie<'static>, usize)>, AllocError>
        ensures { IfOk result (λ read. ReadsFoundUnder IsSealed (moment_of self.now) (ring_of self.now)
            (spec.view (jar_read self.now) name.now) read) }
    {
        found(self.parent, self.ring, self.moment, name)
    }
}

/// The cookies of a jar that a ring of keys seals, to read and write.
#[derive(Drop)]
pub struct PrivateRingJarMut<'a> {
    parent: &'a mut CookieJar,
    ring: &'a KeyRing,
    moment: DateTime,
}

impl<'a> PrivateRingJarMut<'a> {
    ghost use Rattle.cookie.specs.PrivateRingJars.{KeepsParts, jar_written, written_moment, written_ring};

    /// The cookie with the value, in UTF-8, that its own is a sealing of under the cookie's name and any nonce, by the
    /// first key of the ring that counts and by which it is such a sealing; none where there is no such key.
    ///
    /// # Errors
    ///
    /// Want of memory.
    pub fn decrypt(&self, cookie: Cookie<'static>) -> Result<Option<Cookie<'static>>, AllocError>
        ensures { IfOk result (λ read.
            IsReadUnder IsSealed (written_moment self.now) (written_ring self.now) cookie.entry read) }
    {
        let read = opened(self.parent, self.ring, self.moment, cookie)?;
        Ok(without_place(read))
    }

    /// A copy of the jar's cookie of this name as [`PrivateRingJarMut::decrypt`] reads it.
    ///
    /// # Errors
    ///
    /// Want of memory.
    pub fn get(&self, name: &str) -> Result<Option<Cookie<'static>>, AllocError>
        ensures { IfOk result (λ read. IsFoundUnder IsSealed (written_moment self.now) (written_ring self.now)
            (spec.view (jar_written self.now) name.now) read) }
    {
        let read = found(self.parent, self.ring, self.moment, name)?;
        Ok(without_place(read))
    }

    /// The same with the place of the key in the ring.
    ///
    /// # Errors
    ///
    /// Want of memory.
    pub fn get_with_place(&self, name: &str) -> Result<Option<(Cookie<'static>, usize)>, AllocError>
        ensures { IfOk result (λ read. ReadsFoundUnder IsSealed (written_moment self.now) (written_ring self.now)
            (spec.view (jar_written self.now) name.now) read) }
    {
        found(self.parent, self.ring, self.moment, name)
    }

    /// Adds the cookie to the jar's delta, with a sealing of its value by the current key in the
    /// value's place: the one under the nonce of twelve bytes that one fill of the generator gives.
    ///
    /// # Errors
    ///
    /// `TooLong` where name and value can't be sealed for their lengths, and the generator is then
    /// not asked; else `Rng` where its fill fails, which it can only where the generator's error type
    /// has a value; else `OutOfMemory`. The jar is unchanged then.
    pub fn add<R: TryRng>(
        &mut self,
        cookie: Cookie<'static>,
        rng: &mut R,
    ) -> Result<(), PrivateError>
        ensures same { KeepsParts self.old self.new }
        ensures ok { OnOk result ((nonce : List ℕ) × (stored : Seen)
            × R.may_fill rng.old nonce rng.new
            × SealsAs (written_ring self.old).current nonce cookie.entry stored
            × (jar_written self.new ≡ spec.with_added (jar_written self.old) stored)) }
        ensures err { OnErr result (jar_written self.new ≡ jar_written self.old) }
        ensures too_long { IsErrOf result PrivateError.TooLong
            ↔ (¬ (IsSealable cookie.entry.cookie.name cookie.entry.cookie.value)) }
        ensures asked { (IsErrOf result PrivateError.TooLong → rng.new ≡ rng.old)
            × (IsErrOf result PrivateError.OutOfMemory
            → (nonce : List ℕ) × (length nonce ≡ 12) × R.may_fill rng.old nonce rng.new) }
        ensures failed { IsErrOf result PrivateError.Rng → R.Error }
    {
        let cookie = sealed(self.parent.alloc(), self.ring.current(), cookie, rng)?;
        self.parent.add(cookie)?;
        Ok(())
    }

    /// Adds the cookie to the jar's originals, with a sealing of its value by the current key in the
    /// value's place: the one under the nonce of twelve bytes that one fill of the generator gives.
    ///
    /// # Errors
    ///
    /// `TooLong` where name and value can't be sealed for their lengths, and the generator is then
    /// not asked; else `Rng` where its fill fails, which it can only where the generator's error type
    /// has a value; else `OutOfMemory`. The jar is unchanged then.
    pub fn add_original<R: TryRng>(
        &mut self,
        cookie: Cookie<'static>,
        rng: &mut R,
    ) -> Result<(), PrivateError>
        ensures same { KeepsParts self.old self.new }
        ensures ok { OnOk result ((nonce : List ℕ) × (stored : Seen)
            × R.may_fill rng.old nonce rng.new
            × SealsAs (written_ring self.old).current nonce cookie.entry stored
            × (jar_written self.new ≡ spec.with_original (jar_written self.old) stored)) }
        ensures err { OnErr result (jar_written self.new ≡ jar_written self.old) }
        ensures too_long { IsErrOf result PrivateError.TooLong
            ↔ (¬ (IsSealable cookie.entry.cookie.name cookie.entry.cookie.value)) }
        ensures asked { (IsErrOf result PrivateError.TooLong → rng.new ≡ rng.old)
            × (IsErrOf result PrivateError.OutOfMemory
            → (nonce : List ℕ) × (length nonce ≡ 12) × R.may_fill rng.old nonce rng.new) }
        ensures failed { IsErrOf result PrivateError.Rng → R.Error }
    {
        let cookie = sealed(self.parent.alloc(), self.ring.current(), cookie, rng)?;
        self.parent.add_original(cookie)?;
        Ok(())
    }

    /// Removes the jar's cookie of this cookie's name, as [`CookieJar::remove`] does.
    ///
    /// # Errors
    ///
    /// Want of memory, and only where an original has the name. The jar is unchanged then.
    pub fn remove(&mut self, cookie: Cookie<'static>, now: DateTime) -> Result<(), AllocError>
        ensures same { KeepsParts self.old self.new }
        ensures ok { OnOk result
            (spec.Removes (jar_written self.old) cookie.entry now (jar_written self.new)) }
        ensures err { OnErr result (jar_written self.new ≡ jar_written self.old) }
        ensures succeeds { finmap.get (jar_written self.old).originals cookie.entry.cookie.name ≡ None
            → IsOk result }
    {
        self.parent.remove(cookie, now)
    }
}

// The cookie with the value that its own is a sealing of, and the place of the key.
fn opened(
    jar: &CookieJar,
    ring: &KeyRing,
    now: DateTime,
    cookie: Cookie<'static>,
) -> Result<Option<(Cookie<'static>, usize)>, AllocError>
    ensures { IfOk result (λ read. ReadsUnder IsSealed now ring.now cookie.entry read) }
{
    let mut cookie = cookie;
    match opened_by_ring(jar.alloc(), ring, now, cookie.name(), cookie.value())? {
        Some((value, place)) => {
            cookie.set_value_owned(value);
            Ok(Some((cookie, place)))
        }
        None => Ok(None),
    }
}

// A copy of the jar's cookie of the name, as it is opened.
fn found(
    jar: &CookieJar,
    ring: &KeyRing,
    now: DateTime,
    name: &str,
) -> Result<Option<(Cookie<'static>, usize)>, AllocError>
    ensures { IfOk result (λ read. ReadsFoundUnder IsSealed now ring.now (spec.view jar.now name.now) read) }
{
    match jar.get(name) {
        Some(cookie) => opened(jar, ring, now, cookie.clone(jar.alloc())?),
        None => Ok(None),
    }
}
