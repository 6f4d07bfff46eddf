//! Child jars that sign values by the current key of a ring, and read what each of its keys signed.

ghost use Rattle.std.specs.Prelude.{◌≡◌, None, IsOk, IfOk, OnOk, OnErr};
ghost use Rattle.std.specs.FinMap as finmap;
ghost use Rattle.cookie_text.specs.Setting.{with_value};
ghost use Rattle.cookie.specs.KeyRing.{IsFoundUnder, IsReadUnder, ReadsFoundUnder, ReadsUnder};
ghost use Rattle.cookie.specs.Reading.{IsSigned};
ghost use Rattle.cookie.specs.Signing.{signing};
ghost use Rattle.cookie.specs.Jar as spec;

use super::key_ring::KeyRing;
use super::placed::without_place;
use super::ring_signing::verified_by_ring;
use super::signed_jar::signed;
use crate::jar::CookieJar;
use cookie_text::Cookie;
use jiff::civil::DateTime;
use std::alloc::AllocError;

impl CookieJar {
    ghost use Rattle.cookie.specs.SignedRingJars.{borrow_of, jar_read, jar_written, moment_of, ring_of};
    ghost use Rattle.cookie.specs.SignedRingJars.{written_moment, written_ring};

    /// A child jar that reads the cookies which a key of the ring signed, as those count at a moment in UTC.
    pub fn signed_ring<'a>(&'a self, ring: &'a KeyRing, now: DateTime) -> SignedRingJar<'a>
        ensures jar { jar_read result ≡ self.now }
        ensures ring { ring_of result ≡ ring.now }
        ensures moment { moment_of result ≡ now }
    {
        SignedRingJar {
            parent: self,
            ring,
            moment: now,
        }
    }

    /// A child jar that reads the cookies which a key of the ring signed, as those count at a moment in UTC, and signs
    /// those that it adds by the current key.
    pub fn signed_ring_mut<'a>(
        &'a mut self,
        ring: &'a KeyRing,
        now: DateTime,
    ) -> SignedRingJarMut<'a>
        ensures same_reference { borrow_of result ≡ self.entry.ghost_name }
        ensures jar { jar_written result ≡ self.old }
        ensures ring { written_ring result ≡ ring.now }
        ensures moment { written_moment result ≡ now }
    {
        SignedRingJarMut {
            parent: self,
            ring,
            moment: now,
        }
    }
}

/// The cookies of a jar that a key of a ring signed, to read.
#[derive(Drop)]
pub struct SignedRingJar<'a> {
    parent: &'a CookieJar,
    ring: &'a KeyRing,
    moment: DateTime,
}

impl<'a> SignedRingJar<'a> {
    ghost use Rattle.cookie.specs.SignedRingJars.{jar_read, moment_of, ring_of};

    /// The cookie with the value that its own is the signing of, under the first key of the ring that counts and that
    /// it is a signing under; none where there is no such key.
    ///
    /// # Errors
    ///
    /// Want of memory.
    pub fn verify(&self, cookie: Cookie<'static>) -> Result<Option<Cookie<'static>>, AllocError>
        ensures { IfOk result (λ read.
            IsReadUnder IsSigned (moment_of self.now) (ring_of self.now) cookie.entry read) }
    {
        let read = verified(self.parent, self.ring, self.moment, cookie)?;
        Ok(without_place(read))
    }

    /// A copy of the jar's cookie of this name as [`SignedRingJar::verify`] reads it.
    ///
    /// # Errors
    ///
    /// Want of memory.
    pub fn get(&self, name: &str) -> Result<Option<Cookie<'static>>, AllocError>
        ensures { IfOk result (λ read. IsFoundUnder IsSigned (moment_of self.now) (ring_of self.now)
            (spec.view (jar_read self.now) name.now) read) }
    {
        let read = found(self.parent, self.ring, self.moment, name)?;
        Ok(without_place(read))
    }

    /// The same with the place of the key in the ring: where that isn't 0, a site can set the value anew, under the
    /// current key.
    ///
    /// # Errors
    ///
    /// Want of memory.
    pub fn get_with_place(&self, name: &str) -> Result<Option<(Cookie<'static>, usize)>, AllocError>
        ensures { IfOk result (λ read. ReadsFoundUnder IsSigned (moment_of self.now) (ring_of self.now)
            (spec.view (jar_read self.now) name.now) read) }
    {
        found(self.parent, self.ring, self.moment, name)
    }
}

/// The cookies of a jar that a ring of keys signs, to read and write.
#[derive(Drop)]
pub struct SignedRingJarMut<'a> {
    parent: &'a mut CookieJar,
    ring: &'a KeyRing,
    moment: DateTime,
}

impl<'a> SignedRingJarMut<'a> {
    ghost use Rattle.cookie.specs.SignedRingJars.{KeepsParts, jar_written, written_moment, written_ring};

    /// The cookie with the value that its own is the signing of, under the first key of the ring that counts and that
    /// it is a signing under; none where there is no such key.
    ///
    /// # Errors
    ///
    /// Want of memory.
    pub fn verify(&self, cookie: Cookie<'static>) -> Result<Option<Cookie<'static>>, AllocError>
        ensures { IfOk result (λ read.
            IsReadUnder IsSigned (written_moment self.now) (written_ring self.now) cookie.entry read) }
    {
        let read = verified(self.parent, self.ring, self.moment, cookie)?;
        Ok(without_place(read))
    }

    /// A copy of the jar's cookie of this name as [`SignedRingJarMut::verify`] reads it.
    ///
    /// # Errors
    ///
    /// Want of memory.
    pub fn get(&self, name: &str) -> Result<Option<Cookie<'static>>, AllocError>
        ensures { IfOk result (λ read. IsFoundUnder IsSigned (written_moment self.now) (written_ring self.now)
            (spec.view (jar_written self.now) name.now) read) }
    {
        let read = found(self.parent, self.ring, self.moment, name)?;
        Ok(without_place(read))
    }

    /// The same with the place of the key in the ring.
    ///
    /// # Errors
    ///
    /// Want of memory.
    pub fn get_with_place(&self, name: &str) -> Result<Option<(Cookie<'static>, usize)>, AllocError>
        ensures { IfOk result (λ read. ReadsFoundUnder IsSigned (written_moment self.now) (written_ring self.now)
            (spec.view (jar_written self.now) name.now) read) }
    {
        found(self.parent, self.ring, self.moment, name)
    }

    /// Adds the cookie to the jar's delta, with the signing of its value under the current key in the value's place.
    ///
    /// # Errors
    ///
    /// Want of memory. The jar is unchanged then.
    pub fn add(&mut self, cookie: Cookie<'static>) -> Result<(), AllocError>
        ensures same { KeepsParts self.old self.new }
        ensures ok { OnOk result (jar_written self.new ≡ spec.with_added (jar_written self.old)
            (with_value cookie.entry (signing (written_ring self.old).current cookie.entry.cookie.value))) }
        ensures err { OnErr result (jar_written self.new ≡ jar_written self.old) }
    {
        let cookie = signed(self.parent.alloc(), self.ring.current(), cookie)?;
        self.parent.add(cookie)
    }

    /// Adds the cookie to the jar's originals, with the signing of its value under the current key in the value's
    /// place.
    ///
    /// # Errors
    ///
    /// Want of memory. The jar is unchanged then.
    pub fn add_original(&mut self, cookie: Cookie<'static>) -> Result<(), AllocError>
        ensures same { KeepsParts self.old self.new }
        ensures ok { OnOk result (jar_written self.new ≡ spec.with_original (jar_written self.old)
            (with_value cookie.entry (signing (written_ring self.old).current cookie.entry.cookie.value))) }
        ensures err { OnErr result (jar_written self.new ≡ jar_written self.old) }
    {
        let cookie = signed(self.parent.alloc(), self.ring.current(), cookie)?;
        self.parent.add_original(cookie)
    }

    /// Removes the jar's cookie of this cookie's name, as [`CookieJar::remove`] does.
    ///
    /// # Errors
    ///
    /// Want of memory, and only where an original has the name. The jar is unchanged then.
    pub fn remove(&mut self, cookie: Cookie<'static>, now: DateTime) -> Result<(), AllocError>
        ensures same { KeepsParts self.old self.new }
        ensures ok { OnOk result
            (spec.Removes (jar_written self.old) cookie.entry now (jar_written self.new)) }
        ensures err { OnErr result (jar_written self.new ≡ jar_written self.old) }
        ensures succeeds { finmap.get (jar_written self.old).originals cookie.entry.cookie.name ≡ None
            → IsOk result }
    {
        self.parent.remove(cookie, now)
    }
}

// The cookie with the value that its own is the signing of, and the place of the key.
fn verified(
    jar: &CookieJar,
    ring: &KeyRing,
    now: DateTime,
    cookie: Cookie<'static>,
) -> Result<Option<(Cookie<'static>, usize)>, AllocError>
    ensures { IfOk result (λ read. ReadsUnder IsSigned now ring.now cookie.entry read) }
{
    let mut cookie = cookie;
    match verified_by_ring(ring, now, cookie.value()) {
        Some((value, place)) => {
            let value = String::from_str(jar.alloc(), value)?;
            cookie.set_value_owned(value);
            Ok(Some((cookie, place)))
        }
        None => Ok(None),
    }
}

// A copy of the jar's cookie of the name, as it is verified.
fn found(
    jar: &CookieJar,
    ring: &KeyRing,
    now: DateTime,
    name: &str,
) -> Result<Option<(Cookie<'static>, usize)>, AllocError>
    ensures { IfOk result (λ read. ReadsFoundUnder IsSigned now ring.now (spec.view jar.now name.now) read) }
{
    match jar.get(name) {
        Some(cookie) => verified(jar, ring, now, cookie.clone(jar.alloc())?),
        None => Ok(None),
    }
}
