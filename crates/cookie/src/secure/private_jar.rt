//! Child jars that seal values.

ghost use Rattle.std.specs.Prelude.{◌≡◌, ◌↔◌, ℕ, List, length, None, IsOk, IfOk, OnOk, OnErr, IsErrOf};
ghost use Rattle.std.specs.FinMap as finmap;
ghost use Rattle.seal.specs.Gcm.{IsSealable};
ghost use Rattle.cookie_text.specs.Setting.{with_value};
ghost use Rattle.cookie.specs.Sealing.{SealsAs};
ghost use Rattle.cookie.specs.Reading.{Reads, ReadsFound, IsSealed};
ghost use Rattle.cookie_text.specs.Record.{Seen};
ghost use Rattle.cookie.specs.Jar as spec;

use super::key::Key;
use super::private_error::PrivateError;
use super::sealing::{opened_value, sealed_by};
use crate::jar::CookieJar;
use cookie_text::Cookie;
use jiff::civil::DateTime;
use rand_core::TryRng;
use std::alloc::{AllocError, Global};

impl CookieJar {
    ghost use Rattle.cookie.specs.PrivateJars.{borrow_of, jar_read, jar_written, reading_key, writing_key};

    /// A child jar that reads the cookies which this key sealed.
    pub fn private(&self, key: &Key) -> PrivateJar<'_>
        ensures jar { jar_read result ≡ self.now }
        ensures key { reading_key result ≡ key.now }
    {
        PrivateJar {
            parent: self,
            key: key.copied(),
        }
    }

    /// A child jar that reads the cookies which this key sealed, and seals those that it adds.
    pub fn private_mut(&mut self, key: &Key) -> PrivateJarMut<'_>
        ensures same_reference { borrow_of result ≡ self.entry.ghost_name }
        ensures jar { jar_written result ≡ self.old }
        ensures key { writing_key result ≡ key.now }
    {
        PrivateJarMut {
            parent: self,
            key: key.copied(),
        }
    }
}

/// The cookies of a jar that a key sealed, to read.
#[derive(Drop)]
pub struct PrivateJar<'a> {
    parent: &'a CookieJar,
    key: Key,
}

impl<'a> PrivateJar<'a> {
    ghost use Rattle.cookie.specs.PrivateJars.{jar_read, reading_key};

    /// The cookie with the value that its own is a sealing of, under the cookie's name and any
    /// nonce, and none where it is no such sealing or the value isn't UTF-8.
    ///
    /// # Errors
    ///
    /// Want of memory.
    pub fn decrypt(&self, cookie: Cookie<'static>) -> Result<Option<Cookie<'static>>, AllocError>
        ensures { IfOk result (λ read. Reads (IsSealed (reading_key self.now) cookie.entry) cookie.entry read) }
    {
        opened(self.parent.alloc(), &self.key, cookie)
    }

    /// A copy of the jar's cookie of this name as [`PrivateJar::decrypt`] reads it.
    ///
    /// # Errors
    ///
    /// Want of memory.
    pub fn get(&self, name: &str) -> Result<Option<Cookie<'static>>, AllocError>
        ensures { IfOk result (λ read. ReadsFound (IsSealed (reading_key self.now))
            (spec.view (jar_read self.now) name.now) read) }
    {
        found(self.parent, &self.key, name)
    }
}

/// The cookies of a jar that a key seals, to read and write.
#[derive(Drop)]
pub struct PrivateJarMut<'a> {
    parent: &'a mut CookieJar,
    key: Key,
}

impl<'a> PrivateJarMut<'a> {
    ghost use Rattle.cookie.specs.PrivateJars.{KeepsParts, jar_written, writing_key};

    /// The cookie with the value that its own is a sealing of, under the cookie's name and any
    /// nonce, and none where it is no such sealing or the value isn't UTF-8.
    ///
    /// # Errors
    ///
    /// Want of memory.
    pub fn decrypt(&self, cookie: Cookie<'static>) -> Result<Option<Cookie<'static>>, AllocError>
        ensures { IfOk result (λ read. Reads (IsSealed (writing_key self.now) cookie.entry) cookie.entry read) }
    {
        opened(self.parent.alloc(), &self.key, cookie)
    }

    /// A copy of the jar's cookie of this name as [`PrivateJarMut::decrypt`] reads it.
    ///
    /// # Errors
    ///
    /// Want of memory.
    pub fn get(&self, name: &str) -> Result<Option<Cookie<'static>>, AllocError>
        ensures { IfOk result (λ read. ReadsFound (IsSealed (writing_key self.now))
            (spec.view (jar_written self.now) name.now) read) }
    {
        found(self.parent, &self.key, name)
    }

    /// Adds the cookie to the jar's delta, with a sealing of its value in the value's place: the one
    /// under the nonce of twelve bytes that one fill of the generator gives.
    ///
    /// # Errors
    ///
    /// `TooLong` where name and value can't be sealed for their lengths, and the generator is then
    /// not asked; else `Rng` where its fill fails, which it can only where the generator's error type
    /// has a value; else `OutOfMemory`. The jar is unchanged then.
    pub fn add<R: TryRng>(
        &mut self,
        cookie: Cookie<'static>,
        rng: &mut R,
    ) -> Result<(), PrivateError>
        ensures same { KeepsParts self.old self.new }
        ensures ok { OnOk result ((nonce : List ℕ) × (stored : Seen)
            × R.may_fill rng.old nonce rng.new × SealsAs (writing_key self.old) nonce cookie.entry stored
            × (jar_written self.new ≡ spec.with_added (jar_written self.old) stored)) }
        ensures err { OnErr result (jar_written self.new ≡ jar_written self.old) }
        ensures too_long { IsErrOf result PrivateError.TooLong
            ↔ (¬ (IsSealable cookie.entry.cookie.name cookie.entry.cookie.value)) }
        ensures asked { (IsErrOf result PrivateError.TooLong → rng.new ≡ rng.old)
            × (IsErrOf result PrivateError.OutOfMemory
            → (nonce : List ℕ) × (length nonce ≡ 12) × R.may_fill rng.old nonce rng.new) }
        ensures failed { IsErrOf result PrivateError.Rng → R.Error }
    {
        let cookie = sealed(self.parent.alloc(), &self.key, cookie, rng)?;
        self.parent.add(cookie)?;
        Ok(())
    }

    /// Adds the cookie to the jar's originals, with a sealing of its value in the value's place: the
    /// one under the nonce of twelve bytes that one fill of the generator gives.
    ///
    /// # Errors
    ///
    /// `TooLong` where name and value can't be sealed for their lengths, and the generator is then
    /// not asked; else `Rng` where its fill fails, which it can only where the generator's error type
    /// has a value; else `OutOfMemory`. The jar is unchanged then.
    pub fn add_original<R: TryRng>(
        &mut self,
        cookie: Cookie<'static>,
        rng: &mut R,
    ) -> Result<(), PrivateError>
        ensures same { KeepsParts self.old self.new }
        ensures ok { OnOk result ((nonce : List ℕ) × (stored : Seen)
            × R.may_fill rng.old nonce rng.new × SealsAs (writing_key self.old) nonce cookie.entry stored
            × (jar_written self.new ≡ spec.with_original (jar_written self.old) stored)) }
        ensures err { OnErr result (jar_written self.new ≡ jar_written self.old) }
        ensures too_long { IsErrOf result PrivateError.TooLong
            ↔ (¬ (IsSealable cookie.entry.cookie.name cookie.entry.cookie.value)) }
        ensures asked { (IsErrOf result PrivateError.TooLong → rng.new ≡ rng.old)
            × (IsErrOf result PrivateError.OutOfMemory
            → (nonce : List ℕ) × (length nonce ≡ 12) × R.may_fill rng.old nonce rng.new) }
        ensures failed { IsErrOf result PrivateError.Rng → R.Error }
    {
        let cookie = sealed(self.parent.alloc(), &self.key, cookie, rng)?;
        self.parent.add_original(cookie)?;
        Ok(())
    }

    /// Removes the jar's cookie of this cookie's name, as [`CookieJar::remove`] does.
    ///
    /// # Errors
    ///
    /// Want of memory, and only where an original has the name. The jar is unchanged then.
    pub fn remove(&mut self, cookie: Cookie<'static>, now: DateTime) -> Result<(), AllocError>
        ensures same { KeepsParts self.old self.new }
        ensures ok { OnOk result
            (spec.Removes (jar_written self.old) cookie.entry now (jar_written self.new)) }
        ensures err { OnErr result (jar_written self.new ≡ jar_written self.old) }
        ensures succeeds { finmap.get (jar_written self.old).originals cookie.entry.cookie.name ≡ None
            → IsOk result }
    {
        self.parent.remove(cookie, now)
    }
}

/// The cookie with a sealing of its value.
pub(super) fn sealed<R: TryRng>(
    alloc: Global,
    key: &Key,
    cookie: Cookie<'static>,
    rng: &mut R,
) -> Result<Cookie<'static>, PrivateError>
    ensures ok { IfOk result (λ stored. (nonce : List ℕ) × R.may_fill rng.old nonce rng.new
        × SealsAs key.now nonce cookie.entry stored) }
    ensures too_long { IsErrOf result PrivateError.TooLong
        ↔ (¬ (IsSealable cookie.entry.cookie.name cookie.entry.cookie.value)) }
    ensures asked { (IsErrOf result PrivateError.TooLong → rng.new ≡ rng.old)
        × (IsErrOf result PrivateError.OutOfMemory
        → (nonce : List ℕ) × (length nonce ≡ 12) × R.may_fill rng.old nonce rng.new) }
    ensures failed { IsErrOf result PrivateError.Rng → R.Error }
{
    let mut cookie = cookie;
    let text = sealed_by(alloc, key, cookie.name(), cookie.value(), rng)?;
    cookie.set_value_owned(text);
    Ok(cookie)
}

// The cookie with the value that its own is a sealing of.
fn opened(
    alloc: Global,
    key: &Key,
    cookie: Cookie<'static>,
) -> Result<Option<Cookie<'static>>, AllocError>
    ensures { IfOk result (λ read. Reads (IsSealed key.now cookie.entry) cookie.entry read) }
{
    let mut cookie = cookie;
    match opened_value(alloc, key, cookie.name(), cookie.value())? {
        Some(value) => {
            cookie.set_value_owned(value);
            Ok(Some(cookie))
        }
        None => Ok(None),
    }
}

// A copy of the jar's cookie of the name, as it is opened.
fn found(jar: &CookieJar, key: &Key, name: &str) -> Result<Option<Cookie<'static>>, AllocError>
    ensures { IfOk result (λ read. ReadsFound (IsSealed key.now) (spec.view jar.now name.now) read) }
{
    match jar.get(name) {
        Some(cookie) => opened(jar.alloc(), key, cookie.clone(jar.alloc())?),
        None => Ok(None),
    }
}
