//! Child jars that sign values.

ghost use Rattle.std.specs.Prelude.{◌≡◌, None, IsOk, IfOk, OnOk, OnErr};
ghost use Rattle.std.specs.FinMap as finmap;
ghost use Rattle.cookie_text.specs.Setting.{with_value};
ghost use Rattle.cookie.specs.Signing.{signing};
ghost use Rattle.cookie.specs.Reading.{Reads, ReadsFound, IsSigned};
ghost use Rattle.cookie.specs.Jar as spec;

use super::key::Key;
use super::signing::{signed_text, verified_value};
use crate::jar::CookieJar;
use cookie_text::Cookie;
use jiff::civil::DateTime;
use std::alloc::{AllocError, Global};

impl CookieJar {
    ghost use Rattle.cookie.specs.SignedJars.{borrow_of, jar_read, jar_written, reading_key, writing_key};

    /// A child jar that reads the cookies which this key signed.
    pub fn signed(&self, key: &Key) -> SignedJar<'_>
        ensures jar { jar_read result ≡ self.now }
        ensures key { reading_key result ≡ key.now }
    {
        SignedJar {
            parent: self,
            key: key.copied(),
        }
    }

    /// A child jar that reads the cookies which this key signed, and signs those that it adds.
    pub fn signed_mut(&mut self, key: &Key) -> SignedJarMut<'_>
        ensures same_reference { borrow_of result ≡ self.entry.ghost_name }
        ensures jar { jar_written result ≡ self.old }
        ensures key { writing_key result ≡ key.now }
    {
        SignedJarMut {
            parent: self,
            key: key.copied(),
        }
    }
}

/// The cookies of a jar that a key signed, to read.
#[derive(Drop)]
pub struct SignedJar<'a> {
    parent: &'a CookieJar,
    key: Key,
}

impl<'a> SignedJar<'a> {
    ghost use Rattle.cookie.specs.SignedJars.{jar_read, reading_key};

    /// The cookie with the value that its own is the signing of, and none where it is no signing
    /// under this key.
    ///
    /// # Errors
    ///
    /// Want of memory.
    pub fn verify(&self, cookie: Cookie<'static>) -> Result<Option<Cookie<'static>>, AllocError>
        ensures { IfOk result (λ read. Reads (IsSigned (reading_key self.now) cookie.entry) cookie.entry read) }
    {
        verified(self.parent.alloc(), &self.key, cookie)
    }

    /// A copy of the jar's cookie of this name as [`SignedJar::verify`] reads it.
    ///
    /// # Errors
    ///
    /// Want of memory.
    pub fn get(&self, name: &str) -> Result<Option<Cookie<'static>>, AllocError>
        ensures { IfOk result (λ read. ReadsFound (IsSigned (reading_key self.now))
            (spec.view (jar_read self.now) name.now) read) }
    {
        found(self.parent, &self.key, name)
    }
}

/// The cookies of a jar that a key signs, to read and write.
#[derive(Drop)]
pub struct SignedJarMut<'a> {
    parent: &'a mut CookieJar,
    key: Key,
}

impl<'a> SignedJarMut<'a> {
    ghost use Rattle.cookie.specs.SignedJars.{KeepsParts, jar_written, writing_key};

    /// The cookie with the value that its own is the signing of, and none where it is no signing
    /// under this key.
    ///
    /// # Errors
    ///
    /// Want of memory.
    pub fn verify(&self, cookie: Cookie<'static>) -> Result<Option<Cookie<'static>>, AllocError>
        ensures { IfOk result (λ read. Reads (IsSigned (writing_key self.now) cookie.entry) cookie.entry read) }
    {
        verified(self.parent.alloc(), &self.key, cookie)
    }

    /// A copy of the jar's cookie of this name as [`SignedJarMut::verify`] reads it.
    ///
    /// # Errors
    ///
    /// Want of memory.
    pub fn get(&self, name: &str) -> Result<Option<Cookie<'static>>, AllocError>
        ensures { IfOk result (λ read. ReadsFound (IsSigned (writing_key self.now))
            (spec.view (jar_written self.now) name.now) read) }
    {
        found(self.parent, &self.key, name)
    }

    /// Adds the cookie to the jar's delta, with the signing of its value in the value's place.
    ///
    /// # Errors
    ///
    /// Want of memory. The jar is unchanged then.
    pub fn add(&mut self, cookie: Cookie<'static>) -> Result<(), AllocError>
        ensures same { KeepsParts self.old self.new }
        ensures ok { OnOk result (jar_written self.new ≡ spec.with_added (jar_written self.old)
            (with_value cookie.entry (signing (writing_key self.old) cookie.entry.cookie.value))) }
        ensures err { OnErr result (jar_written self.new ≡ jar_written self.old) }
    {
        let cookie = signed(self.parent.alloc(), &self.key, cookie)?;
        self.parent.add(cookie)
    }

    /// Adds the cookie to the jar's originals, with the signing of its value in the value's place.
    ///
    /// # Errors
    ///
    /// Want of memory. The jar is unchanged then.
    pub fn add_original(&mut self, cookie: Cookie<'static>) -> Result<(), AllocError>
        ensures same { KeepsParts self.old self.new }
        ensures ok { OnOk result (jar_written self.new ≡ spec.with_original (jar_written self.old)
            (with_value cookie.entry (signing (writing_key self.old) cookie.entry.cookie.value))) }
        ensures err { OnErr result (jar_written self.new ≡ jar_written self.old) }
    {
        let cookie = signed(self.parent.alloc(), &self.key, cookie)?;
        self.parent.add_original(cookie)
    }

    /// Removes the jar's cookie of this cookie's name, as [`CookieJar::remove`] does.
    ///
    /// # Errors
    ///
    /// Want of memory, and only where an original has the name. The jar is unchanged then.
    pub fn remove(&mut self, cookie: Cookie<'static>, now: DateTime) -> Result<(), AllocError>
        ensures same { KeepsParts self.old self.new }
        ensures ok { OnOk result
            (spec.Removes (jar_written self.old) cookie.entry now (jar_written self.new)) }
        ensures err { OnErr result (jar_written self.new ≡ jar_written self.old) }
        ensures succeeds { finmap.get (jar_written self.old).originals cookie.entry.cookie.name ≡ None
            → IsOk result }
    {
        self.parent.remove(cookie, now)
    }
}

/// The cookie with the signing of its value.
pub(super) fn signed(
    alloc: Global,
    key: &Key,
    cookie: Cookie<'static>,
) -> Result<Cookie<'static>, AllocError>
    ensures { IfOk result
        (λ signed. signed ≡ with_value cookie.entry (signing key.now cookie.entry.cookie.value)) }
{
    let mut cookie = cookie;
    let text = signed_text(alloc, key, cookie.value())?;
    cookie.set_value_owned(text);
    Ok(cookie)
}

// The cookie with the value that its own is the signing of.
fn verified(
    alloc: Global,
    key: &Key,
    cookie: Cookie<'static>,
) -> Result<Option<Cookie<'static>>, AllocError>
    ensures { IfOk result (λ read. Reads (IsSigned key.now cookie.entry) cookie.entry read) }
{
    let mut cookie = cookie;
    match verified_value(key, cookie.value()) {
        Some(value) => {
            let value = String::from_str(alloc, value)?;
            cookie.set_value_owned(value);
            Ok(Some(cookie))
        }
        None => Ok(None),
    }
}

// A copy of the jar's cookie of the name, as it is verified.
fn found(jar: &CookieJar, key: &Key, name: &str) -> Result<Option<Cookie<'static>>, AllocError>
    ensures { IfOk result (λ read. ReadsFound (IsSigned key.now) (spec.view jar.now name.now) read) }
{
    match jar.get(name) {
        Some(cookie) => verified(jar.alloc(), key, cookie.clone(jar.alloc())?),
        None => Ok(None),
    }
}
