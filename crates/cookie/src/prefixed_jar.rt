//! Child jars that put a prefix before each name.

ghost use Rattle.std.specs.Prelude.{◌≡◌, ◌++◌, IfOk, OnOk, OnErr};
ghost use Rattle.std.specs.Option.{option_map};
ghost use Rattle.cookie_text.specs.Setting.{with_name};
ghost use Rattle.cookie.specs.Prefix.{prefixed};
ghost use Rattle.cookie.specs.Jar as spec;

use crate::jar::CookieJar;
use crate::prefix::Prefix;
use cookie_text::Cookie;
use jiff::civil::DateTime;
use std::alloc::AllocError;
use std::marker::PhantomData;

impl CookieJar {
    ghost use Rattle.cookie.specs.PrefixedJars.{borrow_of, jar_read, jar_written};

    /// A child jar that reads the cookies whose names have the prefix.
    pub fn prefixed<P: Prefix>(&self, prefix: P) -> PrefixedJar<'_, P>
        ensures { jar_read result ≡ self.now }
    {
        let _ = prefix;
        PrefixedJar {
            parent: self,
            prefix: PhantomData,
        }
    }

    /// A child jar that reads and writes the cookies whose names have the prefix.
    pub fn prefixed_mut<P: Prefix>(&mut self, prefix: P) -> PrefixedJarMut<'_, P>
        ensures same_reference { borrow_of result ≡ self.entry.ghost_name }
        ensures jar { jar_written result ≡ self.old }
    {
        let _ = prefix;
        PrefixedJarMut {
            parent: self,
            prefix: PhantomData,
        }
    }
}

/// The cookies of a jar whose names have a prefix, to read.
#[derive(Drop)]
pub struct PrefixedJar<'a, P> {
    parent: &'a CookieJar,
    prefix: PhantomData<P>,
}

impl<'a, P: Prefix> PrefixedJar<'a, P> {
    ghost use Rattle.cookie.specs.PrefixedJars.{jar_read};

    /// A copy of the cookie that the jar gives under prefix and name, with the name alone, and none
    /// where it gives none.
    ///
    /// # Errors
    ///
    /// Want of memory.
    pub fn get(&self, name: &str) -> Result<Option<Cookie<'static>>, AllocError>
        ensures { IfOk result (λ cookie. cookie
            ≡ option_map (λ c. with_name c name.now)
            (spec.view (jar_read self.now) (P.text ++ name.now))) }
    {
        found::<P>(self.parent, name)
    }
}

/// The cookies of a jar whose names have a prefix, to read and write.
#[derive(Drop)]
pub struct PrefixedJarMut<'a, P> {
    parent: &'a mut CookieJar,
    prefix: PhantomData<P>,
}

impl<'a, P: Prefix> PrefixedJarMut<'a, P> {
    ghost use Rattle.cookie.specs.PrefixedJars.{borrow_of, jar_written};

    /// A copy of the cookie that the jar gives under prefix and name, with the name alone, and none
    /// where it gives none.
    ///
    /// # Errors
    ///
    /// Want of memory.
    pub fn get(&self, name: &str) -> Result<Option<Cookie<'static>>, AllocError>
        ensures { IfOk result (λ cookie. cookie
            ≡ option_map (λ c. with_name c name.now)
            (spec.view (jar_written self.now) (P.text ++ name.now))) }
    {
        found::<P>(self.parent, name)
    }

    /// Adds the cookie to the jar's delta, with the prefix before its name and its attributes as the
    /// prefix promises them.
    ///
    /// # Errors
    ///
    /// Want of memory. The jar is unchanged then.
    pub fn add(&mut self, cookie: Cookie<'static>) -> Result<(), AllocError>
        ensures same_reference { borrow_of self.new ≡ borrow_of self.old }
        ensures ok { OnOk result (jar_written self.new
            ≡ spec.with_added (jar_written self.old) (P.conformed (prefixed P.text cookie.entry))) }
        ensures err { OnErr result (jar_written self.new ≡ jar_written self.old) }
    {
        let cookie = P::apply(self.parent.alloc(), cookie)?;
        self.parent.add(cookie)
    }

    /// Adds the cookie to the jar's originals, with the prefix before its name and its attributes as
    /// the prefix promises them.
    ///
    /// # Errors
    ///
    /// Want of memory. The jar is unchanged then.
    pub fn add_original(&mut self, cookie: Cookie<'static>) -> Result<(), AllocError>
        ensures same_reference { borrow_of self.new ≡ borrow_of self.old }
        ensures ok { OnOk result (jar_written self.new
            ≡ spec.with_original (jar_written self.old) (P.conformed (prefixed P.text cookie.entry))) }
        ensures err { OnErr result (jar_written self.new ≡ jar_written self.old) }
    {
        let cookie = P::apply(self.parent.alloc(), cookie)?;
        self.parent.add_original(cookie)
    }

    /// Removes the cookie of the jar, as [`CookieJar::remove`] does, that has the prefix and this
    /// cookie's name. The removal's attributes are as the prefix promises them.
    ///
    /// # Errors
    ///
    /// Want of memory, which the name with its prefix takes each time. The jar is unchanged then.
    pub fn remove(&mut self, cookie: Cookie<'static>, now: DateTime) -> Result<(), AllocError>
        ensures same_reference { borrow_of self.new ≡ borrow_of self.old }
        ensures ok { OnOk result (spec.Removes (jar_written self.old)
            (P.conformed (prefixed P.text cookie.entry)) now (jar_written self.new)) }
        ensures err { OnErr result (jar_written self.new ≡ jar_written self.old) }
    {
        let cookie = P::apply(self.parent.alloc(), cookie)?;
        self.parent.remove(cookie, now)
    }
}

// A copy of the cookie under prefix and name, with the name alone.
fn found<P: Prefix>(jar: &CookieJar, name: &str) -> Result<Option<Cookie<'static>>, AllocError>
    ensures { IfOk result (λ cookie. cookie
        ≡ option_map (λ c. with_name c name.now) (spec.view jar.now (P.text ++ name.now))) }
{
    let prefixed = P::prefixed_name(jar.alloc(), name)?;
    match jar.get(prefixed.as_str()) {
        Some(cookie) => {
            let cookie = cookie.clone(jar.alloc())?;
            Ok(Some(P::clip(jar.alloc(), cookie)?))
        }
        None => Ok(None),
    }
}
