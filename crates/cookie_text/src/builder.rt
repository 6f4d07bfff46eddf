//! A cookie that is being built.
ghost use Rattle.std.specs.Prelude.{◌≡◌, Some, IfOk};
ghost use Rattle.std.specs.Borrow.{Lends, sem};
ghost use Rattle.jiff.specs.Words.{signed_nanos};
ghost use Rattle.cookie_text.specs.contracts.builder.Builder.{the_row};
ghost use Rattle.cookie_text.specs.Printing.{printed};
ghost use Rattle.cookie_text.specs.Record.{bare, unsliced};
ghost use Rattle.cookie_text.specs.Setting as spec;

use crate::cookie::Cookie;
use crate::draft::SameSite;
use crate::expiration::Expiration;
use jiff::SignedDuration;
use jiff::civil::DateTime;
use std::alloc::{AllocError, Global};
use std::fmt;
use std::marker::Model;

/// What is being built, part by part.
#[derive(Debug, Drop)]
pub struct Builder<T> {
    inner: T,
}

/// A cookie that is being built, attribute by attribute. It prints as its cookie does.
pub type CookieBuilder<'c> = Builder<Cookie<'c>>;

// With no import of its own it would take the file's, of which `the_row` rests on this very impl.
impl<T> Model for Builder<T> {
    ghost use Rattle.std.specs.Prelude.{ℕ};

    ghost Value = { T };

    ghost view = { λ b. b.inner };
}

impl<T> Builder<T> {
    /// What was built so far.
    pub fn inner(&self) -> &T
        ensures { result.now ≡ self.now }
    {
        &self.inner
    }

    /// What was built so far, to be changed. What is written through the reference stays.
    pub fn inner_mut(&mut self) -> &mut T
        ensures* writes_back { sem 𝓛 (Lends (the_row T.row) T.row self.entry result (λ w. w)) }
        ensures value { result.now ≡ self.old }
    {
        &mut self.inner
    }
}

impl<'c> Builder<Cookie<'c>> {
    /// Starts from a cookie of this name and value, with no attribute.
    pub fn new(name: &'c str, value: &'c str) -> CookieBuilder<'c>
        ensures { result ≡ unsliced (bare name.now value.now) }
    {
        CookieBuilder::from_cookie(Cookie::new(name, value))
    }

    // Starts from this cookie.
    pub(crate) fn from_cookie(cookie: Cookie<'c>) -> CookieBuilder<'c>
        ensures { result ≡ cookie.entry }
    {
        Builder { inner: cookie }
    }

    /// Sets when the cookie ends; a moment after 9999-12-31T23:59:59.999999 counts as that one.
    pub fn expires(mut self, when: Expiration) -> CookieBuilder<'c>
        ensures { spec.SetsExpires self.entry when result }
    {
        self.inner.set_expires(when);
        self
    }

    /// Sets how long the cookie lives.
    pub fn max_age(mut self, value: SignedDuration) -> CookieBuilder<'c>
        ensures { result ≡ spec.with_max_age self.entry (Some (signed_nanos value)) }
    {
        self.inner.set_max_age(Some(value));
        self
    }

    /// Sets the domain.
    pub fn domain(mut self, value: &'c str) -> CookieBuilder<'c>
        ensures { result ≡ spec.with_domain self.entry (Some value.now) }
    {
        self.inner.set_domain(value);
        self
    }

    /// Sets the path.
    pub fn path(mut self, value: &'c str) -> CookieBuilder<'c>
        ensures { result ≡ spec.with_path self.entry (Some value.now) }
    {
        self.inner.set_path(value);
        self
    }

    /// Sets whether the cookie is for secure requests alone.
    pub fn secure(mut self, value: bool) -> CookieBuilder<'c>
        ensures { result ≡ spec.with_secure self.entry (Some value) }
    {
        self.inner.set_secure(Some(value));
        self
    }

    /// Sets whether scripts are to be kept from the cookie.
    pub fn http_only(mut self, value: bool) -> CookieBuilder<'c>
        ensures { result ≡ spec.with_http_only self.entry (Some value) }
    {
        self.inner.set_http_only(Some(value));
        self
    }

    /// Sets which requests from other sites carry the cookie.
    pub fn same_site(mut self, value: SameSite) -> CookieBuilder<'c>
        ensures { result ≡ spec.with_same_site self.entry (Some value) }
    {
        self.inner.set_same_site(Some(value));
        self
    }

    /// Sets whether the cookie is kept apart for each top-level site.
    pub fn partitioned(mut self, value: bool) -> CookieBuilder<'c>
        ensures { result ≡ spec.with_partitioned self.entry (Some value) }
    {
        self.inner.set_partitioned(Some(value));
        self
    }

    /// Makes the cookie live for twenty years of 365 days from `now` on.
    pub fn permanent(mut self, now: DateTime) -> CookieBuilder<'c>
        ensures { spec.MakesPermanent self.entry now result }
    {
        self.inner.make_permanent(now);
        self
    }

    /// Makes the cookie one that takes a cookie of its name out of a client.
    pub fn removal(mut self, now: DateTime) -> CookieBuilder<'c>
        ensures { spec.MakesRemoval self.entry now result }
    {
        self.inner.make_removal(now);
        self
    }

    /// The cookie.
    pub fn build(self) -> Cookie<'c>
        ensures { result ≡ self.entry }
    {
        let Builder { inner } = self;
        inner
    }

    /// The cookie, as `build` gives it.
    pub fn finish(self) -> Cookie<'c>
        ensures { result ≡ self.entry }
    {
        self.build()
    }

    /// A copy: borrowed texts are borrowed again, owned ones are copied.
    ///
    /// # Errors
    ///
    /// Want of memory.
    pub fn clone(&self, alloc: Global) -> Result<CookieBuilder<'c>, AllocError>
        ensures { IfOk result (λ builder. builder ≡ self.now) }
    {
        Ok(CookieBuilder::from_cookie(self.inner.clone(alloc)?))
    }
}

impl fmt::Display for Builder<Cookie<'_>> {
    ghost output = { λ b. Some (printed b.cookie) };

    fn fmt<W: fmt::Write>(&self, f: &mut fmt::Formatter<W>) -> fmt::Result {
        let cookie = &self.inner;
        write!(f, "{cookie}")
    }
}
