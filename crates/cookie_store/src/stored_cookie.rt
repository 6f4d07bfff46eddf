//! The cookie of a store.
ghost use Rattle.std.specs.Prelude.{◌≡◌, ◌↔◌, IsTrue, IsSome, IfOk, Some};
ghost use Rattle.std.specs.Cmp.{partial_equiv_from_equiv};
ghost use Rattle.cookie_text.specs.Setting.{with_path, with_domain};
ghost use Rattle.jiff.specs.Words.{civil_nanos};
ghost use Rattle.store_parts.specs.DomainMatch.{domain_of};
ghost use Rattle.store_parts.specs.Expiry.{death_of, is_dead, epoch};
ghost use Rattle.store_parts.specs.PathMatch.{path_of};
ghost use Rattle.cookie_store.specs.Giving.{GoesWith};
ghost use Rattle.cookie_store.specs.Making as making;
ghost use Rattle.cookie_store.specs.Same as same;
ghost use Rattle.cookie_store.specs.SameEquivalence.{same_stored_equiv};
ghost use Rattle.cookie_store.specs.Steps as steps;
ghost use Rattle.cookie_store.specs.Stripped as stripped;
ghost use Rattle.cookie_store.specs.StoredCookie.{made_of, owned, stored_of};

use cookie::{Cookie as RawCookie, Expiration};
use jiff::civil::DateTime;
use std::alloc::{AllocError, Global};
use store_parts::utils::{is_http_scheme, is_secure};
use store_parts::{CookieDomain, CookieError, CookieExpiration, CookiePath, Error};
use url::Url;

/// The answer of a call that makes a cookie.
pub type CookieResult<'a> = std::result::Result<Cookie<'a>, CookieError>;

/// A cookie that a store keeps: the one that was received, and what it means at the URL and the
/// moment of its receipt (RFC 6265, section 5.3).
#[derive(Debug, Drop)]
pub struct Cookie<'a> {
    raw_cookie: RawCookie<'a>,
    /// That of the Path attribute where it begins with `/`, else the default-path of the URL.
    pub path: CookiePath,
    /// That of the Domain attribute, or the URL's host alone where there is none or an empty one.
    pub domain: CookieDomain,
    /// When the cookie ends: by Max-Age, else by Expires, else with the session.
    pub expires: CookieExpiration,
}

impl<'a> Cookie<'a> {
    /// The cookie of these parts, as they stand: a cookie that was received elsewhere.
    pub fn from_parts(
        raw_cookie: RawCookie<'a>,
        path: CookiePath,
        domain: CookieDomain,
        expires: CookieExpiration,
    ) -> Cookie<'a>
        ensures { stored_of result ≡ record {
          raw = raw_cookie.entry;
          path = path_of path;
          domain = domain_of domain;
          death = death_of expires;
        } }
    {
        Cookie {
            raw_cookie,
            path,
            domain,
            expires,
        }
    }

    /// Whether the cookie goes with a request to the URL (RFC 6265, section 5.4, step 1): path and
    /// domain match, a Secure cookie meets a URL that `utils::is_secure` passes, an HttpOnly one an
    /// HTTP scheme.
    ///
    /// Whether it is expired is not looked at.
    pub fn matches(&self, request_url: &Url) -> bool
        ensures { IsTrue result ↔ GoesWith (stored_of self.now) request_url.now }
    {
        self.path.matches(request_url)
            && self.domain.matches(request_url)
            && (!self.raw_cookie.secure().unwrap_or(false) || is_secure(request_url))
            && (!self.raw_cookie.http_only().unwrap_or(false) || is_http_scheme(request_url))
    }

    /// Whether the cookie is kept beyond the session: it ends at a moment.
    pub fn is_persistent(&self) -> bool
        ensures { IsTrue result ↔ IsSome (stored_of self.now).death }
    {
        matches!(self.expires, CookieExpiration::AtUtc(_))
    }

    /// Puts the cookie's end at the Unix epoch. Nothing else changes.
    pub fn expire(&mut self)
        ensures { stored_of self.new ≡ record (stored_of self.old) { death = Some epoch } }
    {
        // A length of zero ends at the epoch, whatever the moment.
        self.expires = CookieExpiration::from_max_age(0, DateTime::MIN);
    }

    /// Whether the cookie's end is at or before `now`.
    pub fn is_expired(&self, now: DateTime) -> bool
        ensures { result ≡ is_dead (civil_nanos now) (stored_of self.now).death }
    {
        self.expires.is_expired(now)
    }

    /// Whether the cookie's end is at or before the moment.
    pub fn expires_by(&self, moment: &DateTime) -> bool
        ensures { result ≡ is_dead (civil_nanos moment.now) (stored_of self.now).death }
    {
        self.expires.expires_by(moment)
    }

    /// Reads a cookie that was received from the URL at `now`. Its texts are then slices of
    /// `cookie_str`; nothing is percent-decoded.
    ///
    /// # Errors
    ///
    /// `Parse` where the text is no cookie, then those of `try_from_raw_cookie`.
    pub fn parse(
        alloc: Global,
        cookie_str: &'a str,
        request_url: &Url,
        now: DateTime,
    ) -> CookieResult<'a>
        ensures { making.ReadsStored cookie_str.now request_url.now (civil_nanos now)
            (made_of result) }
    {
        match RawCookie::parse(cookie_str) {
            Ok(raw_cookie) => Cookie::try_from_raw_cookie(alloc, &raw_cookie, request_url, now),
            Err(_) => Err(CookieError::Parse),
        }
    }

    /// The cookie of a store that this one is, received from the URL at `now` (RFC 6265, section
    /// 5.3). An empty Domain attribute counts as none.
    ///
    /// # Errors
    ///
    /// In this order: `NonHttpScheme` where it is HttpOnly and the scheme is not one of HTTP,
    /// `Parse` where the Domain attribute has no IDNA form, `DomainMismatch` where the URL's host
    /// does not domain-match it, `NonRelativeScheme` where there is neither a domain nor a host;
    /// want of memory at any point after the first.
    pub fn try_from_raw_cookie(
        alloc: Global,
        raw_cookie: &RawCookie<'a>,
        request_url: &Url,
        now: DateTime,
    ) -> CookieResult<'a>
        ensures { making.Makes raw_cookie.now request_url.now (civil_nanos now)
            (made_of result) }
    {
        if raw_cookie.http_only().unwrap_or(false) && !is_http_scheme(request_url) {
            return Err(CookieError::NonHttpScheme);
        }
        let domain = domain_at(alloc, raw_cookie, request_url)?;
        let path = path_at(alloc, raw_cookie, request_url)?;
        let expires = CookieExpiration::from_raw(raw_cookie, now);
        Ok(Cookie {
            raw_cookie: raw_cookie.clone(alloc)?,
            path,
            domain,
            expires,
        })
    }

    /// The same cookie, owning its texts.
    ///
    /// # Errors
    ///
    /// `AllocError`, for want of memory.
    pub fn into_owned(self, alloc: Global) -> Result<Cookie<'static>, AllocError>
        ensures { IfOk result (λ cookie. stored_of cookie ≡ owned (stored_of self.entry)) }
    {
        let Cookie {
            raw_cookie,
            path,
            domain,
            expires,
        } = self;
        Ok(Cookie {
            raw_cookie: raw_cookie.into_owned(alloc)?,
            path,
            domain,
            expires,
        })
    }

    /// The cookie as it was received.
    pub fn raw(&self) -> &RawCookie<'a>
        ensures { result.now ≡ (stored_of self.now).raw }
    {
        &self.raw_cookie
    }

    /// A cookie with the name and the value of this one, an Expires of its end, the path where an
    /// attribute gave it, and the domain where it is a suffix. Nothing else is kept: not Secure,
    /// nor HttpOnly, and no Max-Age, which counts from another moment.
    ///
    /// An end after 9999-12-31T23:59:59.999999 counts as that one.
    ///
    /// # Errors
    ///
    /// `AllocError`, for want of memory.
    pub fn into_raw(self, alloc: Global) -> Result<RawCookie<'static>, AllocError>
        ensures { IfOk result (λ raw. stripped.IsStripped (stored_of self.entry) raw) }
    {
        let Cookie {
            raw_cookie,
            path,
            domain,
            expires,
        } = self;
        let name = String::from_str(alloc, raw_cookie.name())?;
        let value = String::from_str(alloc, raw_cookie.value())?;
        let mut stripped = RawCookie::new_owned(name, value);
        put_end(&mut stripped, expires);
        put_path(alloc, &mut stripped, &path)?;
        put_domain(&mut stripped, domain);
        Ok(stripped)
    }

    /// A copy: borrowed texts are borrowed again, owned ones are copied.
    ///
    /// # Errors
    ///
    /// `AllocError`, for want of memory.
    pub fn clone(&self, alloc: Global) -> Result<Cookie<'a>, AllocError>
        ensures { IfOk result (λ cookie. stored_of cookie ≡ stored_of self.now) }
    {
        Ok(Cookie {
            raw_cookie: self.raw_cookie.clone(alloc)?,
            path: self.path.clone(alloc)?,
            domain: self.domain.clone(alloc)?,
            expires: self.expires,
        })
    }
}

/// Cookies are equal where the received ones are, their paths and their domains, and their ends to
/// the second.
impl<'a> PartialEq for Cookie<'a> {
    ghost eq = { same.same_stored };

    ghost laws = { partial_equiv_from_equiv same_stored_equiv };

    fn eq(&self, other: &Cookie<'a>) -> bool
        ensures value { result ≡ same.same_stored self.now other.now }
        ensures same { IsTrue result ↔ same.AreSame self.now other.now }
    {
        self.raw_cookie == other.raw_cookie
            && self.path == other.path
            && self.domain == other.domain
            && self.expires == other.expires
    }
}

// The domain of a cookie that was received from the URL, or why it has none.
fn domain_at(
    alloc: Global,
    raw_cookie: &RawCookie<'_>,
    request_url: &Url,
) -> Result<CookieDomain, CookieError>
    ensures { steps.GivesDomain raw_cookie.now.cookie request_url.now result }
{
    match CookieDomain::from_raw(alloc, raw_cookie) {
        Ok(CookieDomain::Suffix(text)) => {
            let domain = CookieDomain::Suffix(text);
            if domain.matches(request_url) {
                Ok(domain)
            } else {
                Err(CookieError::DomainMismatch)
            }
        }
        Ok(_) => CookieDomain::host_only(alloc, request_url),
        Err(Error::OutOfMemory) => Err(CookieError::OutOfMemory),
        Err(_) => Err(CookieError::Parse),
    }
}

// The path of a cookie that was received from the URL.
fn path_at(
    alloc: Global,
    raw_cookie: &RawCookie<'_>,
    request_url: &Url,
) -> Result<CookiePath, AllocError>
    ensures { IfOk result (λ path. path_of path
        ≡ making.path_at raw_cookie.now.cookie request_url.now) }
{
    match raw_cookie.path() {
        Some(path) => CookiePath::new(alloc, path, request_url),
        None => CookiePath::default_path(alloc, request_url),
    }
}

// Sets the Expires of an end.
fn put_end(raw_cookie: &mut RawCookie<'_>, expires: CookieExpiration)
    ensures { steps.PutsEnd (death_of expires) raw_cookie.old raw_cookie.new }
{
    if let CookieExpiration::AtUtc(end) = expires {
        raw_cookie.set_expires(Expiration::DateTime(end));
    }
}

// Sets the path that an attribute gave.
fn put_path(
    alloc: Global,
    raw_cookie: &mut RawCookie<'_>,
    path: &CookiePath,
) -> Result<(), AllocError>
    ensures { IfOk result (λ _. steps.Puts with_path (stripped.given_path (path_of path.now))
        raw_cookie.old raw_cookie.new) }
{
    if path.is_from_path_attr() {
        raw_cookie.set_path_owned(path.to_text(alloc)?);
    }
    Ok(())
}

// Sets the domain that is a suffix.
fn put_domain(raw_cookie: &mut RawCookie<'_>, domain: CookieDomain)
    ensures { steps.Puts with_domain (stripped.given_domain (domain_of domain))
        raw_cookie.old raw_cookie.new }
{
    if let CookieDomain::Suffix(text) = domain {
        raw_cookie.set_domain_owned(text);
    }
}
