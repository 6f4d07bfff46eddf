//! A line of `cookies.txt`.
ghost use Rattle.std.specs.Prelude.{◌≡◌, ◌≤◌, pos, Some, IfOk, OnOk};
ghost use Rattle.jiff.specs.Words.{civil_nanos};
ghost use Rattle.cookie_store.specs.StoredCookie.{stored_of};
ghost use Rattle.store_parts.specs.DomainMatch.{domain_of};
ghost use Rattle.store_parts.specs.Expiry.{death_of};
ghost use Rattle.cookies_txt.specs.Layout.{flag_text, line_text, when};
ghost use Rattle.cookies_txt.specs.Steps as steps;
ghost use Rattle.cookies_txt.specs.Steps.{said_of};
ghost use Rattle.cookies_txt.specs.Writing as spec;

use crate::readers::Reader;
use cookie::{Cookie as RawCookie, Expiration};
use cookie_store::{Cookie, CookieDomain, CookieExpiration, CookiePath};
use jiff::civil::{DateTime, datetime};
use std::alloc::{AllocError, Global};
use std::fmt;

/// What stands before the domain of an HttpOnly cookie.
pub(crate) const HTTP_ONLY_MARK: &str = "#HttpOnly_";

/// 9999-12-31T23:59:59, in whole seconds since 1970.
pub(crate) const LATEST_SECOND: u64 = 253_402_300_799;

/// What a line says of a cookie.
#[derive(Clone, Copy)]
pub(crate) struct Line<'a> {
    pub http_only: bool,
    /// Without its dot.
    pub domain: &'a str,
    /// Whether the hosts below the domain count.
    pub below: bool,
    pub path: &'a str,
    pub secure: bool,
    /// In whole seconds since 1970, 0 for none.
    pub expires: u64,
    pub name: &'a str,
    pub value: &'a str,
}

impl<'a> Line<'a> {
    /// What a line says of the row.
    pub(crate) fn of(cookie: &'a Cookie<'static>) -> Line<'a>
        ensures { said_of result ≡ spec.line_of_row (stored_of cookie.now) }
    {
        let raw = cookie.raw();
        Line {
            http_only: raw.http_only().unwrap_or(false),
            domain: cookie.domain.as_cow().unwrap_or(""),
            below: matches!(cookie.domain, CookieDomain::Suffix(_)),
            path: cookie.path.as_str(),
            secure: raw.secure().unwrap_or(false),
            expires: expiry_second(cookie.expires),
            name: raw.name(),
            value: raw.value(),
        }
    }

    /// The row that the line gives.
    ///
    /// # Errors
    ///
    /// `AllocError`, for want of memory.
    pub(crate) fn to_cookie(&self, alloc: Global) -> Result<Cookie<'static>, AllocError>
        requires { self.now.expires ≤ spec.latest_second }
        ensures { IfOk result (λ cookie. spec.IsRowOf (said_of self.now) (stored_of cookie)) }
    {
        let expires = expiration_at(self.expires);
        let path = CookiePath::from_parts(String::from_str(alloc, self.path)?, true);
        let domain = self.to_domain(alloc)?;
        Ok(Cookie::from_parts(self.to_raw(alloc, expires)?, path, domain, expires))
    }

    fn to_domain(&self, alloc: Global) -> Result<CookieDomain, AllocError>
        ensures { IfOk result (λ domain. domain_of domain ≡ steps.domain_in (said_of self.now)) }
    {
        let text = String::from_str(alloc, self.domain)?;
        if self.below {
            Ok(CookieDomain::Suffix(text))
        } else {
            Ok(CookieDomain::HostOnly(text))
        }
    }

    // The cookie as it would have been received.
    fn to_raw(
        &self,
        alloc: Global,
        expires: CookieExpiration,
    ) -> Result<RawCookie<'static>, AllocError>
        ensures { IfOk result (steps.IsRawOf (said_of self.now) (death_of expires)) }
    {
        let name = String::from_str(alloc, self.name)?;
        let value = String::from_str(alloc, self.value)?;
        let path = String::from_str(alloc, self.path)?;
        let mut raw = RawCookie::new_owned(name, value);
        raw.set_http_only(flag_of(self.http_only));
        raw.set_secure(flag_of(self.secure));
        raw.set_path_owned(path);
        self.put_domain(alloc, &mut raw)?;
        put_end(&mut raw, expires);
        Ok(raw)
    }

    // Sets the domain where the hosts below it count.
    fn put_domain(&self, alloc: Global, raw: &mut RawCookie<'_>) -> Result<(), AllocError>
        ensures { OnOk result (steps.PutsDomain (said_of self.now) raw.old raw.new) }
    {
        if self.below {
            raw.set_domain_owned(String::from_str(alloc, self.domain)?);
        }
        Ok(())
    }
}

/// A line for a reader, without its end.
#[derive(Clone, Copy)]
pub(crate) struct LineFor<'a> {
    pub line: Line<'a>,
    pub reader: Reader,
}

impl fmt::Display for LineFor<'_> {
    ghost output = { λ it. Some (line_text it.reader (said_of it.line)) };

    #[tactic(auto, unfolding(crate::specs::Layout::line_text))]
    fn fmt<W: fmt::Write>(&self, f: &mut fmt::Formatter<W>) -> fmt::Result {
        let line = self.line;
        let mark = when(self.reader.knows_mark() && line.http_only, HTTP_ONLY_MARK);
        let dot = when(line.below, ".");
        let domain = line.domain;
        let below = flag_text(line.below);
        let path = line.path;
        write!(f, "{mark}{dot}{domain}\t{below}\t{path}\t")?;
        let secure = flag_text(line.secure);
        let expires = line.expires;
        let name = line.name;
        let value = line.value;
        if expires != 0 || self.reader.knows_zero() {
            write!(f, "{secure}\t{expires}\t{name}\t{value}")
        } else {
            write!(f, "{secure}\t\t{name}\t{value}")
        }
    }
}

fn when(is: bool, text: &str) -> &str
    ensures { result.now ≡ when is text.now }
{
    if is { text } else { "" }
}

fn flag_text(flag: bool) -> &'static str
    ensures { result.now ≡ flag_text flag }
{
    if flag { "TRUE" } else { "FALSE" }
}

// A flag of a cookie, which is there only where it is set.
fn flag_of(flag: bool) -> Option<bool>
    ensures { result ≡ spec.flag_of flag }
{
    if flag { Some(true) } else { None }
}

// Sets the Expires of an end.
fn put_end(raw: &mut RawCookie<'_>, expires: CookieExpiration)
    ensures { steps.PutsExpires (death_of expires) raw.old raw.new }
{
    if let CookieExpiration::AtUtc(end) = expires {
        raw.set_expires(Expiration::DateTime(end));
    }
}

/// The second of an expiry, as a line tells it: whole, counted from 1970, at least 1 and at most that of
/// 9999-12-31T23:59:59; or 0 where there is none.
pub fn expiry_second(expires: CookieExpiration) -> u64
    ensures { result ≡ spec.expiry_second (death_of expires) }
{
    match expires {
        CookieExpiration::AtUtc(moment) => clamped(moment.to_plain().to_second()),
        CookieExpiration::SessionEnd => 0,
    }
}

fn clamped(second: i64) -> u64
    ensures { result ≡ spec.clamped second }
{
    if second < 1 {
        return 1;
    }
    (second as u64).min(LATEST_SECOND)
}

// The expiry at this second, none for 0.
fn expiration_at(second: u64) -> CookieExpiration
    requires { second ≤ spec.latest_second }
    ensures { death_of result ≡ spec.death_at second }
{
    if second == 0 {
        return CookieExpiration::SessionEnd;
    }
    CookieExpiration::from_max_age(second, epoch())
}

fn epoch() -> DateTime
    ensures { civil_nanos result ≡ pos 0 }
{
    datetime(1970, 1, 1, 0, 0, 0, 0)
}
