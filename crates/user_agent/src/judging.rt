//! Which rule refuses a line.
ghost use Rattle.std.specs.Prelude.{◌≡◌, ◌↔◌, ◌++◌, ℕ, List, IfOk, IsTrue, MatchOption, Ok, OnErr, Some, false, map};
ghost use Rattle.std.specs.Prelude.{true, option_map, string_bytes, codes};
ghost use Rattle.std.specs.Char.{to_ascii_lowercase};
ghost use Rattle.std.specs.List.{list_any};
ghost use Rattle.percent_encoding.specs.Percent.{percent_decode};
ghost use Rattle.cookie_text.specs.Reading.{ReadsPlain};
ghost use Rattle.jiff.specs.Words.{civil_nanos};
ghost use Rattle.store_parts.specs.PathMatch.{PathMatches, path_of};
ghost use Rattle.cookie_store.specs.Making.{path_at};
ghost use Rattle.store_parts.specs.Expiry.{is_dead};
ghost use Rattle.cookie_store.specs.Rows.{domain_text};
ghost use Rattle.cookie_store.specs.StoredCookie.{stored_of};
ghost use Rattle.user_agent.specs.Refusals as spec;
ghost use Rattle.user_agent.specs.SecurePlaces.{ShowPlaces};

use crate::rules::{Refusal, Rules};
use crate::secure_places::SecurePlaces;
use cookie::{Cookie as RawCookie, Host, Prefix, SameSite};
use cookie_store::utils::is_secure;
use cookie_store::{Cookie, CookieDomain, CookiePath, CookieStore, Error};
use cookie_text::laws::one_outcome;
use jiff::civil::DateTime;
use matching::{domain_matches, path_matches};
use percent_encoding::percent_decode;
use std::alloc::{AllocError, Global};
use url::Url;

/// The first rule that is on and refuses a line of which the cookie was read, received from the URL at `now` by a user
/// agent with this store, whose Secure rows stand at these places. Control characters are another's to find.
///
/// # Errors
///
/// `AllocError` for want of memory, which the rule on overlays alone takes.
pub fn refusal(
    alloc: Global,
    rules: &Rules,
    store: &CookieStore,
    secure: &SecurePlaces,
    url: &Url,
    line: &str,
    cookie: &RawCookie<'_>,
    now: DateTime,
) -> Result<Option<Refusal>, AllocError>
    requires shown { ShowPlaces secure.now (civil_nanos now) store.now.rows }
    requires read { ReadsPlain line.now (Ok cookie.now) }
    ensures found { IfOk result (λ found. MatchOption found
        (spec.IsLetIn rules.now store.now.rows url.now (civil_nanos now) line.now)
        (spec.IsRefusedBy rules.now store.now.rows url.now (civil_nanos now) line.now)) }
    ensures err { OnErr result (IsTrue rules.now.secure_overlay × spec.AsksForOverlay url.now line.now) }
{
    one_outcome();
    cookie_refusal(alloc, rules, store, secure, url, cookie, now)
}

// The first rule that is on and refuses the cookie.
fn cookie_refusal(
    alloc: Global,
    rules: &Rules,
    store: &CookieStore,
    secure: &SecurePlaces,
    url: &Url,
    cookie: &RawCookie<'_>,
    now: DateTime,
) -> Result<Option<Refusal>, AllocError>
    requires { ShowPlaces secure.now (civil_nanos now) store.now.rows }
    ensures found { IfOk result (λ found. MatchOption found
        (spec.NoneOf rules.now (spec.RefusesCookie store.now.rows url.now (civil_nanos now) cookie.now))
        (spec.IsFirstOf rules.now (spec.RefusesCookie store.now.rows url.now (civil_nanos now) cookie.now))) }
    ensures err { OnErr result (IsTrue rules.now.secure_overlay × spec.MayOverlay url.now cookie.now.cookie) }
{
    if rules.too_long && is_too_long(cookie) {
        return Ok(Some(Refusal::TooLong));
    }
    if rules.secure_prefix && breaks_secure_prefix(cookie, url) {
        return Ok(Some(Refusal::SecurePrefix));
    }
    if rules.host_prefix && breaks_host_prefix(cookie, url) {
        return Ok(Some(Refusal::HostPrefix));
    }
    if rules.secure_from_http && is_secure_from_http(cookie, url) {
        return Ok(Some(Refusal::SecureFromHttp));
    }
    if rules.secure_overlay && is_overlay(alloc, store, secure, cookie, url, now)? {
        return Ok(Some(Refusal::SecureOverlay));
    }
    if rules.secure_wins && is_without_secure(cookie, url) {
        return Ok(Some(Refusal::LacksSecure));
    }
    Ok(None)
}

/// Whether the line holds a control character other than a tab.
pub fn has_control(line: &[u8]) -> bool
    ensures { result ≡ list_any spec.is_control line.now }
{
    line.iter().any(|byte| is_control(*byte))
}

fn is_control(byte: u8) -> bool
    ensures { result ≡ spec.is_control byte }
{
    (byte < 32 && byte != b'\t') || byte == 127
}

// Whether name and value have over 4,096 bytes together.
fn is_too_long(cookie: &RawCookie<'_>) -> bool
    ensures { IsTrue result ↔ spec.IsTooLong cookie.now.cookie }
{
    let (name, value) = cookie.name_value();
    name.len() > 4096 || value.len() > 4096 - name.len()
}

// Whether the cookie is against the prefix `__Secure-`.
fn breaks_secure_prefix(cookie: &RawCookie<'_>, url: &Url) -> bool
    ensures { IsTrue result ↔ spec.BreaksSecurePrefix url.now cookie.now }
{
    begins_in_any_case(cookie.name(), b"__secure-")
        && !(is_marked_secure(cookie) && url.scheme() == "https")
}

// Whether the cookie is against the prefix `__Host-`.
fn breaks_host_prefix(cookie: &RawCookie<'_>, url: &Url) -> bool
    ensures { IsTrue result ↔ spec.BreaksHostPrefix url.now cookie.now }
{
    begins_in_any_case(cookie.name(), b"__host-")
        && !(Host::conforms(cookie) && url.scheme() == "https")
}

// Whether the cookie is Secure, and the URL isn't.
fn is_secure_from_http(cookie: &RawCookie<'_>, url: &Url) -> bool
    ensures { IsTrue result ↔ spec.IsSecureFromHttp url.now cookie.now.cookie }
{
    is_marked_secure(cookie) && !is_secure(url)
}

// Whether the cookie asks for Secure and isn't, nor is the URL.
fn is_without_secure(cookie: &RawCookie<'_>, url: &Url) -> bool
    ensures { IsTrue result ↔ spec.IsWithoutSecure url.now cookie.now.cookie }
{
    asks_for_secure(cookie) && !is_marked_secure(cookie) && !is_secure(url)
}

// Whether one of its attributes asks for Secure.
fn asks_for_secure(cookie: &RawCookie<'_>) -> bool
    ensures { result ≡ spec.asks_for_secure cookie.now.cookie }
{
    matches!(cookie.same_site(), Some(SameSite::None)) || cookie.partitioned().unwrap_or(false)
}

/// Whether the cookie is Secure.
pub fn is_marked_secure(cookie: &RawCookie<'_>) -> bool
    ensures { IsTrue result ↔ (cookie.now.cookie.secure ≡ Some true) }
{
    cookie.secure().unwrap_or(false)
}

// Whether the name, percent-decoded, begins with the text, which is in small letters, in letters of any case.
fn begins_in_any_case(name: &str, text: &[u8]) -> bool
    ensures { IsTrue result ↔ spec.BeginsInAnyCase name.now text.now }
{
    let mut decoded = percent_decode(name.as_bytes());
    for byte in text {
        match decoded.next() {
            Some(first) if first.to_ascii_lowercase() == *byte => {}
            _ => return false,
        }
    }
    true
}

// Whether the cookie isn't Secure, came from a URL that isn't, and lies over a Secure row.
fn is_overlay(
    alloc: Global,
    store: &CookieStore,
    secure: &SecurePlaces,
    cookie: &RawCookie<'_>,
    url: &Url,
    now: DateTime,
) -> Result<bool, AllocError>
    requires { ShowPlaces secure.now (civil_nanos now) store.now.rows }
    ensures is { IfOk result (λ is. IsTrue is
        ↔ spec.IsOverlay store.now.rows url.now (civil_nanos now) cookie.now.cookie) }
    ensures err { OnErr result (spec.MayOverlay url.now cookie.now.cookie) }
{
    if is_marked_secure(cookie) || is_secure(url) {
        return Ok(false);
    }
    let Some(domain) = new_domain(alloc, cookie, url)? else {
        return Ok(false);
    };
    let path = new_path(alloc, cookie, url)?;
    secure.overlies(
        alloc,
        store,
        cookie.name(),
        domain.as_str(),
        path.as_str(),
        now,
    )
}

// The text of the domain that the cookie asks for.
fn new_domain(
    alloc: Global,
    cookie: &RawCookie<'_>,
    url: &Url,
) -> Result<Option<String>, AllocError>
    ensures { IfOk result (λ domain. option_map string_bytes domain ≡ spec.new_domain cookie.now.cookie url.now) }
{
    match CookieDomain::from_raw(alloc, cookie) {
        Ok(CookieDomain::HostOnly(text) | CookieDomain::Suffix(text)) => Ok(Some(text)),
        Ok(_) => match url.host_str() {
            Some(host) => Ok(Some(String::from_str(alloc, host)?)),
            None => Ok(None),
        },
        Err(Error::OutOfMemory) => Err(AllocError),
        Err(_) => Ok(None),
    }
}

// The path of the cookie.
fn new_path(alloc: Global, cookie: &RawCookie<'_>, url: &Url) -> Result<CookiePath, AllocError>
    ensures { IfOk result (λ path. path_of path ≡ path_at cookie.now.cookie url.now) }
{
    match cookie.path() {
        Some(path) => CookiePath::new(alloc, path, url),
        None => CookiePath::default_path(alloc, url),
    }
}

/// Whether one of the rows is overlaid by a cookie of this name, domain and path.
pub fn overlies_one(
    store: &CookieStore,
    name: &str,
    domain: &str,
    path: &str,
    now: DateTime,
) -> bool
    ensures { IsTrue result ↔ spec.HasOne (spec.IsOverlaid name.now domain.now path.now (civil_nanos now))
        store.now.rows }
{
    for row in store.iter_any() {
        if is_overlaid(row, name, domain, path, now) {
            return true;
        }
    }
    false
}

// Whether the row is.
fn is_overlaid(row: &Cookie<'static>, name: &str, domain: &str, path: &str, now: DateTime) -> bool
    ensures { IsTrue result
        ↔ spec.IsOverlaid name.now domain.now path.now (civil_nanos now) (stored_of row.now) }
{
    is_secure_and_live(row, now) && lies_under(row, name, domain, path)
}

/// Whether the row is Secure and isn't expired.
pub fn is_secure_and_live(row: &Cookie<'static>, now: DateTime) -> bool
    ensures { IsTrue result ↔ (((stored_of row.now).raw.cookie.secure ≡ Some true)
        × (is_dead (civil_nanos now) (stored_of row.now).death ≡ false)) }
{
    is_marked_secure(row.raw()) && !row.is_expired(now)
}

// Whether the row has the name, decoded, a domain nested with this one, and a path that this one matches.
fn lies_under(row: &Cookie<'static>, name: &str, domain: &str, path: &str) -> bool
    ensures { IsTrue result ↔ ((percent_decode (stored_of row.now).raw.cookie.name ≡ percent_decode name.now)
        × (spec.AreNested domain.now (domain_text (stored_of row.now))
        × PathMatches (stored_of row.now).path.text path.now)) }
{
    are_same_decoded(row.raw().name(), name) && is_reached(row, domain, path)
}

// Whether the row has a domain nested with this one, and a path that this one matches.
fn is_reached(row: &Cookie<'static>, domain: &str, path: &str) -> bool
    ensures { IsTrue result ↔ (spec.AreNested domain.now (domain_text (stored_of row.now))
        × PathMatches (stored_of row.now).path.text path.now) }
{
    are_nested(domain, row_domain(row)) && path_matches(row.path.as_str(), path)
}

/// The text of the row's domain.
pub fn row_domain<'a>(row: &'a Cookie<'static>) -> &'a str
    ensures { result.now ≡ domain_text (stored_of row.now) }
{
    row.domain.as_cow().unwrap_or("")
}

// Whether both texts decode to one.
fn are_same_decoded(a: &str, b: &str) -> bool
    ensures { IsTrue result ↔ (percent_decode a.now ≡ percent_decode b.now) }
{
    let mut other = percent_decode(b.as_bytes());
    for byte in percent_decode(a.as_bytes()) {
        if other.next() != Some(byte) {
            return false;
        }
    }
    other.next().is_none()
}

/// Whether one of the texts domain-matches the other.
pub fn are_nested(a: &str, b: &str) -> bool
    ensures { IsTrue result ↔ spec.AreNested a.now b.now }
{
    domain_matches(a, b) || domain_matches(b, a)
}
