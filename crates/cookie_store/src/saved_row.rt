//! A row of a saved text and a cookie of a store, each made of the other.
ghost use Rattle.std.specs.Prelude.{◌≡◌, Ok, List, ℕ, Option, IfOk, IfErr, MatchOption};
ghost use Rattle.std.specs.Str.{IsUtf8};
ghost use Rattle.cookie_text.specs.Reading.{ReadsPlain};
ghost use Rattle.cookie_text.specs.Record.{Seen, unsliced};
ghost use Rattle.saved_text.specs.Row.{Shown};
ghost use Rattle.saved_text.specs.Saved.{shown, domain_shown as domain_text, expires_shown, IsCookieText, IsShown};
ghost use Rattle.saved_text.specs.Saved.{IsDeath};
ghost use Rattle.store_parts.specs.DomainMatch.{domain_of};
ghost use Rattle.store_parts.specs.Expiry.{death_of};
ghost use Rattle.cookie_store.specs.SavedRows.{IsShownAs, IsLoadedFrom, IsExpiryOf, IsDeathOf, IsBeforeYears};
ghost use Rattle.cookie_store.specs.SavedRows.{domain_shown};
ghost use Rattle.cookie_store.specs.SavedTexts.{IsRowFault};
ghost use Rattle.cookie_store.specs.StoredCookie.{stored_of};

use crate::stored_cookie::Cookie;
use cookie::Cookie as RawCookie;
use saved_text::{SavedDomain, SavedExpiration, SavedRow};
use std::alloc::{AllocError, Global};
use store_parts::{CookieDomain, CookieExpiration, CookiePath, Error};

// ---- saving

/// The row that is saved of a cookie.
///
/// # Errors
///
/// `Year` where the cookie's end is of a year below 0, `OutOfMemory`.
pub(crate) fn saved_of(alloc: Global, cookie: &Cookie<'_>) -> Result<SavedRow, Error>
    ensures ok { IfOk result (λ row. IsShownAs (stored_of cookie.now) (shown row)) }
    ensures err { IfErr result (IsRowFault (stored_of cookie.now).death) }
{
    let Some(expires) = expires_of(cookie.expires) else {
        return Err(Error::Year);
    };
    Ok(SavedRow {
        raw_cookie: cookie.raw().to_string(alloc)?,
        path: cookie.path.to_text(alloc)?,
        is_from_path_attr: cookie.path.is_from_path_attr(),
        domain: saved_domain(alloc, &cookie.domain)?,
        expires,
    })
}

// The end of a cookie as it is saved, unless it is of a year below 0.
fn expires_of(expires: CookieExpiration) -> Option<SavedExpiration>
    ensures { MatchOption result (IsBeforeYears (death_of expires))
        (λ e. IsExpiryOf (death_of expires) (expires_shown e)) }
{
    match expires {
        CookieExpiration::AtUtc(moment) => {
            if moment.year() < 0 {
                return None;
            }
            Some(SavedExpiration::AtUtc(moment))
        }
        CookieExpiration::SessionEnd => Some(SavedExpiration::SessionEnd),
    }
}

fn saved_domain(alloc: Global, domain: &CookieDomain) -> Result<SavedDomain, AllocError>
    ensures { IfOk result (λ d. domain_text d ≡ domain_shown (domain_of domain.now)) }
{
    match domain {
        CookieDomain::HostOnly(host) => Ok(SavedDomain::HostOnly(String::from_str(
            alloc,
            host.as_str(),
        )?)),
        CookieDomain::Suffix(text) => Ok(SavedDomain::Suffix(String::from_str(
            alloc,
            text.as_str(),
        )?)),
        CookieDomain::NotPresent => Ok(SavedDomain::NotPresent),
        CookieDomain::Empty => Ok(SavedDomain::Empty),
    }
}

// ---- loading

/// The cookie that a saved row is, owning its texts.
pub(crate) fn loaded_of(alloc: Global, row: SavedRow) -> Result<Cookie<'static>, AllocError>
    requires { IsCookieText (shown row).raw }
    ensures { IfOk result (λ cookie. (t : Shown) → IsShown t row → IsLoadedFrom t (stored_of cookie)) }
{
    let SavedRow {
        raw_cookie,
        path,
        is_from_path_attr,
        domain,
        expires,
    } = row;
    Ok(Cookie::from_parts(
        raw_of(alloc, raw_cookie.as_str())?,
        CookiePath::from_parts(path, is_from_path_attr),
        loaded_domain(domain),
        loaded_expires(expires),
    ))
}

// The cookie that a text reads as, owning its texts.
fn raw_of(alloc: Global, text: &str) -> Result<RawCookie<'static>, AllocError>
    requires { IsCookieText text.now }
    ensures { IfOk result (λ raw. (s : Seen) × IsUtf8 text.now × ReadsPlain text.now (Ok s)
        × (raw ≡ unsliced s.cookie)) }
{
    match RawCookie::parse(text) {
        Ok(cookie) => cookie.into_owned(alloc),
        Err(_) => unreachable!(),
    }
}

fn loaded_domain(domain: SavedDomain) -> CookieDomain
    ensures { domain_shown (domain_of result) ≡ domain_text domain }
{
    match domain {
        SavedDomain::HostOnly(host) => CookieDomain::HostOnly(host),
        SavedDomain::Suffix(text) => CookieDomain::Suffix(text),
        SavedDomain::NotPresent => CookieDomain::NotPresent,
        SavedDomain::Empty => CookieDomain::Empty,
    }
}

fn loaded_expires(expires: SavedExpiration) -> CookieExpiration
    ensures { (date : Option (List ℕ)) → IsDeath date expires → IsDeathOf date (death_of result) }
{
    match expires {
        SavedExpiration::AtUtc(moment) => CookieExpiration::AtUtc(moment),
        SavedExpiration::SessionEnd => CookieExpiration::SessionEnd,
    }
}
