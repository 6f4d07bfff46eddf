//! The cookies that a client holds, as they cross to C.
ghost use Rattle.std.specs.Prelude.{◌≡◌, ◌++◌, length, IfOk, OnOk, option_map, option_copied};
ghost use Rattle.jiff.specs.Words.{civil_nanos};
ghost use Rattle.store_parts.specs.DomainMatch.{domain_of};
ghost use Rattle.store_parts.specs.Expiry.{death_of};
ghost use Rattle.cookie_store.specs.Rows.{live};
ghost use Rattle.cookie_store.specs.StoredCookie.{stored_of};
ghost use Rattle.fonnalich_c.specs.Listing as spec;
ghost use Rattle.fonnalich_c.specs.Parts.{seconds_of};

use crate::attributes::{is_set, site_number};
use crate::given::second_of;
use crate::item::push_item;
use cookie_client::Client;
use cookie_store::{Cookie, CookieDomain, CookieExpiration, IterUnexpired};
use jiff::civil::DateTime;
use std::alloc::{AllocError, Global};

/// The items of the cookies that aren't expired at `now`.
pub(crate) fn listing(alloc: Global, client: &Client, now: DateTime) -> Result<Vec<u8>, AllocError>
    ensures { IfOk result (λ answer. answer.items ≡ spec.rows_text (live (civil_nanos now) client.now.rows)) }
{
    rows_text(alloc, client.store().iter_unexpired(now))
}

// The items of these cookies.
fn rows_text(alloc: Global, cookies: IterUnexpired<'_>) -> Result<Vec<u8>, AllocError>
    ensures { IfOk result (λ answer. answer.items ≡ spec.rows_text cookies.entry) }
{
    let mut answer = Vec::new(alloc);
    for cookie in cookies {
        push_row(&mut answer, cookie)?;
    }
    Ok(answer)
}

/// How many cookies aren't expired at `now`. No memory holds so many that they aren't counted.
pub(crate) fn count_of(client: &Client, now: DateTime) -> Result<u64, AllocError>
    ensures { IfOk result (λ count. count ≡ length (live (civil_nanos now) client.now.rows)) }
{
    counted(client.store().iter_unexpired(now))
}

fn counted(cookies: IterUnexpired<'_>) -> Result<u64, AllocError>
    ensures { IfOk result (λ count. count ≡ length cookies.entry) }
{
    let mut count: u64 = 0;
    for _cookie in cookies {
        let Some(more) = count.checked_add(1) else {
            return Err(AllocError);
        };
        count = more;
    }
    Ok(count)
}

/// The items of a cookie that there may be.
pub(crate) fn found_text(
    alloc: Global,
    cookie: Option<&Cookie<'static>>,
) -> Result<Vec<u8>, AllocError>
    ensures { IfOk result (λ answer. answer.items
        ≡ spec.found_text (option_map stored_of (option_copied cookie.entry))) }
{
    let mut answer = Vec::new(alloc);
    if let Some(cookie) = cookie {
        push_row(&mut answer, cookie)?;
    }
    Ok(answer)
}

// Puts the items of a cookie behind those of others.
fn push_row(answer: &mut Vec<u8>, cookie: &Cookie<'static>) -> Result<(), AllocError>
    ensures { OnOk result (answer.new.items ≡ answer.old.items ++ spec.row_text (stored_of cookie.now)) }
{
    push_texts(answer, cookie)?;
    push_traits(answer, cookie)
}

// Puts the items of a cookie's texts there.
fn push_texts(answer: &mut Vec<u8>, cookie: &Cookie<'static>) -> Result<(), AllocError>
    ensures { OnOk result (answer.new.items ≡ answer.old.items ++ spec.texts_text (stored_of cookie.now)) }
{
    push_item(answer, cookie.domain.as_cow().unwrap_or("").as_bytes())?;
    push_item(answer, cookie.path.as_str().as_bytes())?;
    push_item(answer, cookie.raw().name().as_bytes())?;
    push_item(answer, cookie.raw().value().as_bytes())
}

// Puts the items of what else is known of a cookie there.
fn push_traits(answer: &mut Vec<u8>, cookie: &Cookie<'static>) -> Result<(), AllocError>
    ensures { OnOk result (answer.new.items ≡ answer.old.items ++ spec.traits_text (stored_of cookie.now)) }
{
    push_item(answer, &end_of(cookie))?;
    push_item(answer, &flags_of(cookie))
}

// The second of a cookie's end, in bytes.
fn end_of(cookie: &Cookie<'static>) -> [u8; 8]
    ensures { result ≡ spec.end_of (stored_of cookie.now) }
{
    second_of_end(&cookie.expires).to_le_bytes()
}

// A byte for each flag of a cookie.
fn flags_of(cookie: &Cookie<'static>) -> [u8; 6]
    ensures { result ≡ spec.flags_of (stored_of cookie.now) }
{
    let raw = cookie.raw();
    let has_end = bit(cookie.is_persistent());
    let host_only = bit(is_host_only(&cookie.domain));
    let secure = bit(is_set(raw.secure()));
    let http_only = bit(is_set(raw.http_only()));
    let partitioned = bit(is_set(raw.partitioned()));
    let site = site_number(raw.same_site());
    [has_end, host_only, secure, http_only, partitioned, site]
}

// The second of a cookie's end, and 0 where that is the session's.
fn second_of_end(end: &CookieExpiration) -> i64
    ensures { result ≡ seconds_of (death_of end.now) }
{
    match end {
        CookieExpiration::AtUtc(at) => second_of(*at),
        CookieExpiration::SessionEnd => 0,
    }
}

// Whether the domain is one host alone.
fn is_host_only(domain: &CookieDomain) -> bool
    ensures { result ≡ spec.is_host_only (domain_of domain.now) }
{
    matches!(domain, CookieDomain::HostOnly(_))
}

fn bit(is: bool) -> u8
    ensures { result ≡ spec.bit is }
{
    if is { 1 } else { 0 }
}
