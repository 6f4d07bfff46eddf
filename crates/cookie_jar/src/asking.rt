//! Rows that are asked for by a domain, by a name, or as they are printed.
ghost use Rattle.std.specs.Prelude.{◌≡◌, IfOk, option_copied, option_map, string_bytes};
ghost use Rattle.std.specs.List.{find};
ghost use Rattle.std.specs.Str.{bytes_eq};
ghost use Rattle.jiff.specs.Words.{civil_nanos};
ghost use Rattle.store_parts.specs.DomainMatch.{DomainMatches, domain_of, text_of};
ghost use Rattle.cookie_store.specs.Given.{ArePicked};
ghost use Rattle.cookie_store.specs.Rows.{domain_text, key, key_of, live};
ghost use Rattle.cookie_store.specs.StoredCookie.{stored_of};
ghost use Rattle.cookie_jar.specs.Asking as spec;
ghost use Rattle.cookie_jar.specs.Rows.{lent_rows};
ghost use Rattle.cookie_jar.specs.Terminal.{shown};

use crate::listing::push_domain;
use crate::rows::live_rows;
use crate::terminal::Shown;
use cookie_store::{Cookie, CookieDomain, CookieStore, Error};
use jiff::civil::DateTime;
use matching::domain_matches;
use std::alloc::{AllocError, Global};
use url::Url;

/// The rows that are listed.
#[derive(Debug, Drop)]
pub enum Which<'a> {
    /// All that aren't expired.
    All,
    /// Those that a request to this URL gets, with longer paths first.
    For(Url),
    /// Those that aren't expired and whose domain domain-matches this one (RFC 6265, section 5.1.3): it is the same, or
    /// ends in it behind a dot. The text is put into its IDNA form, without white space at its ends and without one dot
    /// in front; one that has none lists no row.
    Under(&'a str),
}

/// Which rows of a store are listed at `now`.
pub(crate) fn rows_listed<'s>(
    alloc: Global,
    store: &'s CookieStore,
    which: &Which<'_>,
    now: DateTime,
) -> Result<Vec<&'s Cookie<'static>>, AllocError>
    ensures { IfOk result (λ rows.
        spec.AreListed which.now (civil_nanos now) store.now.rows (lent_rows rows.items)) }
{
    match which {
        Which::All => live_rows(alloc, store, now),
        Which::For(url) => store.matches_longest(url, now),
        Which::Under(domain) => rows_under(alloc, store, domain, now),
    }
}

// The rows that aren't expired at `now` and whose domain domain-matches that of the text, in their order. A text
// without an IDNA form has none.
#[tactic(auto, using(crate::proofs::AskingLemmas::under_none))]
fn rows_under<'a>(
    alloc: Global,
    store: &'a CookieStore,
    domain: &str,
    now: DateTime,
) -> Result<Vec<&'a Cookie<'static>>, AllocError>
    ensures { IfOk result (λ rows. spec.AreUnder domain.now
        (live (civil_nanos now) store.now.rows) (lent_rows rows.items)) }
{
    match domain_form(alloc, domain)? {
        Some(form) => rows_matching(alloc, store, form.as_str(), now),
        None => Ok(Vec::new(alloc)),
    }
}

// The text of the domain that a text gives, where it gives one.
fn domain_form(alloc: Global, text: &str) -> Result<Option<String>, AllocError>
    ensures { IfOk result (λ form. option_map string_bytes form ≡ spec.domain_form text.now) }
{
    match CookieDomain::from_text(alloc, text) {
        Ok(domain) => domain_text(alloc, &domain),
        Err(Error::OutOfMemory) => Err(AllocError),
        Err(_) => Ok(None),
    }
}

fn domain_text(alloc: Global, domain: &CookieDomain) -> Result<Option<String>, AllocError>
    ensures { IfOk result (λ text. option_map string_bytes text ≡ text_of (domain_of domain.now)) }
{
    match domain.as_cow() {
        Some(text) => Ok(Some(String::from_str(alloc, text)?)),
        None => Ok(None),
    }
}

fn rows_matching<'a>(
    alloc: Global,
    store: &'a CookieStore,
    domain: &str,
    now: DateTime,
) -> Result<Vec<&'a Cookie<'static>>, AllocError>
    ensures { IfOk result (λ rows. ArePicked (λ row. DomainMatches (domain_text row) domain.now)
        (live (civil_nanos now) store.now.rows) (lent_rows rows.items)) }
{
    let mut rows = Vec::new(alloc);
    for cookie in store.iter_unexpired(now) {
        if domain_matches(text_of_domain(cookie), domain) {
            rows.push(cookie)?;
        }
    }
    Ok(rows)
}

// The text of the row's domain, nothing where it has none.
fn text_of_domain<'c>(cookie: &'c Cookie<'static>) -> &'c str
    ensures { result.now ≡ domain_text (stored_of cookie.now) }
{
    cookie.domain.as_cow().unwrap_or("")
}

/// The value of the first of the cookies that has this name.
#[tactic(auto, using(crate::proofs::AskingLemmas::value_is, crate::proofs::AskingLemmas::value_none))]
pub(crate) fn first_value(
    alloc: Global,
    cookies: Vec<&Cookie<'static>>,
    name: &str,
) -> Result<Option<String>, AllocError>
    ensures { IfOk result (λ value.
        option_map string_bytes value ≡ spec.first_value name.now (lent_rows cookies.entry.items)) }
{
    match first_of_name(cookies, name) {
        Some(cookie) => Ok(Some(String::from_str(alloc, cookie.raw().value())?)),
        None => Ok(None),
    }
}

fn first_of_name<'a>(cookies: Vec<&'a Cookie<'static>>, name: &str) -> Option<&'a Cookie<'static>>
    ensures { option_map stored_of (option_copied result)
        ≡ find (spec.has_name name.now) (lent_rows cookies.entry.items) }
{
    for cookie in cookies {
        if has_name(cookie, name) {
            return Some(cookie);
        }
    }
    None
}

fn has_name(cookie: &Cookie<'static>, name: &str) -> bool
    ensures { result ≡ spec.has_name name.now (stored_of cookie.now) }
{
    cookie.raw().name() == name
}

/// The row of this key, else the first that is printed so.
#[tactic(auto, using(crate::proofs::AskingLemmas::meant_key, crate::proofs::AskingLemmas::meant_printed))]
pub(crate) fn meant<'a>(
    alloc: Global,
    store: &'a CookieStore,
    domain: &str,
    path: &str,
    name: &str,
) -> Result<Option<&'a Cookie<'static>>, AllocError>
    ensures { IfOk result (λ row. option_map stored_of (option_copied row)
        ≡ spec.meant domain.now path.now name.now store.now.rows) }
{
    match store.get_any(domain, path, name) {
        Some(cookie) => Ok(Some(cookie)),
        None => printed_so(alloc, store, domain, path, name),
    }
}

// The first row whose domain, path and name are printed so.
fn printed_so<'a>(
    alloc: Global,
    store: &'a CookieStore,
    domain: &str,
    path: &str,
    name: &str,
) -> Result<Option<&'a Cookie<'static>>, AllocError>
    ensures { IfOk result (λ row. option_map stored_of (option_copied row)
        ≡ find (spec.is_printed_so domain.now path.now name.now) store.now.rows) }
{
    for cookie in store.iter_any() {
        if is_printed_so(alloc, cookie, domain, path, name)? {
            return Ok(Some(cookie));
        }
    }
    Ok(None)
}

/// The texts of the row's key.
pub(crate) fn key_texts(
    alloc: Global,
    cookie: &Cookie<'static>,
) -> Result<(String, String, String), AllocError>
    ensures { IfOk result (λ texts. key (string_bytes texts.0) (string_bytes texts.1) (string_bytes texts.2)
        ≡ key_of (stored_of cookie.now)) }
{
    let domain = cookie.domain.to_text(alloc)?;
    let path = String::from_str(alloc, cookie.path.as_str())?;
    let name = String::from_str(alloc, cookie.raw().name())?;
    Ok((domain, path, name))
}

fn is_printed_so(
    alloc: Global,
    cookie: &Cookie<'static>,
    domain: &str,
    path: &str,
    name: &str,
) -> Result<bool, AllocError>
    ensures { IfOk result (λ so. so
        ≡ spec.is_printed_so domain.now path.now name.now (stored_of cookie.now)) }
{
    Ok(
        is_shown(alloc, cookie.raw().name(), name)?
            && is_shown(alloc, cookie.path.as_str(), path)?
            && is_domain_shown(alloc, cookie, domain)?,
    )
}

// Whether the row's domain is printed so, with its dot in front or without.
fn is_domain_shown(alloc: Global, cookie: &Cookie<'static>, word: &str) -> Result<bool, AllocError>
    ensures { IfOk result (λ so. so ≡ spec.has_domain_printed word.now (stored_of cookie.now)) }
{
    let mut field = Shown::new(alloc);
    push_domain(&mut field, cookie)?;
    Ok(field.as_str() == word || is_shown(alloc, text_of_domain(cookie), word)?)
}

// Whether the text is printed so.
fn is_shown(alloc: Global, text: &str, word: &str) -> Result<bool, AllocError>
    ensures { IfOk result (λ so. so ≡ bytes_eq (shown text.now) word.now) }
{
    let mut field = Shown::new(alloc);
    field.bytes(text.as_bytes())?;
    Ok(field.as_str() == word)
}
