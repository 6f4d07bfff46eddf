//! Rows with their domains in IDNA form (RFC 6265, section 5.1.2).
ghost use Rattle.std.specs.Prelude.{◌≡◌, IfOk, option_map, string_bytes};
ghost use Rattle.std.specs.Result.{result_ok};
ghost use Rattle.cookie_store.specs.StoredCookie.{stored_of};
ghost use Rattle.store_parts.specs.DomainMatch.{domain_of};
ghost use Rattle.store_parts.specs.DomainText.{read_domain};
ghost use Rattle.cookie_jar.specs.Entries.{row_of};
ghost use Rattle.cookie_jar.specs.RowForms as spec;

use crate::importing::Cause;
use cookie_store::{Cookie, CookieDomain, Error};
use cookies_txt::LineFault;
use std::alloc::{AllocError, Global};

/// The row with its domain in IDNA form: in small letters, without white space at its ends and without one dot in
/// front. Or why it has none: there is no domain, or it has no such form, or still begins with a dot.
///
/// # Errors
///
/// `AllocError`, for want of memory.
pub(crate) fn in_form(
    alloc: Global,
    cookie: Cookie<'static>,
) -> Result<Result<Cookie<'static>, Cause>, AllocError>
    ensures { IfOk result (λ row. row_of row ≡ spec.row_in_form (stored_of cookie.entry)) }
{
    match domain_in_form(alloc, &cookie.domain)? {
        Ok(domain) => Ok(Ok(with_domain(cookie, domain))),
        Err(cause) => Ok(Err(cause)),
    }
}

fn with_domain(cookie: Cookie<'static>, domain: CookieDomain) -> Cookie<'static>
    ensures { stored_of result ≡ record (stored_of cookie.entry) { domain = domain_of domain } }
{
    let mut cookie = cookie;
    cookie.domain = domain;
    cookie
}

fn domain_in_form(
    alloc: Global,
    domain: &CookieDomain,
) -> Result<Result<CookieDomain, Cause>, AllocError>
    ensures { IfOk result (λ found.
        option_map domain_of (result_ok found) ≡ spec.domain_in_form (domain_of domain.now)) }
{
    match domain {
        CookieDomain::HostOnly(host) => match form_or_cause(alloc, host.as_str())? {
            Ok(form) => Ok(Ok(CookieDomain::HostOnly(form))),
            Err(cause) => Ok(Err(cause)),
        },
        CookieDomain::Suffix(text) => match form_or_cause(alloc, text.as_str())? {
            Ok(form) => Ok(Ok(CookieDomain::Suffix(form))),
            Err(cause) => Ok(Err(cause)),
        },
        CookieDomain::NotPresent | CookieDomain::Empty => {
            Ok(Err(Cause::Faulty(LineFault::EmptyDomain)))
        }
    }
}

// The form of a domain's text.
fn form_or_cause(alloc: Global, text: &str) -> Result<Result<String, Cause>, AllocError>
    ensures { IfOk result (λ form.
        option_map string_bytes (result_ok form) ≡ spec.form_in (read_domain text.now)) }
{
    match CookieDomain::from_text(alloc, text) {
        Ok(CookieDomain::Suffix(form)) => Ok(unless_dotted(form)),
        Ok(CookieDomain::Empty) => Ok(Err(Cause::Faulty(LineFault::EmptyDomain))),
        Err(Error::OutOfMemory) => Err(AllocError),
        Ok(_) | Err(_) => Ok(Err(Cause::Faulty(LineFault::Domain))),
    }
}

fn unless_dotted(form: String) -> Result<String, Cause>
    ensures { option_map string_bytes (result_ok result) ≡ spec.unless_dotted (string_bytes form) }
{
    match form.as_bytes() {
        [b'.', ..] => Err(Cause::Faulty(LineFault::Domain)),
        _ => Ok(form),
    }
}
