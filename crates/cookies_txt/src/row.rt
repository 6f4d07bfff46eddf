//! Which rows a line holds.
ghost use Rattle.std.specs.Prelude.{◌≡◌};
ghost use Rattle.cookie_store.specs.StoredCookie.{stored_of};
ghost use Rattle.store_parts.specs.DomainMatch.{domain_of};
ghost use Rattle.cookies_txt.specs.Writing as spec;

use crate::error::RowFault;
use cookie_store::{Cookie, CookieDomain};

/// Why a line can't hold the row, where that is so.
#[tactic(auto, unfolding(crate::specs::Writing::row_fault))]
pub fn row_fault(cookie: &Cookie<'static>) -> Option<RowFault>
    ensures { result ≡ spec.row_fault (stored_of cookie.now) }
{
    if let Some(fault) = domain_fault(&cookie.domain) {
        return Some(fault);
    }
    let domain = cookie.domain.as_cow().unwrap_or("");
    let raw = cookie.raw();
    text_fault(domain, cookie.path.as_str(), raw.name(), raw.value())
}

fn domain_fault(domain: &CookieDomain) -> Option<RowFault>
    ensures { result ≡ spec.domain_fault (domain_of domain.now) }
{
    match domain {
        CookieDomain::HostOnly(host) => host_fault(host.as_str()),
        CookieDomain::Suffix(text) if text.is_empty() => Some(RowFault::NoDomain),
        CookieDomain::Suffix(_) => None,
        CookieDomain::NotPresent | CookieDomain::Empty => Some(RowFault::NoDomain),
    }
}

fn host_fault(host: &str) -> Option<RowFault>
    ensures { result ≡ spec.host_fault host.now }
{
    match host.as_bytes() {
        [] => Some(RowFault::NoDomain),
        [b'#' | b'.', ..] => Some(RowFault::HostSign),
        [b, ..] if b.is_ascii_whitespace() => Some(RowFault::HostSign),
        _ => None,
    }
}

fn text_fault(domain: &str, path: &str, name: &str, value: &str) -> Option<RowFault>
    ensures { result ≡ spec.text_fault domain.now path.now name.now value.now }
{
    if !begins_with_slash(path) {
        return Some(RowFault::NoSlash);
    }
    if name.is_empty() {
        return Some(RowFault::EmptyName);
    }
    if has_separator(domain) || has_separator(path) || has_separator(name) || has_separator(value) {
        return Some(RowFault::Separator);
    }
    if ends_in_return(value) {
        return Some(RowFault::CarriageReturn);
    }
    None
}

pub(crate) fn begins_with_slash(path: &str) -> bool
    ensures { result ≡ spec.begins_with_slash path.now }
{
    matches!(path.as_bytes(), [b'/', ..])
}

fn has_separator(text: &str) -> bool
    ensures { result ≡ spec.has_separator text.now }
{
    text.as_bytes().iter().any(|b| *b == b'\t' || *b == b'\n')
}

fn ends_in_return(text: &str) -> bool
    ensures { result ≡ spec.ends_in_return text.now }
{
    matches!(text.as_bytes(), [.., b'\r'])
}
