//! Whether a text is plain.
ghost use Rattle.std.specs.Prelude.{◌≡◌, ◌↔◌, ◌⊎◌, IfOk, IsTrue, codes, drop, take, length, []};
ghost use Rattle.std.specs.List.{list_all};
ghost use Rattle.plain_url.specs.Plain as spec;

use std::alloc::{AllocError, Global};
use url::{ParseError, Position, Url};

/// Whether the text is a plain URL: one of `http` or `https`, with no user and no password, that is its URL's own text.
/// Its host has letters, digits and `-._~` alone, or is an address in brackets. The case of scheme and host doesn't
/// count, and `https://shop.test` needs no `/` at its end.
///
/// # Errors
///
/// `AllocError`, for want of memory; a text of more than 4 GB is one too.
pub fn is_plain(alloc: Global, text: &str) -> Result<bool, AllocError>
    ensures { IfOk result (λ plain. IsTrue plain ↔ spec.IsPlain text.now) }
{
    match Url::parse(alloc, text) {
        Ok(url) => Ok(is_plain_of(&url, text)),
        Err(ParseError::OutOfMemory | ParseError::Overflow) => Err(AllocError),
        Err(_) => Ok(false),
    }
}

/// Whether the text, which parses to this URL, is plain, as [`is_plain`] tells it.
pub fn is_plain_of(url: &Url, text: &str) -> bool
    ensures own { IsTrue result ↔ spec.IsOwnText text.now url.now }
    ensures test { result ≡ spec.is_own_text text.now url.now }
{
    is_own(url, text.as_bytes())
}

// Whether the text is the URL's own, which is one of the web without a user.
fn is_own(url: &Url, text: &[u8]) -> bool
    ensures { IsTrue result ↔ spec.IsOwnText text.now url.now }
{
    is_web(url) && has_no_user(url) && has_own_text(url, text)
}

/// Whether a `Location` that leads from a page to this URL is an absolute path which the URL has as it stands, at the
/// page's scheme, host and port.
pub fn is_plain_hop(page: &Url, hop: &Url, location: &str) -> bool
    ensures { IsTrue result ↔ spec.IsHop page.now hop.now location.now }
{
    site(hop) == site(page) && target(hop) == location
}

pub(crate) fn is_web(url: &Url) -> bool
    ensures { IsTrue result ↔ spec.IsWeb url.now }
{
    (url.scheme() == "http" || url.scheme() == "https") && has_plain_host(url)
}

// Whether each reader takes each byte of the host for one.
fn has_plain_host(url: &Url) -> bool
    ensures { IsTrue result ↔ spec.HasPlainHost url.now }
{
    are_host_bytes(host(url).as_bytes())
}

fn are_host_bytes(text: &[u8]) -> bool
    ensures { result ≡ list_all spec.is_host_byte text.now }
{
    text.iter().all(|b| is_host_byte(*b))
}

fn is_host_byte(byte: u8) -> bool
    ensures { result ≡ spec.is_host_byte byte }
{
    byte.is_ascii_alphanumeric() || matches!(byte, b'-' | b'.' | b'_' | b'~' | b'[' | b']' | b':')
}

pub(crate) fn has_no_user(url: &Url) -> bool
    ensures { IsTrue result ↔ spec.HasNoUser url.now }
{
    url.username().is_empty() && url.password().is_none()
}

// Whether the text is the URL's own, but for case up to the authority's end and for a `/` that it lacks.
fn has_own_text(url: &Url, text: &[u8]) -> bool
    ensures { IsTrue result ↔ (spec.SameInAnyCase (take (length (spec.site url.now)) text.now) (spec.site url.now)
        × spec.IsTargetOf (drop (length (spec.site url.now)) text.now) url.now) }
{
    let site = site(url).as_bytes();
    if text.len() < site.len() {
        return false;
    }
    text[..site.len()].eq_ignore_ascii_case(site) && is_target(&text[site.len()..], target(url))
}

// Whether the text is the target, or nothing where that is the path `/` alone.
fn is_target(text: &[u8], target: &str) -> bool
    ensures { IsTrue result ↔ ((text.now ≡ target.now) ⊎ ((text.now ≡ []) × (target.now ≡ codes "/"))) }
{
    text == target.as_bytes() || (text.is_empty() && target == "/")
}

// The host, an IPv6 address with its brackets.
fn host(url: &Url) -> &str
    ensures { result.now ≡ spec.host url.now }
{
    url.slice(Position::BeforeHost, Position::AfterHost)
}

// The scheme, `://` and the authority.
fn site(url: &Url) -> &str
    ensures { result.now ≡ spec.site url.now }
{
    url.slice(Position::BeforeScheme, Position::AfterPort)
}

// The path, the query and the fragment.
fn target(url: &Url) -> &str
    ensures { result.now ≡ spec.target url.now }
{
    url.slice(Position::BeforePath, Position::AfterFragment)
}
