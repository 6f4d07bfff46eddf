//! The domain of a cookie, and which hosts it covers (RFC 6265, section 5.1.3).
ghost use Rattle.std.specs.Prelude.{◌≡◌, ◌↔◌, None, IsTrue, IfOk, IsOk, IsSomeAnd, MatchOption, MatchResult};
ghost use Rattle.std.specs.Prelude.{option_copied, string_bytes};
ghost use Rattle.cookie_text.specs.Record.{domain_of as domain_attribute, without_dot};
ghost use Rattle.store_parts.specs.DomainMatch as spec;
ghost use Rattle.store_parts.specs.DomainMatch.{domain_of};
ghost use Rattle.store_parts.specs.DomainOrder as order;
ghost use Rattle.store_parts.specs.DomainText as text_spec;
ghost use Rattle.store_parts.specs.Schemes.{host_of};
ghost use Rattle.store_parts.specs.Steps.{GivesForm};
ghost use Rattle.std.proofs.Common.{rules};
ghost use Rattle.std.specs.Cmp.{partial_order_from_own_ties};
ghost use Rattle.std.specs.Cmp.Rules.{comparing, hashing};
ghost use Rattle.std.specs.Ordering.{as_partial_cmp};

use crate::error::{CookieError, Error, IdnaErrors};
use cookie::Cookie as RawCookie;
use idna::{AsciiDenyList, domain_to_ascii_cow};
use matching::domain_matches;
use publicsuffix::List;
use std::alloc::{AllocError, Global};
use std::borrow::CowStr;
use std::cmp::Ordering;
use std::hash::{Hash, Hasher};
use url::Url;

/// Whether the domain that the text gives covers the URL's host. A text that gives none covers no
/// host.
///
/// # Errors
///
/// `AllocError`, for want of memory: the text is put into IDNA form.
pub fn is_match(alloc: Global, domain: &str, request_url: &Url) -> Result<bool, AllocError>
    ensures { IfOk result (λ covers. IsTrue covers
        ↔ IsSomeAnd (text_spec.read_domain domain.now) (λ d. spec.CoversAt d request_url.now)) }
{
    match CookieDomain::from_text(alloc, domain) {
        Ok(domain) => Ok(domain.matches(request_url)),
        Err(Error::OutOfMemory) => Err(AllocError),
        Err(_) => Ok(false),
    }
}

/// The domain of a cookie.
#[derive(Debug, Drop)]
pub enum CookieDomain {
    /// This host alone: there was no Domain attribute, or an empty one.
    HostOnly(String),
    /// This host and those below it, by a Domain attribute.
    Suffix(String),
    /// There was no Domain attribute.
    NotPresent,
    /// The Domain attribute was empty.
    Empty,
}

impl CookieDomain {
    /// The URL's host alone, an IPv6 address between brackets.
    ///
    /// # Errors
    ///
    /// `NonRelativeScheme` where the URL has no host, else only want of memory.
    pub fn host_only(alloc: Global, request_url: &Url) -> Result<CookieDomain, CookieError>
        ensures { MatchOption (host_of request_url.now)
            (result ≡ Err CookieError.NonRelativeScheme)
            (λ host. MatchResult result (λ d. domain_of d ≡ spec.host_only host)
            (λ e. e ≡ CookieError.OutOfMemory)) }
    {
        match request_url.host_str() {
            Some(host) => Ok(CookieDomain::HostOnly(String::from_str(alloc, host)?)),
            None => Err(CookieError::NonRelativeScheme),
        }
    }

    /// Whether the domain covers the URL's host (RFC 6265, section 5.1.3). A URL without a host
    /// is never covered, and `NotPresent` and `Empty` cover none.
    pub fn matches(&self, request_url: &Url) -> bool
        ensures { IsTrue result ↔ spec.CoversAt (domain_of self.now) request_url.now }
    {
        match request_url.host_str() {
            Some(host) => self.covers(host),
            None => false,
        }
    }

    // Whether the domain covers the host.
    fn covers(&self, host: &str) -> bool
        ensures { IsTrue result ↔ spec.Covers (domain_of self.now) host.now }
    {
        match self {
            CookieDomain::HostOnly(text) => text.as_str() == host,
            CookieDomain::Suffix(text) => domain_matches(host, text.as_str()),
            CookieDomain::NotPresent | CookieDomain::Empty => false,
        }
    }

    /// Whether the URL's host is the domain's text.
    pub fn host_is_identical(&self, request_url: &Url) -> bool
        ensures { IsTrue result ↔ spec.IsHostOf (domain_of self.now) request_url.now }
    {
        match (request_url.host_str(), self.as_cow()) {
            (Some(host), Some(text)) => text == host,
            _ => false,
        }
    }

    /// The domain's text, which `NotPresent` and `Empty` don't have.
    pub fn as_cow(&self) -> Option<&str>
        ensures { option_copied result ≡ spec.text_of (domain_of self.now) }
    {
        match self {
            CookieDomain::HostOnly(text) | CookieDomain::Suffix(text) => Some(text.as_str()),
            CookieDomain::NotPresent | CookieDomain::Empty => None,
        }
    }

    /// Whether the domain has a text and the list lists it.
    pub fn is_public_suffix(&self, list: &List) -> bool
        ensures { IsTrue result ↔ spec.IsListedIn (domain_of self.now) list.now }
    {
        match self.as_cow() {
            Some(text) => list.is_listed(text.as_bytes()),
            None => false,
        }
    }

    /// The domain that a text gives: its IDNA form, without white space at its ends and without
    /// one dot in front. That is a `Suffix`, or `Empty` where nothing is left.
    ///
    /// # Errors
    ///
    /// `Idna` where the text has no IDNA form, else only `OutOfMemory`.
    pub fn from_text(alloc: Global, text: &str) -> Result<CookieDomain, Error>
        ensures { text_spec.ReadsDomain (text_spec.read_domain text.now) result }
    {
        let form = idna_form(alloc, text)?;
        Ok(suffix_or_empty(alloc, without_leading_dot(form.as_str()))?)
    }

    /// The domain of a cookie's Domain attribute: `NotPresent` where there is none, else the IDNA
    /// form of what `domain()` answers, from which no further dot is taken. That is a `Suffix`, or
    /// `Empty`.
    ///
    /// # Errors
    ///
    /// `Idna` where the attribute has no IDNA form, else only `OutOfMemory`, which is never answered
    /// where there is no attribute.
    pub fn from_raw(alloc: Global, raw_cookie: &RawCookie<'_>) -> Result<CookieDomain, Error>
        ensures domain { text_spec.ReadsDomain
            (text_spec.attribute_domain (domain_attribute raw_cookie.now.cookie)) result }
        ensures takes_none { domain_attribute raw_cookie.now.cookie ≡ None → IsOk result }
    {
        match raw_cookie.domain() {
            Some(domain) => {
                let form = idna_form(alloc, domain)?;
                Ok(suffix_or_empty(alloc, form.as_str())?)
            }
            None => Ok(CookieDomain::NotPresent),
        }
    }

    /// The domain's text, owned, which is empty for `NotPresent` and `Empty`.
    ///
    /// # Errors
    ///
    /// `AllocError`, for want of memory.
    pub fn to_text(&self, alloc: Global) -> Result<String, AllocError>
        ensures { IfOk result (λ text. string_bytes text ≡ spec.text_or_empty (domain_of self.now)) }
    {
        String::from_str(alloc, self.as_cow().unwrap_or(""))
    }

    /// A copy of the domain.
    ///
    /// # Errors
    ///
    /// `AllocError`, for want of memory.
    pub fn clone(&self, alloc: Global) -> Result<CookieDomain, AllocError>
        ensures { IfOk result (λ domain. domain_of domain ≡ domain_of self.now) }
    {
        match self {
            CookieDomain::HostOnly(text) => {
                Ok(CookieDomain::HostOnly(String::from_str(alloc, text.as_str())?))
            }
            CookieDomain::Suffix(text) => {
                Ok(CookieDomain::Suffix(String::from_str(alloc, text.as_str())?))
            }
            CookieDomain::NotPresent => Ok(CookieDomain::NotPresent),
            CookieDomain::Empty => Ok(CookieDomain::Empty),
        }
    }
}

// The kind's place among the variants, and the text, which is empty where there is none.
fn kind_and_text(domain: &CookieDomain) -> (u8, &str)
    ensures kind { result.0 ≡ order.kind_of domain.now }
    ensures text { result.1.now ≡ order.shown_text domain.now }
{
    match domain {
        CookieDomain::HostOnly(text) => (0, text.as_str()),
        CookieDomain::Suffix(text) => (1, text.as_str()),
        CookieDomain::NotPresent => (2, ""),
        CookieDomain::Empty => (3, ""),
    }
}

impl PartialEq for CookieDomain {
    ghost eq = { order.domain_eq };

    ghost laws = { Prim.search (comparing, rules) };

    fn eq(&self, other: &CookieDomain) -> bool
        ensures value { result ≡ order.domain_eq self.now other.now }
        ensures same { IsTrue result ↔ (domain_of self.now ≡ domain_of other.now) }
    {
        let (kind, text) = kind_and_text(self);
        let (other_kind, other_text) = kind_and_text(other);
        kind == other_kind && text == other_text
    }
}

impl Eq for CookieDomain {
    ghost laws = { Prim.search (comparing, rules) };
}

impl PartialOrd for CookieDomain {
    ghost partial_cmp = { as_partial_cmp order.domain_cmp };

    ghost laws = { partial_order_from_own_ties (Prim.search (comparing, rules))
        (Prim.search (comparing, rules)) };

    fn partial_cmp(&self, other: &CookieDomain) -> Option<Ordering> {
        Some(self.cmp(other))
    }
}

impl Ord for CookieDomain {
    ghost cmp = { order.domain_cmp };

    ghost total = { Prim.search (comparing, rules) };

    ghost matches_partial_cmp = { Prim.search (comparing, rules) };

    ghost matches_eq = { Prim.search (comparing, rules) };

    fn cmp(&self, other: &CookieDomain) -> Ordering {
        let (kind, text) = kind_and_text(self);
        let (other_kind, other_text) = kind_and_text(other);
        kind.cmp(&other_kind).then(text.cmp(other_text))
    }
}

impl Hash for CookieDomain {
    ghost hash_input = { order.domain_input };

    ghost respects_eq = { Prim.search (hashing, rules) };

    fn hash<H: Hasher>(&self, state: &mut H) {
        let (kind, text) = kind_and_text(self);
        kind.hash(state);
        text.hash(state);
    }
}

// The IDNA form of the text, without white space at its ends.
fn idna_form(alloc: Global, text: &str) -> Result<CowStr<'_>, Error>
    ensures { GivesForm (text_spec.idna_form text.now) result }
{
    match domain_to_ascii_cow(alloc, text.trim().as_bytes(), AsciiDenyList::EMPTY) {
        Ok(form) => Ok(form),
        Err(refusal) => Err(Error::from(IdnaErrors::from(refusal))),
    }
}

// The text without one dot in front.
fn without_leading_dot(text: &str) -> &str
    ensures { result.now ≡ without_dot text.now }
{
    text.strip_prefix('.').unwrap_or(text)
}

// The suffix of this text, or the empty domain.
fn suffix_or_empty(alloc: Global, text: &str) -> Result<CookieDomain, AllocError>
    ensures { IfOk result (λ d. domain_of d ≡ text_spec.suffix_or_empty text.now) }
{
    if text.is_empty() {
        return Ok(CookieDomain::Empty);
    }
    Ok(CookieDomain::Suffix(String::from_str(alloc, text)?))
}
