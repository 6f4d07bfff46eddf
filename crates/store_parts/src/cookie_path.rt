//! The path of a cookie, and which request-uris it covers (RFC 6265, section 5.1.4).
ghost use Rattle.std.specs.Prelude.{◌≡◌, ◌↔◌, IsTrue, IfOk, IsOk, option_map, string_bytes, unwrap_or};
ghost use Rattle.store_parts.specs.PathMatch as spec;
ghost use Rattle.store_parts.specs.PathMatch.{path_of};
ghost use Rattle.store_parts.specs.PathOrder as order;
ghost use Rattle.std.proofs.Common.{rules};
ghost use Rattle.std.specs.Cmp.{partial_order_from_own_ties};
ghost use Rattle.std.specs.Cmp.Rules.{comparing, hashing};
ghost use Rattle.std.specs.Ordering.{as_partial_cmp};

use matching::path_matches;
use std::alloc::{AllocError, Global};
use std::cmp::Ordering;
use std::hash::{Hash, Hasher};
use url::Url;

/// Whether the text begins with `/` and, as a cookie-path, path-matches the URL's path
/// (RFC 6265, section 5.1.4).
pub fn is_match(path: &str, request_url: &Url) -> bool
    ensures { IsTrue result
        ↔ (spec.BeginsWithSlash path.now × spec.PathMatchesAt path.now request_url.now) }
{
    begins_with_slash(path) && matches_at(path, request_url)
}

/// The path of a cookie: the one that its Path attribute gave, or the default-path of its URL.
#[derive(Debug, Drop)]
pub struct CookiePath {
    text: String,
    from_attribute: bool,
}

impl CookiePath {
    /// The path of this text, which a Path attribute gave, or not.
    pub fn from_parts(text: String, from_attribute: bool) -> CookiePath
        ensures { path_of result
            ≡ record { text = string_bytes text; from_attribute = from_attribute } }
    {
        CookiePath {
            text,
            from_attribute,
        }
    }

    /// Whether the URL's path path-matches this path (RFC 6265, section 5.1.4).
    ///
    /// Both are compared byte for byte: nothing is percent-decoded, and case counts. A URL that
    /// cannot be a base is never matched.
    pub fn matches(&self, request_url: &Url) -> bool
        ensures { IsTrue result ↔ spec.PathMatchesAt (path_of self.now).text request_url.now }
    {
        matches_at(self.as_str(), request_url)
    }

    /// Whether a Path attribute gave this path, which tells an explicit `/` from a default one.
    pub fn is_from_path_attr(&self) -> bool
        ensures { result ≡ (path_of self.now).from_attribute }
    {
        self.from_attribute
    }

    /// The default-path of a URL (RFC 6265, section 5.1.4).
    ///
    /// # Errors
    ///
    /// `AllocError`, for want of memory.
    pub fn default_path(alloc: Global, request_url: &Url) -> Result<CookiePath, AllocError>
        ensures { IfOk result (λ path. path_of path ≡ spec.default_path_at request_url.now) }
    {
        let text = String::from_str(alloc, default_path_of(request_url))?;
        Ok(CookiePath {
            text,
            from_attribute: false,
        })
    }

    /// The path that the text gives, or the default-path of the URL where it gives none.
    ///
    /// # Errors
    ///
    /// `AllocError`, for want of memory.
    pub fn new(alloc: Global, path: &str, request_url: &Url) -> Result<CookiePath, AllocError>
        ensures { IfOk result (λ p. path_of p
            ≡ unwrap_or (spec.read_path path.now) (spec.default_path_at request_url.now)) }
    {
        match CookiePath::parse(alloc, path)? {
            Some(path) => Ok(path),
            None => CookiePath::default_path(alloc, request_url),
        }
    }

    /// The path that the text gives as the value of a Path attribute, which is none unless it
    /// begins with `/` (RFC 6265, section 5.2.4).
    ///
    /// # Errors
    ///
    /// `AllocError`, for want of memory, and never where the text gives none.
    pub fn parse(alloc: Global, path: &str) -> Result<Option<CookiePath>, AllocError>
        ensures path { IfOk result (λ o. option_map path_of o ≡ spec.read_path path.now) }
        ensures takes_none { ¬ (spec.BeginsWithSlash path.now) → IsOk result }
    {
        if !begins_with_slash(path) {
            return Ok(None);
        }
        let text = String::from_str(alloc, path)?;
        Ok(Some(CookiePath {
            text,
            from_attribute: true,
        }))
    }

    /// The path's text.
    pub fn as_str(&self) -> &str
        ensures { result.now ≡ (path_of self.now).text }
    {
        self.text.as_str()
    }

    /// The path's text, owned.
    ///
    /// # Errors
    ///
    /// `AllocError`, for want of memory.
    pub fn to_text(&self, alloc: Global) -> Result<String, AllocError>
        ensures { IfOk result (λ text. string_bytes text ≡ (path_of self.now).text) }
    {
        String::from_str(alloc, self.as_str())
    }

    /// A copy of the path.
    ///
    /// # Errors
    ///
    /// `AllocError`, for want of memory.
    pub fn clone(&self, alloc: Global) -> Result<CookiePath, AllocError>
        ensures { IfOk result (λ path. path_of path ≡ path_of self.now) }
    {
        Ok(CookiePath {
            text: self.to_text(alloc)?,
            from_attribute: self.from_attribute,
        })
    }
}

impl PartialEq for CookiePath {
    ghost eq = { order.path_eq };

    ghost laws = { Prim.search (comparing, rules) };

    fn eq(&self, other: &CookiePath) -> bool
        ensures value { result ≡ order.path_eq self.now other.now }
        ensures same { IsTrue result ↔ (path_of self.now ≡ path_of other.now) }
    {
        self.text == other.text && self.from_attribute == other.from_attribute
    }
}

impl Eq for CookiePath {
    ghost laws = { Prim.search (comparing, rules) };
}

impl PartialOrd for CookiePath {
    ghost partial_cmp = { as_partial_cmp order.path_cmp };

    ghost laws = { partial_order_from_own_ties (Prim.search (comparing, rules))
        (Prim.search (comparing, rules)) };

    fn partial_cmp(&self, other: &CookiePath) -> Option<Ordering> {
        Some(self.cmp(other))
    }
}

impl Ord for CookiePath {
    ghost cmp = { order.path_cmp };

    ghost total = { Prim.search (comparing, rules) };

    ghost matches_partial_cmp = { Prim.search (comparing, rules) };

    ghost matches_eq = { Prim.search (comparing, rules) };

    fn cmp(&self, other: &CookiePath) -> Ordering {
        self.text
            .cmp(&other.text)
            .then(self.from_attribute.cmp(&other.from_attribute))
    }
}

impl Hash for CookiePath {
    ghost hash_input = { order.path_input };

    ghost respects_eq = { Prim.search (hashing, rules) };

    fn hash<H: Hasher>(&self, state: &mut H) {
        self.text.hash(state);
        self.from_attribute.hash(state);
    }
}

fn begins_with_slash(text: &str) -> bool
    ensures { IsTrue result ↔ spec.BeginsWithSlash text.now }
{
    matches!(text.as_bytes(), [b'/', ..])
}

// Whether the URL can be a base and its path path-matches the cookie-path.
fn matches_at(cookie_path: &str, request_url: &Url) -> bool
    ensures { IsTrue result ↔ spec.PathMatchesAt cookie_path.now request_url.now }
{
    !request_url.cannot_be_a_base() && path_matches(cookie_path, request_url.path())
}

// The default-path of a URL.
fn default_path_of(request_url: &Url) -> &str
    ensures { result.now ≡ (spec.default_path_at request_url.now).text }
{
    if request_url.cannot_be_a_base() {
        return "/";
    }
    default_path_in(request_url.path())
}

// The uri-path up to its right-most `/`, or `/` where that is nothing.
fn default_path_in(uri_path: &str) -> &str
    ensures { result.now ≡ spec.default_path uri_path.now }
{
    let last = uri_path.rfind('/').unwrap_or(0);
    if last == 0 { "/" } else { &uri_path[..last] }
}
