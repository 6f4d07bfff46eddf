//! Sites, and which requests are cross-site (the draft that follows RFC 6265, version 15, section 5.2).
ghost use Rattle.std.specs.Prelude.{◌≡◌, ◌↔◌, IsTrue, None};
ghost use Rattle.publicsuffix.specs.Registrable.{GivesRegistrable};
ghost use Rattle.user_agent.specs.Sites as spec;

use cookie_store::CookieStore;
use cookie_store::utils::is_host_name;
use publicsuffix::laws::one_registrable_domain;
use publicsuffix::registrable_without_list;
use url::Url;

/// Who starts a request, and how (sections 5.2 and 5.2.1).
///
/// A redirect is of the request that it answers: what starts that starts each hop. A reload by the user repeats what
/// started the page before. For a WebSocket give its URL as http or https, as which it is fetched: `wss` is another
/// scheme than `https`, and so another site.
#[derive(Clone, Copy, Debug)]
pub struct Initiator<'p> {
    /// The page that starts it, by the URL of the document at the top, where the document that starts it and each one
    /// above it are of that one's site. Where one of them isn't, as a frame of another site, any URL without a host, as
    /// `data:,`: it is of no site. `None` where the user starts it, as by a typed URL or a bookmark.
    ///
    /// Of a document that is `about:blank`, `srcdoc` or a `blob:` the URL is that of the document which made it;
    /// `data:,` errs on the safe side. What a worker starts, the document starts that started the worker.
    pub page: Option<&'p Url>,
    /// Whether it navigates the top level: what the user then looks at is what it gives.
    pub is_navigation: bool,
    /// Whether its method is safe, as `GET` and `HEAD` are (RFC 9110, section 9.2.1).
    pub is_safe: bool,
}

impl<'p> Initiator<'p> {
    /// The user, who goes to the URL: so it is where nothing is said of what starts a request.
    pub fn user() -> Initiator<'p>
        ensures { result.page ≡ None }
    {
        Initiator {
            page: None,
            is_navigation: true,
            is_safe: true,
        }
    }
}

/// Whether a page starts the request, and isn't of the site of its URL (section 5.2).
///
/// A site is a scheme and a registrable domain by the store's list of public suffixes; a host that is an address or a
/// public suffix itself is its own. A URL without a host is of no site. It takes no memory.
pub fn is_cross_site(store: &CookieStore, url: &Url, initiator: &Initiator<'_>) -> bool
    ensures { IsTrue result ↔ spec.IsCrossSite store.now.suffixes url.now initiator.now }
{
    match initiator.page {
        Some(page) => !are_same_site(store, page, url),
        None => false,
    }
}

// Whether the request navigates the top level by a safe method.
pub(crate) fn is_safe_navigation(initiator: &Initiator<'_>) -> bool
    ensures { result ≡ spec.is_safe_navigation initiator.now }
{
    initiator.is_navigation && initiator.is_safe
}

/// Whether both URLs are of one site.
pub fn are_same_site(store: &CookieStore, one: &Url, other: &Url) -> bool
    ensures { IsTrue result ↔ spec.AreSameSite store.now.suffixes one.now other.now }
{
    one_registrable_domain();
    match (one.host_str(), other.host_str()) {
        (Some(a), Some(b)) => {
            one.scheme() == other.scheme() && site_domain(store, a) == site_domain(store, b)
        }
        _ => false,
    }
}

/// The domain of a host's site: its registrable domain by the store's list of public suffixes; a host that is an
/// address or a public suffix itself is its own. It takes no memory.
pub fn site_domain<'h>(store: &CookieStore, host: &'h str) -> &'h [u8]
    ensures { spec.IsSiteDomain store.now.suffixes host.now result.now }
{
    one_registrable_domain();
    if !is_host_name(host) {
        return host.as_bytes();
    }
    match registrable(store, host) {
        Some(domain) => domain,
        None => host.as_bytes(),
    }
}

// The registrable domain of the host by the store's list.
fn registrable<'h>(store: &CookieStore, host: &'h str) -> Option<&'h [u8]>
    ensures { GivesRegistrable store.now.suffixes host.now result }
{
    match store.public_suffix_list() {
        Some(list) => list.registrable(host.as_bytes()),
        None => registrable_without_list(host.as_bytes()),
    }
}
