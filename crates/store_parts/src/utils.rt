//! What a URL's scheme and host allow.
ghost use Rattle.std.specs.Prelude.{◌↔◌, IsTrue};
ghost use Rattle.store_parts.specs.Schemes.{IsHttpScheme, IsSecure};

pub use matching::is_host_name;
use url::{Host, Url};

/// Whether the URL's scheme begins with `http`, so that it may see HttpOnly cookies.
pub fn is_http_scheme(url: &Url) -> bool
    ensures { IsTrue result ↔ IsHttpScheme url.now }
{
    url.scheme().as_bytes().starts_with(b"http")
}

/// Whether Secure cookies may go to the URL: its scheme is `https`, or its host is `localhost`, an
/// address of 127.0.0.0/8 or `::1`.
pub fn is_secure(url: &Url) -> bool
    ensures { IsTrue result ↔ IsSecure url.now }
{
    if url.scheme() == "https" {
        return true;
    }
    match url.host() {
        Some(Host::Domain(domain)) => domain == "localhost",
        Some(Host::Ipv4(address)) => address.is_loopback(),
        Some(Host::Ipv6(address)) => address.is_loopback(),
        None => false,
    }
}
