//! Whether a host domain-matches a domain (RFC 6265, section 5.1.3).
ghost use Rattle.std.specs.Prelude.{◌↔◌, IsTrue};
ghost use Rattle.matching.specs.Domains as spec;

use std::net::{Ipv4Addr, Ipv6Addr};

/// Whether the host domain-matches the domain string (RFC 6265, section 5.1.3).
///
/// Both are compared byte for byte, so they are in one form: small letters, and IDNA's `xn--` beyond ASCII.
pub fn domain_matches(host: &str, domain: &str) -> bool
    ensures { IsTrue result ↔ spec.DomainMatches host.now domain.now }
{
    host == domain || (is_host_name(host) && ends_after_dot(host, domain))
}

/// Whether the text is a host name: the text of neither an IPv4 nor an IPv6 address, the latter
/// without brackets (RFC 6265, section 5.1.3).
pub fn is_host_name(host: &str) -> bool
    ensures { IsTrue result ↔ spec.IsHostName host.now }
{
    host.parse::<Ipv4Addr>().is_err() && host.parse::<Ipv6Addr>().is_err()
}

// Whether the host ends with a dot and the domain string.
fn ends_after_dot(host: &str, domain: &str) -> bool
    ensures { IsTrue result ↔ spec.EndsAfterDot host.now domain.now }
{
    match host.as_bytes().strip_suffix(domain.as_bytes()) {
        Some(before) => before.ends_with(b"."),
        None => false,
    }
}
