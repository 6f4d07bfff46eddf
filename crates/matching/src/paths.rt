//! Whether a request-path path-matches the path of a cookie (RFC 6265, section 5.1.4).
ghost use Rattle.std.specs.Prelude.{◌↔◌, IsTrue};
ghost use Rattle.matching.specs.Paths as spec;

/// Whether the request-path path-matches the cookie-path (RFC 6265, section 5.1.4).
///
/// Both are compared byte for byte: nothing is percent-decoded, and case counts.
pub fn path_matches(cookie_path: &str, request_path: &str) -> bool
    ensures { IsTrue result ↔ spec.PathMatches cookie_path.now request_path.now }
{
    let cookie_path = cookie_path.as_bytes();
    match request_path.as_bytes().strip_prefix(cookie_path) {
        Some(rest) => rest.is_empty() || meet_at_slash(cookie_path, rest),
        None => false,
    }
}

// Whether the first text ends with `/` or the second begins with it.
fn meet_at_slash(before: &[u8], after: &[u8]) -> bool
    ensures { IsTrue result ↔ spec.MeetAtSlash before.now after.now }
{
    matches!(before, [.., b'/']) || matches!(after, [b'/', ..])
}
