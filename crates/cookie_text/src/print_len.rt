//! About how long a printed cookie is, so that its memory is asked for at once. Nothing but speed rests on it: a text
//! that turns out longer grows.
use crate::attribute::Attribute;
use crate::cookie::Cookie;

/// How many bytes `name=value` takes where nothing of it is escaped.
pub fn pair_len(cookie: &Cookie<'_>) -> usize {
    cookie
        .name()
        .len()
        .saturating_add(1)
        .saturating_add(cookie.value().len())
}

/// About how many bytes a pair of this length takes escaped: each escaped byte takes three, and mostly no more than
/// one in eight is escaped.
pub fn escaped_len(len: usize) -> usize {
    len.saturating_add(len / 4)
}

/// How many bytes the attributes take, each behind a semicolon.
pub fn attributes_len(cookie: &Cookie<'_>) -> usize {
    if cookie.is_bare() {
        return 0;
    }
    let attributes = [
        cookie.http_only_printed(),
        cookie.same_site_printed(),
        cookie.partitioned_printed(),
        cookie.secure_printed(),
        cookie.path_printed(),
        cookie.domain_printed(),
        cookie.max_age_printed(),
        cookie.expires_printed(),
    ];
    let mut len: usize = 0;
    for attribute in &attributes {
        if let Some(attribute) = attribute {
            len = len.saturating_add(attribute_len(attribute));
        }
    }
    len
}

// How many bytes an attribute takes behind a semicolon, with the longest value of its kind.
fn attribute_len(attribute: &Attribute<'_>) -> usize {
    match attribute {
        Attribute::HttpOnly => "; HttpOnly".len(),
        Attribute::Secure => "; Secure".len(),
        Attribute::Partitioned => "; Partitioned".len(),
        Attribute::SameSite(_) => "; SameSite=Strict".len(),
        Attribute::MaxAge(_) => "; Max-Age=9223372036854775807".len(),
        Attribute::Path(path) => path.len().saturating_add("; Path=".len()),
        Attribute::Domain(domain) => domain.len().saturating_add("; Domain=".len()),
        Attribute::Expires(_) => "; Expires=Sun, 06 Nov 1994 08:49:37 GMT".len(),
    }
}
