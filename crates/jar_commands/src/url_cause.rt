//! Why there is no URL to ask for in the place of a text.

use std::alloc::{AllocError, Global};
use url::{ParseError, Url};

/// Why there is no plain URL to ask for in the place of a text.
///
/// # Errors
///
/// `AllocError`, for want of memory; a text of more than 4 GB is one too.
pub(crate) fn url_cause(alloc: Global, text: &str) -> Result<&'static str, AllocError> {
    match Url::parse(alloc, text) {
        Ok(url) => Ok(parts_cause(&url)),
        Err(ParseError::OutOfMemory | ParseError::Overflow) => Err(AllocError),
        Err(e) => Ok(error_cause(e)),
    }
}

fn error_cause(e: ParseError) -> &'static str {
    match e {
        ParseError::RelativeUrlWithoutBase => "no scheme",
        ParseError::InvalidPort => "port is none",
        _ => "host is none",
    }
}

fn parts_cause(url: &Url) -> &'static str {
    if is_web(url) {
        if has_no_user(url) {
            "host is none"
        } else {
            "user name or password"
        }
    } else {
        "scheme neither http nor https"
    }
}

fn is_web(url: &Url) -> bool {
    url.scheme() == "http" || url.scheme() == "https"
}

fn has_no_user(url: &Url) -> bool {
    url.username().is_empty() && url.password().is_none()
}
