//! The parts of a cookie store: the domain, the path and the expiry of a cookie, and what a URL's
//! scheme and host allow (RFC 6265, sections 5.1.3, 5.1.4, 5.2 and 5.3).
//!
//! ```text
//! let url = Url::parse(alloc, "https://www.example.com/foo/bus/bar")?;
//! let domain = CookieDomain::from_text(alloc, ".example.com")?;    // a suffix: `example.com`
//! let path = CookiePath::default_path(alloc, &url)?;               // `/foo/bus`
//! domain.matches(&url) && path.matches(&url)                       // true
//! ```
#![tactic(auto)]

pub mod cookie_domain;
mod cookie_expiration;
pub mod cookie_path;
mod error;
pub mod utils;

pub use cookie_domain::CookieDomain;
pub use cookie_expiration::CookieExpiration;
pub use cookie_path::CookiePath;
pub use error::{CookieError, Error, IdnaErrors, Result};
