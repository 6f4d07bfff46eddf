//! A store of cookies, the cookie that it holds, and the parts that this is made of (RFC 6265,
//! sections 5.1.3, 5.1.4, 5.2 to 5.4).
//!
//! ```text
//! let url = Url::parse(alloc, "https://www.example.com/foo/bar")?;
//! let mut store = CookieStore::new(alloc).with_suffix_list(List::parse(alloc, b"com\n")?);
//! store.parse("a=1; Domain=example.com; Max-Age=60", &url, now)   // `Ok(Inserted)`
//! store.parse("b=2; Domain=com", &url, now)                       // `Err(PublicSuffix)`
//! store.contains("example.com", "/foo", "a", now)                 // true
//! store.get_request_values(&url, now)?                            // `a` with `1`
//! ```
#![tactic(auto)]

mod action;
mod coverage;
mod given;
mod json_lines;
mod loading;
mod longest;
mod requests;
mod rows;
mod saved_row;
mod saved_rows;
mod saving;
pub mod serde;
mod store;
mod store_cookie;
mod stored_cookie;
mod unexpired;
mod value;

pub use action::{InsertResult, StoreAction, StoreResult};
pub use cookie::{Cookie as RawCookie, ParseError as RawCookieParseError};
pub use devices::{Counting, Failing, Sink, Source};
pub use place_index::Looks;
pub use requests::{RequestCookies, RequestValues};
pub use rows::IterAny;
pub use saved_text::TextPosition;
pub use store::{CookieStore, laws};
pub use store_cookie::StoreCookie;
pub use store_parts::{
    CookieDomain, CookieError, CookieExpiration, CookiePath, Error, IdnaErrors, Result,
    cookie_domain, cookie_path, utils,
};
pub use stored_cookie::{Cookie, CookieResult};
pub use unexpired::IterUnexpired;
