//! Cookies: the record, its reader and its printer.
#![tactic(auto)]

mod attribute;
mod builder;
mod compare;
mod cookie;
mod date;
mod date_display;
mod date_names;
mod date_reader;
mod decode;
mod display;
mod draft;
mod error;
mod escape;
mod expiration;
pub mod laws;
mod parse;
mod part;
mod print_len;
mod split;
mod trim;

pub use builder::{Builder, CookieBuilder};
pub use cookie::Cookie;
pub use date_display::PrintedDate;
pub use date_names::month_name;
pub use display::Display;
pub use draft::SameSite;
pub use error::ParseError;
pub use expiration::Expiration;
pub use split::SplitCookies;
