//! HTTP cookies (RFC 6265): the record, its reader and its printer, jars that keep track of changes,
//! child jars that prefix, sign or seal, keys, and the texts of signed and of sealed values.
//!
//! ```
//! let mut jar = CookieJar::new(alloc);
//! jar.add_original(Cookie::new("theme", "dark"))?;
//! jar.signed_mut(&key).add(Cookie::new("user", "7"))?;
//! let user = jar.signed(&key).get("user")?;
//! ```
#![tactic(auto)]

mod delta;
mod jar;
pub mod laws;
mod name_map;
pub mod prefix;
mod prefixed_jar;
pub mod secure;

pub use cookie_text::{
    Cookie, CookieBuilder, Display, Expiration, ParseError, SameSite, SplitCookies,
};
pub use jar::{CookieJar, Delta, Iter};
pub use prefix::{Host, Prefix, Secure};
pub use prefixed_jar::{PrefixedJar, PrefixedJarMut};
pub use secure::{
    EarlierKey, Key, KeyError, KeyRing, KeyRingError, PrivateError, PrivateJar, PrivateJarMut,
    PrivateRingJar, PrivateRingJarMut, SignedJar, SignedJarMut, SignedRingJar, SignedRingJarMut,
};
