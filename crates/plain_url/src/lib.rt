//! Plain URLs: texts that each program reads as the same web address, whether it follows the URL Standard or RFC 3986.
//!
//! ```text
//! assert!(rt; is_plain(alloc, "https://shop.test/cart?id=1")?);
//! assert!(rt; !is_plain(alloc, "https://shop.test\\@evil.test/")?);   // shop.test, or evil.test
//! ```
#![tactic(auto)]

mod instead;
pub mod laws;
mod plain;

pub use instead::{plain_for, plain_text};
pub use plain::{is_plain, is_plain_hop, is_plain_of};
