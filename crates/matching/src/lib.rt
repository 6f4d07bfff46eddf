//! Which hosts a domain covers by its text, and which request-paths the path of a cookie (RFC 6265, sections 5.1.3 and
//! 5.1.4).
//!
//! ```text
//! domain_matches("www.example.com", "example.com"); // true
//! domain_matches("127.0.0.1", "0.0.1");             // false: an address is no host name
//! path_matches("/foo", "/foo/bus");                 // true
//! path_matches("/foo", "/food");                    // false
//! ```
#![tactic(auto)]

mod domains;
mod paths;

pub use domains::{domain_matches, is_host_name};
pub use paths::path_matches;
