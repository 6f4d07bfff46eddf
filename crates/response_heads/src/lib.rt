//! Heads of HTTP responses, as `curl -i`, `curl -D` and `curl -L` print them (RFC 9112, sections 4 and 5).
//!
//! ```text
//! for visit in &visits(alloc, &url, text)?.visits {       // the heads of a text, each with the URL that answered it
//!     let lines = visit.head.set_cookie_lines(alloc)?;
//! }
//! ```
#![tactic(auto)]

mod error;
mod field;
mod folds;
mod head;
pub mod laws;
mod lines;
mod redirects;
mod status;

pub use error::{LineFault, LocationFault, ReadError, StopFault};
pub use head::{Field, Found, Head, Location, heads};
pub use redirects::{Lost, Visit, Visited, answer, visits};
