//! The lines of a text that needn't be UTF-8, as `str::lines` cuts them.
//!
//! ```text
//! first_line(b"a=1\r\nb=2"); // `a=1`, and `b=2` behind it
//! first_line(b"b=2");        // `b=2`, and nothing behind it
//! first_line(b"");           // none
//! ```
#![tactic(auto)]

mod cut;

pub use cut::{first_line, line_end, without_return};
