//! The public suffix list (https://publicsuffix.org/list/): which end of a name is its suffix.
//!
//! ```text
//! let list = List::parse(alloc, b"com\n*.ck\n!www.ck\n")?;
//! list.is_listed(b"foo.ck"); // true
//! list.suffix(b"a.www.ck");  // the suffix of the bytes `ck`, which is known
//! ```
//!
//! The rules stand in a tree of labels, from the last label inwards (`tree`); a look-up walks down it by the labels of
//! the name (`walk`).
#![tactic(auto)]

mod error;
mod label;
pub mod laws;
mod line;
mod list;
mod look;
mod name;
mod rule;
mod suffix;
mod tree;
mod walk;

pub use error::ListError;
pub use list::{List, registrable_without_list};
pub use suffix::Suffix;
