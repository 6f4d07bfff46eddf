//! Netscape's `cookies.txt`: the cookies of a store to it and from it, in the format that curl documents.
//!
//! ```text
//! let cookies = read(alloc, b".example.com\tTRUE\t/\tTRUE\t0\tid\ta3\n")?;  // one cookie, for hosts below too
//! let rows: Vec<&Cookie<'static>> = store.iter_any().collect(alloc)?;
//! let text = write(alloc, &rows, false)?.text;
//! ```
#![tactic(auto)]

mod entries;
mod error;
mod fields;
pub mod laws;
mod line;
mod readers;
mod reading;
mod row;
mod writing;

pub use entries::{Entry, read_entries};
pub use error::{LineFault, ReadError, RowFault, WriteError};
pub use line::expiry_second;
pub use readers::Reader;
pub use reading::read;
pub use row::row_fault;
pub use writing::{Written, write, write_for, write_rows};
