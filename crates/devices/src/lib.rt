//! Readers and writers that count the calls that failed, and what is read from them and written to
//! them whole.
//!
//! ```text
//! let mut reader = Counting::new(BufReader::new(alloc, rt.reader())?);
//! let bytes = pour::read_all(alloc, &mut reader)?;   // all up to the end, or why not
//! ```
#![tactic(auto)]

pub mod device;
pub mod pour;

pub use device::{Counting, Failing, Sink, Source};
