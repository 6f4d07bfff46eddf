//! A file that a program keeps something in: read and replaced as a whole by who holds its lock.
//!
//! ```text
//! let mut kept = Locked::new(&rt, "cookie-jar");
//! kept.take("jar.json", Duration::from_secs(10))?;
//! kept.read()?;
//! let text = changed(kept.bytes());
//! kept.replace(text)?;
//! kept.give();
//! ```
#![tactic(auto)]

mod cause;
pub mod draft;
pub mod files;
pub mod keeper;
mod lock;
mod lock_file;
pub mod locked;
pub mod place;

pub use keeper::{Keeper, Untaken};
pub use locked::Locked;
pub use place::Unwritten;
