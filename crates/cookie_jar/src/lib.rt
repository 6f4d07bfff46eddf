//! A jar of cookies for the shell: read from a text of RON, JSON or `cookies.txt`, asked, changed and written again.
//!
//! ```text
//! let mut jar = Jar::load(alloc, list, Form::Ron, text, now)?;
//! let (rules, user) = (Rules::browser(), Initiator::user());
//! let ends = jar.receive(Form::Ron, &rules, &url, &user, &[b"a=1; Path=/"], now)?;
//! let line = jar.header(&rules, &url, &user, now)?;  // "Cookie: a=1\n"
//! let text = jar.save(Form::Ron, now)?;
//! ```
#![tactic(auto)]

mod asking;
mod changing;
mod dropping;
mod entries;
mod error;
mod expiry;
mod explaining;
mod form;
mod importing;
mod jar;
mod json_list;
mod json_stop;
mod keeping;
pub mod laws;
mod left_out;
mod listing;
mod place;
mod reading;
mod report;
mod ron_items;
mod row_forms;
mod rows;
mod saving;
mod taking;
mod terminal;
mod told;

pub use asking::Which;
pub use dropping::dropped_lines;
pub use error::{ImportError, ReadError, SaveError};
pub use form::Form;
pub use importing::{Cause, Imported, Refused, refused_text};
pub use jar::Jar;
pub use listing::Layout;
pub use place::{Place, place_of};
pub use saving::Exported;
pub use taking::End;
pub use terminal::Shown;
pub use told::{header_line, is_refused, told_lines};
