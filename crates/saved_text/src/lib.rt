//! Saved texts: rows to and from RON and JSON.
#![tactic(auto)]

mod date;
mod date_display;
mod error;
mod json_read;
mod json_rows;
mod json_to_value;
mod json_tokens;
mod json_value;
mod json_write;
pub mod laws;
mod position;
mod ron_drafts;
mod ron_fields;
mod ron_list;
mod ron_parts;
mod ron_read;
mod ron_rows;
mod ron_text;
mod ron_write;
mod row;

pub use date::date_of;
pub use date_display::SavedDate;
pub use error::SavedTextError;
pub use json::Scratch;
pub use json_read::{from_value, row_from_json, row_from_json_in, rows_from_json, rows_from_value};
pub use json_rows::{row_to_json, rows_to_json};
pub use json_to_value::{rows_to_value, to_value};
pub use position::TextPosition;
pub use ron_read::rows_from_ron;
pub use ron_rows::rows_to_ron;
pub use row::{SavedDomain, SavedExpiration, SavedRow};
