//! Where a text stops to be read.
ghost use Rattle.std.specs.Str.{IsValidUpTo};

use crate::form::Form;
use crate::importing::fault_words;
use crate::json_stop::stop_of;
use crate::terminal::Shown;
use cookies_txt::{LineFault, ReadError};
use saved_text::{SavedTextError, TextPosition, from_value, rows_from_ron};
use serde_json::Value;
use std::alloc::{AllocError, Global};

/// Where a text stops to be read, told as `line 3, column 14`, `row 2` or `line 4: no domain`.
#[derive(Clone, Copy, Debug, PartialEq, Eq)]
pub enum Place {
    /// At this position.
    At(TextPosition),
    /// At the item of this number of its list, counted from 1, which is no row.
    Row(usize),
    /// At the line of this number, counted from 1, which has this fault.
    Line(usize, LineFault),
}

impl Place {
    /// Adds it to a text.
    ///
    /// # Errors
    ///
    /// `AllocError`, for want of memory.
    pub fn tell(self, alloc: Global, text: &mut Shown) -> Result<(), AllocError> {
        match self {
            Place::At(position) => {
                let position = format!(in alloc; "{position}")?;
                text.bytes(position.as_bytes())
            }
            Place::Row(number) => {
                text.words("row ")?;
                text.number(number as u64)
            }
            Place::Line(number, fault) => {
                text.words("line ")?;
                text.number(number as u64)?;
                text.words(": ")?;
                text.words(fault_words(fault))
            }
        }
    }
}

/// Where a text of this form stops to be read, or none where it is read. It is meant for a text that [`crate::Jar`]
/// refused: it reads the text once more.
///
/// Of bytes that aren't UTF-8 it is the position of the first that is no part of a character. Else it is, of RON, the
/// position of [`SavedTextError::Ron`]; of JSON the position of the first token that doesn't fit, where the text is no
/// JSON or no list, or the first row that isn't one; of `cookies.txt` the first line with a fault.
///
/// # Errors
///
/// `AllocError`, for want of memory.
pub fn place_of(alloc: Global, form: Form, text: &[u8]) -> Result<Option<Place>, AllocError> {
    match str::from_utf8(text) {
        Ok(text) => place_in(alloc, form, text),
        Err(error) => Ok(Some(Place::At(position_behind(text, error.valid_up_to())))),
    }
}

// The position behind so many bytes, which are the longest text in front.
fn position_behind(bytes: &[u8], count: usize) -> TextPosition
    requires { IsValidUpTo bytes.now count }
{
    let front = str::from_utf8(bytes.split_at(count).0).unwrap_or("");
    TextPosition::of(front, count)
}

// Where a text stops.
fn place_in(alloc: Global, form: Form, text: &str) -> Result<Option<Place>, AllocError> {
    match form {
        Form::Ron => ron_place(alloc, text),
        Form::Json => json_place(alloc, text),
        Form::Txt => line_place(alloc, text),
    }
}

fn ron_place(alloc: Global, text: &str) -> Result<Option<Place>, AllocError> {
    match rows_from_ron(alloc, text.as_bytes()) {
        Ok(_) => Ok(None),
        Err(SavedTextError::Ron(offset)) => Ok(Some(Place::At(TextPosition::of(text, offset)))),
        // It is UTF-8, so only memory was refused.
        Err(_) => Err(AllocError),
    }
}

fn json_place(alloc: Global, text: &str) -> Result<Option<Place>, AllocError> {
    match Value::from_str(alloc, text) {
        Ok(value) => match value.as_array() {
            Some(items) => first_no_row(alloc, items),
            None => at_token(alloc, text),
        },
        Err(error) => {
            if error.is_memory() {
                return Err(AllocError);
            }
            at_token(alloc, text)
        }
    }
}

// The place of the first token of a text that is no list of JSON at which that shows.
fn at_token(alloc: Global, text: &str) -> Result<Option<Place>, AllocError> {
    let offset = stop_of(alloc, text)?;
    Ok(Some(Place::At(TextPosition::of(text, offset))))
}

// The first of the items of a list that is no row.
fn first_no_row(alloc: Global, items: &[Value]) -> Result<Option<Place>, AllocError> {
    for (index, item) in items.iter().enumerate() {
        match from_value(alloc, item) {
            Ok(_) => {}
            Err(SavedTextError::Shape) => return Ok(Some(Place::Row(index + 1))),
            // A value is refused for its shape or for memory.
            Err(_) => return Err(AllocError),
        }
    }
    Ok(None)
}

fn line_place(alloc: Global, text: &str) -> Result<Option<Place>, AllocError> {
    match cookies_txt::read(alloc, text.as_bytes()) {
        Ok(_) => Ok(None),
        Err(ReadError::Line(number, fault)) => Ok(Some(Place::Line(number, fault))),
        // It is UTF-8, so only memory was refused.
        Err(_) => Err(AllocError),
    }
}
