//! Rows from texts of RON.
ghost use Rattle.std.specs.Prelude.{◌≡◌, [], ◌↔◌, MatchResult, IfOk, IfErr};
ghost use Rattle.std.specs.Result.{IsErrOf};
ghost use Rattle.std.specs.Str.{IsUtf8};
ghost use Rattle.saved_text.specs.Drafts.{IsTextRead, StopsText};
ghost use Rattle.saved_text.specs.RonReading.{ShowsRowsInRon, IsRonFault};
ghost use Rattle.saved_text.specs.declared.error.SavedTextError.TheVariants as fault;

use crate::error::SavedTextError;
use crate::ron_list::read_list;
use crate::ron_parts::gap;
use crate::ron_text::Stop;
use crate::row::SavedRow;
use std::alloc::Global;

/// The rows that a text of RON is, the fields of each in any order.
///
/// # Errors
///
/// `NotText` where the bytes aren't UTF-8, which is tested first; `Ron` with the length of the longest front of the
/// grammar, where the text isn't of it, and else with the place of the first raw cookie or date in it that doesn't
/// read; `OutOfMemory`.
pub fn rows_from_ron(alloc: Global, text: &[u8]) -> Result<Vec<SavedRow>, SavedTextError>
    ensures not_text { IsErrOf result fault.NotText ↔ (¬ (IsUtf8 text.now)) }
    ensures ok { IfOk result (λ rows. ShowsRowsInRon text.now rows.items) }
    ensures err { IfErr result (IsRonFault text.now) }
{
    match str::from_utf8(text) {
        Ok(text) => rows_of(alloc, text),
        Err(_) => Err(SavedTextError::NotText),
    }
}

// The rows that a text is.
fn rows_of(alloc: Global, text: &str) -> Result<Vec<SavedRow>, SavedTextError>
    ensures ok { IfOk result (λ rows. ShowsRowsInRon text.now rows.items) }
    ensures err { IfErr result (IsRonFault text.now) }
{
    let mut rows = Vec::new(alloc);
    match read_text(alloc, text, &mut rows) {
        Ok(None) => Ok(rows),
        Ok(Some(rest)) => Err(SavedTextError::Ron(text.len() - rest.len())),
        Err(Stop::Here(rest)) => Err(SavedTextError::Ron(text.len() - rest.len())),
        Err(Stop::OutOfMemory) => Err(SavedTextError::OutOfMemory),
    }
}

// Adds the rows of a text; the rest at the first string in it that doesn't read.
fn read_text<'a>(
    alloc: Global,
    text: &'a str,
    rows: &mut Vec<SavedRow>,
) -> Result<Option<&'a str>, Stop<'a>>
    requires { rows.now.items ≡ [] }
    ensures { MatchResult result (IsTextRead text.now rows.new.items) (StopsText text.now) }
{
    let start = gap(text);
    let (unread, rest) = read_list(alloc, start, rows)?;
    let end = gap(rest);
    if end.is_empty() {
        return Ok(unread);
    }
    Err(Stop::Here(end))
}
