//! What the lines of a `cookies.txt` and the items of a list of RON or JSON give, each read by itself.
ghost use Rattle.std.specs.Prelude.{◌≡◌, ◌≢◌, ◌⊎◌, IfErr, IfOk, None, map};
ghost use Rattle.std.specs.Result.{result_map_both, result_ok};
ghost use Rattle.cookie_text.specs.ReadingBack.{Pairwise};
ghost use Rattle.serde_json.specs.View.{view};
ghost use Rattle.cookie_store.specs.StoredCookie.{stored_of};
ghost use Rattle.cookies_txt.specs.Entries.{entry_text as line_text};
ghost use Rattle.cookie_jar.specs.Entries as spec;

use crate::error::ImportError;
use crate::form::Form;
use crate::importing::Cause;
use crate::ron_items::items_of;
use crate::row_forms::in_form;
use crate::rows::rows_of;
use cookie_store::serde::ron;
use cookie_store::{Cookie, CookieStore, Counting, Error};
use cookies_txt::LineFault;
use serde_json::Value;
use std::alloc::{AllocError, Global};

/// What a line or an item gives.
#[derive(Debug, Drop)]
pub(crate) struct Entry {
    /// Its number, counted from 1.
    pub(crate) number: usize,
    /// Its row, the domain in IDNA form, or why it is none.
    pub(crate) row: Result<Cookie<'static>, Cause>,
}

/// Reads each line, or each item of a list, of a text by itself: one entry for each that isn't passed over, in their
/// order.
///
/// # Errors
///
/// `NoList` where a text of RON or JSON is no list, `OutOfMemory`. A line or an item that is no row is an entry, and no
/// error.
pub(crate) fn entries_of(alloc: Global, form: Form, text: &[u8]) -> Result<Vec<Entry>, ImportError>
    ensures ok { IfOk result (λ entries. spec.GivesEntries form text.now (map spec.entry_row entries.items)) }
    ensures err { IfErr result (spec.IsRefusal form text.now) }
{
    match form {
        Form::Ron => ron_entries(alloc, text),
        Form::Json => json_entries(alloc, text),
        Form::Txt => Ok(line_entries(alloc, text)?),
    }
}

// ---- lines

fn line_entries(alloc: Global, text: &[u8]) -> Result<Vec<Entry>, AllocError>
    ensures { IfOk result (λ entries. spec.GivesEntries Form.Txt text.now (map spec.entry_row entries.items)) }
{
    let lines = cookies_txt::read_entries(alloc, text)?;
    of_lines(alloc, lines)
}

// The same entries, of which the faults are causes.
fn of_lines(alloc: Global, lines: Vec<cookies_txt::Entry>) -> Result<Vec<Entry>, AllocError>
    ensures { IfOk result (λ entries. map spec.entry_row entries.items
        ≡ map spec.line_row (map line_text lines.items)) }
{
    let mut entries = Vec::new(alloc);
    for line in lines {
        entries.push(Entry {
            number: line.number,
            row: or_faulty(line.row),
        })?;
    }
    Ok(entries)
}

fn or_faulty(row: Result<Cookie<'static>, LineFault>) -> Result<Cookie<'static>, Cause>
    ensures { spec.row_of result ≡ result_ok (result_map_both stored_of (λ fault. fault) row.entry) }
{
    match row {
        Ok(cookie) => Ok(cookie),
        Err(fault) => Err(Cause::Faulty(fault)),
    }
}

// ---- JSON

fn json_entries(alloc: Global, text: &[u8]) -> Result<Vec<Entry>, ImportError>
    ensures ok { IfOk result (λ entries.
        spec.GivesEntries Form.Json text.now (map spec.entry_row entries.items)) }
    ensures err { IfErr result (spec.IsRefusal Form.Json text.now) }
{
    match str::from_utf8(text) {
        Ok(text) => json_entries_of(alloc, text),
        Err(_) => Err(ImportError::NoList),
    }
}

fn json_entries_of(alloc: Global, text: &str) -> Result<Vec<Entry>, ImportError>
    ensures ok { IfOk result (λ entries. spec.GivesJson text.now (map spec.entry_row entries.items)) }
    ensures err { IfErr result (λ e. (e ≡ ImportError.OutOfMemory)
        ⊎ ((e ≡ ImportError.NoList) × spec.IsNoList text.now)) }
{
    match Value::from_str(alloc, text) {
        Ok(value) => match value.as_array() {
            Some(items) => Ok(item_entries(alloc, items)?),
            None => Err(ImportError::NoList),
        },
        Err(error) => {
            if error.is_memory() {
                return Err(ImportError::OutOfMemory);
            }
            Err(ImportError::NoList)
        }
    }
}

fn item_entries(alloc: Global, items: &[Value]) -> Result<Vec<Entry>, AllocError>
    ensures { IfOk result (λ entries.
        Pairwise spec.GivesItem (map view items.now) (map spec.entry_row entries.items)) }
{
    let mut entries = Vec::new(alloc);
    for (index, item) in items.iter().enumerate() {
        let row = row_of_item(alloc, item)?;
        entries.push(Entry {
            number: index + 1,
            row,
        })?;
    }
    Ok(entries)
}

fn row_of_item(alloc: Global, item: &Value) -> Result<Result<Cookie<'static>, Cause>, AllocError>
    ensures { IfOk result (λ row. spec.GivesItem (view item.now) (spec.row_of row)) }
{
    match Cookie::from_value(alloc, item) {
        Ok(cookie) => in_form(alloc, cookie),
        Err(Error::Shape) => Ok(Err(Cause::NoRow)),
        // A value is refused for its shape or for memory.
        Err(_) => Err(AllocError),
    }
}

// ---- RON

fn ron_entries(alloc: Global, text: &[u8]) -> Result<Vec<Entry>, ImportError>
    ensures ok { IfOk result (λ entries.
        spec.GivesEntries Form.Ron text.now (map spec.entry_row entries.items)) }
    ensures err { IfErr result (spec.IsRefusal Form.Ron text.now) }
{
    match items_of(alloc, text)? {
        Some(items) => Ok(piece_entries(alloc, &items)?),
        None => Err(ImportError::NoList),
    }
}

fn piece_entries(alloc: Global, items: &[&[u8]]) -> Result<Vec<Entry>, AllocError>
    ensures { IfOk result (λ entries. Pairwise spec.GivesPiece (map (λ item. item.now) items.now)
        (map spec.entry_row entries.items)) }
{
    let mut entries = Vec::new(alloc);
    for (index, item) in items.iter().enumerate() {
        let row = row_of_piece(alloc, item)?;
        entries.push(Entry {
            number: index + 1,
            row,
        })?;
    }
    Ok(entries)
}

// What an item gives: it is read as a list of its own.
fn row_of_piece(alloc: Global, item: &[u8]) -> Result<Result<Cookie<'static>, Cause>, AllocError>
    ensures { IfOk result (λ row. spec.GivesPiece item.now (spec.row_of row)) }
{
    let text = bracketed(alloc, item)?;
    match ron::load_all(alloc, &mut Counting::new(text.as_slice())) {
        Ok(store) => only_row(alloc, &store),
        Err(cause) => no_row(cause),
    }
}

// What an item gives that isn't read for this cause. No read of a text in memory fails.
fn no_row(cause: Error) -> Result<Result<Cookie<'static>, Cause>, AllocError>
    ensures { IfOk result (λ row. (spec.row_of row ≡ None) × (cause ≢ Error.Io) × (cause ≢ Error.OutOfMemory)) }
{
    match cause {
        Error::Io | Error::OutOfMemory => Err(AllocError),
        _ => Ok(Err(Cause::NoRow)),
    }
}

// The list of this item alone.
fn bracketed(alloc: Global, item: &[u8]) -> Result<Vec<u8>, AllocError>
    ensures { IfOk result (λ text. text.items ≡ spec.bracketed item.now) }
{
    let mut text = Vec::from_slice(alloc, b"[")?;
    text.extend_from_slice(item)?;
    text.push(b']')?;
    Ok(text)
}

// The row of a store that has one.
fn only_row(
    alloc: Global,
    store: &CookieStore,
) -> Result<Result<Cookie<'static>, Cause>, AllocError>
    ensures { IfOk result (λ row. spec.row_of row ≡ spec.only_row store.now.rows) }
{
    let mut rows = rows_of(alloc, store)?;
    match rows.pop() {
        Some(cookie) if rows.is_empty() => in_form(alloc, cookie.clone(alloc)?),
        _ => Ok(Err(Cause::NoRow)),
    }
}
