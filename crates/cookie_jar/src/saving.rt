//! The text of a store's rows in a form.
ghost use Rattle.std.specs.Prelude.{◌≡◌, ◌≢◌, ◌⊎◌, ◌+◌, [], IfOk, IfErr, false, length, map, string_bytes};
ghost use Rattle.std.specs.List.{AllByRecursion};
ghost use Rattle.std.specs.Str.{IsUtf8};
ghost use Rattle.saved_text.specs.Json.{list_text};
ghost use Rattle.saved_text.specs.RonLayout.{ron_layout};
ghost use Rattle.cookie_store.specs.SavedLaws.{IsOfBytes};
ghost use Rattle.cookie_store.specs.SavedTexts.{Saves};
ghost use Rattle.cookies_txt.specs.Layout.{text_for};
ghost use Rattle.cookies_txt.specs.Writing.{held, line_of_row};
ghost use Rattle.cookie_jar.specs.Rows.{lent_rows};
ghost use Rattle.cookie_jar.specs.Saving as spec;

use crate::error::SaveError;
use crate::form::Form;
use crate::left_out::passed_over_lines;
use crate::rows::rows_of;
use crate::terminal::Shown;
use cookie_store::serde::{json, ron};
use cookie_store::{Cookie, CookieStore, Error};
use cookies_txt::{Reader, WriteError};
use kept_file::draft::Draft;
use std::alloc::{AllocError, Global};

/// A jar's text in a form.
#[derive(Debug, Drop)]
pub struct Exported {
    /// The text.
    pub text: Vec<u8>,
    /// How many rows it holds.
    pub rows: usize,
    /// How many rows it doesn't hold, since no line of `cookies.txt` can.
    pub passed_over: usize,
    /// A line of each of these: `passed over: ` and why, domain, path and name, parted by tabs. Of the texts each byte
    /// that isn't printable ASCII, and `%`, stands as `%` and two digits.
    pub told: Shown,
}

/// The text of a store's rows. A row that a line of `cookies.txt` can't hold is refused, or is passed over where
/// `passing_over` is set.
pub(crate) fn text_of(
    alloc: Global,
    store: &CookieStore,
    form: Form,
    passing_over: bool,
) -> Result<Exported, SaveError>
    ensures text { IfOk result (λ exported.
        spec.IsText form (spec.fitting form store.now.rows) exported.text.items) }
    ensures rows { IfOk result (λ exported. exported.rows ≡ length (spec.fitting form store.now.rows)) }
    ensures passed_over { IfOk result (λ exported.
        exported.rows + exported.passed_over ≡ length store.now.rows) }
    ensures all { passing_over ≡ false → IfOk result (λ _. spec.fitting form store.now.rows ≡ store.now.rows) }
    ensures bytes { IfOk result (λ _. spec.AreBytesIn form store.now.rows) }
    ensures utf8 { IfOk result (λ exported. IsUtf8 exported.text.items) }
    ensures err { IfErr result (spec.IsUnsaved form passing_over store.now.rows) }
{
    match form {
        Form::Ron => Ok(whole(alloc, ron_text(alloc, store)?, rows_of(alloc, store)?.len())),
        Form::Json => Ok(whole(
            alloc,
            json_text(alloc, store)?,
            rows_of(alloc, store)?.len(),
        )),
        Form::Txt => txt(alloc, store, passing_over),
    }
}

// A text that holds all rows, of which there are so many.
fn whole(alloc: Global, text: Vec<u8>, rows: usize) -> Exported
    ensures text { result.text ≡ text }
    ensures rows { (result.rows ≡ rows) × (result.passed_over ≡ 0) }
{
    Exported {
        text,
        rows,
        passed_over: 0,
        told: Shown::new(alloc),
    }
}

fn ron_text(alloc: Global, store: &CookieStore) -> Result<Vec<u8>, SaveError>
    ensures ok { IfOk result (λ text. IsUtf8 text.items × Saves ron_layout store.now.rows text.items) }
    ensures bytes { IfOk result (λ _. AllByRecursion IsOfBytes store.now.rows) }
    ensures err { IfErr result (spec.IsUnsaved Form.Ron false store.now.rows) }
{
    let mut draft = Draft::new(alloc);
    match ron::save_incl_expired_and_nonpersistent(store, &mut draft) {
        Ok(()) => Ok(draft.text),
        Err(Error::Year) => Err(SaveError::Year),
        Err(_) => Err(SaveError::OutOfMemory),
    }
}

fn json_text(alloc: Global, store: &CookieStore) -> Result<Vec<u8>, SaveError>
    ensures ok { IfOk result (λ text. IsUtf8 text.items × Saves list_text store.now.rows text.items) }
    ensures err { IfErr result (spec.IsUnsaved Form.Json false store.now.rows) }
{
    let mut draft = Draft::new(alloc);
    match json::save_incl_expired_and_nonpersistent(store, &mut draft) {
        Ok(()) => Ok(draft.text),
        Err(Error::Year) => Err(SaveError::Year),
        Err(_) => Err(SaveError::OutOfMemory),
    }
}

fn txt(alloc: Global, store: &CookieStore, passing_over: bool) -> Result<Exported, SaveError>
    ensures text { IfOk result (λ exported.
        spec.IsText Form.Txt (spec.fitting Form.Txt store.now.rows) exported.text.items) }
    ensures rows { IfOk result (λ exported. exported.rows ≡ length (spec.fitting Form.Txt store.now.rows)) }
    ensures passed_over { IfOk result (λ exported.
        exported.rows + exported.passed_over ≡ length store.now.rows) }
    ensures all { passing_over ≡ false → IfOk result (λ _. spec.fitting Form.Txt store.now.rows ≡ store.now.rows) }
    ensures utf8 { IfOk result (λ exported. IsUtf8 exported.text.items) }
    ensures err { IfErr result (spec.IsUnsaved Form.Txt passing_over store.now.rows) }
{
    let told = passed_over_lines(alloc, rows_of(alloc, store)?)?;
    let rows = rows_of(alloc, store)?;
    let count = rows.len();
    match cookies_txt::write_rows(alloc, rows, passing_over) {
        Ok(written) => Ok(Exported {
            rows: count - written.passed_over,
            passed_over: written.passed_over,
            text: written.text.into_bytes(),
            told,
        }),
        Err(refusal) => Err(unwritten(refusal)),
    }
}

/// The text of these rows as `cookies.txt` for a reader, without those that a line can't hold, of which this is told.
pub(crate) fn lines_for(
    alloc: Global,
    reader: Reader,
    rows: Vec<&Cookie<'static>>,
    told: Shown,
) -> Result<Exported, AllocError>
    ensures text { IfOk result (λ exported.
        exported.text.items ≡ text_for reader (map line_of_row (held (lent_rows rows.entry.items)))) }
    ensures rows { IfOk result (λ exported. exported.rows ≡ length (held (lent_rows rows.entry.items))) }
    ensures passed_over { IfOk result (λ exported.
        exported.rows + exported.passed_over ≡ length (lent_rows rows.entry.items)) }
{
    let count = rows.len();
    match cookies_txt::write_for(alloc, reader, rows, true) {
        Ok(written) => Ok(Exported {
            rows: count - written.passed_over,
            passed_over: written.passed_over,
            text: written.text.into_bytes(),
            told,
        }),
        // Rows that no line holds are passed over, so only memory was refused.
        Err(_) => Err(AllocError),
    }
}

// What a refusal to write lines is told as.
fn unwritten(refusal: WriteError) -> SaveError
    ensures { ((result ≡ SaveError.OutOfMemory) × (refusal ≡ WriteError.OutOfMemory))
        ⊎ ((result ≢ SaveError.OutOfMemory) × (refusal ≢ WriteError.OutOfMemory)) }
{
    match refusal {
        WriteError::Row(number, fault) => SaveError::Row(number, fault),
        WriteError::OutOfMemory => SaveError::OutOfMemory,
    }
}
