//! A store as a list, in JSON or in RON.
ghost use Rattle.std.specs.Prelude.{◌≡◌, ◌⊎◌, ◌↔◌, List, map, option_map, string_bytes};
ghost use Rattle.std.specs.Prelude.{IfOk, IfErr, OnOk, IsErrOf};
ghost use Rattle.std.specs.Io.KnownBytes.{Appends};
ghost use Rattle.std.specs.List.{AllByRecursion};
ghost use Rattle.std.specs.Str.{IsUtf8};
ghost use Rattle.jiff.specs.Words.{civil_nanos};
ghost use Rattle.saved_text.specs.JsonReading.{AreShown};
ghost use Rattle.saved_text.specs.Row.{Shown};
ghost use Rattle.saved_text.specs.Saved.{shown};
ghost use Rattle.store_parts.specs.declared.error.Error.TheVariants.{Io, OutOfMemory};
ghost use Rattle.cookie_store.specs.Formats.{IsFaultIn, ShowsIn, layout};
ghost use Rattle.cookie_store.specs.SavedLaws.{IsOfBytes};
ghost use Rattle.cookie_store.specs.SavedTexts as form;
ghost use Rattle.cookie_store.specs.Steps.{wanted};

use crate::saved_rows::{refusal, saved_list, store_of_rows};
use crate::serde::{read_text, write_text};
use crate::store::CookieStore;
use devices::{Sink, Source};
use jiff::civil::DateTime;
use saved_text::{
    SavedRow, SavedTextError, rows_from_json, rows_from_ron, rows_to_json, rows_to_ron,
};
use std::alloc::{AllocError, Global};
use store_parts::Result;

/// The form of a list.
#[derive(Clone, Copy)]
pub(crate) enum Format {
    /// Indented JSON.
    Json,
    /// RON.
    Ron,
}

impl Format {
    // The text of the rows.
    fn text_of(self, alloc: Global, rows: &[SavedRow]) -> std::result::Result<String, AllocError>
        ensures { IfOk result (λ text. string_bytes text ≡ layout self (map shown rows.now)) }
    {
        match self {
            Format::Json => rows_to_json(alloc, rows),
            Format::Ron => rows_to_ron(alloc, rows),
        }
    }

    // The rows of a text.
    fn rows_of(
        self,
        alloc: Global,
        text: &[u8],
    ) -> std::result::Result<Vec<SavedRow>, SavedTextError>
        ensures text { IfOk result (λ _. IsUtf8 text.now) }
        ensures ok { IfOk result (λ rows. (all : List Shown)
            × ShowsIn self text.now all × AreShown all rows.items) }
        ensures err { IfErr result (λ fault.
            form.IsTextRefusal (IsFaultIn self) text.now (form.of_saved_text fault)) }
    {
        match self {
            Format::Json => match str::from_utf8(text) {
                Ok(text) => rows_from_json(alloc, text),
                Err(_) => Err(SavedTextError::NotText),
            },
            Format::Ron => rows_from_ron(alloc, text),
        }
    }
}

/// Writes the list of those of the cookies that are saved.
pub(crate) fn write<W: Sink>(
    store: &CookieStore,
    writer: &mut W,
    format: Format,
    now: Option<DateTime>,
) -> Result<()>
    ensures ok { OnOk result ((list : _) × IsUtf8 list
        × form.Saves (layout format) (wanted (option_map civil_nanos now) store.now.rows) list
        × Appends (W.written writer.old) (W.written writer.new) list) }
    ensures bytes { OnOk result (AllByRecursion IsOfBytes (wanted (option_map civil_nanos now) store.now.rows)) }
    ensures failures { OnOk result (W.failures writer.new ≡ W.failures writer.old) }
    ensures front { IfErr result (λ e. form.IsSaveFault (wanted (option_map civil_nanos now) store.now.rows) e
        ⊎ form.WritesFront (form.Saves (layout format) (wanted (option_map civil_nanos now) store.now.rows))
        (W.written writer.old) (W.written writer.new)) }
    ensures err { IfErr result (λ e. form.IsWriteFault (W.failures writer.old) (W.failures writer.new) e
        ⊎ ((writer.new ≡ writer.old)
        × form.IsSaveFault (wanted (option_map civil_nanos now) store.now.rows) e)) }
    ensures flushes { W.flushes writer.new ≡ W.flushes writer.old }
{
    let list = list_of(store, format, now)?;
    write_text(writer, list.as_str())
}

/// The list of those of the cookies that are saved.
pub(crate) fn list_of(store: &CookieStore, format: Format, now: Option<DateTime>) -> Result<String>
    ensures ok { IfOk result (λ list. form.Saves (layout format)
        (wanted (option_map civil_nanos now) store.now.rows) (string_bytes list)) }
    ensures bytes { OnOk result (AllByRecursion IsOfBytes (wanted (option_map civil_nanos now) store.now.rows)) }
    ensures err { IfErr result (form.IsSaveFault (wanted (option_map civil_nanos now) store.now.rows)) }
{
    let rows = saved_list(store.alloc(), store.iter_any(), now)?;
    let list = format.text_of(store.alloc(), &rows)?;
    Ok(list)
}

/// Loads the store of a list.
pub(crate) fn read<R: Source>(
    alloc: Global,
    reader: &mut R,
    format: Format,
    with_expired: bool,
    now: DateTime,
) -> Result<CookieStore>
    ensures ok { IfOk result (λ store. form.OfText (R.left reader.old)
        (λ text. form.Loads (ShowsIn format) with_expired (civil_nanos now) text store)) }
    ensures text { IfOk result (λ _. form.OfText (R.left reader.old) IsUtf8) }
    ensures failures { IsErrOf result Io ⊎ (R.failures reader.new ≡ R.failures reader.old) }
    ensures err { IfErr result (λ e.
        form.IsReadFault (R.failures reader.old) (R.failures reader.new) (R.reads reader.new) e
        ⊎ (e ≡ OutOfMemory)
        ⊎ form.OfText (R.left reader.old) (λ text. form.IsTextRefusal (IsFaultIn format) text e)) }
{
    let text = read_text(alloc, reader)?;
    store_of(alloc, &text, format, with_expired, now)
}

/// The store of a list.
pub(crate) fn store_of(
    alloc: Global,
    text: &[u8],
    format: Format,
    with_expired: bool,
    now: DateTime,
) -> Result<CookieStore>
    ensures ok { IfOk result (form.Loads (ShowsIn format) with_expired (civil_nanos now) text.now) }
    ensures text { IfOk result (λ _. IsUtf8 text.now) }
    ensures err { IfErr result (form.IsTextRefusal (IsFaultIn format) text.now) }
{
    match format.rows_of(alloc, text) {
        Ok(rows) => Ok(store_of_rows(alloc, rows, with_expired, now)?),
        Err(fault) => Err(refusal(fault)),
    }
}
