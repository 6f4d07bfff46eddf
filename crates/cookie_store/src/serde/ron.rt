//! A store as a list of RON.
ghost use Rattle.std.specs.Prelude.{◌≡◌, ◌⊎◌, pos, true, false, IfOk, IfErr, OnOk, IsErrOf};
ghost use Rattle.std.specs.Io.KnownBytes.{Appends};
ghost use Rattle.std.specs.List.{AllByRecursion};
ghost use Rattle.std.specs.Str.{IsUtf8};
ghost use Rattle.jiff.specs.Words.{civil_nanos};
ghost use Rattle.saved_text.specs.RonLayout.{ron_layout};
ghost use Rattle.saved_text.specs.RonReading.{ShowsOnly};
ghost use Rattle.store_parts.specs.declared.error.Error.TheVariants.{Io, OutOfMemory};
ghost use Rattle.cookie_store.specs.Placing.{saved};
ghost use Rattle.cookie_store.specs.Grouped.{AreGrouped};
ghost use Rattle.cookie_store.specs.SavedLaws.{HoldsReread, IsOfBytes, PrintsCookie};
ghost use Rattle.cookie_store.specs.SavedTexts as form;

use crate::serde::laws;
use crate::serde::list::{Format, list_of, read, store_of, write};
use crate::store::CookieStore;
use devices::{Sink, Source};
use jiff::civil::DateTime;
use std::alloc::Global;
use store_parts::Result;

/// Writes the list of the cookies that have an end and are not expired at `now`, in the order of the
/// rows. Nothing is flushed.
///
/// # Errors
///
/// `Year` where one of them ends in a year below 0, or `OutOfMemory`: nothing is written then. `Io`
/// where the writer failed or the count of its failures stands at its last value, once the whole list
/// was made; a front of it is written then.
pub fn save<W: Sink>(store: &CookieStore, writer: &mut W, now: DateTime) -> Result<()>
    ensures ok { OnOk result ((list : _) × IsUtf8 list
        × form.Saves ron_layout (saved (civil_nanos now) store.now.rows) list
        × Appends (W.written writer.old) (W.written writer.new) list) }
    ensures bytes { OnOk result (AllByRecursion IsOfBytes (saved (civil_nanos now) store.now.rows)) }
    ensures failures { OnOk result (W.failures writer.new ≡ W.failures writer.old) }
    ensures front { IfErr result (λ e. form.IsSaveFault (saved (civil_nanos now) store.now.rows) e
        ⊎ form.WritesFront (form.Saves ron_layout (saved (civil_nanos now) store.now.rows))
        (W.written writer.old) (W.written writer.new)) }
    ensures err { IfErr result (λ e. form.IsWriteFault (W.failures writer.old) (W.failures writer.new) e
        ⊎ ((writer.new ≡ writer.old) × form.IsSaveFault (saved (civil_nanos now) store.now.rows) e)) }
    ensures flushes { W.flushes writer.new ≡ W.flushes writer.old }
{
    write(store, writer, Format::Ron, Some(now))
}

/// As `save`, of all cookies.
///
/// # Errors
///
/// As `save`.
pub fn save_incl_expired_and_nonpersistent<W: Sink>(
    store: &CookieStore,
    writer: &mut W,
) -> Result<()>
    ensures ok { OnOk result ((list : _) × IsUtf8 list × form.Saves ron_layout store.now.rows list
        × Appends (W.written writer.old) (W.written writer.new) list) }
    ensures bytes { OnOk result (AllByRecursion IsOfBytes store.now.rows) }
    ensures failures { OnOk result (W.failures writer.new ≡ W.failures writer.old) }
    ensures front { IfErr result (λ e. form.IsSaveFault store.now.rows e
        ⊎ form.WritesFront (form.Saves ron_layout store.now.rows) (W.written writer.old) (W.written writer.new)) }
    ensures err { IfErr result (λ e. form.IsWriteFault (W.failures writer.old) (W.failures writer.new) e
        ⊎ ((writer.new ≡ writer.old) × form.IsSaveFault store.now.rows e)) }
    ensures flushes { W.flushes writer.new ≡ W.flushes writer.old }
{
    write(store, writer, Format::Ron, None)
}

/// Loads the store of a list, without the cookies that are expired at `now`. Of two with one key the
/// later replaces the earlier in its place. The store has no list of public suffixes.
///
/// # Errors
///
/// `Io` where the reader failed, or the count of its failures or of its reads stands at its last
/// value; `NotText` where the bytes are not UTF-8; `Ron` with the place where the text is refused,
/// of which `TextPosition` tells line and column; `OutOfMemory`.
pub fn load<R: Source>(alloc: Global, reader: &mut R, now: DateTime) -> Result<CookieStore>
    ensures ok { IfOk result (λ store. form.OfText (R.left reader.old)
        (λ text. form.Loads ShowsOnly false (civil_nanos now) text store)) }
    ensures text { IfOk result (λ _. form.OfText (R.left reader.old) IsUtf8) }
    ensures failures { IsErrOf result Io ⊎ (R.failures reader.new ≡ R.failures reader.old) }
    ensures err { IfErr result (λ e.
        form.IsReadFault (R.failures reader.old) (R.failures reader.new) (R.reads reader.new) e
        ⊎ (e ≡ OutOfMemory) ⊎ form.OfText (R.left reader.old) (λ text. form.IsRonRefusal text e)) }
{
    read(alloc, reader, Format::Ron, false, now)
}

/// As `load`, with the expired ones.
///
/// # Errors
///
/// As `load`.
pub fn load_all<R: Source>(alloc: Global, reader: &mut R) -> Result<CookieStore>
    ensures ok { IfOk result (λ store. form.OfText (R.left reader.old)
        (λ text. form.Loads ShowsOnly true (pos 0) text store)) }
    ensures text { IfOk result (λ _. form.OfText (R.left reader.old) IsUtf8) }
    ensures failures { IsErrOf result Io ⊎ (R.failures reader.new ≡ R.failures reader.old) }
    ensures err { IfErr result (λ e.
        form.IsReadFault (R.failures reader.old) (R.failures reader.new) (R.reads reader.new) e
        ⊎ (e ≡ OutOfMemory) ⊎ form.OfText (R.left reader.old) (λ text. form.IsRonRefusal text e)) }
{
    read(alloc, reader, Format::Ron, true, DateTime::MIN)
}

/// The store that is loaded at `now` of the list that is saved at `now`: the cookies that have an end
/// and are not expired then, each as its printed text reads and each end without its fraction. It has
/// no list of public suffixes.
///
/// # Errors
///
/// `Year` where one of them ends in a year below 0; `Ron` where the printed text of one of them does
/// not read; `OutOfMemory`.
pub fn reload(store: &CookieStore, now: DateTime) -> Result<CookieStore>
    ensures ok { IfOk result (HoldsReread false (civil_nanos now) (saved (civil_nanos now) store.now.rows)) }
    ensures text { OnOk result ((list : _) × form.Saves ron_layout (saved (civil_nanos now) store.now.rows) list) }
    ensures grouped { AreGrouped (saved (civil_nanos now) store.now.rows) }
    ensures err { IfErr result (λ e. form.IsSaveFault (saved (civil_nanos now) store.now.rows) e
        ⊎ ((list : _) × form.Saves ron_layout (saved (civil_nanos now) store.now.rows) list
        × form.IsRonRefusal list e)) }
    ensures read { IfErr result (λ e. AllByRecursion PrintsCookie (saved (civil_nanos now) store.now.rows)
        → form.IsSaveFault (saved (civil_nanos now) store.now.rows) e) }
{
    laws();
    // The rows of a store stand in groups, and so do those of them that are saved.
    let _rows = store.iter_any();
    let text = list_of(store, Format::Ron, Some(now))?;
    store_of(store.alloc(), text.as_bytes(), Format::Ron, false, now)
}
