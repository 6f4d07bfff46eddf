//! Saving and loading a store as one text: by a closure of the whole list, in JSON or in RON.
ghost use Rattle.std.specs.Prelude.{◌≡◌, ◌⊎◌, ◌++◌, ◌∷◌, [], option_map, pos, true, false};
ghost use Rattle.std.specs.Prelude.{Err, IfOk, IfErr, OnOk, OnErr};
ghost use Rattle.std.specs.Io.KnownBytes.{Appends};
ghost use Rattle.devices.specs.Device.{AppendsFront};
ghost use Rattle.jiff.specs.Words.{civil_nanos};
ghost use Rattle.store_parts.specs.declared.error.Error.TheVariants.{OutOfMemory};
ghost use Rattle.cookie_store.specs.SavedLaws.{RonComesBack, RonIsRead, JsonComesBack, JsonIsRead};
ghost use Rattle.cookie_store.specs.Placing.{saved};
ghost use Rattle.cookie_store.specs.SavedLists as lists;
ghost use Rattle.cookie_store.specs.SavedTexts as form;
ghost use Rattle.cookie_store.specs.Steps.{wanted};

pub mod json;
mod list;
pub mod ron;

use crate::saved_rows::{copies, taken};
use crate::store::CookieStore;
use crate::store_cookie::StoreCookie;
use devices::pour::{Stop, read_all, write_all};
use devices::{Sink, Source};
use jiff::civil::DateTime;
use saved_text::laws::{
    dates_are_of_one_moment, lists_read_back, printed_dates_are_read, written_is_of_grammar,
};
use std::alloc::Global;
use store_parts::{Error, Result};

/// Writes the text that the closure makes of the cookies that have an end and are not expired at
/// `now`, in the order of the rows, and a line feed. Nothing is flushed.
///
/// # Errors
///
/// Any that the closure answers, or `OutOfMemory` for the copies that it is lent: nothing is
/// written then. `Io` where the writer failed or the count of its failures stands at its last
/// value, once the closure has made the text; a front of it is written then.
pub fn save<W: Sink, C: StoreCookie + Drop, F: FnMut(&[C]) -> Result<String>>(
    store: &CookieStore,
    writer: &mut W,
    closure: F,
    now: DateTime,
) -> Result<()>
    requires { F.IsAlwaysCallable closure }
    ensures ok { OnOk result ((list : _)
        × lists.IsListOf (lists.lister C.shows F.FnMut) closure (saved (civil_nanos now) store.now.rows) list
        × Appends (W.written writer.old) (W.written writer.new) list) }
    ensures failures { OnOk result (W.failures writer.new ≡ W.failures writer.old) }
    ensures err { IfErr result (λ e. (form.IsWriteFault (W.failures writer.old) (W.failures writer.new) e
        × form.WritesFront
        (lists.IsListOf (lists.lister C.shows F.FnMut) closure (saved (civil_nanos now) store.now.rows))
        (W.written writer.old) (W.written writer.new))
        ⊎ ((writer.new ≡ writer.old)
        × (lists.Lists (lists.lister C.shows F.FnMut) closure (saved (civil_nanos now) store.now.rows) (Err e)
        ⊎ (e ≡ OutOfMemory)))) }
    ensures flushes { W.flushes writer.new ≡ W.flushes writer.old }
{
    write_list(store, writer, closure, Some(now))
}

/// As `save`, of all cookies.
///
/// # Errors
///
/// As `save`.
pub fn save_incl_expired_and_nonpersistent<
    W: Sink,
    C: StoreCookie + Drop,
    F: FnMut(&[C]) -> Result<String>,
>(store: &CookieStore, writer: &mut W, closure: F) -> Result<()>
    requires { F.IsAlwaysCallable closure }
    ensures ok { OnOk result ((list : _) × lists.IsListOf (lists.lister C.shows F.FnMut) closure store.now.rows list
        × Appends (W.written writer.old) (W.written writer.new) list) }
    ensures failures { OnOk result (W.failures writer.new ≡ W.failures writer.old) }
    ensures err { IfErr result (λ e. (form.IsWriteFault (W.failures writer.old) (W.failures writer.new) e
        × form.WritesFront
        (lists.IsListOf (lists.lister C.shows F.FnMut) closure store.now.rows)
        (W.written writer.old) (W.written writer.new))
        ⊎ ((writer.new ≡ writer.old)
        × (lists.Lists (lists.lister C.shows F.FnMut) closure store.now.rows (Err e) ⊎ (e ≡ OutOfMemory)))) }
    ensures flushes { W.flushes writer.new ≡ W.flushes writer.old }
{
    write_list(store, writer, closure, None)
}

// The text that the closure makes of those of the cookies that are saved, and a line feed.
fn write_list<W: Sink, C: StoreCookie + Drop, F: FnMut(&[C]) -> Result<String>>(
    store: &CookieStore,
    writer: &mut W,
    mut closure: F,
    now: Option<DateTime>,
) -> Result<()>
    requires { F.IsAlwaysCallable closure }
    ensures ok { OnOk result ((list : _)
        × lists.IsListOf (lists.lister C.shows F.FnMut) closure
        (wanted (option_map civil_nanos now) store.now.rows) list
        × Appends (W.written writer.old) (W.written writer.new) list) }
    ensures failures { OnOk result (W.failures writer.new ≡ W.failures writer.old) }
    ensures err { IfErr result (λ e. (form.IsWriteFault (W.failures writer.old) (W.failures writer.new) e
        × form.WritesFront
        (lists.IsListOf (lists.lister C.shows F.FnMut) closure (wanted (option_map civil_nanos now) store.now.rows))
        (W.written writer.old) (W.written writer.new))
        ⊎ ((writer.new ≡ writer.old)
        × (lists.Lists (lists.lister C.shows F.FnMut) closure
        (wanted (option_map civil_nanos now) store.now.rows) (Err e)
        ⊎ (e ≡ OutOfMemory)))) }
    ensures flushes { W.flushes writer.new ≡ W.flushes writer.old }
{
    let cookies = copies::<C>(store.alloc(), store.iter_any(), now)?;
    let list = closure(&cookies)?;
    write_line(writer, list.as_str())
}

/// Loads the store of the cookies that the closure makes of the whole text, without those that are
/// expired at `now`. Of two with one key the later replaces the earlier in its place. The store has
/// no list of public suffixes.
///
/// # Errors
///
/// `Io` where the reader failed, or the count of its failures or of its reads stands at its last
/// value; `NotText` where the bytes are not UTF-8; any that the closure answers; `OutOfMemory`.
pub fn load<R: Source, C: StoreCookie + Drop, F: FnMut(&str) -> Result<Vec<C>>>(
    alloc: Global,
    reader: &mut R,
    closure: F,
    now: DateTime,
) -> Result<CookieStore>
    requires { F.IsAlwaysCallable closure }
    ensures ok { IfOk result (λ store. form.OfText (R.left reader.old)
        (λ all. lists.LoadsBy (lists.reader C.shows F.FnMut) closure false (civil_nanos now) all store)) }
    ensures failures { OnOk result (R.failures reader.new ≡ R.failures reader.old) }
    ensures err { IfErr result (λ e.
        form.IsReadFault (R.failures reader.old) (R.failures reader.new) (R.reads reader.new) e
        ⊎ ((R.failures reader.new ≡ R.failures reader.old) × ((e ≡ OutOfMemory)
        ⊎ form.OfText (R.left reader.old) (λ all. lists.IsRefusedBy (lists.reader C.shows F.FnMut) closure all e)))) }
{
    read_list(alloc, reader, closure, false, now)
}

/// As `load`, with the expired ones.
///
/// # Errors
///
/// As `load`.
pub fn load_all<R: Source, C: StoreCookie + Drop, F: FnMut(&str) -> Result<Vec<C>>>(
    alloc: Global,
    reader: &mut R,
    closure: F,
) -> Result<CookieStore>
    requires { F.IsAlwaysCallable closure }
    ensures ok { IfOk result (λ store. form.OfText (R.left reader.old)
        (λ all. lists.LoadsBy (lists.reader C.shows F.FnMut) closure true (pos 0) all store)) }
    ensures failures { OnOk result (R.failures reader.new ≡ R.failures reader.old) }
    ensures err { IfErr result (λ e.
        form.IsReadFault (R.failures reader.old) (R.failures reader.new) (R.reads reader.new) e
        ⊎ ((R.failures reader.new ≡ R.failures reader.old) × ((e ≡ OutOfMemory)
        ⊎ form.OfText (R.left reader.old) (λ all. lists.IsRefusedBy (lists.reader C.shows F.FnMut) closure all e)))) }
{
    read_list(alloc, reader, closure, true, DateTime::MIN)
}

// The store of the cookies that the closure makes of the whole text.
fn read_list<R: Source, C: StoreCookie + Drop, F: FnMut(&str) -> Result<Vec<C>>>(
    alloc: Global,
    reader: &mut R,
    mut closure: F,
    with_expired: bool,
    now: DateTime,
) -> Result<CookieStore>
    requires { F.IsAlwaysCallable closure }
    ensures ok { IfOk result (λ store. form.OfText (R.left reader.old)
        (λ all. lists.LoadsBy (lists.reader C.shows F.FnMut) closure with_expired (civil_nanos now) all store)) }
    ensures failures { OnOk result (R.failures reader.new ≡ R.failures reader.old) }
    ensures err { IfErr result (λ e.
        form.IsReadFault (R.failures reader.old) (R.failures reader.new) (R.reads reader.new) e
        ⊎ ((R.failures reader.new ≡ R.failures reader.old) × ((e ≡ OutOfMemory)
        ⊎ form.OfText (R.left reader.old) (λ all. lists.IsRefusedBy (lists.reader C.shows F.FnMut) closure all e)))) }
{
    let bytes = read_text(alloc, reader)?;
    let Ok(text) = str::from_utf8(&bytes) else {
        return Err(Error::NotText);
    };
    let cookies = taken(alloc, closure(text)?)?;
    let store = CookieStore::of_loaded(alloc, cookies, with_expired, now)?;
    Ok(store)
}

/// What was saved of rows and is loaded of that: the rows with each raw cookie as its printed text
/// reads and each death without its fraction, placed by their keys. Where each of these texts reads,
/// loading is refused for want of memory alone.
pub fn laws()
    ensures ron { RonComesBack }
    ensures ron_read { RonIsRead }
    ensures json { JsonComesBack }
    ensures json_read { JsonIsRead }
{
    written_is_of_grammar();
    lists_read_back();
    printed_dates_are_read();
    dates_are_of_one_moment();
}

/// All that is left to read.
pub(crate) fn read_text<R: Source>(alloc: Global, reader: &mut R) -> Result<Vec<u8>>
    ensures ok { IfOk result (λ all. form.OfText (R.left reader.old) (λ bytes. all.items ≡ bytes)) }
    ensures failures { OnOk result (R.failures reader.new ≡ R.failures reader.old) }
    ensures err { IfErr result (λ e.
        form.IsReadFault (R.failures reader.old) (R.failures reader.new) (R.reads reader.new) e
        ⊎ ((R.failures reader.new ≡ R.failures reader.old) × (e ≡ OutOfMemory))) }
{
    match read_all(alloc, reader) {
        Ok(all) => Ok(all),
        Err(Stop::Read) => Err(Error::Io),
        Err(Stop::Memory) => Err(Error::OutOfMemory),
    }
}

/// All of the text.
pub(crate) fn write_text<W: Sink>(writer: &mut W, text: &str) -> Result<()>
    ensures bytes { OnOk result (Appends (W.written writer.old) (W.written writer.new) text.now) }
    ensures front { OnErr result (AppendsFront (W.written writer.old) (W.written writer.new) text.now) }
    ensures failures { OnOk result (W.failures writer.new ≡ W.failures writer.old) }
    ensures err { IfErr result (form.IsWriteFault (W.failures writer.old) (W.failures writer.new)) }
    ensures flushes { W.flushes writer.new ≡ W.flushes writer.old }
{
    match write_all(writer, text.as_bytes()) {
        Ok(()) => Ok(()),
        Err(_) => Err(Error::Io),
    }
}

/// The text and a line feed.
pub(crate) fn write_line<W: Sink>(writer: &mut W, text: &str) -> Result<()>
    ensures bytes { OnOk result (Appends (W.written writer.old) (W.written writer.new) (text.now ++ 10 ∷ [])) }
    ensures front { OnErr result (AppendsFront (W.written writer.old) (W.written writer.new) (text.now ++ 10 ∷ [])) }
    ensures failures { OnOk result (W.failures writer.new ≡ W.failures writer.old) }
    ensures err { IfErr result (form.IsWriteFault (W.failures writer.old) (W.failures writer.new)) }
    ensures flushes { W.flushes writer.new ≡ W.flushes writer.old }
{
    write_text(writer, text)?;
    write_text(writer, "\n")
}
