//! A store by lines of JSON.
ghost use Rattle.std.specs.Prelude.{◌≡◌, ◌⊎◌, pos, true, false, string_bytes};
ghost use Rattle.std.specs.Prelude.{IfOk, IfErr, OnOk, IsErrOf};
ghost use Rattle.std.specs.Io.KnownBytes.{Appends};
ghost use Rattle.jiff.specs.Words.{civil_nanos};
ghost use Rattle.saved_text.specs.JsonReading.{IsJsonFault, IsNoRow};
ghost use Rattle.store_parts.specs.declared.error.Error.TheVariants.{Io};
ghost use Rattle.cookie_store.specs.LoadedLines.{input};
ghost use Rattle.cookie_store.specs.Placing.{saved};
ghost use Rattle.cookie_store.specs.SavedTexts as form;
ghost use Rattle.cookie_store.specs.Formats.{IsJsonOfRow};
ghost use Rattle.cookie_store.specs.StoredCookie.{stored_of};

use crate::action::StoreResult;
use crate::saved_row::{loaded_of, saved_of};
use crate::saved_rows::refusal;
use crate::store::CookieStore;
use crate::stored_cookie::Cookie;
use devices::{Sink, Source};
use jiff::civil::DateTime;
use saved_text::{Scratch, row_from_json_in, row_to_json};
use std::alloc::Global;

impl CookieStore {
    /// Writes a line of JSON for each cookie that has an end and is not expired at `now`, in the order
    /// of the rows. Nothing is flushed. Deprecated: `serde::json::save` writes one text, which this
    /// one's readers do not read.
    ///
    /// # Errors
    ///
    /// `Year` at a cookie that ends in a year below 0, or `OutOfMemory`: the lines of those before it
    /// are written then. `Io` at a cookie in whose line the writer failed or the count of its failures
    /// stands at its last value: the lines of those before it and a front of its own are written then.
    pub fn save_json<W: Sink>(&self, writer: &mut W, now: DateTime) -> StoreResult<()>
        ensures ok { OnOk result ((lines : _)
            × form.Saves form.json_lines (saved (civil_nanos now) self.now.rows) lines
            × Appends (W.written writer.old) (W.written writer.new) lines) }
        ensures failures { IsErrOf result Io ⊎ (W.failures writer.new ≡ W.failures writer.old) }
        ensures err { IfErr result (λ e. (form.IsWriteFault (W.failures writer.old) (W.failures writer.new) e
            × form.FailsInLine (saved (civil_nanos now) self.now.rows) (W.written writer.old) (W.written writer.new))
            ⊎ ((lines : _) × form.SavesUntil (saved (civil_nanos now) self.now.rows) e lines
            × Appends (W.written writer.old) (W.written writer.new) lines)) }
        ensures flushes { W.flushes writer.new ≡ W.flushes writer.old }
    {
        let alloc = self.alloc();
        let print = |cookie: &Cookie<'_>|
            ensures ok { IfOk result (λ line. IsJsonOfRow (stored_of cookie.now) (string_bytes line)) }
            ensures err { IfErr result (form.IsRowFault (stored_of cookie.now).death) }
        { json_of(alloc, cookie) };
        self.save(writer, print, now)
    }

    /// As `save_json`, of all cookies. Deprecated, as that is.
    ///
    /// # Errors
    ///
    /// As `save_json`.
    pub fn save_incl_expired_and_nonpersistent_json<W: Sink>(
        &self,
        writer: &mut W,
    ) -> StoreResult<()>
        ensures ok { OnOk result ((lines : _) × form.Saves form.json_lines self.now.rows lines
            × Appends (W.written writer.old) (W.written writer.new) lines) }
        ensures failures { IsErrOf result Io ⊎ (W.failures writer.new ≡ W.failures writer.old) }
        ensures err { IfErr result (λ e. (form.IsWriteFault (W.failures writer.old) (W.failures writer.new) e
            × form.FailsInLine self.now.rows (W.written writer.old) (W.written writer.new))
            ⊎ ((lines : _) × form.SavesUntil self.now.rows e lines
            × Appends (W.written writer.old) (W.written writer.new) lines)) }
        ensures flushes { W.flushes writer.new ≡ W.flushes writer.old }
    {
        let alloc = self.alloc();
        let print = |cookie: &Cookie<'_>|
            ensures ok { IfOk result (λ line. IsJsonOfRow (stored_of cookie.now) (string_bytes line)) }
            ensures err { IfErr result (form.IsRowFault (stored_of cookie.now).death) }
        { json_of(alloc, cookie) };
        self.save_incl_expired_and_nonpersistent(writer, print)
    }

    /// Reads a line of JSON for each cookie, and answers a store of those that are not expired at
    /// `now`, without a list of public suffixes. Of two with one key the later replaces the earlier in
    /// its place. Deprecated: `serde::json::load` reads one text, which this one does not read.
    ///
    /// # Errors
    ///
    /// The first in the order of the lines: `NotText`, `Json`, or `Shape` where the value is of another
    /// shape or the raw cookie or the date in it does not read; `Io` where a read fails, or the count
    /// of failures or of reads stands at its last value, once all lines that ended before it are taken;
    /// `OutOfMemory`.
    pub fn load_json<R: Source>(
        alloc: Global,
        reader: &mut R,
        now: DateTime,
    ) -> StoreResult<CookieStore>
        ensures ok { IfOk result (form.LoadsLines false (civil_nanos now)
            (input (R.left reader.old) (R.failures reader.old) (R.reads reader.old))
            (input (R.left reader.new) (R.failures reader.new) (R.reads reader.new))) }
        ensures err { IfErr result (form.StopsLoading
            (input (R.left reader.old) (R.failures reader.old) (R.reads reader.old))
            (input (R.left reader.new) (R.failures reader.new) (R.reads reader.new))) }
    {
        let mut scratch = Scratch::new(alloc);
        let read = move |line: &str|
            ensures ok { IfOk result (λ cookie. form.IsJsonRow line.now (stored_of cookie)) }
            ensures err { IfErr result (form.IsRefusal (IsJsonFault IsNoRow line.now)) }
        { cookie_of_json(alloc, line, &mut scratch) };
        CookieStore::load(alloc, reader, read, now)
    }

    /// As `load_json`, with the cookies that are expired. Deprecated, as that is.
    ///
    /// # Errors
    ///
    /// As `load_json`.
    pub fn load_json_all<R: Source>(alloc: Global, reader: &mut R) -> StoreResult<CookieStore>
        ensures ok { IfOk result (form.LoadsLines true (pos 0)
            (input (R.left reader.old) (R.failures reader.old) (R.reads reader.old))
            (input (R.left reader.new) (R.failures reader.new) (R.reads reader.new))) }
        ensures err { IfErr result (form.StopsLoading
            (input (R.left reader.old) (R.failures reader.old) (R.reads reader.old))
            (input (R.left reader.new) (R.failures reader.new) (R.reads reader.new))) }
    {
        let mut scratch = Scratch::new(alloc);
        let read = move |line: &str|
            ensures ok { IfOk result (λ cookie. form.IsJsonRow line.now (stored_of cookie)) }
            ensures err { IfErr result (form.IsRefusal (IsJsonFault IsNoRow line.now)) }
        { cookie_of_json(alloc, line, &mut scratch) };
        CookieStore::load_all(alloc, reader, read)
    }
}

// The cookie of a line of JSON.
fn cookie_of_json(alloc: Global, line: &str, scratch: &mut Scratch) -> StoreResult<Cookie<'static>>
    ensures ok { IfOk result (λ cookie. form.IsJsonRow line.now (stored_of cookie)) }
    ensures err { IfErr result (form.IsRefusal (IsJsonFault IsNoRow line.now)) }
{
    match row_from_json_in(alloc, line, scratch) {
        Ok(row) => Ok(loaded_of(alloc, row)?),
        Err(fault) => Err(refusal(fault)),
    }
}

// The cookie in compact JSON.
fn json_of(alloc: Global, cookie: &Cookie<'_>) -> StoreResult<String>
    ensures ok { IfOk result (λ line. IsJsonOfRow (stored_of cookie.now) (string_bytes line)) }
    ensures err { IfErr result (form.IsRowFault (stored_of cookie.now).death) }
{
    let row = saved_of(alloc, cookie)?;
    let line = row_to_json(alloc, &row)?;
    Ok(line)
}
