//! Saving a store by lines.
ghost use Rattle.std.specs.Prelude.{◌≡◌, IfErr, OnOk, option_map};
ghost use Rattle.jiff.specs.Words.{civil_nanos};
ghost use Rattle.cookie_store.specs.Placing.{saved};
ghost use Rattle.cookie_store.specs.SavedLines.{SavesLines, StopsSaving, output, printer};
ghost use Rattle.cookie_store.specs.Steps.{is_wanted, wanted};
ghost use Rattle.cookie_store.specs.StoredCookie.{stored_of};

use crate::action::StoreResult;
use crate::rows::IterAny;
use crate::serde::write_line;
use crate::store::CookieStore;
use crate::store_cookie::StoreCookie;
use crate::stored_cookie::Cookie;
use devices::Sink;
use jiff::civil::DateTime;
use store_parts::Error;

impl CookieStore {
    /// Writes a line for each cookie that has an end and is not expired at `now`, in the order of
    /// the rows: the text that the closure makes of it, and a line feed. Nothing is flushed.
    ///
    /// # Errors
    ///
    /// Any that the closure answers at a cookie: the lines of those before it are written then. `Io` at
    /// a cookie in whose line the writer failed or the count of its failures stands at its last value:
    /// the lines of those before it and a front of its own are written then.
    pub fn save<W: Sink, C: StoreCookie, F: FnMut(&C) -> Result<String, Error>>(
        &self,
        writer: &mut W,
        closure: F,
        now: DateTime,
    ) -> StoreResult<()>
        requires { F.IsAlwaysCallable closure }
        ensures ok { OnOk result (SavesLines (printer C.shows F.FnMut) closure
            (output (W.written writer.old) (W.failures writer.old)) (saved (civil_nanos now) self.now.rows)
            (output (W.written writer.new) (W.failures writer.new))) }
        ensures err { IfErr result (λ error. StopsSaving (printer C.shows F.FnMut)
            (closure, output (W.written writer.old) (W.failures writer.old))
            (saved (civil_nanos now) self.now.rows) error
            (output (W.written writer.new) (W.failures writer.new))) }
        ensures flushes { W.flushes writer.new ≡ W.flushes writer.old }
    {
        write_lines(self.iter_any(), writer, closure, Some(now))
    }

    /// As `save`, of all cookies.
    ///
    /// # Errors
    ///
    /// As `save`.
    pub fn save_incl_expired_and_nonpersistent<
        W: Sink,
        C: StoreCookie,
        F: FnMut(&C) -> Result<String, Error>,
    >(&self, writer: &mut W, closure: F) -> StoreResult<()>
        requires { F.IsAlwaysCallable closure }
        ensures ok { OnOk result (SavesLines (printer C.shows F.FnMut) closure
            (output (W.written writer.old) (W.failures writer.old)) self.now.rows
            (output (W.written writer.new) (W.failures writer.new))) }
        ensures err { IfErr result (λ error. StopsSaving (printer C.shows F.FnMut)
            (closure, output (W.written writer.old) (W.failures writer.old)) self.now.rows error
            (output (W.written writer.new) (W.failures writer.new))) }
        ensures flushes { W.flushes writer.new ≡ W.flushes writer.old }
    {
        write_lines(self.iter_any(), writer, closure, None)
    }
}

// Whether the cookie is saved: any, or one with an end that is not expired at the moment.
pub(crate) fn is_wanted(cookie: &Cookie<'static>, now: &Option<DateTime>) -> bool
    ensures { result ≡ is_wanted (option_map civil_nanos now.now) (stored_of cookie.now) }
{
    match now {
        Some(now) => !cookie.is_expired(*now) && cookie.is_persistent(),
        None => true,
    }
}

// A line for each of the cookies that is saved.
fn write_lines<W: Sink, C: StoreCookie, F: FnMut(&C) -> Result<String, Error>>(
    cookies: IterAny<'_>,
    writer: &mut W,
    mut closure: F,
    now: Option<DateTime>,
) -> StoreResult<()>
    requires { F.IsAlwaysCallable closure }
    ensures ok { OnOk result (SavesLines (printer C.shows F.FnMut) closure
        (output (W.written writer.old) (W.failures writer.old)) (wanted (option_map civil_nanos now) cookies.entry)
        (output (W.written writer.new) (W.failures writer.new))) }
    ensures err { IfErr result (λ error. StopsSaving (printer C.shows F.FnMut)
        (closure, output (W.written writer.old) (W.failures writer.old))
        (wanted (option_map civil_nanos now) cookies.entry) error
        (output (W.written writer.new) (W.failures writer.new))) }
    ensures flushes { W.flushes writer.new ≡ W.flushes writer.old }
{
    for cookie in cookies {
        if is_wanted(cookie, &now) {
            let text = closure(C::of_store(cookie))?;
            write_line(writer, text.as_str())?;
        }
    }
    Ok(())
}
