//! Loading a store.
ghost use Rattle.std.specs.Prelude.{◌≡◌, ◌≢◌, ◌⊎◌, ◌++◌, ◌∷◌, [], ℕ, ℤ};
ghost use Rattle.std.specs.Prelude.{List, true, false, All, map, option_map, IfOk, OnOk, IfErr};
ghost use Rattle.std.specs.Iterator.{IsFinite};
ghost use Rattle.std.specs.Str.Lines.{lines};
ghost use Rattle.jiff.specs.Words.{civil_nanos};
ghost use Rattle.store_parts.specs.declared.error.Error.TheVariants.{OutOfMemory};
ghost use Rattle.cookie_store.specs.LoadedLines.{IsFault, GivesStore, LoadsLinesBy, StopsAtLine, StopsGiving};
ghost use Rattle.cookie_store.specs.LoadedLines.{StopsLoadingLines, input, line_reader};
ghost use Rattle.cookie_store.specs.Placing.{chosen, put_all, loaded_store};
ghost use Rattle.cookie_store.specs.Steps.{Fills, TakesOne, TakesRest, TakesWhole};
ghost use Rattle.cookie_store.specs.StoredCookie.{stored_of};

use crate::action::StoreResult;
use crate::rows::Rows;
use crate::store::CookieStore;
use crate::store_cookie::StoreCookie;
use crate::stored_cookie::Cookie;
use devices::Source;
use jiff::civil::DateTime;
use std::alloc::{AllocError, Global};
use store_parts::Error;
use text_lines::without_return;

/// Puts a loaded cookie among the rows: any, or one that is not expired at `now`.
pub(crate) fn put_loaded(
    alloc: Global,
    rows: &mut Rows,
    cookie: Cookie<'static>,
    with_expired: bool,
    now: DateTime,
) -> Result<(), AllocError>
    ensures { OnOk result (rows.new
        ≡ put_all (chosen with_expired (civil_nanos now) (stored_of cookie.entry ∷ [])) rows.old) }
{
    if with_expired || !cookie.is_expired(now) {
        let _ = rows.put(alloc, cookie)?;
    }
    Ok(())
}

impl CookieStore {
    /// A store that loaded these cookies, with those that are expired at `now` or without them. Of
    /// two with one key the later replaces the earlier in its place.
    pub(crate) fn of_loaded(
        alloc: Global,
        cookies: Vec<Cookie<'static>>,
        with_expired: bool,
        now: DateTime,
    ) -> Result<CookieStore, AllocError>
        ensures { IfOk result (λ store. store
            ≡ loaded_store with_expired (civil_nanos now) (map stored_of cookies.entry.items)) }
    {
        let mut rows = Rows::new(alloc);
        for cookie in cookies {
            put_loaded(alloc, &mut rows, cookie, with_expired, now)?;
        }
        Ok(CookieStore::of_rows(alloc, rows))
    }

    /// A store of the iterator's cookies, with those that are expired at `now` or without them, and
    /// without a list of public suffixes. Of two with one key the later replaces the earlier in its
    /// place.
    ///
    /// # Errors
    ///
    /// The first that the iterator gives; `OutOfMemory`.
    pub fn from_cookies<I: Iterator<Item = Result<Cookie<'static>, Error>> + Drop>(
        alloc: Global,
        iter: I,
        include_expired: bool,
        now: DateTime,
    ) -> StoreResult<CookieStore>
        requires { I.can_next iter × IsFinite (I.remaining iter) }
        ensures ok { IfOk result (λ store. GivesStore I.next_gives iter include_expired (civil_nanos now) store) }
        ensures err { IfErr result (λ error. StopsGiving I.next_gives iter error) }
    {
        let mut rows = Rows::new(alloc);
        for cookie in iter {
            put_loaded(alloc, &mut rows, cookie?, include_expired, now)?;
        }
        Ok(CookieStore::of_rows(alloc, rows))
    }

    /// Reads lines, of each of which the closure makes a cookie, and answers a store of those that
    /// are not expired at `now`, without a list of public suffixes. Of two with one key the later
    /// replaces the earlier in its place.
    ///
    /// A line ends at a line feed, and a carriage return before that is dropped; the last may lack
    /// its end. An empty one is handed to the closure, too.
    ///
    /// # Errors
    ///
    /// The first in the order of the lines: `NotText` at one that is not UTF-8, or any that the
    /// closure answers; `Io` where a read fails, or the count of failures or of reads stands at its
    /// last value, once all lines before it are taken; `OutOfMemory`.
    pub fn load<R: Source, C: StoreCookie, F: FnMut(&str) -> Result<C, Error>>(
        alloc: Global,
        reader: &mut R,
        closure: F,
        now: DateTime,
    ) -> StoreResult<CookieStore>
        requires { F.IsAlwaysCallable closure }
        ensures ok { IfOk result (λ store. LoadsLinesBy (line_reader C.shows F.FnMut) closure false (civil_nanos now)
            (input (R.left reader.old) (R.failures reader.old) (R.reads reader.old))
            (input (R.left reader.new) (R.failures reader.new) (R.reads reader.new)) store) }
        ensures err { IfErr result (λ error. StopsLoadingLines (line_reader C.shows F.FnMut) closure
            (input (R.left reader.old) (R.failures reader.old) (R.reads reader.old))
            (input (R.left reader.new) (R.failures reader.new) (R.reads reader.new)) error) }
    {
        load_lines(alloc, reader, closure, false, now)
    }

    /// As `load`, with the cookies that are expired.
    ///
    /// # Errors
    ///
    /// As `load`.
    pub fn load_all<R: Source, C: StoreCookie, F: FnMut(&str) -> Result<C, Error>>(
        alloc: Global,
        reader: &mut R,
        closure: F,
    ) -> StoreResult<CookieStore>
        requires { F.IsAlwaysCallable closure }
        ensures ok { IfOk result (λ store. (now : ℤ) → LoadsLinesBy (line_reader C.shows F.FnMut) closure true now
            (input (R.left reader.old) (R.failures reader.old) (R.reads reader.old))
            (input (R.left reader.new) (R.failures reader.new) (R.reads reader.new)) store) }
        ensures err { IfErr result (λ error. StopsLoadingLines (line_reader C.shows F.FnMut) closure
            (input (R.left reader.old) (R.failures reader.old) (R.reads reader.old))
            (input (R.left reader.new) (R.failures reader.new) (R.reads reader.new)) error) }
    {
        load_lines(alloc, reader, closure, true, DateTime::MIN)
    }
}

// Makes a cookie of the line, and puts it among the rows.
fn take_line<C: StoreCookie, F: FnMut(&str) -> Result<C, Error>>(
    alloc: Global,
    line: &[u8],
    closure: &mut F,
    rows: &mut Rows,
    with_expired: bool,
    now: DateTime,
) -> StoreResult<()>
    requires { F.IsAlwaysCallable closure.old }
    ensures callable { F.IsAlwaysCallable closure.new }
    ensures ok { OnOk result (TakesOne (line_reader C.shows F.FnMut) with_expired (civil_nanos now)
        closure.old rows.old line.now closure.new rows.new) }
    ensures err { IfErr result (λ error. IsFault (line_reader C.shows F.FnMut) closure.old line.now error
        ⊎ (error ≡ OutOfMemory)) }
{
    let Ok(line) = str::from_utf8(line) else {
        return Err(Error::NotText);
    };
    let cookie = closure(line)?;
    put_loaded(alloc, rows, cookie.into_store(), with_expired, now)?;
    Ok(())
}

// Takes bytes up to the first line feed behind what is begun. Answers those behind it, or none where
// there is no line feed.
fn fill<'b>(begun: &mut Vec<u8>, bytes: &'b [u8]) -> Result<Option<&'b [u8]>, AllocError>
    ensures { IfOk result (λ after. Fills begun.old.items bytes.now begun.new.items (option_map (λ b. b.now) after)) }
{
    match bytes.iter().position(|b| *b == b'\n') {
        Some(i) => {
            begun.extend_from_slice(&bytes[..i])?;
            Ok(Some(&bytes[i + 1..]))
        }
        None => {
            begun.extend_from_slice(bytes)?;
            Ok(None)
        }
    }
}

// Takes the lines that end in the bytes, and leaves begun what is behind the last of them.
fn take_lines<C: StoreCookie, F: FnMut(&str) -> Result<C, Error>>(
    alloc: Global,
    bytes: &[u8],
    begun: &mut Vec<u8>,
    closure: &mut F,
    rows: &mut Rows,
    with_expired: bool,
    now: DateTime,
) -> StoreResult<()>
    requires callable { F.IsAlwaysCallable closure.old }
    requires unended { All (λ b. b ≢ 10) begun.old.items }
    ensures callable { F.IsAlwaysCallable closure.new }
    ensures ok { OnOk result (TakesWhole (line_reader C.shows F.FnMut) with_expired (civil_nanos now)
        closure.old rows.old (begun.old.items ++ bytes.now) closure.new rows.new begun.new.items) }
    ensures err { IfErr result (λ error. (rest : List ℕ)
        → StopsAtLine (line_reader C.shows F.FnMut) closure.old (lines ((begun.old.items ++ bytes.now) ++ rest))
        error) }
{
    let mut bytes = bytes;
    while !bytes.is_empty() {
        let after = match fill(begun, bytes)? {
            Some(after) => after,
            None => return Ok(()),
        };
        take_line(
            alloc,
            without_return(begun),
            closure,
            rows,
            with_expired,
            now,
        )?;
        begun.clear();
        bytes = after;
    }
    Ok(())
}

// Takes the line that lacks its end, where there is one.
fn take_last<C: StoreCookie, F: FnMut(&str) -> Result<C, Error>>(
    alloc: Global,
    begun: &[u8],
    closure: &mut F,
    rows: &mut Rows,
    with_expired: bool,
    now: DateTime,
) -> StoreResult<()>
    requires callable { F.IsAlwaysCallable closure.old }
    requires unended { All (λ b. b ≢ 10) begun.now }
    ensures ok { OnOk result (TakesRest (line_reader C.shows F.FnMut) with_expired (civil_nanos now)
        closure.old rows.old begun.now closure.new rows.new) }
    ensures err { IfErr result (λ error. StopsAtLine (line_reader C.shows F.FnMut) closure.old (lines begun.now)
        error) }
{
    if begun.is_empty() {
        return Ok(());
    }
    take_line(alloc, begun, closure, rows, with_expired, now)?;
    Ok(())
}

// Reads to the end, and takes each line as soon as it is whole.
fn load_lines<R: Source, C: StoreCookie, F: FnMut(&str) -> Result<C, Error>>(
    alloc: Global,
    reader: &mut R,
    mut closure: F,
    with_expired: bool,
    now: DateTime,
) -> StoreResult<CookieStore>
    requires { F.IsAlwaysCallable closure }
    ensures ok { IfOk result (λ store. LoadsLinesBy (line_reader C.shows F.FnMut) closure with_expired (civil_nanos now)
        (input (R.left reader.old) (R.failures reader.old) (R.reads reader.old))
        (input (R.left reader.new) (R.failures reader.new) (R.reads reader.new)) store) }
    ensures err { IfErr result (λ error. StopsLoadingLines (line_reader C.shows F.FnMut) closure
        (input (R.left reader.old) (R.failures reader.old) (R.reads reader.old))
        (input (R.left reader.new) (R.failures reader.new) (R.reads reader.new)) error) }
{
    let mut rows = Rows::new(alloc);
    let mut begun = Vec::new(alloc);
    let mut chunk = [0; 64];
    'reads: for _ in 0..u64::MAX {
        match reader.read(&mut chunk) {
            Ok(0) => {
                take_last(alloc, &begun, &mut closure, &mut rows, with_expired, now)?;
                return Ok(CookieStore::of_rows(alloc, rows));
            }
            Ok(n) => take_lines(
                alloc,
                &chunk[..n],
                &mut begun,
                &mut closure,
                &mut rows,
                with_expired,
                now,
            )?,
            Err(_) => return Err(Error::Io),
        }
    }
    Err(Error::Io)
}
