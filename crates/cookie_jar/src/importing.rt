//! What an import takes of the lines of a `cookies.txt`, or of the items of a list of RON or JSON, each read by itself.
ghost use Rattle.std.specs.Prelude.{◌∷◌, [], IfErr, IfOk, IsNone, IsSome, Some, length, map, option_map};
ghost use Rattle.jiff.specs.Words.{civil_nanos};
ghost use Rattle.cookie_store.specs.Given.{ArePicked};
ghost use Rattle.cookie_store.specs.Rows.{live};
ghost use Rattle.cookie_store.specs.StoredCookie.{stored_of};
ghost use Rattle.cookie_jar.specs.Entries.{IsRefusal, entry_row, row_of};
ghost use Rattle.cookie_jar.specs.Importing as spec;
ghost use Rattle.cookie_jar.specs.Keeping.{IsTaken};
ghost use Rattle.cookie_jar.specs.Terminal.{ArePlain, ShowsNoControl};

use crate::entries::{Entry, entries_of};
use crate::error::ImportError;
use crate::form::Form;
use crate::jar::with_rows;
use crate::keeping::{fault_in, have_control, is_taken};
use crate::reading::placed;
use crate::terminal::Shown;
use cookie_client::pair::is_read_pair;
use cookie_store::{Cookie, CookieStore};
use cookies_txt::{LineFault, RowFault};
use jiff::civil::DateTime;
use std::alloc::{AllocError, Global};

/// Why a line or an item of a list isn't taken.
#[derive(Clone, Copy, Debug, PartialEq, Eq)]
pub enum Cause {
    /// The line has this fault. Of an item its domain has it: it is `EmptyDomain` or `Domain`.
    Faulty(LineFault),
    /// The item is no row: it is of another shape, or what stands for a cookie or a date in it doesn't read.
    NoRow,
    /// A control character, which is a byte below 32 but the tab, or 127, stands in the name, the value, the domain or
    /// the path.
    Control,
    /// No text gives a cookie of this name and this value.
    Pair,
    /// The form in which the jar is saved can't hold the row, for this fault.
    Unfit(RowFault),
    /// The row is against the prefix `__Host-`.
    HostPrefix,
}

/// A line, or an item of a list of RON or JSON, that isn't taken.
#[derive(Clone, Copy, Debug, PartialEq, Eq)]
pub struct Refused {
    /// Its number, counted from 1.
    pub number: usize,
    /// Why.
    pub cause: Cause,
}

/// What an import did.
#[derive(Debug, Drop)]
pub struct Imported {
    /// How many rows were taken.
    pub rows: usize,
    /// How many lines or items were passed over since their rows are expired.
    pub expired: usize,
    /// How many were passed over since a later one that was taken has their row's domain, path and name.
    pub replaced: usize,
    /// Those that were refused, in their order.
    pub refused: Vec<Refused>,
}

/// The rows of a store, and behind them those of the lines or the items of a text for a jar that is saved in the form
/// `held`: without those that are expired at `now` and those that it doesn't keep or that the form can't hold, and of
/// two with one key the later in the place of the earlier. Tells what was taken.
///
/// # Errors
///
/// `NoList` where a text of RON or JSON is no list, `OutOfMemory`.
pub(crate) fn import_text(
    alloc: Global,
    store: &CookieStore,
    form: Form,
    held: Form,
    text: &[u8],
    now: DateTime,
) -> Result<(Imported, CookieStore), ImportError>
    ensures ok { IfOk result (λ done. spec.Imports form held (civil_nanos now) text.now store.now.rows
        (spec.import_text done.0) done.1.rows) }
    ensures err { IfErr result (IsRefusal form text.now) }
{
    let entries = entries_of(alloc, form, text)?;
    Ok(import_entries(alloc, store, held, entries, now)?)
}

fn import_entries(
    alloc: Global,
    store: &CookieStore,
    form: Form,
    entries: Vec<Entry>,
    now: DateTime,
) -> Result<(Imported, CookieStore), AllocError>
    ensures { IfOk result (λ done. spec.ImportsEntries form (civil_nanos now)
        (map entry_row entries.items) store.now.rows (spec.import_text done.0) done.1.rows) }
{
    let count = entries.len();
    let refused = refused_of(alloc, form, &entries, now)?;
    let kept = kept_of(alloc, form, entries, now)?;
    let expired = count - refused.len() - kept.len();
    let of_keys = kept.len();
    let others = placed(alloc, kept, now)?;
    let (rows, whole) = with_rows(alloc, store, &others, form, now)?;
    let done = Imported {
        rows,
        expired,
        replaced: of_keys - rows,
        refused,
    };
    Ok((done, whole))
}

// The entries that are refused, in their order.
fn refused_of(
    alloc: Global,
    form: Form,
    entries: &[Entry],
    now: DateTime,
) -> Result<Vec<Refused>, AllocError>
    ensures { IfOk result (λ refused.
        spec.AreRefused form (civil_nanos now) (map entry_row entries.now) (length refused.items)) }
{
    let mut refused = Vec::new(alloc);
    for entry in entries {
        let number = entry.number;
        match cause_of(form, &entry.row, now) {
            Some(cause) => refused.push(Refused { number, cause })?,
            None => {}
        }
    }
    Ok(refused)
}

// Why an entry is refused, where it is.
fn cause_of(form: Form, row: &Result<Cookie<'static>, Cause>, now: DateTime) -> Option<Cause>
    ensures some { IsSome result → spec.IsUntaken form (civil_nanos now) (row_of row.now) }
    ensures none { IsNone result → ¬ (spec.IsUntaken form (civil_nanos now) (row_of row.now)) }
{
    match row {
        Ok(cookie) => refusal(form, cookie, now),
        Err(cause) => Some(*cause),
    }
}

// Why a cookie that isn't expired isn't taken, where that is so.
fn refusal(form: Form, cookie: &Cookie<'static>, now: DateTime) -> Option<Cause>
    ensures some { IsSome result → spec.IsUntaken form (civil_nanos now) (Some (stored_of cookie.now)) }
    ensures none { IsNone result → ¬ (spec.IsUntaken form (civil_nanos now) (Some (stored_of cookie.now))) }
{
    if cookie.is_expired(now) || is_taken(form, cookie) {
        None
    } else {
        Some(refusal_of(form, cookie))
    }
}

/// Why the cookie isn't taken into a jar that is saved in this form.
pub(crate) fn refusal_of(form: Form, cookie: &Cookie<'static>) -> Cause {
    let (name, value) = cookie.raw().name_value();
    if have_control(cookie) {
        Cause::Control
    } else if is_read_pair(name, value) {
        match fault_in(form, cookie) {
            Some(fault) => Cause::Unfit(fault),
            None => Cause::HostPrefix,
        }
    } else {
        Cause::Pair
    }
}

// The cookies of entries that aren't expired and that are taken, in their order.
fn kept_of(
    alloc: Global,
    form: Form,
    entries: Vec<Entry>,
    now: DateTime,
) -> Result<Vec<Cookie<'static>>, AllocError>
    ensures { IfOk result (λ kept. ArePicked (IsTaken form)
        (live (civil_nanos now) (spec.rows_in (map entry_row entries.items)))
        (map stored_of kept.items)) }
{
    let mut kept = Vec::new(alloc);
    for entry in entries {
        match kept_cookie(form, entry.row, now) {
            Some(cookie) => kept.push(cookie)?,
            None => {}
        }
    }
    Ok(kept)
}

// The cookie of an entry, where it isn't expired and is taken.
fn kept_cookie(
    form: Form,
    row: Result<Cookie<'static>, Cause>,
    now: DateTime,
) -> Option<Cookie<'static>>
    ensures { ArePicked (IsTaken form)
        (live (civil_nanos now) (spec.lone (row_of row.entry)))
        (spec.lone (option_map stored_of result)) }
{
    match row {
        Ok(cookie) => only_taken(form, cookie, now),
        Err(_) => None,
    }
}

fn only_taken(form: Form, cookie: Cookie<'static>, now: DateTime) -> Option<Cookie<'static>>
    ensures { ArePicked (IsTaken form) (live (civil_nanos now) (stored_of cookie.entry ∷ []))
        (spec.lone (option_map stored_of result)) }
{
    if !cookie.is_expired(now) && is_taken(form, &cookie) {
        Some(cookie)
    } else {
        None
    }
}

/// What is told of what was refused of a text of this form: a line for each, `refused: ` and why, a tab, `line ` or, of
/// RON and JSON, `row `, and its number.
///
/// # Errors
///
/// `AllocError` where there is no memory for the text.
pub fn refused_text(alloc: Global, form: Form, refused: &[Refused]) -> Result<Shown, AllocError>
    ensures { IfOk result ShowsNoControl }
{
    let mut text = Shown::new(alloc);
    for entry in refused {
        push_refused(&mut text, form, *entry)?;
    }
    Ok(text.finish())
}

fn push_refused(text: &mut Shown, form: Form, entry: Refused) -> Result<(), AllocError> {
    text.words("refused: ")?;
    text.words(cause_words(entry.cause))?;
    text.words(entry_words(form))?;
    text.number(entry.number as u64)?;
    text.words("\n")
}

// What the entries of a text of this form are.
fn entry_words(form: Form) -> &'static str
    ensures { ArePlain result.now }
{
    match form {
        Form::Ron | Form::Json => "\trow ",
        Form::Txt => "\tline ",
    }
}

/// What is told of a line or a row that isn't taken for this cause.
pub(crate) fn cause_words(cause: Cause) -> &'static str
    ensures { ArePlain result.now }
{
    match cause {
        Cause::Faulty(fault) => fault_words(fault),
        Cause::NoRow => "no row",
        Cause::Control => "control character",
        Cause::Pair => "name or value",
        Cause::Unfit(fault) => unfit_words(fault),
        Cause::HostPrefix => "__Host-",
    }
}

/// What is told of a row that a line of `cookies.txt` can't hold for this fault.
pub(crate) fn unfit_words(fault: RowFault) -> &'static str
    ensures { ArePlain result.now }
{
    match fault {
        RowFault::NoDomain => "no domain",
        RowFault::HostSign => "host begins with #, a dot or white space",
        RowFault::NoSlash => "path without /",
        RowFault::EmptyName => "empty name",
        RowFault::Separator => "tab or line feed",
        RowFault::CarriageReturn => "value ends in a carriage return",
    }
}

/// What is told of a line with this fault.
pub(crate) fn fault_words(fault: LineFault) -> &'static str
    ensures { ArePlain result.now }
{
    match fault {
        LineFault::NotText => "not UTF-8",
        LineFault::Fields => "neither six nor seven fields",
        LineFault::EmptyDomain => "no domain",
        LineFault::Flag => "flag neither TRUE nor FALSE",
        LineFault::NoSlash => "path without /",
        LineFault::Number => "expiry is no number",
        LineFault::EmptyName => "empty name",
        LineFault::Domain => "domain without IDNA form",
    }
}
