//! Cookies of a `cookies.txt` into a client.
ghost use Rattle.std.specs.Prelude.{◌≡◌, ◌++◌, IfErr, IfOk, OnErr, OnOk, map, option_map};
ghost use Rattle.std.specs.Result.{result_map_both};
ghost use Rattle.jiff.specs.Words.{civil_nanos};
ghost use Rattle.cookie_store.specs.StoredCookie.{stored_of};
ghost use Rattle.cookies_txt.specs.Entries.{entry_text};
ghost use Rattle.fonnalich_c.specs.Given.{nanos_of};
ghost use Rattle.fonnalich_c.specs.Importing as spec;
ghost use Rattle.fonnalich_c.specs.Listing.{IsNoListing};

use crate::control::has_control;
use crate::given::moment;
use crate::refusal::Refusal;
use cookie_client::Client;
use cookie_client::client::is_held;
use cookie_client::pair::is_read_pair;
use cookie_store::Cookie;
use cookies_txt::{Entry, LineFault, read_entries};
use jiff::civil::DateTime;
use std::alloc::{AllocError, Global};

/// Why a line isn't taken.
#[derive(Clone, Copy, Debug, PartialEq, Eq)]
pub enum Cause {
    /// The line has this fault.
    Faulty(LineFault),
    /// A control character, which is a byte below 32 but the tab, or 127, stands in the name, the value, the domain or
    /// the path.
    Control,
    /// No text gives a cookie of this name and this value.
    Pair,
    /// The row is against the prefix `__Host-`.
    HostPrefix,
}

/// The rows of lines that are taken, and what is told of those that are refused.
#[derive(Drop)]
struct Sorted {
    rows: Vec<Cookie<'static>>,
    refused: Vec<u8>,
}

/// Puts the rows of the lines of a text among those of a client, and answers how many lines name a cookie or are
/// faulty, how many were taken, and which were refused and why.
///
/// A line is read as [`read_entries`] has it, and refused alone. One whose row is expired at the second is passed over.
/// No row is judged by the list of public suffixes, or by rules. The client is as it was where that is refused.
pub(crate) fn import(
    alloc: Global,
    client: &mut Client,
    second: i64,
    text: &[u8],
) -> Result<Vec<u8>, Refusal>
    ensures ok { IfOk result (λ answer.
        spec.Imports (nanos_of second) text.now client.old answer.items client.new) }
    ensures err { IfErr result (IsNoListing second) }
    ensures same { OnErr result (client.new ≡ client.old) }
{
    let now = moment(second)?;
    Ok(import_at(alloc, client, text, now)?)
}

fn import_at(
    alloc: Global,
    client: &mut Client,
    text: &[u8],
    now: DateTime,
) -> Result<Vec<u8>, AllocError>
    ensures ok { IfOk result (λ answer.
        spec.Imports (civil_nanos now) text.now client.old answer.items client.new) }
    ensures same { OnErr result (client.new ≡ client.old) }
{
    let entries = read_entries(alloc, text)?;
    let lines = entries.len();
    let sorted = sorted_lines(alloc, entries, now)?;
    let answer = told_of(alloc, lines, &sorted)?;
    client.put_all(sorted.rows)?;
    Ok(answer)
}

// Which rows are taken, and which lines are refused, in their order.
fn sorted_lines(alloc: Global, entries: Vec<Entry>, now: DateTime) -> Result<Sorted, AllocError>
    ensures { IfOk result (λ sorted. spec.Sorts (civil_nanos now) (map entry_text entries.items)
        (map stored_of sorted.rows.items) sorted.refused.items) }
{
    let mut rows = Vec::new(alloc);
    let mut refused = Vec::new(alloc);
    for entry in entries {
        let number = entry.number;
        match judged(entry.row, now) {
            Ok(Some(cookie)) => rows.push(cookie)?,
            Ok(None) => {}
            Err(cause) => push_refused(&mut refused, number, cause)?,
        }
    }
    Ok(Sorted { rows, refused })
}

// The cookie of a line where it is taken, nothing where it is passed over, or why it is refused.
fn judged(
    row: Result<Cookie<'static>, LineFault>,
    now: DateTime,
) -> Result<Option<Cookie<'static>>, Cause>
    ensures { spec.IsEnd (civil_nanos now) (result_map_both stored_of (λ fault. fault) row.entry)
        (result_map_both (option_map stored_of) (λ cause. cause) result) }
{
    let cookie = match row {
        Ok(cookie) => cookie,
        Err(fault) => return Err(Cause::Faulty(fault)),
    };
    if cookie.is_expired(now) {
        return Ok(None);
    }
    match barred_by(&cookie) {
        None => Ok(Some(cookie)),
        Some(cause) => Err(cause),
    }
}

// Why a client doesn't take the cookie, where that is so.
fn barred_by(cookie: &Cookie<'static>) -> Option<Cause>
    ensures { spec.IsBar (stored_of cookie.now) result }
{
    let (name, value) = cookie.raw().name_value();
    if have_control(cookie) {
        Some(Cause::Control)
    } else if !is_read_pair(name, value) {
        Some(Cause::Pair)
    } else if !is_held(cookie) {
        Some(Cause::HostPrefix)
    } else {
        None
    }
}

// Whether a control character stands in one of the cookie's texts.
fn have_control(cookie: &Cookie<'static>) -> bool
    ensures { result ≡ spec.have_control (stored_of cookie.now) }
{
    let (name, value) = cookie.raw().name_value();
    let domain = cookie.domain.as_cow().unwrap_or("");
    (has_control(name.as_bytes()) || has_control(value.as_bytes()))
        || (has_control(domain.as_bytes()) || has_control(cookie.path.as_str().as_bytes()))
}

// Puts what is told of a refused line behind that of others.
fn push_refused(refused: &mut Vec<u8>, number: usize, cause: Cause) -> Result<(), AllocError>
    ensures { OnOk result (refused.new.items ≡ refused.old.items ++ spec.refused_line number cause) }
{
    refused.extend_from_slice(&(number as u64).to_le_bytes())?;
    refused.push(cause_number(cause))?;
    Ok(())
}

// What is told of so many lines.
fn told_of(alloc: Global, lines: usize, sorted: &Sorted) -> Result<Vec<u8>, AllocError>
    ensures { IfOk result (λ answer. answer.items
        ≡ spec.answer_of lines (map stored_of sorted.now.rows.items) sorted.now.refused.items) }
{
    let mut answer = Vec::with_capacity(alloc, sorted.refused.len())?;
    answer.extend_from_slice(&(lines as u64).to_le_bytes())?;
    answer.extend_from_slice(&(sorted.rows.len() as u64).to_le_bytes())?;
    answer.extend_from_slice(&sorted.refused)?;
    Ok(answer)
}

fn cause_number(cause: Cause) -> u8
    ensures { result ≡ spec.cause_number cause }
{
    match cause {
        Cause::Faulty(fault) => fault_number(fault),
        Cause::Control => 48,
        Cause::Pair => 49,
        Cause::HostPrefix => 50,
    }
}

fn fault_number(fault: LineFault) -> u8
    ensures { result ≡ spec.fault_number fault }
{
    match fault {
        LineFault::NotText => 40,
        LineFault::Fields => 41,
        LineFault::EmptyDomain => 42,
        LineFault::Flag => 43,
        LineFault::NoSlash => 44,
        LineFault::Number => 45,
        LineFault::EmptyName => 46,
        LineFault::Domain => 47,
    }
}
