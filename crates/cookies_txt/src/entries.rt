//! The lines of a `cookies.txt`, each read by itself.
ghost use Rattle.std.specs.Prelude.{◌≡◌, ◌≤◌, map, IfOk, option_map};
ghost use Rattle.std.specs.Result.{result_map_both};
ghost use Rattle.cookie_store.specs.StoredCookie.{stored_of};
ghost use Rattle.cookies_txt.specs.Entries as spec;
ghost use Rattle.cookies_txt.specs.Reading.{read_line};
ghost use Rattle.cookies_txt.specs.Steps.{said_of};
ghost use Rattle.cookies_txt.specs.Writing.{latest_second};

use crate::error::LineFault;
use crate::fields::is_passed_over;
use crate::line::Line;
use cookie_store::{Cookie, CookieDomain, Error};
use std::alloc::{AllocError, Global};
use text_lines::first_line;

// What some editors put in front of a text.
const BYTE_ORDER_MARK: &[u8] = b"\xef\xbb\xbf";

/// A line that isn't passed over.
#[derive(Debug, Drop)]
pub struct Entry {
    /// Its number, counted from 1.
    pub number: usize,
    /// Its row, the domain in IDNA form, or its first fault.
    pub row: Result<Cookie<'static>, LineFault>,
}

/// Reads each line of a text by itself, as [`crate::read`] does: one entry for each that isn't passed over, in their
/// order. A line that isn't UTF-8 is faulty, unless it is passed over. A row's domain is put into its IDNA form (RFC
/// 6265, section 5.1.2): in small letters, and without white space at its ends; one that has a dot in front besides the
/// one that is left out, behind white space too, has none. A byte order mark in front of the text is left out.
///
/// # Errors
///
/// `AllocError`, for want of memory. A faulty line is an entry, and no error.
pub fn read_entries(alloc: Global, text: &[u8]) -> Result<Vec<Entry>, AllocError>
    ensures { IfOk result (λ entries. spec.GivesEntries text.now (map spec.entry_text entries.items)) }
{
    let mut entries = Vec::new(alloc);
    let mut number = 0;
    let mut rest = without_mark(text);
    while let Some((line, behind)) = first_line(rest) {
        rest = behind;
        number += 1;
        match row_of(alloc, line)? {
            Some(row) => entries.push(Entry { number, row })?,
            None => {}
        }
    }
    Ok(entries)
}

fn without_mark(text: &[u8]) -> &[u8]
    ensures { result.now ≡ spec.without_mark text.now }
{
    text.strip_prefix(BYTE_ORDER_MARK).unwrap_or(text)
}

// The row of a line or its first fault, nothing where the line is passed over.
fn row_of(
    alloc: Global,
    line: &[u8],
) -> Result<Option<Result<Cookie<'static>, LineFault>>, AllocError>
    ensures { IfOk result (λ answer. spec.AnswersLine line.now
        (option_map (λ row. result_map_both stored_of (λ fault. fault) row) answer)) }
{
    match str::from_utf8(line) {
        Ok(text) => row_of_text(alloc, text),
        Err(_) if is_passed_over(line) => Ok(None),
        Err(_) => Ok(Some(Err(LineFault::NotText))),
    }
}

fn row_of_text(
    alloc: Global,
    line: &str,
) -> Result<Option<Result<Cookie<'static>, LineFault>>, AllocError>
    ensures { IfOk result (λ answer. spec.AnswersGiven (spec.with_idna (read_line line.now))
        (option_map (λ row. result_map_both stored_of (λ fault. fault) row) answer)) }
{
    match Line::parse(line) {
        Ok(Some(said)) => Ok(Some(row_in_idna(alloc, said)?)),
        Ok(None) => Ok(None),
        Err(fault) => Ok(Some(Err(fault))),
    }
}

// The row of what a line says, its domain in IDNA form.
fn row_in_idna(
    alloc: Global,
    line: Line<'_>,
) -> Result<Result<Cookie<'static>, LineFault>, AllocError>
    requires { line.expires ≤ latest_second }
    ensures { IfOk result (λ answer. spec.AnswersSaid (said_of line.entry)
        (result_map_both stored_of (λ fault. fault) answer)) }
{
    if begins_with_dot(line.domain) {
        return Ok(Err(LineFault::Domain));
    }
    match CookieDomain::from_text(alloc, line.domain) {
        Ok(CookieDomain::Suffix(domain)) => {
            let domain = domain.as_str();
            if begins_with_dot(domain) {
                return Ok(Err(LineFault::Domain));
            }
            Ok(Ok(Line { domain, ..line }.to_cookie(alloc)?))
        }
        Err(Error::OutOfMemory) => Err(AllocError),
        Ok(_) | Err(_) => Ok(Err(LineFault::Domain)),
    }
}

fn begins_with_dot(text: &str) -> bool
    ensures { result ≡ spec.begins_with_dot text.now }
{
    matches!(text.as_bytes(), [b'.', ..])
}
