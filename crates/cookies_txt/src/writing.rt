//! Rows to `cookies.txt`.
ghost use Rattle.std.specs.Prelude.{◌≡◌, ◌+◌, ◌++◌, ◌∷◌, [], false, length, map, IfOk, IfErr, OnOk, string_bytes};
ghost use Rattle.cookies_txt.specs.Layout.{cookies_txt, kept_for, line_text, text_for};
ghost use Rattle.cookies_txt.specs.Reading.{SaysLines};
ghost use Rattle.cookies_txt.specs.Steps.{said_of};
ghost use Rattle.cookies_txt.specs.Writing as spec;
ghost use Rattle.cookies_txt.specs.Writing.{held, line_of_row, rows_in};

use crate::error::WriteError;
use crate::line::{Line, LineFor};
use crate::readers::Reader;
use crate::row::row_fault;
use cookie_store::Cookie;
use std::alloc::{AllocError, Global};

const HEADING: &str = "# Netscape HTTP Cookie File\n\n";

/// A text of `cookies.txt`, and of how many rows it holds nothing.
#[derive(Debug, Drop)]
pub struct Written {
    /// The text.
    pub text: String,
    /// How many rows were passed over.
    pub passed_over: usize,
}

/// Writes the rows, one a line, in their order. A row that a line can't hold is refused, or is passed over where
/// `passing_over` is set.
///
/// A suffix is written with a dot in front and `TRUE`, a host as it is and `FALSE`; an expiry in whole seconds since
/// 1970, its fraction left out, at least 1, since `0` stands for none.
///
/// # Errors
///
/// `Row` with the number of the first row that a line can't hold, counted from 1, and why, unless such rows are passed
/// over; `OutOfMemory`.
pub fn write(
    alloc: Global,
    cookies: &[&Cookie<'static>],
    passing_over: bool,
) -> Result<Written, WriteError>
    ensures text { IfOk result (λ written. string_bytes written.text
        ≡ cookies_txt (map line_of_row (held (rows_in cookies.now)))) }
    ensures passed_over { IfOk result (λ written. written.passed_over + length (held (rows_in cookies.now))
        ≡ length cookies.now) }
    ensures all { passing_over ≡ false → IfOk result (λ _. spec.AreHeld (rows_in cookies.now)) }
    ensures err { IfErr result (spec.IsWriteRefusal passing_over (rows_in cookies.now)) }
    ensures reads { IfOk result (λ written. SaysLines (string_bytes written.text)
        (map line_of_row (held (rows_in cookies.now)))) }
{
    let mut text = String::from_str(alloc, HEADING)?;
    let mut passed_over = 0;
    for (index, cookie) in cookies.iter().enumerate() {
        match row_fault(cookie) {
            None => push_line(&mut text, Reader::Curl, Line::of(cookie))?,
            Some(_) if passing_over => passed_over += 1,
            Some(fault) => return Err(WriteError::Row(index + 1, fault)),
        }
    }
    Ok(Written { text, passed_over })
}

/// Writes the rows of a list that is handed over, as [`write`] does.
///
/// # Errors
///
/// As [`write`].
pub fn write_rows(
    alloc: Global,
    cookies: Vec<&Cookie<'static>>,
    passing_over: bool,
) -> Result<Written, WriteError>
    ensures text { IfOk result (λ written. string_bytes written.text
        ≡ cookies_txt (map line_of_row (held (rows_in cookies.entry.items)))) }
    ensures passed_over { IfOk result (λ written. written.passed_over + length (held (rows_in cookies.entry.items))
        ≡ length cookies.entry.items) }
    ensures all { passing_over ≡ false → IfOk result (λ _. spec.AreHeld (rows_in cookies.entry.items)) }
    ensures err { IfErr result (spec.IsWriteRefusal passing_over (rows_in cookies.entry.items)) }
    ensures reads { IfOk result (λ written. SaysLines (string_bytes written.text)
        (map line_of_row (held (rows_in cookies.entry.items)))) }
{
    write_for(alloc, Reader::Curl, cookies, passing_over)
}

/// Writes the rows of a list that is handed over for this reader, as [`write`] does for curl: for wget without the mark
/// of HttpOnly, and for Python with an empty expiry where there is none.
///
/// # Errors
///
/// As [`write`].
pub fn write_for(
    alloc: Global,
    reader: Reader,
    cookies: Vec<&Cookie<'static>>,
    passing_over: bool,
) -> Result<Written, WriteError>
    ensures text { IfOk result (λ written. string_bytes written.text
        ≡ text_for reader (map line_of_row (held (rows_in cookies.entry.items)))) }
    ensures passed_over { IfOk result (λ written. written.passed_over + length (held (rows_in cookies.entry.items))
        ≡ length cookies.entry.items) }
    ensures all { passing_over ≡ false → IfOk result (λ _. spec.AreHeld (rows_in cookies.entry.items)) }
    ensures err { IfErr result (spec.IsWriteRefusal passing_over (rows_in cookies.entry.items)) }
    ensures reads { IfOk result (λ written. SaysLines (string_bytes written.text)
        (map (λ row. kept_for reader (line_of_row row)) (held (rows_in cookies.entry.items)))) }
{
    let mut text = String::from_str(alloc, HEADING)?;
    let mut passed = 0;
    let mut number = 0;
    for cookie in cookies {
        number += 1;
        match row_fault(cookie) {
            Some(_) if passing_over => passed += 1,
            Some(fault) => return Err(WriteError::Row(number, fault)),
            None => push_line(&mut text, reader, Line::of(cookie))?,
        }
    }
    Ok(Written {
        text,
        passed_over: passed,
    })
}

// Adds the line for a reader, and its end.
fn push_line(text: &mut String, reader: Reader, line: Line<'_>) -> Result<(), AllocError>
    ensures { OnOk result (string_bytes text.new
        ≡ string_bytes text.old ++ (line_text reader (said_of line.entry) ++ 10 ∷ [])) }
{
    let line = LineFor { line, reader };
    writeln!(text, "{line}")
}
