//! Lines whose dates are known (RFC 6265, sections 5.1.1 and 5.2.1).
ghost use Rattle.std.specs.Prelude.{◌≡◌, ◌==◌, ◌↔◌, ◌++◌, ℕ, List, IfOk, IsTrue, MatchOption, OnOk, false};
ghost use Rattle.std.specs.Prelude.{string_bytes};
ghost use Rattle.std.specs.List.{All};
ghost use Rattle.cookie_text.specs.Attribute.{Expires, Gives};
ghost use Rattle.cookie_text.specs.Pieces.{semicolon};
ghost use Rattle.jiff.specs.Types.{DateTime as Moment};
ghost use Rattle.user_agent.specs.KnownDates as spec;

use crate::dates;
use cookie_text::laws::{one_date, one_outcome};
use cookie_text::{Cookie, ParseError, PrintedDate};
use jiff::civil::DateTime;
use std::alloc::{AllocError, Global};

/// The line with its dates known: each `Expires` whose value has none of the strict forms that `cookie_text` reads, and
/// shows a date as user agents read it, is written in the first of these forms. All else stands as it did.
///
/// # Errors
///
/// `AllocError` where there is no memory for it.
pub fn with_known_date(alloc: Global, line: &str) -> Result<String, AllocError>
    ensures { IfOk result (λ known. spec.IsKnownLine line.now (string_bytes known)) }
{
    let mut known = String::with_capacity(alloc, line.len())?;
    match line.split_once(';') {
        Some((first, rest)) => {
            known.push_str(first)?;
            push_known_pieces(alloc, &mut known, rest)?;
            Ok(known)
        }
        None => {
            known.push_str(line)?;
            Ok(known)
        }
    }
}

// Puts each piece of the text behind a semicolon, its date known.
fn push_known_pieces(alloc: Global, known: &mut String, text: &str) -> Result<(), AllocError>
    ensures { OnOk result (spec.PutsKnown text.now (string_bytes known.old) (string_bytes known.new)) }
{
    for piece in text.split(';') {
        known.push_str(";")?;
        push_known(alloc, known, piece)?;
    }
    Ok(())
}

// Puts a piece, which holds no semicolon, its date known.
fn push_known(alloc: Global, known: &mut String, piece: &str) -> Result<(), AllocError>
    requires { All (λ b. (b == semicolon) ≡ false) piece.now }
    ensures { OnOk result ((put : _) × spec.IsKnown piece.now put
        × (string_bytes known.new ≡ string_bytes known.old ++ put)) }
{
    match loose_date(alloc, piece)? {
        Some(moment) => {
            let dated = dated_piece(alloc, moment)?;
            known.push_str(dated.as_str())?;
        }
        None => known.push_str(piece)?,
    }
    Ok(())
}

/// The piece ` Expires=` with this moment in the first of the strict forms.
pub(crate) fn dated_piece(alloc: Global, moment: DateTime) -> Result<String, AllocError>
    ensures { IfOk result (λ piece. string_bytes piece ≡ spec.dated_piece moment) }
{
    let date = PrintedDate(moment);
    format!(in alloc; " Expires={date}")
}

// The moment that the piece, which holds no semicolon, shows where it is an Expires with a date in none of the strict
// forms.
fn loose_date(alloc: Global, piece: &str) -> Result<Option<DateTime>, AllocError>
    requires { All (λ b. (b == semicolon) ≡ false) piece.now }
    ensures { IfOk result (λ found. MatchOption found ((m : Moment) → ¬ (spec.HasLooseDate piece.now m))
        (spec.HasLooseDate piece.now)) }
{
    let Some(value) = expires_value(piece) else {
        return Ok(None);
    };
    if is_strict(alloc, piece)? {
        return Ok(None);
    }
    Ok(dates::read(value))
}

// The value of the piece, where it is an Expires with one.
#[tactic(auto, unfolding(cookie_text::specs::Pieces::name_of, cookie_text::specs::Pieces::value_of, cookie_text::specs::Pieces::text_after))]
fn expires_value(piece: &str) -> Option<&str>
    ensures { MatchOption result ((text : List ℕ) → ¬ (spec.IsExpires piece.now text))
        (λ value. spec.IsExpires piece.now value.now) }
{
    let (name, value) = piece.split_once('=')?;
    if name.trim().eq_ignore_ascii_case("expires") {
        Some(value.trim())
    } else {
        None
    }
}

// Whether the piece, which holds no semicolon, is an Expires with a date in one of the strict forms.
fn is_strict(alloc: Global, piece: &str) -> Result<bool, AllocError>
    requires { All (λ b. (b == semicolon) ≡ false) piece.now }
    ensures { IfOk result (λ strict. IsTrue strict ↔ ((d : Moment) × Gives piece.now (Expires d))) }
{
    let mut text = String::from_str(alloc, "a=;")?;
    text.push_str(piece)?;
    Ok(has_end(Cookie::parse(text.as_str())))
}

// Whether a cookie was read that has an end.
fn has_end(read: Result<Cookie<'_>, ParseError>) -> bool
    ensures { IsTrue result ↔ spec.HasEnd read.entry }
{
    match read {
        Ok(cookie) => cookie.expires().is_some(),
        Err(_) => false,
    }
}

/// What a line with its dates known reads as: the same refusal, or the same cookie but for its expiry, which is that of
/// the last Expires whose date has a strict form or is one that user agents read.
pub fn known_lines_read_the_same()
    ensures { spec.KnownLinesRead }
{
    one_outcome();
    one_date();
}
