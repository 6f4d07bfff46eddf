//! Lines whose life is cut at 400 days (the draft that follows RFC 6265, sections 5.5, 5.6.1 and 5.6.2).
ghost use Rattle.std.specs.Prelude.{◌≡◌, ◌==◌, ◌↔◌, ◌++◌, IfOk, IsTrue, MatchOption, OnOk, false, string_bytes};
ghost use Rattle.std.specs.List.{All};
ghost use Rattle.jiff.specs.Types.{DateTime as Moment};
ghost use Rattle.jiff.specs.Words.{civil_nanos, signed_nanos};
ghost use Rattle.cookie_text.specs.Pieces.{semicolon};
ghost use Rattle.store_parts.specs.Expiry.{seconds};
ghost use Rattle.user_agent.specs.CutLives as spec;

use crate::known_date::dated_piece;
use crate::left_alone::says_no_life;
use cookie_text::Cookie;
use cookie_text::laws::one_outcome;
use jiff::SignedDuration;
use jiff::civil::DateTime;
use std::alloc::{AllocError, Global};

/// The line with its life cut at 400 days from `now` on (the draft that follows RFC 6265, section 5.5).
///
/// A `Max-Age` over 34,560,000 seconds is written as that number, and an `Expires` in a strict form past `now` and 400
/// days as that moment in the first of these forms, its fraction of a second dropped. All else stands as it did, an
/// `Expires` too where that moment is of a year below 100, which no strict form writes.
///
/// # Errors
///
/// `AllocError` where there is no memory for it.
pub fn with_cut_life(alloc: Global, line: &str, now: DateTime) -> Result<String, AllocError>
    ensures { IfOk result (λ cut. spec.IsCutLine (civil_nanos now) line.now (string_bytes cut)) }
{
    let mut cut = String::with_capacity(alloc, line.len())?;
    match line.split_once(';') {
        Some((first, rest)) => {
            cut.push_str(first)?;
            push_cut_pieces(alloc, &mut cut, rest, now)?;
            Ok(cut)
        }
        None => {
            cut.push_str(line)?;
            Ok(cut)
        }
    }
}

// Puts each piece of the text behind a semicolon, its life cut.
fn push_cut_pieces(
    alloc: Global,
    cut: &mut String,
    text: &str,
    now: DateTime,
) -> Result<(), AllocError>
    ensures { OnOk result
        (spec.PutsCut (civil_nanos now) text.now (string_bytes cut.old) (string_bytes cut.new)) }
{
    for piece in text.split(';') {
        cut.push_str(";")?;
        push_cut(alloc, cut, piece, now)?;
    }
    Ok(())
}

// Puts a piece, which holds no semicolon, its life cut.
fn push_cut(alloc: Global, cut: &mut String, piece: &str, now: DateTime) -> Result<(), AllocError>
    requires { All (λ b. (b == semicolon) ≡ false) piece.now }
    ensures { OnOk result ((put : _) × spec.IsCut (civil_nanos now) piece.now put
        × (string_bytes cut.new ≡ string_bytes cut.old ++ put)) }
{
    match briefer(alloc, piece, now)? {
        Some(brief) => cut.push_str(brief.as_str())?,
        None => cut.push_str(piece)?,
    }
    Ok(())
}

// What is put in the place of the piece, which holds no semicolon, where it gives a life of over 400 days.
fn briefer(alloc: Global, piece: &str, now: DateTime) -> Result<Option<String>, AllocError>
    requires { All (λ b. (b == semicolon) ≡ false) piece.now }
    ensures { IfOk result (λ found. MatchOption found (spec.IsBrief (civil_nanos now) piece.now)
        (λ brief. spec.IsBriefer (civil_nanos now) piece.now (string_bytes brief))) }
{
    if says_no_life(piece) {
        return Ok(None);
    }
    let mut text = String::from_str(alloc, "a=;")?;
    text.push_str(piece)?;
    match Cookie::parse(text.as_str()) {
        Ok(cookie) => briefer_for(alloc, &cookie, now),
        Err(_) => Ok(None),
    }
}

// The same where this cookie has its attributes of that piece alone.
fn briefer_for(
    alloc: Global,
    cookie: &Cookie<'_>,
    now: DateTime,
) -> Result<Option<String>, AllocError>
    ensures { IfOk result (λ found. MatchOption found (spec.IsBriefCookie (civil_nanos now) cookie.now.cookie)
        (λ brief. spec.IsBrieferFor (civil_nanos now) cookie.now.cookie (string_bytes brief))) }
{
    if is_long(cookie) {
        return Ok(Some(String::from_str(alloc, " Max-Age=34560000")?));
    }
    match limit_passed(cookie, now) {
        Some(limit) => Ok(Some(dated_piece(alloc, limit)?)),
        None => Ok(None),
    }
}

/// Whether the cookie lives 400 days at most from `now` on.
pub(crate) fn is_brief(cookie: &Cookie<'_>, now: DateTime) -> bool
    ensures { IsTrue result → spec.IsBriefCookie (civil_nanos now) cookie.now.cookie }
{
    !is_long(cookie) && limit_passed(cookie, now).is_none()
}

// Whether the cookie has a Max-Age over 400 days.
fn is_long(cookie: &Cookie<'_>) -> bool
    ensures { IsTrue result ↔ spec.IsLong cookie.now.cookie }
{
    match cookie.max_age() {
        Some(age) => age > longest(),
        None => false,
    }
}

// 400 days.
fn longest() -> SignedDuration
    ensures { signed_nanos result ≡ seconds spec.longest }
{
    SignedDuration::from_secs(34_560_000)
}

// The moment 400 days after `now`, where the cookie's expiry is past it.
fn limit_passed(cookie: &Cookie<'_>, now: DateTime) -> Option<DateTime>
    ensures { MatchOption result ((m : Moment) → ¬ (spec.IsPast (civil_nanos now) cookie.now.cookie m))
        (spec.IsPast (civil_nanos now) cookie.now.cookie) }
{
    let end = cookie.expires_datetime()?;
    let limit = limit_at(now)?;
    if limit < end { Some(limit) } else { None }
}

// The moment 400 days after `now`, where it is one of the calendar, in the year 100 or later.
fn limit_at(now: DateTime) -> Option<DateTime>
    ensures { MatchOption result ((m : Moment) → ¬ (spec.IsLimit (civil_nanos now) m))
        (spec.IsLimit (civil_nanos now)) }
{
    let Ok(limit) = now.checked_add(longest()) else {
        return None;
    };
    if limit.year() >= 100 {
        Some(limit)
    } else {
        None
    }
}

/// What a line with its life cut reads as: the same refusal, or the same cookie, but with a Max-Age of 400 days at
/// most, and with an expiry past 400 days after the moment at the whole second of that.
pub fn cut_lines_read_the_same()
    ensures { spec.CutLinesRead }
{
    one_outcome();
}
