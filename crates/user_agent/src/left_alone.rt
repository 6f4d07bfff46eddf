//! Lines that no rule changes, so that they needn't be copied.
ghost use Rattle.std.specs.Prelude.{◌≡◌, ◌==◌, ◌&&◌, ◌⊎◌, ◌↔◌, IfOk, IfSome, IsSome, IsTrue, false, length, nat_le};
ghost use Rattle.std.specs.Prelude.{true};
ghost use Rattle.std.specs.Str.{trim};
ghost use Rattle.std.specs.List.{All, AllByRecursion};
ghost use Rattle.jiff.specs.Words.{civil_nanos};
ghost use Rattle.cookie_text.specs.Pieces.{pieces, semicolon};
ghost use Rattle.user_agent.specs.CutLives.{IsBriefCookie};
ghost use Rattle.user_agent.specs.LeftAlone as spec;
ghost use Rattle.user_agent.specs.LongAttributes.{is_short};

use crate::cut_life::is_brief;
use cookie_text::Cookie;
use jiff::civil::DateTime;
use std::alloc::{AllocError, Global};

/// Whether no rule changes the line at `now`, where only that on long lives may; nothing where another may.
///
/// # Errors
///
/// `AllocError` where there is no memory for a copy of an attribute that says how long the cookie lives.
pub fn left_alone(alloc: Global, line: &str, now: DateTime) -> Result<Option<bool>, AllocError>
    ensures { IfOk result (λ found. IfSome found (λ brief. spec.AreLeftAlone (civil_nanos now) brief line.now)) }
{
    match line.split_once(';') {
        Some((_, rest)) => pieces_left_alone(alloc, rest, now),
        None => Ok(Some(true)),
    }
}

// The same of the pieces of the text.
fn pieces_left_alone(alloc: Global, text: &str, now: DateTime) -> Result<Option<bool>, AllocError>
    ensures { IfOk result (λ found. IfSome found (λ brief.
        AllByRecursion (spec.IsLeftAlone (civil_nanos now) brief) (pieces text.now))) }
{
    let mut brief = true;
    for piece in text.split(';') {
        let Some(is_brief) = piece_left_alone(alloc, piece, now)? else {
            return Ok(None);
        };
        brief = both(brief, is_brief);
    }
    Ok(Some(brief))
}

fn both(one: bool, other: bool) -> bool
    ensures { result ≡ (one && other) }
{
    one && other
}

// The same of the piece, which holds no semicolon.
fn piece_left_alone(alloc: Global, piece: &str, now: DateTime) -> Result<Option<bool>, AllocError>
    requires { All (λ b. (b == semicolon) ≡ false) piece.now }
    ensures { IfOk result (λ found. IfSome found (λ brief. spec.IsLeftAlone (civil_nanos now) brief piece.now)) }
{
    let Some(says) = says_life(piece) else {
        return Ok(None);
    };
    if says {
        life_left_alone(alloc, piece, now)
    } else {
        Ok(Some(true))
    }
}

/// Whether the piece says nothing of how long a cookie lives, where that is soon told.
pub fn says_no_life(piece: &str) -> bool
    ensures { IsTrue result → spec.SaysNoLife piece.now }
{
    match says_life(piece) {
        Some(says) => !says,
        None => false,
    }
}

// Whether the piece may say how long a cookie lives, where its value is short.
fn says_life(piece: &str) -> Option<bool>
    ensures { IfSome result (λ says. (is_short piece.now ≡ true) × (IsTrue says ⊎ spec.SaysNoLife piece.now)) }
{
    match piece.split_once('=') {
        Some((name, value)) => {
            if is_short_value(value) {
                Some(is_name_of_life(name.trim()))
            } else {
                None
            }
        }
        None => Some(false),
    }
}

// Whether the value, without the white space round it, has at most 1,024 bytes.
fn is_short_value(value: &str) -> bool
    ensures { result ≡ nat_le (length (trim value.now)) 1024 }
{
    value.trim().len() <= 1024
}

// Whether an attribute of this name says so.
fn is_name_of_life(name: &str) -> bool
    ensures { IsTrue result ↔ spec.IsNameOfLife name.now }
{
    name.eq_ignore_ascii_case("expires") || name.eq_ignore_ascii_case("max-age")
}

// The same of a short piece that says so, which holds no semicolon.
fn life_left_alone(alloc: Global, piece: &str, now: DateTime) -> Result<Option<bool>, AllocError>
    requires { All (λ b. (b == semicolon) ≡ false) piece.now }
    ensures { IfOk result (λ found. IfSome found (λ brief. spec.IsLifeLeftAlone (civil_nanos now) brief piece.now)) }
{
    let mut text = String::from_str(alloc, "a=;")?;
    text.push_str(piece)?;
    match Cookie::parse(text.as_str()) {
        Ok(cookie) => Ok(lives_briefly(&cookie, now)),
        Err(_) => Ok(None),
    }
}

// Whether the cookie lives 400 days at most from `now` on, where it has an end or an age.
fn lives_briefly(cookie: &Cookie<'_>, now: DateTime) -> Option<bool>
    ensures { IfSome result (λ brief. (IsSome cookie.now.cookie.expires ⊎ IsSome cookie.now.cookie.max_age)
        × (IsTrue brief → IsBriefCookie (civil_nanos now) cookie.now.cookie)) }
{
    if has_life(cookie) {
        Some(is_brief(cookie, now))
    } else {
        None
    }
}

// Whether the cookie has an end or an age.
fn has_life(cookie: &Cookie<'_>) -> bool
    ensures { IsTrue result ↔ (IsSome cookie.now.cookie.expires ⊎ IsSome cookie.now.cookie.max_age) }
{
    cookie.expires().is_some() || cookie.max_age().is_some()
}
