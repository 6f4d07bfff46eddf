//! The parts of a row of RON.
ghost use Rattle.std.specs.Prelude.{◌≡◌, ◌∷◌, [], ◌++◌, ◌<◌, MatchResult, MatchBool, IfNone, IfSome, IsTrue, List, ℕ};
ghost use Rattle.std.specs.Prelude.{string_bytes};
ghost use Rattle.saved_text.specs.Ron.{string, bracketed, name, domain};
ghost use Rattle.saved_text.specs.Grammar.Word.{the_name};
ghost use Rattle.saved_text.specs.Grammar.Grammar.{sign};
ghost use Rattle.saved_text.specs.Reads.{Takes, Stops};
ghost use Rattle.saved_text.specs.Faults.{StopsAs, BeginsOtherwise, BeginsWith, Spaced, Unspaced, AreAscii, closing};
ghost use Rattle.saved_text.specs.Letters.{is_space};
ghost use Rattle.saved_text.specs.Saved.{domain_shown};
ghost use Rattle.saved_text.specs.Words.{string_words, domain_words, tagged};

use crate::ron_text::{Stop, cut, read_string, tail};
use crate::row::SavedDomain;
use std::alloc::Global;

// What follows all white space.
pub(crate) fn gap(text: &str) -> &str
    ensures { Spaced text.now result.now }
{
    let mut rest = text;
    while let Some(behind) = cut_space(rest) {
        rest = behind;
    }
    rest
}

// What is behind white space, where it stands first.
fn cut_space(text: &str) -> Option<&str>
    ensures none { IfNone result (Unspaced text.now) }
    ensures some { IfSome result (λ r. (b : ℕ) × IsTrue (is_space b) × (text.now ≡ b ∷ r.now)) }
{
    match text.as_bytes() {
        [b' ' | b'\t' | b'\n' | b'\r', ..] => Some(tail(text)),
        _ => None,
    }
}

// Whether the byte stands first.
pub(crate) fn begins(text: &str, byte: u8) -> bool
    requires { byte < 128 }
    ensures { MatchBool result (BeginsWith byte text.now) (BeginsOtherwise byte text.now) }
{
    cut(text, byte).is_some()
}

// What is behind a byte that must stand first.
pub(crate) fn sign_of(text: &str, byte: u8) -> Result<&str, Stop<'_>>
    requires { byte < 128 }
    ensures { MatchResult result (λ r. Takes (sign (byte ∷ [])) text.now [] r.now)
        (StopsAs (sign (byte ∷ [])) text.now) }
{
    match cut(text, byte) {
        Some(rest) => Ok(rest),
        None => Err(Stop::Here(text)),
    }
}

// What is behind bytes that must stand first.
pub(crate) fn bytes_of<'a>(text: &'a str, bytes: &[u8]) -> Result<&'a str, Stop<'a>>
    requires { AreAscii bytes.now }
    ensures { MatchResult result (λ r. Takes (sign bytes.now) text.now [] r.now) (StopsAs (sign bytes.now) text.now) }
{
    match bytes {
        [] => Ok(text),
        [b, more @ ..] => match cut(text, *b) {
            Some(rest) => bytes_of(rest, more),
            None => Err(Stop::Here(text)),
        },
    }
}

// An optional comma and a bracket.
pub(crate) fn close(text: &str) -> Result<&str, Stop<'_>>
    ensures { MatchResult result (λ r. Takes closing text.now [] r.now) (StopsAs closing text.now) }
{
    if let Some(rest) = cut(text, b',') {
        let rest = gap(rest);
        return match cut(rest, b')') {
            Some(rest) => Ok(rest),
            None => Err(Stop::Here(rest)),
        };
    }
    match cut(text, b')') {
        Some(rest) => Ok(rest),
        None => Err(Stop::Here(text)),
    }
}

// A string in brackets.
fn bracketed_string(alloc: Global, text: &str) -> Result<(String, &str), Stop<'_>>
    ensures { MatchResult result (λ p. Takes (bracketed string) text.now (string_words (string_bytes p.0)) p.1.now)
        (StopsAs (bracketed string) text.now) }
{
    let rest = sign_of(text, b'(')?;
    let rest = gap(rest);
    let (value, rest) = read_string(alloc, rest)?;
    let rest = gap(rest);
    let rest = close(rest)?;
    Ok((value, rest))
}

// A name, and a string in brackets.
fn tagged_string<'a>(
    alloc: Global,
    text: &'a str,
    tag: &[u8],
) -> Result<(String, &'a str), Stop<'a>>
    requires { AreAscii tag.now }
    ensures { MatchResult result (λ p. Takes (tagged tag.now) text.now
        (the_name tag.now ∷ string_words (string_bytes p.0)) p.1.now) (StopsAs (tagged tag.now) text.now) }
{
    let rest = bytes_of(text, tag)?;
    let rest = gap(rest);
    bracketed_string(alloc, rest)
}

/// The domain at the front of the text, and what is behind it.
pub fn read_domain(alloc: Global, text: &str) -> Result<(SavedDomain, &str), Stop<'_>>
    ensures { MatchResult result (λ p. Takes domain text.now (domain_words (domain_shown p.0)) p.1.now)
        (StopsAs domain text.now) }
{
    if begins(text, b'H') {
        let (value, rest) = tagged_string(alloc, text, b"HostOnly")?;
        return Ok((SavedDomain::HostOnly(value), rest));
    }
    if begins(text, b'S') {
        let (value, rest) = tagged_string(alloc, text, b"Suffix")?;
        return Ok((SavedDomain::Suffix(value), rest));
    }
    if begins(text, b'N') {
        let rest = bytes_of(text, b"NotPresent")?;
        return Ok((SavedDomain::NotPresent, rest));
    }
    let rest = bytes_of(text, b"Empty")?;
    Ok((SavedDomain::Empty, rest))
}
