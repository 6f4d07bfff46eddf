//! The fields of a row of RON, in any order.
ghost use Rattle.std.specs.Prelude.{◌∷◌, ◌++◌, [], MatchResult, MatchBool, Some, option_map, string_bytes, codes};
ghost use Rattle.saved_text.specs.Drafts.{Marks, raw_words, path_words, words_of_domain, words_of_date};
ghost use Rattle.saved_text.specs.Faults.{StopsAs, AreAscii, closing};
ghost use Rattle.saved_text.specs.Grammar.{Grammar};
ghost use Rattle.saved_text.specs.Grammar.Grammar.{seq, space};
ghost use Rattle.saved_text.specs.Grammar.Word.{the_name};
ghost use Rattle.saved_text.specs.Reads.{Leads, Takes};
ghost use Rattle.saved_text.specs.Ron.{string, bool, path, expires, raw_field, path_field, domain_field, expires_field};
ghost use Rattle.saved_text.specs.RowWords.{bool_words, expires_words};
ghost use Rattle.saved_text.specs.Saved.{domain_shown, IsCookieText};
ghost use Rattle.saved_text.specs.JsonReading.{HasDeath};
ghost use Rattle.saved_text.specs.Words.{heading, string_words, tagged};

use crate::json_read::{death_of, is_cookie};
use crate::ron_parts::{begins, bytes_of, close, gap, read_domain, sign_of};
use crate::ron_text::{Stop, read_string};
use crate::row::SavedDomain;
use std::alloc::Global;

// What is behind a name and its colon.
fn heading<'a>(text: &'a str, name: &[u8]) -> Result<&'a str, Stop<'a>>
    requires { AreAscii name.now }
    ensures { MatchResult result (λ r. Takes (heading name.now) text.now (the_name name.now ∷ []) r.now)
        (StopsAs (heading name.now) text.now) }
{
    let rest = bytes_of(text, name)?;
    let rest = gap(rest);
    sign_of(rest, b':')
}

// `true` or `false`, and what is behind it.
fn read_bool(text: &str) -> Result<(bool, &str), Stop<'_>>
    ensures { MatchResult result (λ p. Takes bool text.now (bool_words p.0) p.1.now) (StopsAs bool text.now) }
{
    if begins(text, b't') {
        let rest = bytes_of(text, b"true")?;
        return Ok((true, rest));
    }
    let rest = bytes_of(text, b"false")?;
    Ok((false, rest))
}

// The path in brackets, whether an attribute gave it, and what is behind.
fn read_path(alloc: Global, text: &str) -> Result<(String, bool, &str), Stop<'_>>
    ensures { MatchResult result (λ p. Takes path text.now (string_words (string_bytes p.0) ++ bool_words p.1)
        p.2.now) (StopsAs path text.now) }
{
    let rest = sign_of(text, b'(')?;
    let rest = gap(rest);
    let (value, rest) = read_string(alloc, rest)?;
    let rest = gap(rest);
    let rest = sign_of(rest, b',')?;
    let rest = gap(rest);
    let (flag, rest) = read_bool(rest)?;
    let rest = gap(rest);
    let rest = close(rest)?;
    Ok((value, flag, rest))
}

// The string of a date, where its tag and its bracket stand first.
fn date_quote(text: &str) -> Result<&str, Stop<'_>>
    ensures { MatchResult result
        (λ r. (h : Grammar) → Leads (seq (tagged (codes "AtUtc")) h) text.now (the_name (codes "AtUtc") ∷ [])
        (seq (seq string (seq space closing)) h) r.now)
        (StopsAs (tagged (codes "AtUtc")) text.now) }
{
    let rest = bytes_of(text, b"AtUtc")?;
    let rest = gap(rest);
    let rest = sign_of(rest, b'(')?;
    Ok(gap(rest))
}

// Whether a text reads as a date.
fn is_date(text: &str) -> bool
    ensures { MatchBool result (HasDeath (Some text.now)) (¬ (HasDeath (Some text.now))) }
{
    death_of(Some(text)).is_some()
}

// The text of the date, or none at the end of the session, the rest at a date that doesn't read, and what is behind.
fn read_expires(alloc: Global, text: &str) -> Result<(Option<String>, Option<&str>, &str), Stop<'_>>
    ensures { MatchResult result
        (λ p. Takes expires text.now (expires_words (option_map string_bytes p.0)) p.2.now
        × Marks expires text.now (expires_words (option_map string_bytes p.0))
        (HasDeath (option_map string_bytes p.0)) p.1)
        (StopsAs expires text.now) }
{
    if begins(text, b'A') {
        let quote = date_quote(text)?;
        let (date, rest) = read_string(alloc, quote)?;
        let rest = gap(rest);
        let rest = close(rest)?;
        if is_date(date.as_str()) {
            return Ok((Some(date), None, rest));
        }
        return Ok((Some(date), Some(quote), rest));
    }
    let rest = bytes_of(text, b"SessionEnd")?;
    Ok((None, None, rest))
}

// The raw cookie's field: its text, the rest at it where it doesn't read, and what is behind.
pub fn raw_field(alloc: Global, text: &str) -> Result<(String, Option<&str>, &str), Stop<'_>>
    ensures { MatchResult result
        (λ p. Takes raw_field text.now (raw_words (string_bytes p.0)) p.2.now
        × Marks raw_field text.now (raw_words (string_bytes p.0)) (IsCookieText (string_bytes p.0)) p.1)
        (StopsAs raw_field text.now) }
{
    let rest = heading(text, b"raw_cookie")?;
    let quote = gap(rest);
    let (value, rest) = read_string(alloc, quote)?;
    if is_cookie(value.as_str()) {
        return Ok((value, None, rest));
    }
    Ok((value, Some(quote), rest))
}

pub fn path_field(alloc: Global, text: &str) -> Result<(String, bool, &str), Stop<'_>>
    ensures { MatchResult result
        (λ p. Takes path_field text.now (path_words (string_bytes p.0) p.1) p.2.now)
        (StopsAs path_field text.now) }
{
    let rest = heading(text, b"path")?;
    let rest = gap(rest);
    read_path(alloc, rest)
}

pub fn domain_field(alloc: Global, text: &str) -> Result<(SavedDomain, &str), Stop<'_>>
    ensures { MatchResult result
        (λ p. Takes domain_field text.now (words_of_domain (domain_shown p.0)) p.1.now)
        (StopsAs domain_field text.now) }
{
    let rest = heading(text, b"domain")?;
    let rest = gap(rest);
    read_domain(alloc, rest)
}

pub fn expires_field(
    alloc: Global,
    text: &str,
) -> Result<(Option<String>, Option<&str>, &str), Stop<'_>>
    ensures { MatchResult result
        (λ p. Takes expires_field text.now (words_of_date (option_map string_bytes p.0)) p.2.now
        × Marks expires_field text.now (words_of_date (option_map string_bytes p.0))
        (HasDeath (option_map string_bytes p.0)) p.1)
        (StopsAs expires_field text.now) }
{
    let rest = heading(text, b"expires")?;
    let rest = gap(rest);
    read_expires(alloc, rest)
}
