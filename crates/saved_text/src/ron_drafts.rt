//! A row of RON, field by field.
ghost use Rattle.std.specs.Prelude.{◌≡◌, ◌<◌, true, MatchResult, MatchOption, MatchBool, Some};
ghost use Rattle.saved_text.specs.Drafts.{Adds, IsLacking, IsRowRead, is_lacking, left};
ghost use Rattle.saved_text.specs.Faults.{StopsAs, BeginsWith, BeginsOtherwise};
ghost use Rattle.saved_text.specs.Ron.{fields, row};

use crate::ron_fields::{domain_field, expires_field, path_field, raw_field};
use crate::ron_parts::{begins, close, gap, sign_of};
use crate::ron_text::Stop;
use crate::row::SavedDomain;
use std::alloc::Global;

/// A row as far as it was read.
#[derive(Debug, Drop)]
pub struct Draft {
    /// The raw cookie's text, empty where it is missing.
    pub raw_cookie: String,
    /// The path, empty where it is missing.
    pub path: String,
    /// Whether an attribute gave the path.
    pub is_from_path_attr: bool,
    /// The domain, or another one where it is missing.
    pub domain: SavedDomain,
    /// The text of the date, none at the end of the session and where the death is missing.
    pub date: Option<String>,
    /// Whether the raw cookie is missing.
    pub lacks_raw_cookie: bool,
    /// Whether the path is missing.
    pub lacks_path: bool,
    /// Whether the domain is missing.
    pub lacks_domain: bool,
    /// Whether the death is missing.
    pub lacks_expires: bool,
}

// Whether a field that is missing begins with the byte, and stands first.
fn is_next(is_missing: bool, text: &str, byte: u8) -> bool
    requires { byte < 128 }
    ensures { MatchBool result ((is_missing ≡ true) × BeginsWith byte text.now)
        (is_missing ≡ true → BeginsOtherwise byte text.now) }
{
    is_missing && begins(text, byte)
}

// The first of two strings that don't read, where one is known already.
pub(crate) fn earlier<'a>(known: Option<&'a str>, next: Option<&'a str>) -> Option<&'a str>
    ensures { MatchOption known.entry (result ≡ next.entry) (λ q. result ≡ Some q) }
{
    if known.is_some() { known } else { next }
}

// One of the fields that are missing, the rest at a string in it that doesn't read, and what is behind it.
fn read_field(
    alloc: Global,
    text: &str,
    draft: Draft,
) -> Result<(Draft, Option<&str>, &str), Stop<'_>>
    requires { IsLacking draft }
    ensures { MatchResult result (λ p. Adds draft text.now p.0 p.1 p.2.now) (StopsAs (left draft) text.now) }
{
    let mut draft = draft;
    if is_next(draft.lacks_raw_cookie, text, b'r') {
        let (value, unread, rest) = raw_field(alloc, text)?;
        draft.raw_cookie = value;
        draft.lacks_raw_cookie = false;
        return Ok((draft, unread, rest));
    }
    if is_next(draft.lacks_path, text, b'p') {
        let (value, flag, rest) = path_field(alloc, text)?;
        draft.path = value;
        draft.is_from_path_attr = flag;
        draft.lacks_path = false;
        return Ok((draft, None, rest));
    }
    if is_next(draft.lacks_domain, text, b'd') {
        let (value, rest) = domain_field(alloc, text)?;
        draft.domain = value;
        draft.lacks_domain = false;
        return Ok((draft, None, rest));
    }
    if is_next(draft.lacks_expires, text, b'e') {
        let (date, unread, rest) = expires_field(alloc, text)?;
        draft.date = date;
        draft.lacks_expires = false;
        return Ok((draft, unread, rest));
    }
    Err(Stop::Here(text))
}

// A row of which nothing was read.
fn bare(alloc: Global) -> Draft
    ensures { (result.lacks_raw_cookie ≡ true) × (result.lacks_path ≡ true) × (result.lacks_domain ≡ true)
        × (result.lacks_expires ≡ true) }
{
    Draft {
        raw_cookie: String::new(alloc),
        path: String::new(alloc),
        is_from_path_attr: false,
        domain: SavedDomain::NotPresent,
        date: None,
        lacks_raw_cookie: true,
        lacks_path: true,
        lacks_domain: true,
        lacks_expires: true,
    }
}

// Whether a field is missing.
fn lacks_field(draft: &Draft) -> bool
    ensures { result ≡ is_lacking draft.now.lacks_raw_cookie draft.now.lacks_path draft.now.lacks_domain
        draft.now.lacks_expires }
{
    draft.lacks_raw_cookie || draft.lacks_path || draft.lacks_domain || draft.lacks_expires
}

// The four fields in any order, the rest at the first string in them that doesn't read, and what is behind.
fn read_fields(alloc: Global, text: &str) -> Result<(Draft, Option<&str>, &str), Stop<'_>>
    ensures { MatchResult result (λ p. IsRowRead fields text.now p.0 p.1 p.2.now) (StopsAs fields text.now) }
{
    let mut draft = bare(alloc);
    let mut unread = None;
    let mut rest = text;
    loop {
        let (next, other, behind) = read_field(alloc, rest, draft)?;
        unread = earlier(unread, other);
        if !lacks_field(&next) {
            return Ok((next, unread, behind));
        }
        let comma = gap(behind);
        let behind = sign_of(comma, b',')?;
        draft = next;
        rest = gap(behind);
    }
}

/// The row at the front of the text, the rest at the first string in it that doesn't read, and what is behind.
pub fn read_row(alloc: Global, text: &str) -> Result<(Draft, Option<&str>, &str), Stop<'_>>
    ensures { MatchResult result (λ p. IsRowRead row text.now p.0 p.1 p.2.now) (StopsAs row text.now) }
{
    let rest = sign_of(text, b'(')?;
    let rest = gap(rest);
    let (draft, unread, rest) = read_fields(alloc, rest)?;
    let rest = gap(rest);
    let rest = close(rest)?;
    Ok((draft, unread, rest))
}
