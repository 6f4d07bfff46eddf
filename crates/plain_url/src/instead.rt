//! What to ask for instead of a text that isn't plain.
ghost use Rattle.std.specs.Prelude.{◌≡◌, ◌++◌, IfOk, IfSome, IfNone, MatchOption, None, Ok, string_bytes};
ghost use Rattle.url.specs.Parser.{parse_url};
ghost use Rattle.plain_url.specs.Plain as spec;

use crate::plain::{has_no_user, is_plain_of, is_web};
use std::alloc::{AllocError, Global};
use url::{ParseError, Position, Url};

/// The plain text of a web URL: its own, without user name and password. `None` where its scheme is another than `http`
/// and `https`, or its host has a byte that no plain URL's has.
///
/// # Errors
///
/// `AllocError`, for want of memory.
pub fn plain_text(alloc: Global, url: &Url) -> Result<Option<String>, AllocError>
    ensures text { IfOk result (λ found. MatchOption found (¬ (spec.IsWeb url.now))
        (λ text. spec.IsWeb url.now × (string_bytes text ≡ spec.without_user url.now))) }
    ensures plain { IfOk result (λ found. IfSome found (λ text. spec.IsPlain (string_bytes text))) }
{
    if !is_web(url) {
        return Ok(None);
    }
    let mut text = String::new(alloc);
    text.push_str(url.slice(Position::BeforeScheme, Position::BeforeUsername))?;
    text.push_str(url.slice(Position::BeforeHost, Position::AfterFragment))?;
    Ok(Some(text))
}

/// What to ask for in the place of a text: the text itself where it is plain, and else the own text of its URL, where
/// that is one of `http` or `https`, of a plain URL's host, and has no user name and no password.
///
/// # Errors
///
/// `AllocError`, for want of memory; a text of more than 4 GB is one too.
pub fn plain_for(alloc: Global, text: &str) -> Result<Option<String>, AllocError>
    ensures text { IfOk result (λ found. MatchOption found (spec.HasNoPlain text.now)
        (λ plain. spec.IsPlainFor text.now (string_bytes plain))) }
    ensures plain { IfOk result (λ found. IfSome found (λ plain. spec.IsPlain (string_bytes plain))) }
{
    match Url::parse(alloc, text) {
        Ok(url) => plain_at(alloc, &url, text),
        Err(ParseError::OutOfMemory | ParseError::Overflow) => Err(AllocError),
        Err(_) => Ok(None),
    }
}

// The same, of a text that parses to this URL.
fn plain_at(alloc: Global, url: &Url, text: &str) -> Result<Option<String>, AllocError>
    ensures text { parse_url None text.now ≡ Ok url.now → IfOk result (λ found.
        MatchOption found (spec.HasNoPlain text.now) (λ plain. spec.IsPlainFor text.now (string_bytes plain))) }
    ensures plain { parse_url None text.now ≡ Ok url.now → IfOk result (λ found.
        IfSome found (λ plain. spec.IsPlain (string_bytes plain))) }
{
    if is_plain_of(url, text) {
        Ok(Some(String::from_str(alloc, text)?))
    } else if is_web(url) && has_no_user(url) {
        Ok(Some(String::from_str(alloc, url.as_str())?))
    } else {
        Ok(None)
    }
}
