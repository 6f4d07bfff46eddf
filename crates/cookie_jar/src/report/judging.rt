//! What becomes of each piece of a line.
ghost use Rattle.cookie_jar.specs.Terminal.{ArePlain};

use crate::report::name::{AttributeName, name_of};
use crate::terminal::Shown;
use cookie_text::{Cookie, ParseError};
use std::alloc::{AllocError, Global};

// What a piece says.
#[derive(Clone, Copy, Debug)]
enum Judgement {
    // It gives this attribute; the last such piece of a line counts (RFC 6265, section 5.3).
    Valid(AttributeName),
    // It is called so, but its value gives none, and it is ignored.
    Invalid(AttributeName),
    // It is called like no attribute, and is ignored.
    Unknown,
}

// A piece of a line, without its semicolons, and what it says.
#[derive(Clone, Copy, Debug)]
struct Piece<'a> {
    text: &'a str,
    judgement: Judgement,
}

/// A line of each piece behind the first semicolon of a line, in their order: the piece without the white space round
/// it, whether it is valid, where RFC 6265 has it (section 5.2), and whether it counts.
///
/// # Errors
///
/// `AllocError`, for want of memory.
pub(crate) fn push_pieces(alloc: Global, text: &mut Shown, line: &str) -> Result<(), AllocError> {
    let pieces = pieces(alloc, line)?;
    let mut left = pieces.as_slice();
    while let [piece, later @ ..] = left {
        push_piece(text, piece)?;
        text.words(counts_text(piece, later))?;
        left = later;
    }
    Ok(())
}

// `Max-Age=x: invalid, ignored (RFC 6265, section 5.2.2)`.
fn push_piece(text: &mut Shown, piece: &Piece<'_>) -> Result<(), AllocError> {
    text.bytes(piece.text.trim().as_bytes())?;
    match piece.judgement {
        Judgement::Valid(name) => {
            text.words(": valid")?;
            text.words(name.place())
        }
        Judgement::Invalid(name) => {
            text.words(": invalid, ignored")?;
            text.words(name.place())
        }
        Judgement::Unknown => text.words(": unknown, ignored"),
    }
}

// Whether a valid piece counts: the last of its name does (RFC 6265, section 5.3). So one does where none of all later
// ones is valid of its attribute.
fn counts_text(piece: &Piece<'_>, later: &[Piece<'_>]) -> &'static str
    ensures { ArePlain result.now }
{
    match piece.judgement {
        Judgement::Valid(name) if is_any_valid(later, name) => ", a later one counts\n",
        Judgement::Valid(_) => ", counts\n",
        Judgement::Invalid(_) | Judgement::Unknown => "\n",
    }
}

// Whether one of the pieces is a valid one of this name.
fn is_any_valid(pieces: &[Piece<'_>], name: AttributeName) -> bool {
    pieces.iter().any(|piece| is_valid_of(piece, name))
}

fn is_valid_of(piece: &Piece<'_>, name: AttributeName) -> bool {
    match piece.judgement {
        Judgement::Valid(other) => name.is(other),
        Judgement::Invalid(_) | Judgement::Unknown => false,
    }
}

// The pieces of a line behind its first semicolon, in their order. What stands before that is the pair.
fn pieces<'a>(alloc: Global, line: &'a str) -> Result<Vec<Piece<'a>>, AllocError> {
    let mut pieces = Vec::new(alloc);
    if let Some((_, rest)) = line.split_once(';') {
        for text in rest.split(';') {
            let judgement = judged(alloc, text)?;
            pieces.push(Piece { text, judgement })?;
        }
    }
    Ok(pieces)
}

// What a piece says, which holds no semicolon.
fn judged(alloc: Global, piece: &str) -> Result<Judgement, AllocError> {
    match name_of(piece) {
        Some(name) if gives(alloc, piece, name)? => Ok(Judgement::Valid(name)),
        Some(name) => Ok(Judgement::Invalid(name)),
        None => Ok(Judgement::Unknown),
    }
}

// Whether the piece, which holds no semicolon, gives this attribute: a cookie of this piece alone has it.
fn gives(alloc: Global, piece: &str, name: AttributeName) -> Result<bool, AllocError> {
    let mut text = String::from_str(alloc, "a=;")?;
    text.push_str(piece)?;
    Ok(is_given(Cookie::parse(text.as_str()), name))
}

// Whether a cookie was read that has the attribute.
fn is_given(read: Result<Cookie<'_>, ParseError>, name: AttributeName) -> bool {
    match read {
        Ok(cookie) => has(&cookie, name),
        Err(_) => false,
    }
}

fn has(cookie: &Cookie<'_>, name: AttributeName) -> bool {
    match name {
        AttributeName::Expires => cookie.expires().is_some(),
        AttributeName::MaxAge => cookie.max_age().is_some(),
        AttributeName::Domain => cookie.domain().is_some(),
        AttributeName::Path => cookie.path().is_some(),
        AttributeName::Secure => cookie.secure().is_some(),
        AttributeName::HttpOnly => cookie.http_only().is_some(),
        AttributeName::SameSite => cookie.same_site().is_some(),
        AttributeName::Partitioned => cookie.partitioned().is_some(),
    }
}
