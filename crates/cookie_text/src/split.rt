//! Reading several cookies from one text.
ghost use Rattle.std.specs.Prelude.{◌≡◌, [], ◌∷◌, Some, MatchOption, IfOk, map, option_copied, string_bytes};
ghost use Rattle.cookie_text.specs.SplittingLeft.{owned_left};
ghost use Rattle.cookie_text.specs.Splitting.{Plain, Encoded, PlainOwned, EncodedOwned, IsCut, cookie_texts};
ghost use Rattle.cookie_text.specs.Splitting.{texts_left};

use crate::cookie::Cookie;
use crate::error::ParseError;
use crate::trim::trimmed;
use std::alloc::{AllocError, Global};
use std::collections::VecDeque;
use std::marker::Model;

/// The outcome of each piece of a text, in order.
///
/// The text is cut at each `;`. A piece of white space alone is passed over; each other one is
/// read as the text of a cookie.
#[derive(Drop)]
pub struct SplitCookies<'c> {
    way: Way,
    text: Option<&'c str>,
    pieces: Option<VecDeque<String>>,
}

// How each piece is read: of what is left of a borrowed text, or of the pieces of an owned one.
#[derive(Clone, Copy)]
enum Way {
    Plain,
    Encoded(Global),
    PlainOwned(Global),
    EncodedOwned(Global),
}

impl<'c> Model for SplitCookies<'c> {
    ghost use Rattle.cookie_text.specs.Splitting.{Splitting};

    ghost Value = { Splitting };

    ghost use Rattle.cookie_text.specs.SplittingView.{splitting_of};

    ghost view = { splitting_of };
}

impl<'c> Cookie<'c> {
    /// Reads each piece of `text` by `parse`.
    pub fn split_parse(text: &'c str) -> SplitCookies<'c>
        ensures { result ≡ record { way = Plain; left = cookie_texts text.now } }
    {
        SplitCookies {
            way: Way::Plain,
            text: Some(text),
            pieces: None,
        }
    }

    /// Reads each piece of `text` by `parse_encoded`.
    pub fn split_parse_encoded(alloc: Global, text: &'c str) -> SplitCookies<'c>
        ensures { result ≡ record { way = Encoded; left = cookie_texts text.now } }
    {
        SplitCookies {
            way: Way::Encoded(alloc),
            text: Some(text),
            pieces: None,
        }
    }

    /// Reads each piece of an owned text by `parse_owned`.
    ///
    /// # Errors
    ///
    /// Want of memory for the pieces, which are cut here.
    pub fn split_parse_owned(
        alloc: Global,
        text: String,
    ) -> Result<SplitCookies<'static>, AllocError>
        ensures { IfOk result
            (λ s. s ≡ record { way = PlainOwned; left = cookie_texts (string_bytes text) }) }
    {
        let pieces = owned_pieces(alloc, text.as_str())?;
        Ok(SplitCookies {
            way: Way::PlainOwned(alloc),
            text: None,
            pieces: Some(pieces),
        })
    }

    /// Reads each piece of an owned text by `parse_encoded_owned`.
    ///
    /// # Errors
    ///
    /// Want of memory for the pieces, which are cut here.
    pub fn split_parse_encoded_owned(
        alloc: Global,
        text: String,
    ) -> Result<SplitCookies<'static>, AllocError>
        ensures { IfOk result
            (λ s. s ≡ record { way = EncodedOwned; left = cookie_texts (string_bytes text) }) }
    {
        let pieces = owned_pieces(alloc, text.as_str())?;
        Ok(SplitCookies {
            way: Way::EncodedOwned(alloc),
            text: None,
            pieces: Some(pieces),
        })
    }
}

impl<'c> Iterator for SplitCookies<'c> {
    ghost use Rattle.std.specs.Iterator.{item_count};
    ghost use Rattle.cookie_text.specs.Splitting.{GivesNext};

    type Item = Result<Cookie<'c>, ParseError>;

    ghost next_gives = { GivesNext };

    ghost remaining = { item_count (λ s. s.left) };

    fn next(&mut self) -> Option<Result<Cookie<'c>, ParseError>> {
        match self.way {
            Way::Plain => {
                let (piece, rest) = next_piece(self.text)?;
                self.text = rest;
                Some(Cookie::parse(piece))
            }
            Way::Encoded(alloc) => {
                let (piece, rest) = next_piece(self.text)?;
                self.text = rest;
                Some(Cookie::parse_encoded(alloc, piece))
            }
            Way::PlainOwned(alloc) => {
                let piece = pop_piece(&mut self.pieces)?;
                Some(Cookie::parse_owned(alloc, piece))
            }
            Way::EncodedOwned(alloc) => {
                let piece = pop_piece(&mut self.pieces)?;
                Some(Cookie::parse_encoded_owned(alloc, piece))
            }
        }
    }
}

// The first of the pieces that are left.
fn pop_piece(pieces: &mut Option<VecDeque<String>>) -> Option<String>
    ensures { MatchOption result
        ((owned_left pieces.old ≡ []) × (owned_left pieces.new ≡ []))
        (λ piece. owned_left pieces.old ≡ string_bytes piece ∷ owned_left pieces.new) }
{
    match pieces {
        Some(pieces) => pieces.pop_front(),
        None => None,
    }
}

// The pieces that are read, each in memory of its own.
fn owned_pieces(alloc: Global, text: &str) -> Result<VecDeque<String>, AllocError>
    ensures { IfOk result (λ pieces. map string_bytes pieces.items ≡ cookie_texts text.now) }
{
    let mut pieces = VecDeque::new(alloc);
    let mut left = Some(text);
    while let Some((piece, rest)) = next_piece(left) {
        pieces.push_back(String::from_str(alloc, piece)?)?;
        left = rest;
    }
    Ok(pieces)
}

// The first piece that is read, trimmed, and the text after it.
fn next_piece(text: Option<&str>) -> Option<(&str, Option<&str>)>
    ensures { MatchOption result (texts_left (option_copied text.entry) ≡ [])
        (λ p. texts_left (option_copied text.entry) ≡ p.0.now ∷ texts_left (option_copied p.1)) }
{
    let mut left = text;
    while let Some(text) = left {
        let (piece, rest) = cut(text);
        let piece = trimmed(piece);
        if !piece.is_empty() {
            return Some((piece, rest));
        }
        left = rest;
    }
    None
}

// The piece before the first `;`, and the text after it, where there is one.
fn cut(text: &str) -> (&str, Option<&str>)
    ensures { IsCut text.now result.0.now (option_copied result.1) }
{
    match text.split_once(';') {
        Some((piece, rest)) => (piece, Some(rest)),
        None => (text, None),
    }
}
