//! Reading a cookie from its text (RFC 6265, section 5.2).
ghost use Rattle.std.specs.Prelude.{◌≡◌, ◌↔◌, [], Some, None, IsTrue, string_bytes};
ghost use Rattle.cookie_text.specs.Pieces.{pieces, name_of, text_after};
ghost use Rattle.cookie_text.specs.Reading.{HasAttributes, HasSlices, IsPair, ReadsPlain, first_piece};
ghost use Rattle.cookie_text.specs.Steps.{ReadsPair, ReadsFirst, ReadsFirstEncoded, ReadsFurther};
ghost use Rattle.cookie_text.specs.Decoding.{ReadsEncoded, ReadsOwned, ReadsEncodedOwned, IsOwnedOutcome};

use crate::attribute::attribute_of;
use crate::cookie::Cookie;
use crate::decode::decoded_pair;
use crate::error::ParseError;
use crate::part::Part;
use crate::trim::trimmed;
use std::alloc::Global;

impl<'c> Cookie<'c> {
    /// Reads a cookie, whose texts are then slices of `text`.
    ///
    /// # Errors
    ///
    /// `MissingPair` where the piece before the first `;` has no `=`, `EmptyName` where nothing
    /// but white space stands before that `=`.
    pub fn parse(text: &'c str) -> Result<Cookie<'c>, ParseError>
        ensures { ReadsPlain text.now result }
    {
        match text.split_once(';') {
            Some((first, rest)) => {
                let mut cookie = Cookie::read_pair(first)?;
                cookie.read_attributes(rest);
                Ok(cookie)
            }
            None => Cookie::read_pair(text),
        }
    }

    /// Whether [`Cookie::parse`] reads a cookie of `text`. No attribute stands against that, so what stands behind the
    /// first `;` isn't looked at.
    pub fn parses(text: &str) -> bool
        ensures { IsTrue result ↔ IsPair (first_piece text.now) }
    {
        split_pair(first_of(text)).is_ok()
    }

    /// Reads a cookie whose name and value are percent-decoded (RFC 3986, section 2.1).
    ///
    /// They are decoded after they are trimmed. Where that changes neither, both are slices of
    /// `text`. Attributes are slices of `text`, and are not decoded.
    ///
    /// # Errors
    ///
    /// As `parse`; then `Utf8Error` where the decoded name or value is not UTF-8, or `OutOfMemory`
    /// where memory is refused, which a name and a value without `%` don't take.
    pub fn parse_encoded(alloc: Global, text: &'c str) -> Result<Cookie<'c>, ParseError>
        ensures { ReadsEncoded text.now result }
    {
        match text.split_once(';') {
            Some((first, rest)) => {
                let mut cookie = Cookie::read_encoded_pair(alloc, first)?;
                cookie.read_attributes(rest);
                Ok(cookie)
            }
            None => Cookie::read_encoded_pair(alloc, text),
        }
    }

    /// Reads a cookie as `parse` does, from an owned text: it has no raw forms.
    ///
    /// # Errors
    ///
    /// As `parse`; then `OutOfMemory`.
    pub fn parse_owned(alloc: Global, text: String) -> Result<Cookie<'static>, ParseError>
        ensures { ReadsOwned (string_bytes text) result }
    {
        Cookie::from_str(alloc, text.as_str())
    }

    /// Reads a cookie as `parse_encoded` does, from an owned text: it has no raw forms.
    ///
    /// # Errors
    ///
    /// As `parse_encoded`; `OutOfMemory` also where there is no memory for the cookie's own texts.
    pub fn parse_encoded_owned(alloc: Global, text: String) -> Result<Cookie<'static>, ParseError>
        ensures { ReadsEncodedOwned (string_bytes text) result }
    {
        own(alloc, Cookie::parse_encoded(alloc, text.as_str()))
    }

    /// Reads a cookie as `parse` does; the cookie owns its texts, and has no raw forms.
    ///
    /// # Errors
    ///
    /// As `parse`; then `OutOfMemory`.
    pub fn from_str(alloc: Global, text: &str) -> Result<Cookie<'static>, ParseError>
        ensures { ReadsOwned text.now result }
    {
        own(alloc, Cookie::parse(text))
    }

    // Takes what the pieces of the rest of the text give.
    fn read_attributes(&mut self, rest: &'c str)
        requires attributes { HasAttributes [] self.old.cookie }
        requires sliced { HasSlices self.old }
        ensures { ReadsFurther (pieces rest.now) self.old self.new }
    {
        for piece in rest.split(';') {
            if let Some(attribute) = attribute_of(piece) {
                self.take(attribute);
            }
        }
    }

    // Reads the first piece.
    fn read_pair(piece: &'c str) -> Result<Cookie<'c>, ParseError>
        ensures { ReadsFirst piece.now result }
    {
        let (name, value) = split_pair(piece)?;
        Ok(Cookie::of_parts(Part::Source(name), Part::Source(value)))
    }

    // Reads the first piece, percent-decoded.
    fn read_encoded_pair(alloc: Global, piece: &'c str) -> Result<Cookie<'c>, ParseError>
        ensures { ReadsFirstEncoded piece.now result }
    {
        let (name, value) = split_pair(piece)?;
        let (name, value) = decoded_pair(alloc, name, value)?;
        Ok(Cookie::of_parts(name, value))
    }
}

// The outcome in memory of its own.
fn own<'c>(
    alloc: Global,
    read: Result<Cookie<'c>, ParseError>,
) -> Result<Cookie<'static>, ParseError>
    ensures { IsOwnedOutcome read.entry result }
{
    match read {
        Ok(cookie) => match cookie.into_owned(alloc) {
            Ok(cookie) => Ok(cookie),
            Err(_) => Err(ParseError::OutOfMemory),
        },
        Err(error) => Err(error),
    }
}

// The first piece.
fn first_of(text: &str) -> &str
    ensures { result.now ≡ first_piece text.now }
{
    match text.split_once(';') {
        Some((first, _)) => first,
        None => text,
    }
}

// The name and value of the first piece.
#[tactic(auto, unfolding(crate::specs::Pieces::name_of, crate::specs::Pieces::text_after))]
fn split_pair(piece: &str) -> Result<(&str, &str), ParseError>
    ensures { ReadsPair piece.now result }
{
    let Some((name, value)) = piece.split_once('=') else {
        return Err(ParseError::MissingPair);
    };
    let name = trimmed(name);
    if name.is_empty() {
        return Err(ParseError::EmptyName);
    }
    Ok((name, trimmed(value)))
}
