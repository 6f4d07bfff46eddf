//! Percent-decoding of name and value (RFC 3986, section 2.1).
ghost use Rattle.std.specs.Prelude.{◌≡◌, ◌↔◌, Some, None, IsTrue, option_map, unwrap_or, string_bytes};
ghost use Rattle.cookie_text.specs.Decoding.{DecodedBegins};
ghost use Rattle.cookie_text.specs.PartText.{part_text, raw_text};
ghost use Rattle.cookie_text.specs.Steps.{Decodes, DecodesPair};

use crate::error::ParseError;
use crate::part::Part;
use percent_encoding::{DecodeError, percent_decode};
use std::alloc::Global;

/// Name and value percent-decoded: the slices themselves where that changes neither.
///
/// # Errors
///
/// `Utf8Error` where one of them is then not UTF-8, or `OutOfMemory`.
pub fn decoded_pair<'c>(
    alloc: Global,
    name: &'c str,
    value: &'c str,
) -> Result<(Part<'c>, Part<'c>), ParseError>
    ensures { DecodesPair name.now value.now result }
{
    let decoded_name = decoded(alloc, name)?;
    let decoded_value = decoded(alloc, value)?;
    match (decoded_name, decoded_value) {
        (None, None) => Ok((Part::Source(name), Part::Source(value))),
        (Some(decoded_name), None) => Ok((Part::Own(decoded_name), Part::Given(value))),
        (None, Some(decoded_value)) => Ok((Part::Given(name), Part::Own(decoded_value))),
        (Some(decoded_name), Some(decoded_value)) => {
            Ok((Part::Own(decoded_name), Part::Own(decoded_value)))
        }
    }
}

/// Whether the text, percent-decoded, begins with these bytes.
pub fn decoded_begins(text: &str, front: &[u8]) -> bool
    ensures { IsTrue result ↔ DecodedBegins text.now front.now }
{
    let mut decoded = percent_decode(text.as_bytes());
    for byte in front {
        if decoded.next() != Some(*byte) {
            return false;
        }
    }
    true
}

// The text percent-decoded, where that changes it.
fn decoded(alloc: Global, text: &str) -> Result<Option<String>, ParseError>
    ensures { Decodes text.now result }
{
    // Most texts have no `%`, and stand for themselves.
    let bytes = text.as_bytes();
    if !bytes.contains(&b'%') {
        return Ok(None);
    }
    let decoded = match percent_decode(bytes).decode_utf8(alloc) {
        Ok(decoded) => decoded,
        Err(DecodeError::Utf8(_)) => return Err(ParseError::Utf8Error),
        Err(DecodeError::OutOfMemory) => return Err(ParseError::OutOfMemory),
    };
    if decoded.as_str() == text {
        return Ok(None);
    }
    match decoded.into_owned(alloc) {
        Ok(decoded) => Ok(Some(decoded)),
        Err(_) => Err(ParseError::OutOfMemory),
    }
}
