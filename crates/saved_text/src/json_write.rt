//! How strings are written in JSON (RFC 8259, section 7).
ghost use Rattle.std.specs.Prelude.{◌≡◌, ◌∷◌, [], ◌≤◌, take, drop, length, MatchBool, IfNone, IfSome, ◌++◌, ◌<◌, OnOk};
ghost use Rattle.std.specs.Prelude.{string_bytes};
ghost use Rattle.json.specs.Print.{escape_byte, quoted};
ghost use Rattle.saved_text.specs.Written.{IsAsciiFirst};
ghost use Rattle.saved_text.specs.JsonWritten.{AreUnescaped};

use crate::ron_write::{first_byte, hex_digit};
use std::alloc::AllocError;

// Adds what stands in a string for an ASCII byte.
#[tactic(auto, using(std::proofs::lemmas::Str::encode_ascii), unfolding(json::specs::Print::escape_byte))]
fn push_escaped(out: &mut String, b: u8) -> Result<(), AllocError>
    requires { b < 128 }
    ensures { OnOk result (string_bytes out.new ≡ string_bytes out.old ++ escape_byte b) }
{
    match b {
        b'"' => out.push_str("\\\"")?,
        b'\\' => out.push_str("\\\\")?,
        8 => out.push_str("\\b")?,
        12 => out.push_str("\\f")?,
        b'\n' => out.push_str("\\n")?,
        b'\r' => out.push_str("\\r")?,
        b'\t' => out.push_str("\\t")?,
        0..32 => {
            out.push_str("\\u00")?;
            out.push(char::from(hex_digit(b / 16)))?;
            out.push(char::from(hex_digit(b % 16)))?;
        }
        _ => out.push(char::from(b))?,
    }
    Ok(())
}

// Whether a byte is escaped in a string.
#[tactic(auto, unfolding(json::specs::Print::escape_byte))]
fn is_escaped(b: u8) -> bool
    ensures { MatchBool result (b < 128) (escape_byte b ≡ b ∷ []) }
{
    b < 32 || b == b'"' || b == b'\\'
}

// How many bytes stand before the first that is escaped.
fn unescaped_len(text: &[u8]) -> usize
    ensures bound { result ≤ length text.now }
    ensures same { AreUnescaped (take result text.now) }
    ensures stop { IsAsciiFirst (drop result text.now) }
{
    let mut len = 0;
    while len < text.len() && !is_escaped(text[len]) {
        len += 1;
    }
    len
}

// What stands before the first byte that is escaped, and the rest.
fn unescaped_front(text: &str) -> (&str, &str)
    ensures split { text.now ≡ result.0.now ++ result.1.now }
    ensures same { AreUnescaped result.0.now }
    ensures stop { IsAsciiFirst result.1.now }
{
    let n = unescaped_len(text.as_bytes());
    text.split_at(n)
}

/// Adds a string as it is written in JSON.
pub fn push_string(out: &mut String, text: &str) -> Result<(), AllocError>
    ensures { OnOk result (string_bytes out.new ≡ string_bytes out.old ++ quoted text.now) }
{
    out.push('"')?;
    let mut rest = text;
    loop {
        let (same, behind) = unescaped_front(rest);
        out.push_str(same)?;
        let Some((b, next)) = first_byte(behind) else {
            break;
        };
        push_escaped(out, b)?;
        rest = next;
    }
    out.push('"')?;
    Ok(())
}
