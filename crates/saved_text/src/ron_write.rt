//! How strings are written in RON.
ghost use Rattle.std.specs.Prelude.{◌≡◌, ◌∷◌, [], ◌≤◌, take, drop, length, IfNone, IfSome, MatchBool, ◌++◌, ◌<◌, ◌||◌};
ghost use Rattle.std.specs.Prelude.{IsTrue, IfOk, OnOk, flat_map, encode_utf8, string_bytes};
ghost use Rattle.std.specs.Char.{digit_char};
ghost use Rattle.saved_text.specs.Written.{written_byte, quoted, AreSame, IsAsciiFirst};

use crate::ron_text::tail;
use std::alloc::AllocError;

// A hexadecimal digit.
pub(crate) fn hex_digit(n: u8) -> u8
    requires { n < 16 }
    ensures value { result ≡ digit_char n }
    ensures ascii { result < 128 }
{
    if n < 10 { b'0' + n } else { b'a' + (n - 10) }
}

// Adds what is written for an ASCII byte.
#[tactic(auto, using(std::proofs::lemmas::Str::encode_ascii))]
fn push_byte(out: &mut String, b: u8) -> Result<(), AllocError>
    requires { b < 128 }
    ensures { OnOk result (string_bytes out.new ≡ string_bytes out.old ++ written_byte b) }
{
    match b {
        b'"' => out.push_str("\\\"")?,
        b'\\' => out.push_str("\\\\")?,
        b'\n' => out.push_str("\\n")?,
        b'\r' => out.push_str("\\r")?,
        b'\t' => out.push_str("\\t")?,
        0..32 | 127 => {
            out.push_str("\\u{")?;
            if b >= 16 {
                out.push(char::from(hex_digit(b / 16)))?;
            }
            out.push(char::from(hex_digit(b % 16)))?;
            out.push_str("}")?;
        }
        _ => out.push(char::from(b))?,
    }
    Ok(())
}

// Whether a byte is written otherwise than as it is.
fn is_special(b: u8) -> bool
    ensures { MatchBool result (b < 128) (written_byte b ≡ b ∷ []) }
{
    b < 32 || b == b'"' || b == b'\\' || b == 127
}

// How many bytes stand before the first that is written otherwise.
fn same_len(text: &[u8]) -> usize
    ensures bound { result ≤ length text.now }
    ensures same { AreSame (take result text.now) }
    ensures stop { IsAsciiFirst (drop result text.now) }
{
    let mut len = 0;
    while len < text.len() && !is_special(text[len]) {
        len += 1;
    }
    len
}

// What stands before the first byte that is written otherwise, and the rest.
fn same_front(text: &str) -> (&str, &str)
    ensures split { text.now ≡ result.0.now ++ result.1.now }
    ensures same { AreSame result.0.now }
    ensures stop { IsAsciiFirst result.1.now }
{
    let n = same_len(text.as_bytes());
    text.split_at(n)
}

// The first byte, and what is behind it.
pub(crate) fn first_byte(text: &str) -> Option<(u8, &str)>
    requires { IsAsciiFirst text.now }
    ensures none { IfNone result (text.now ≡ []) }
    ensures some { IfSome result (λ p. (text.now ≡ p.0 ∷ p.1.now) × (p.0 < 128)) }
{
    match text.as_bytes() {
        [b, ..] => Some((*b, tail(text))),
        [] => None,
    }
}

/// Adds a string as it is written.
pub fn push_quoted(out: &mut String, text: &str) -> Result<(), AllocError>
    ensures { OnOk result (string_bytes out.new ≡ string_bytes out.old ++ quoted text.now) }
{
    out.push('"')?;
    let mut rest = text;
    loop {
        let (same, behind) = same_front(rest);
        out.push_str(same)?;
        let Some((b, next)) = first_byte(behind) else {
            break;
        };
        push_byte(out, b)?;
        rest = next;
    }
    out.push('"')?;
    Ok(())
}
