//! Strings of RON.
ghost use Rattle.std.specs.Prelude.{◌≡◌, false, ◌++◌, ◌∷◌, [], ◌*◌, ◌+◌, ◌-◌, ◌<◌, ◌≤◌, ◌^◌, IfSome, IfNone};
ghost use Rattle.std.specs.Prelude.{MatchResult, ◌≢◌, MatchOption, length, take, drop, List, ℕ, IsTrue, encode_utf8};
ghost use Rattle.std.specs.Prelude.{string_bytes};
ghost use Rattle.std.specs.List.{AllByRecursion};
ghost use Rattle.saved_text.specs.Ron.{string, escape};
ghost use Rattle.saved_text.specs.Letters.{is_digit, digit_value, is_letter, named, limit};
ghost use Rattle.saved_text.specs.Letters as letter;
ghost use Rattle.saved_text.specs.Grammar.{letters};
ghost use Rattle.saved_text.specs.Grammar.Word.{the_end};
ghost use Rattle.saved_text.specs.Grammar.Grammar.{sign, number, seq};
ghost use Rattle.saved_text.specs.Reads.{Takes, Stops};
ghost use Rattle.saved_text.specs.Faults.{StopsAs, Undigited, Unplain, Unlettered, BeginsAscii, BeginsOtherwise, IsEnd};
ghost use Rattle.saved_text.specs.Faults.{Number};

use std::alloc::{AllocError, AllocFailed, Global};

/// Why a text isn't read on.
#[derive(Debug, Drop)]
pub enum Stop<'a> {
    /// The longest front ends before this rest.
    Here(&'a str),
    /// Memory was refused.
    OutOfMemory,
}

impl<'a> From<AllocError> for Stop<'a> {
    ghost use Rattle.saved_text.specs.declared.ron_text.Stop.TheVariants.{OutOfMemory};

    ghost from_gives = { λ _ e. e ≡ OutOfMemory };

    fn from(_: AllocError) -> Stop<'a> {
        Stop::OutOfMemory
    }
}

impl<'a, T: Drop> From<AllocFailed<T>> for Stop<'a> {
    ghost use Rattle.saved_text.specs.declared.ron_text.Stop.TheVariants.{OutOfMemory};

    ghost from_gives = { λ _ e. e ≡ OutOfMemory };

    fn from(_: AllocFailed<T>) -> Stop<'a> {
        Stop::OutOfMemory
    }
}

// What is behind the first byte.
pub(crate) fn tail(text: &str) -> &str
    requires { BeginsAscii text.now }
    ensures { (b : ℕ) × (text.now ≡ b ∷ result.now) }
{
    text.split_at(1).1
}

// What is behind the byte, where it stands first.
pub(crate) fn cut(text: &str, byte: u8) -> Option<&str>
    requires { byte < 128 }
    ensures none { IfNone result (BeginsOtherwise byte text.now) }
    ensures some { IfSome result (λ r. text.now ≡ byte ∷ r.now) }
{
    match text.as_bytes() {
        [b, ..] if *b == byte => Some(tail(text)),
        _ => None,
    }
}

// The value of a hexadecimal digit.
fn digit(b: u8) -> Option<u32>
    ensures none { IfNone result (is_digit b ≡ false) }
    ensures some { IfSome result (λ v. IsTrue (is_digit b) × (v ≡ digit_value b) × (v < 16)) }
{
    match b {
        b'0'..=b'9' => Some(u32::from(b - b'0')),
        b'A'..=b'F' => Some(u32::from(b - b'A') + 10),
        b'a'..=b'f' => Some(u32::from(b - b'a') + 10),
        _ => None,
    }
}

// The digit at the front, and what is behind it.
fn next_digit(text: &str) -> Option<(u32, &str)>
    ensures none { IfNone result (Undigited text.now) }
    ensures some { IfSome result (λ p. (d : ℕ) × (text.now ≡ d ∷ p.1.now) × IsTrue (is_digit d)
        × (p.0 ≡ digit_value d) × (p.0 < 16)) }
{
    match text.as_bytes() {
        [b, ..] => {
            let value = digit(*b)?;
            Some((value, tail(text)))
        }
        [] => None,
    }
}

// Two digits, and the character of their number.
fn two_digits(text: &str) -> Result<(char, &str), Stop<'_>>
    ensures { MatchResult result (λ p. Takes (number 2 2 0) text.now (letters (encode_utf8 p.0)) p.1.now)
        (StopsAs (number 2 2 0) text.now) }
{
    let Some((high, rest)) = next_digit(text) else {
        return Err(Stop::Here(text));
    };
    let Some((low, rest)) = next_digit(rest) else {
        return Err(Stop::Here(rest));
    };
    Ok((char::from((high * 16 + low) as u8), rest))
}

// A brace behind all digits of a number.
fn closed(text: &str, left: u8, value: u32) -> Result<(char, &str), Stop<'_>>
    requires { IsEnd left text.now }
    ensures { MatchResult result (λ p. Takes (Number left value) text.now (letters (encode_utf8 p.0)) p.1.now)
        (StopsAs (Number left value) text.now) }
{
    match char::from_u32(value) {
        Some(c) => match cut(text, b'}') {
            Some(rest) => Ok((c, rest)),
            None => Err(Stop::Here(text)),
        },
        None => Err(Stop::Here(text)),
    }
}

// So many digits at most and a brace, behind digits that spell the value.
fn more_digits(text: &str, left: u8, value: u32) -> Result<(char, &str), Stop<'_>>
    requires { value < limit left }
    ensures { MatchResult result (λ p. Takes (Number left value) text.now (letters (encode_utf8 p.0)) p.1.now)
        (StopsAs (Number left value) text.now) }
{
    if left == 0 {
        return closed(text, left, value);
    }
    let Some((digit, rest)) = next_digit(text) else {
        return closed(text, left, value);
    };
    let more = value * 16 + digit;
    if left == 1 && char::from_u32(more).is_none() {
        return Err(Stop::Here(text));
    }
    more_digits(rest, left - 1, more)
}

// From one to six digits and a brace.
fn braced(text: &str) -> Result<(char, &str), Stop<'_>>
    ensures { MatchResult result (λ p. Takes (seq (number 1 6 0) (sign (125 ∷ []))) text.now
        (letters (encode_utf8 p.0)) p.1.now) (StopsAs (seq (number 1 6 0) (sign (125 ∷ []))) text.now) }
{
    match next_digit(text) {
        Some((digit, rest)) => more_digits(rest, 5, digit),
        None => Err(Stop::Here(text)),
    }
}

// The byte that a letter names.
fn named(b: u8) -> Option<u8>
    ensures none { IfNone result (is_letter b ≡ false) }
    ensures some { IfSome result (λ v. IsTrue (is_letter b) × (v ≡ named b) × (v < 128)) }
{
    match b {
        b'"' | b'\\' | b'\'' => Some(b),
        b'n' => Some(b'\n'),
        b'r' => Some(b'\r'),
        b't' => Some(b'\t'),
        b'0' => Some(0),
        _ => None,
    }
}

// The byte that the letter at the front names, and what is behind it.
fn next_letter(text: &str) -> Option<(u8, &str)>
    ensures none { IfNone result (Unlettered text.now) }
    ensures some { IfSome result (λ p. (b : ℕ) × (text.now ≡ b ∷ p.1.now) × IsTrue (is_letter b) × (p.0 ≡ named b)
        × (p.0 < 128)) }
{
    match text.as_bytes() {
        [b, ..] => {
            let byte = named(*b)?;
            Some((byte, tail(text)))
        }
        [] => None,
    }
}

// What stands behind a backslash.
fn escaped(text: &str) -> Result<(char, &str), Stop<'_>>
    ensures { MatchResult result (λ p. Takes escape text.now (letters (encode_utf8 p.0)) p.1.now)
        (StopsAs escape text.now) }
{
    if let Some(rest) = cut(text, b'x') {
        return two_digits(rest);
    }
    if let Some(rest) = cut(text, b'u') {
        return match cut(rest, b'{') {
            Some(rest) => braced(rest),
            None => Err(Stop::Here(rest)),
        };
    }
    match next_letter(text) {
        Some((byte, rest)) => Ok((char::from(byte), rest)),
        None => Err(Stop::Here(text)),
    }
}

// What stands before the first quote or backslash, and the rest.
fn plain_front(text: &str) -> (&str, &str)
    ensures split { text.now ≡ result.0.now ++ result.1.now }
    ensures plain { AllByRecursion (λ b. IsTrue (letter.is_plain b)) result.0.now }
    ensures stop { Unplain result.1.now }
{
    let n = plain_len(text.as_bytes());
    text.split_at(n)
}

// Whether a byte of a string stands for itself.
fn is_plain(b: u8) -> bool
    ensures { result ≡ letter.is_plain b }
{
    b != b'"' && b != b'\\'
}

// How many bytes stand before the first quote or backslash.
fn plain_len(text: &[u8]) -> usize
    ensures bound { result ≤ length text.now }
    ensures plain { AllByRecursion (λ b. IsTrue (letter.is_plain b)) (take result text.now) }
    ensures stop { Unplain (drop result text.now) }
{
    let mut len = 0;
    while len < text.len() && is_plain(text[len]) {
        len += 1;
    }
    len
}

/// A string at the front of the text, and what is behind it.
pub fn read_string(alloc: Global, text: &str) -> Result<(String, &str), Stop<'_>>
    ensures { MatchResult result (λ p. Takes string text.now (letters (string_bytes p.0) ++ the_end ∷ []) p.1.now)
        (StopsAs string text.now) }
{
    let Some(mut rest) = cut(text, b'"') else {
        return Err(Stop::Here(text));
    };
    let mut value = String::new(alloc);
    loop {
        let (plain, behind) = plain_front(rest);
        value.push_str(plain)?;
        if let Some(behind) = cut(behind, b'"') {
            return Ok((value, behind));
        }
        let Some(escape) = cut(behind, b'\\') else {
            return Err(Stop::Here(behind));
        };
        let (c, next) = escaped(escape)?;
        value.push(c)?;
        rest = next;
    }
}
