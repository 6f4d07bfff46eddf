//! The date-tokens of a cookie-date (RFC 6265, section 5.1.1).
ghost use Rattle.std.specs.Prelude.{◌≡◌, ◌∷◌, ◌≤◌, ◌<◌, ℕ, length, IfSome, IsTrue, MatchOption};
ghost use Rattle.std.specs.List.{list_all};
ghost use Rattle.std.specs.Char.{is_ascii_digit};
ghost use Rattle.std.specs.Str.Parse.{digits_value};
ghost use Rattle.user_agent.specs.Dates as spec;

use cookie_text::month_name;

/// Whether the byte parts the tokens of a date.
#[tactic(auto, unfolding(crate::specs::Dates::is_delimiter))]
pub fn is_delimiter(byte: u8) -> bool
    ensures { result ≡ spec.is_delimiter byte }
{
    matches!(byte, b'\t' | b' '..=b'/' | b';'..=b'@' | b'['..=b'`' | b'{'..=b'~')
}

/// The hour, the minute and the second of a token that begins as `08:49:37` does.
pub fn read_time(token: &[u8]) -> Option<(u8, u8, u8)>
    ensures value { MatchOption result ((t : _) → ¬ (spec.IsTime token.now t)) (spec.IsTime token.now) }
    ensures bound { IfSome result (λ t. (t.0 < 100) × (t.1 < 100) × (t.2 < 100)) }
{
    let (hour, rest) = read_field(token)?;
    let (minute, rest) = read_field(behind_colon(rest)?)?;
    let (second, _) = read_field(behind_colon(rest)?)?;
    Some((hour, minute, second))
}

/// The day of a token that begins with one or two digits.
pub fn read_day(token: &[u8]) -> Option<u8>
    ensures value { MatchOption result ((d : ℕ) → ¬ (spec.IsDay token.now d)) (spec.IsDay token.now) }
    ensures bound { IfSome result (λ d. d < 100) }
{
    let (day, _) = read_field(token)?;
    Some(day)
}

/// The month of a token that begins with the three letters of one, in any case.
pub fn read_month(token: &[u8]) -> Option<u8>
    ensures value { MatchOption result ((m : ℕ) → ¬ (spec.IsMonth token.now m)) (spec.IsMonth token.now) }
    ensures bound { IfSome result (λ m. m ≤ 12) }
{
    let (letters, _) = token.split_at(token.len().min(3));
    for month in 1..=12 {
        if letters.eq_ignore_ascii_case(month_name(month).as_bytes()) {
            return Some(month);
        }
    }
    None
}

/// The number of a token that begins with two to four digits.
pub fn read_year(token: &[u8]) -> Option<u16>
    ensures value { MatchOption result ((y : ℕ) → ¬ (spec.IsYear token.now y)) (spec.IsYear token.now) }
    ensures bound { IfSome result (λ y. y ≤ 9999) }
{
    let digits = digits_of(token);
    if 2 <= digits.len() && digits.len() <= 4 {
        Some(number_of(digits))
    } else {
        None
    }
}

// The number of one or two digits, and what follows them.
fn read_field(text: &[u8]) -> Option<(u8, &[u8])>
    ensures value { MatchOption result ((n : ℕ) → ¬ (spec.BeginsWithNumber 1 2 text.now n))
        (λ p. spec.BeginsWithNumber 1 2 text.now p.0 × (p.1.now ≡ spec.behind_digits text.now)) }
    ensures bound { IfSome result (λ p. p.0 < 100) }
{
    let digits = digits_of(text);
    if 1 <= digits.len() && digits.len() <= 2 {
        let (_, rest) = text.split_at(digits.len());
        Some((number_of(digits) as u8, rest))
    } else {
        None
    }
}

// What follows a colon.
fn behind_colon(text: &[u8]) -> Option<&[u8]>
    ensures { MatchOption result ((rest : _) → ¬ (text.now ≡ spec.colon ∷ rest))
        (λ rest. text.now ≡ spec.colon ∷ rest.now) }
{
    match text {
        [b':', rest @ ..] => Some(rest),
        _ => None,
    }
}

// The digits that the text begins with.
fn digits_of(text: &[u8]) -> &[u8]
    ensures value { result.now ≡ spec.digits_of text.now }
    ensures within { length result.now ≤ length text.now }
    ensures digits { IsTrue (list_all is_ascii_digit result.now) }
{
    let len = text
        .iter()
        .position(|byte| !byte.is_ascii_digit())
        .unwrap_or(text.len());
    let (digits, _) = text.split_at(len);
    digits
}

// The number that four digits or fewer write.
fn number_of(digits: &[u8]) -> u16
    requires few { length digits.now ≤ 4 }
    requires digits { IsTrue (list_all is_ascii_digit digits.now) }
    ensures value { result ≡ digits_value 10 digits.now }
    ensures bound { result ≤ 9999 }
    ensures small { length digits.now ≤ 2 → result < 100 }
{
    let mut number = 0;
    for digit in digits {
        number = number * 10 + (*digit - b'0') as u16;
    }
    number
}
