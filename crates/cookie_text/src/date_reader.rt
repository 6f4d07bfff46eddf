//! The parts of a date. Each function reads the front of a text, and gives what it read and the rest.
ghost use Rattle.std.specs.Prelude.{◌≡◌, ◌<◌, ◌≤◌, length, IfSome, option_copied};
ghost use Rattle.httpdate.specs.Text as names;
ghost use Rattle.httpdate.specs.Reader.{read_view};
ghost use Rattle.httpdate.specs.Reader as fronts;
ghost use Rattle.cookie_text.specs.Date.{AreYearDigits};
ghost use Rattle.cookie_text.specs.DateReader.{texts_view};
ghost use Rattle.cookie_text.specs.DateReader as reader;

use crate::date_names::{day_name, month_name};

// What follows the tag.
#[tactic(auto, unfolding(httpdate::specs::Reader::read_tag))]
pub fn read_tag<'a>(text: &'a [u8], tag: &str) -> Option<&'a [u8]>
    ensures { option_copied result ≡ fronts.read_tag tag.now text.now }
{
    text.strip_prefix(tag.as_bytes())
}

// A number of two digits.
#[tactic(auto, unfolding(httpdate::specs::Reader::read_two_digits))]
pub fn read_two_digits(text: &[u8]) -> Option<(u8, &[u8])>
    ensures value { read_view result ≡ fronts.read_two_digits text.now }
    ensures bound { IfSome result (λ p. p.0 < 100) }
{
    match text {
        [tens @ b'0'..=b'9', ones @ b'0'..=b'9', rest @ ..] => {
            Some(((*tens - b'0') * 10 + (*ones - b'0'), rest))
        }
        _ => None,
    }
}

// A number of two digits, or of one behind a space.
#[tactic(auto, unfolding(httpdate::specs::Reader::read_padded_day))]
pub fn read_padded_day(text: &[u8]) -> Option<(u8, &[u8])>
    ensures value { read_view result ≡ fronts.read_padded_day text.now }
    ensures bound { IfSome result (λ p. p.0 < 100) }
{
    match text {
        [b' ', ones @ b'0'..=b'9', rest @ ..] => Some((*ones - b'0', rest)),
        _ => read_two_digits(text),
    }
}

// The first three letters of a weekday.
pub fn read_weekday(text: &[u8]) -> Option<(u8, &[u8])>
    ensures value { read_view result ≡ fronts.read_name names.day_name 7 text.now }
    ensures bound { IfSome result (λ p. (1 ≤ p.0) × (p.0 ≤ 7)) }
{
    for weekday in (1..=7).rev() {
        if let Some(rest) = read_tag(text, day_name(weekday)) {
            return Some((weekday, rest));
        }
    }
    None
}

// The three letters of a month.
pub fn read_month(text: &[u8]) -> Option<(u8, &[u8])>
    ensures value { read_view result ≡ fronts.read_name names.month_name 12 text.now }
    ensures bound { IfSome result (λ p. (1 ≤ p.0) × (p.0 ≤ 12)) }
{
    for month in (1..=12).rev() {
        if let Some(rest) = read_tag(text, month_name(month)) {
            return Some((month, rest));
        }
    }
    None
}

// The one to four digits of a year.
#[tactic(auto, unfolding(crate::specs::DateReader::read_year))]
pub fn read_year(text: &[u8]) -> Option<(&[u8], &[u8])>
    ensures value { texts_view result ≡ reader.read_year text.now }
    ensures digits { IfSome result (λ p. AreYearDigits p.0.now) }
{
    let len = digits_len(text);
    if 1 <= len && len <= 4 {
        Some(text.split_at(len))
    } else {
        None
    }
}

// How many digits stand at the front.
fn digits_len(text: &[u8]) -> usize
    ensures value { result ≡ reader.digits_len text.now }
    ensures bound { result ≤ length text.now }
{
    text.iter()
        .position(|b| !b.is_ascii_digit())
        .unwrap_or(text.len())
}

// The hour, the minute and the second, as `08:49:37`.
#[tactic(auto, unfolding(httpdate::specs::Reader::read_time))]
pub fn read_time(text: &[u8]) -> Option<((u8, u8, u8), &[u8])>
    ensures value { read_view result ≡ fronts.read_time text.now }
    ensures bound { IfSome result (λ p. (p.0.0 < 100) × (p.0.1 < 100) × (p.0.2 < 100)) }
{
    let (hour, rest) = read_two_digits(text)?;
    let (minute, rest) = read_two_digits(read_tag(rest, ":")?)?;
    let (second, rest) = read_two_digits(read_tag(rest, ":")?)?;
    Some(((hour, minute, second), rest))
}
