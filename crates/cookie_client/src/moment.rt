//! The dates and the moments of texts.
ghost use Rattle.std.specs.Prelude.{◌≡◌, ◌≤◌, ◌<◌, ◌*◌, ◌^◌, ◌≤ℤ◌, pos, length, option_map, IfSome};
ghost use Rattle.std.specs.Str.Parse.{digits_value, AllDigits};
ghost use Rattle.jiff.specs.Words.{civil_nanos};
ghost use Rattle.cookie_client.specs.Moment.{second_1971};
ghost use Rattle.cookie_client.specs.Moment as spec;

use jiff::civil::DateTime;

/// A moment with each digit blanked to `0`.
const SHAPE: [u8; 20] = *b"0000-00-00T00:00:00Z";

/// A whole second of the years 1971 to 9998.
#[derive(Clone, Copy)]
pub struct Moment {
    pub date: DateTime,
    pub ghost from: { pos (second_1971 * 1_000_000_000) ≤ℤ civil_nanos date },
}

/// The moment that a text names in the form `YYYY-MM-DDThh:mm:ssZ`, to be read as UTC, where the
/// day exists and is of the years 1971 to 9998.
pub fn moment_of(text: &str) -> Option<Moment>
    ensures { option_map (λ moment. civil_nanos moment.date) result ≡ spec.moment_of text.now }
{
    timely(text)
}

/// The same, with its date.
#[tactic(auto, unfolding(crate::specs::Moment::moment_date))]
pub fn timely(text: &str) -> Option<Moment>
    ensures { option_map (λ moment. moment.date) result ≡ spec.moment_date text.now }
{
    let date = date_of(text)?;
    if date.year() < 1971 || 9998 < date.year() {
        return None;
    }
    Some(Moment { date })
}

/// The date that a text names in the same form, where the day exists, of the years 0 to 9999.
#[tactic(auto, unfolding(crate::specs::Moment::date_of))]
pub fn date_of(text: &str) -> Option<DateTime>
    ensures date { result ≡ spec.date_of text.now }
    ensures whole { IfSome result (λ date. date.time.subsec_nanosecond ≡ 0) }
{
    let text = text.as_bytes();
    if !has_shape(text) {
        return None;
    }
    let year = number(&text[0..4]);
    let month = number(&text[5..7]);
    let day = number(&text[8..10]);
    let hour = number(&text[11..13]);
    let minute = number(&text[14..16]);
    let second = number(&text[17..19]);
    date_at(year, month, day, hour, minute, second)
}

// The date of a calendar and a clock that show these numbers.
fn date_at(year: u16, month: u16, day: u16, hour: u16, minute: u16, second: u16) -> Option<DateTime>
    requires year { year < 10000 }
    requires month { month < 100 }
    requires day { day < 100 }
    requires hour { hour < 100 }
    requires minute { minute < 100 }
    requires second { second < 100 }
    ensures date { result ≡ spec.date_if year month day hour minute second }
    ensures whole { IfSome result (λ date. date.time.subsec_nanosecond ≡ 0) }
{
    DateTime::new(
        year as i16,
        month as i8,
        day as i8,
        hour as i8,
        minute as i8,
        second as i8,
        0,
    )
    .ok()
}

// Whether digits and signs stand in their places.
fn has_shape(text: &[u8]) -> bool
    ensures { result ≡ spec.has_shape text.now }
{
    if text.len() != SHAPE.len() {
        return false;
    }
    for (i, b) in text.iter().enumerate() {
        if blanked(*b) != SHAPE[i] {
            return false;
        }
    }
    true
}

// `0` for a digit, and every other byte as it is.
fn blanked(b: u8) -> u8
    ensures { result ≡ spec.blanked b }
{
    if b.is_ascii_digit() { b'0' } else { b }
}

// The number that a few digits spell.
fn number(digits: &[u8]) -> u16
    requires digits { AllDigits 10 digits.now }
    requires few { length digits.now ≤ 4 }
    ensures value { result ≡ digits_value 10 digits.now }
    ensures bound { result < 10 ^ length digits.now }
{
    let mut n = 0;
    for digit in digits {
        n = n * 10 + u16::from(*digit - b'0');
    }
    n
}
