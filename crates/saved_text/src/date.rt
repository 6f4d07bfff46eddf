//! Dates of saved texts, as they are read: `date-time` of RFC 3339, section 5.6.
ghost use Rattle.std.specs.Prelude.{◌≡◌, ◌≤◌, ◌<◌, ◌^◌, ◌-ℤ◌, ◌*ℤ◌, IsTrue, ℤ, pos, length, take, slice_range};
ghost use Rattle.std.specs.Prelude.{MatchOption, IfSome, Option, option_map};
ghost use Rattle.std.specs.Str.Parse.{digits_value, AllDigits};
ghost use Rattle.jiff.specs.Words.{civil_nanos};
ghost use Rattle.saved_text.specs.DateReading as spec;

use jiff::SignedDuration;
use jiff::civil::{DateTime, datetime};

/// The moment that a text names (RFC 3339, section 5.6), in UTC and of the years 0 to 9999.
///
/// `T` and `Z` are read in either case, a fraction has one to nine digits, and an offset is taken off.
pub fn date_of(text: &str) -> Option<DateTime>
    ensures { MatchOption result ((at : ℤ) → ¬ (spec.IsDateOf text.now at))
        (λ d. spec.IsDateOf text.now (civil_nanos d)) }
{
    let (clock, rest) = text.as_bytes().split_at_checked(19)?;
    if !shows(clock, b"0000-00-00T00:00:00") {
        return None;
    }
    let (nanos, zone) = fraction_of(rest)?;
    let ahead = minutes_of(zone)?;
    let local = civil_of(clock, nanos)?;
    in_utc(local, ahead)
}

// Local time less the minutes that it is ahead, where that is of the years 0 to 9999.
fn in_utc(local: DateTime, ahead: i32) -> Option<DateTime>
    ensures { MatchOption result (¬ (spec.IsSaved (civil_nanos local -ℤ ahead *ℤ pos 60_000_000_000)))
        (λ d. (civil_nanos d ≡ civil_nanos local -ℤ ahead *ℤ pos 60_000_000_000) × spec.IsSaved (civil_nanos d)) }
{
    let offset = SignedDuration::from_mins(i64::from(ahead));
    let at = local.checked_sub(offset).ok()?;
    if at < first_moment() {
        return None;
    }
    Some(at)
}

// 0000-01-01T00:00:00.
fn first_moment() -> DateTime
    ensures { civil_nanos result ≡ spec.first_moment }
{
    datetime(0, 1, 1, 0, 0, 0, 0)
}

// The local time that a calendar and a clock show.
fn civil_of(clock: &[u8], nanos: u32) -> Option<DateTime>
    requires form { IsTrue (spec.shows clock.now spec.clock_form) }
    requires nanos { nanos < 1_000_000_000 }
    ensures { option_map civil_nanos result ≡ spec.civil_of clock.now nanos }
{
    let year = number(&clock[0..4]);
    let month = number(&clock[5..7]);
    let day = number(&clock[8..10]);
    let hour = number(&clock[11..13]);
    let minute = number(&clock[14..16]);
    let second = number(&clock[17..19]);
    civil_at(year, month, day, hour, minute, second, nanos)
}

// The local time of a calendar and a clock that show these numbers.
fn civil_at(
    year: u32,
    month: u32,
    day: u32,
    hour: u32,
    minute: u32,
    second: u32,
    nanos: u32,
) -> Option<DateTime>
    requires year { year < 10000 }
    requires month { month < 100 }
    requires day { day < 100 }
    requires hour { hour < 100 }
    requires minute { minute < 100 }
    requires second { second < 100 }
    requires nanos { nanos < 1_000_000_000 }
    ensures { option_map civil_nanos result ≡ spec.civil_if year month day hour minute second nanos }
{
    DateTime::new(
        year as i16,
        month as i8,
        day as i8,
        hour as i8,
        minute as i8,
        second as i8,
        nanos as i32,
    )
    .ok()
}

// The nanoseconds of a fraction behind a dot, none where no dot stands, and what follows.
fn fraction_of(text: &[u8]) -> Option<(u32, &[u8])>
    ensures value { option_map (λ p. (p.0, p.1.now)) result ≡ spec.fraction_of text.now }
    ensures bound { IfSome result (λ p. p.0 < 1_000_000_000) }
{
    match text {
        [b'.', digits @ ..] => fraction_behind(digits),
        _ => Some((0, text)),
    }
}

// The nanoseconds of one to nine digits, and what follows them.
fn fraction_behind(text: &[u8]) -> Option<(u32, &[u8])>
    ensures value { option_map (λ p. (p.0, p.1.now)) result ≡ spec.fraction_if (spec.digits_front text.now) text.now }
    ensures bound { IfSome result (λ p. p.0 < 1_000_000_000) }
{
    let len = digits_len(text);
    if len < 1 || 9 < len {
        return None;
    }
    let (digits, zone) = text.split_at(len);
    Some((number(digits) * 10_u32.pow(9 - len as u32), zone))
}

// How many digits stand at the front.
fn digits_len(text: &[u8]) -> usize
    ensures front { take result text.now ≡ spec.digits_front text.now }
    ensures len { result ≡ length (spec.digits_front text.now) }
    ensures digits { AllDigits 10 (take result text.now) }
{
    let mut len = 0;
    while len < text.len() && text[len].is_ascii_digit() {
        len += 1;
    }
    len
}

// The minutes that local time is ahead of UTC.
fn minutes_of(zone: &[u8]) -> Option<i32>
    ensures { result ≡ spec.minutes_of zone.now }
{
    if shows(zone, b"Z") {
        return Some(0);
    }
    if shows(zone, b"+00:00") {
        return Some(i32::from(clock_minutes(zone)?));
    }
    if shows(zone, b"-00:00") {
        return Some(-i32::from(clock_minutes(zone)?));
    }
    None
}

// The minutes that hours and minutes behind a sign come to.
fn clock_minutes(zone: &[u8]) -> Option<u16>
    requires hours { AllDigits 10 (slice_range zone.now 1 3) }
    requires minutes { AllDigits 10 (slice_range zone.now 4 6) }
    requires len { length zone.now ≡ 6 }
    ensures { result ≡ spec.minutes_if (spec.number_at zone.now 1 3) (spec.number_at zone.now 4 6) }
{
    let hours = number(&zone[1..3]);
    let minutes = number(&zone[4..6]);
    if 23 < hours || 59 < minutes {
        return None;
    }
    Some((hours * 60 + minutes) as u16)
}

// Whether digits, letters and signs stand as in the form.
fn shows(text: &[u8], form: &[u8]) -> bool
    ensures { result ≡ spec.shows text.now form.now }
{
    if text.len() != form.len() {
        return false;
    }
    for (i, b) in text.iter().enumerate() {
        if blanked(*b) != form[i] {
            return false;
        }
    }
    true
}

// `0` for a digit, `T` for `t`, `Z` for `z`, and every other byte as it is.
fn blanked(b: u8) -> u8
    ensures { result ≡ spec.blanked b }
{
    match b {
        b'0'..=b'9' => b'0',
        b't' => b'T',
        b'z' => b'Z',
        _ => b,
    }
}

// The number that a few digits spell.
fn number(digits: &[u8]) -> u32
    requires digits { AllDigits 10 digits.now }
    requires few { length digits.now ≤ 9 }
    ensures value { result ≡ digits_value 10 digits.now }
    ensures bound { result < 10 ^ length digits.now }
{
    let mut n = 0;
    for digit in digits {
        n = n * 10 + u32::from(*digit - b'0');
    }
    n
}
