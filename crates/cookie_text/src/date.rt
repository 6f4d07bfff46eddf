//! The dates of an `Expires` attribute (RFC 6265, section 5.1.1).
ghost use Rattle.std.specs.Prelude.{◌≡◌, ◌<◌, ◌≤◌, ℕ, length, IfSome, MatchOption};
ghost use Rattle.std.specs.Int.{IsInRange};
ghost use Rattle.std.specs.Str.Parse.{digits_value};
ghost use Rattle.cookie_text.specs.Date.{AreYearDigits, IsStamp, IsDateText, IsMoment, full_year};
ghost use Rattle.cookie_text.specs.declared.date.Stamp.{Stamp as Numbers};
ghost use Rattle.jiff.specs.Types.{DateTime as Moment};
ghost use Rattle.cookie_text.specs.DateReader.{fields_view, stamp_of, IsSmall};
ghost use Rattle.cookie_text.specs.DateReader as reader;

use crate::date_names::day_name_rest;
use crate::date_reader::{
    read_month, read_padded_day, read_tag, read_time, read_two_digits, read_weekday, read_year,
};
use jiff::civil::DateTime;

/// The numbers of a date and a time of day, whether or not the calendar has them.
#[derive(Clone, Copy, Debug)]
pub struct Stamp {
    pub year: u16,
    pub month: u8,
    pub day: u8,
    pub hour: u8,
    pub minute: u8,
    pub second: u8,
}

impl Stamp {
    // The date of these parts, with the text of its year.
    fn new(day: u8, month: u8, time: (u8, u8, u8), year: &[u8]) -> Stamp
        requires digits { AreYearDigits year.now }
        requires date { (day < 100) × (month ≤ 12) }
        requires clock { (time.0 < 100) × (time.1 < 100) × (time.2 < 100) }
        ensures value { result ≡ stamp_of day month time year.now }
        ensures small { IsSmall result }
    {
        let (hour, minute, second) = time;
        Stamp {
            year: full_year(number_of(year)),
            month,
            day,
            hour,
            minute,
            second,
        }
    }

    // The moment, where the calendar and the clock have it.
    fn moment(self) -> Option<DateTime>
        requires { IsSmall self }
        ensures { MatchOption result (¬ (IsStamp self)) (λ d. IsStamp self × IsMoment self d) }
    {
        let moment = DateTime::new(
            self.year as i16,
            self.month as i8,
            self.day as i8,
            self.hour as i8,
            self.minute as i8,
            self.second as i8,
            0,
        );
        match moment {
            Ok(moment) => Some(moment),
            Err(_) => None,
        }
    }
}

// The number that the digits write.
fn number_of(digits: &[u8]) -> u16
    requires { AreYearDigits digits.now }
    ensures value { result ≡ digits_value 10 digits.now }
    ensures bound { result ≤ 9999 }
{
    let mut number = 0;
    for digit in digits {
        number = number * 10 + (*digit - b'0') as u16;
    }
    number
}

// The year that a number below 100 stands for.
fn full_year(year: u16) -> u16
    requires { year ≤ 9999 }
    ensures value { result ≡ full_year year }
    ensures bound { result ≤ 9999 }
{
    match year {
        0..70 => 2000 + year,
        70..100 => 1900 + year,
        _ => year,
    }
}

// `06 Nov 1994 08:49:37 GMT`, or with dashes: the text of the year, and the date.
#[tactic(auto, unfolding(crate::specs::DateReader::read_fields))]
fn read_fields<'a>(text: &'a [u8], dash: &str) -> Option<(&'a [u8], Stamp)>
    ensures value { fields_view result ≡ reader.read_fields dash.now text.now }
    ensures small { IfSome result (λ p. IsSmall p.1) }
{
    let (day, rest) = read_two_digits(text)?;
    let (month, rest) = read_month(read_tag(rest, dash)?)?;
    let (year, rest) = read_year(read_tag(rest, dash)?)?;
    let (time, rest) = read_time(read_tag(rest, " ")?)?;
    if rest != b" GMT".as_slice() {
        return None;
    }
    Some((year, Stamp::new(day, month, time, year)))
}

// `Nov  6 08:49:37 1994`
#[tactic(auto, unfolding(crate::specs::DateReader::read_year_last))]
fn read_year_last(text: &[u8]) -> Option<Stamp>
    ensures value { result ≡ reader.read_year_last text.now }
    ensures small { IfSome result IsSmall }
{
    let (month, rest) = read_month(text)?;
    let (day, rest) = read_padded_day(read_tag(rest, " ")?)?;
    let (time, rest) = read_time(read_tag(rest, " ")?)?;
    let (year, rest) = read_year(read_tag(rest, " ")?)?;
    if !rest.is_empty() {
        return None;
    }
    Some(Stamp::new(day, month, time, year))
}

// With spaces or with dashes.
#[tactic(auto, unfolding(crate::specs::DateReader::read_short))]
fn read_short(text: &[u8]) -> Option<Stamp>
    ensures value { result ≡ reader.read_short text.now }
    ensures small { IfSome result IsSmall }
{
    match read_fields(text, " ") {
        Some((_, stamp)) => Some(stamp),
        None => {
            let (_, stamp) = read_fields(text, "-")?;
            Some(stamp)
        }
    }
}

// With dashes, and a year of two digits.
#[tactic(auto, unfolding(crate::specs::DateReader::read_two_digit_year))]
fn read_two_digit_year(text: &[u8]) -> Option<Stamp>
    ensures value { result ≡ reader.read_two_digit_year text.now }
    ensures small { IfSome result IsSmall }
{
    let (year, stamp) = read_fields(text, "-")?;
    if year.len() == 2 { Some(stamp) } else { None }
}

// A date in any of the four forms. What follows the weekday's first three letters tells them apart.
#[tactic(auto, unfolding(crate::specs::DateReader::read_date))]
fn read_date(text: &[u8]) -> Option<Stamp>
    ensures value { result ≡ reader.read_date text.now }
    ensures small { IfSome result IsSmall }
{
    let (weekday, rest) = read_weekday(text)?;
    match rest.first() {
        Some(b',') => read_short(read_tag(rest, ", ")?),
        Some(b' ') => read_year_last(read_tag(rest, " ")?),
        _ => {
            let rest = read_tag(rest, day_name_rest(weekday))?;
            read_two_digit_year(read_tag(rest, ", ")?)
        }
    }
}

/// The moment that a date shows, or none where the text is no date.
///
/// A date has one of four forms: `Sun, 06 Nov 1994 08:49:37 GMT` (RFC 9110), the same with dashes,
/// `Sunday, 06-Nov-94 08:49:37 GMT` (RFC 850) and `Sun Nov  6 08:49:37 1994` (`asctime`). A year has
/// one to four digits, behind a full weekday two; a number to 69 is of the years from 2000, and
/// one from 70 to 99 of those from 1970 (RFC 6265, section 5.1.1). The weekday needn't be the date's.
pub fn moment_of(text: &str) -> Option<DateTime>
    ensures { MatchOption result
        ((s : Numbers) → ¬ (IsDateText text.now s))
        (λ d. (s : Numbers) × IsDateText text.now s × IsMoment s d) }
{
    let stamp = read_date(text.as_bytes())?;
    stamp.moment()
}
