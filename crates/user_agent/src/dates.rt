//! Dates as user agents read them (RFC 6265, section 5.1.1).
ghost use Rattle.std.specs.Prelude.{◌≡◌, ◌<◌, ◌≤◌, ℕ, ◌⊎◌, false, IsSome, IsTrue, MatchOption, None};
ghost use Rattle.cookie_text.specs.Date.{full_year};
ghost use Rattle.user_agent.specs.Dates.{Date, Exists, IsMomentOf};
ghost use Rattle.user_agent.specs.Dates as spec;
ghost use Rattle.user_agent.specs.Fields as fields;
ghost use Rattle.user_agent.specs.StrictDates.{StrictDatesShowTheSame};

use crate::token::{is_delimiter, read_day, read_month, read_time, read_year};
use jiff::civil::DateTime;

/// The moment that a cookie-date shows (RFC 6265, section 5.1.1), or none where the text shows none.
///
/// Of the text's tokens the first of each kind counts: a time as `08:49:37`, with fields of one or two
/// digits; of the others a day of the month of one or two digits; a month by its first three letters in
/// any case; a year of two to four digits, of which those to 69 are of the years from 2000, and those from
/// 70 to 99 of the years from 1970. All other tokens are passed over, a zone too: the moment is in UTC.
/// None is shown by a text that lacks one of the four, by a year before 1601, an hour, a minute or a second
/// that no clock has, and a day that the calendar doesn't have.
pub fn read(text: &str) -> Option<DateTime>
    ensures { MatchOption result
        ((d : Date) → ¬ (spec.Shows text.now d))
        (λ m. (d : Date) × spec.Shows text.now d × IsMomentOf d m) }
{
    let mut found = Found::new();
    for token in text.as_bytes().split(|byte| is_delimiter(*byte)) {
        found.take(token);
    }
    found.moment()
}

// What was found of a date so far: a token of each kind.
#[derive(Clone, Copy)]
struct Found {
    time: Option<(u8, u8, u8)>,
    day: Option<u8>,
    month: Option<u8>,
    year: Option<u16>,
}

impl Found {
    fn new() -> Found
        ensures { result ≡ fields.nothing }
    {
        Found {
            time: None,
            day: None,
            month: None,
            year: None,
        }
    }

    // Takes the token for the first kind that it fits and that wasn't found before.
    fn take(&mut self, token: &[u8])
        requires { fields.IsSmall self.old }
        ensures value { fields.Takes self.old token.now self.new }
        ensures small { fields.IsSmall self.new }
    {
        if offer(&mut self.time, read_time(token)) {
            return;
        }
        if offer(&mut self.day, read_day(token)) {
            return;
        }
        if offer(&mut self.month, read_month(token)) {
            return;
        }
        offer(&mut self.year, read_year(token));
    }

    // The moment, where all four were found, and the calendar and the clock have it.
    fn moment(self) -> Option<DateTime>
        requires { fields.IsSmall self }
        ensures { MatchOption result ((d : Date) → ¬ (fields.Makes self d))
            (λ m. (d : Date) × fields.Makes self d × IsMomentOf d m) }
    {
        let time = self.time?;
        let day = self.day?;
        let month = self.month?;
        let year = full_year(self.year?);
        if year < 1601 {
            return None;
        }
        moment_of(year, month, day, time)
    }
}

// Puts what was read into its place, where that is empty. Answers whether it did.
fn offer<T: Copy>(place: &mut Option<T>, read: Option<T>) -> bool
    ensures took { IsTrue result → (place.old ≡ None) × IsSome read × (place.new ≡ read) }
    ensures passed { (result ≡ false) → (IsSome place.old ⊎ (read ≡ None)) × (place.new ≡ place.old) }
{
    if place.is_some() || read.is_none() {
        return false;
    }
    *place = read;
    true
}

// The year that a number below 100 stands for.
fn full_year(year: u16) -> u16
    requires { year ≤ 9999 }
    ensures value { result ≡ full_year year }
    ensures bound { result ≤ 9999 }
{
    match year {
        0..70 => 2000 + year,
        70..100 => 1900 + year,
        _ => year,
    }
}

// The moment of a date and a time of day, where the calendar and the clock have it.
fn moment_of(year: u16, month: u8, day: u8, time: (u8, u8, u8)) -> Option<DateTime>
    requires date { (year ≤ 9999) × (month ≤ 12) × (day < 100) }
    requires clock { (time.0 < 100) × (time.1 < 100) × (time.2 < 100) }
    ensures { MatchOption result (¬ (Exists (fields.date_of year month day time)))
        (λ m. Exists (fields.date_of year month day time) × IsMomentOf (fields.date_of year month day time) m) }
{
    let (hour, minute, second) = time;
    let moment = DateTime::new(
        year as i16,
        month as i8,
        day as i8,
        hour as i8,
        minute as i8,
        second as i8,
        0,
    );
    match moment {
        Ok(moment) => Some(moment),
        Err(_) => None,
    }
}

/// Each text in one of the strict forms of `cookie_text` shows the date that those forms read, and no other, where it
/// writes the year with two digits or more and the year is 1601 or later. Any other shows none.
pub fn strict_dates_show_the_same()
    ensures { StrictDatesShowTheSame }
{}
