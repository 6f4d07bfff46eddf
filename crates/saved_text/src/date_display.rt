//! How a saved date is printed.
ghost use Rattle.std.specs.Prelude.{unsigned_abs, ◌≡◌, ◌<◌, Some, IfOk, string_bytes};
ghost use Rattle.std.specs.List.{AllByRecursion};
ghost use Rattle.std.specs.Str.{IsUtf8};
ghost use Rattle.saved_text.specs.Rfc3339.{two_digits, date_text};

use jiff::civil::DateTime;
use std::alloc::{AllocError, Global};
use std::fmt;

/// A moment of the years 0 to 9999 as `2024-01-01T01:00:00Z`, without its fraction.
#[derive(Drop)]
pub struct SavedDate(pub DateTime);

impl SavedDate {
    /// What the moment prints, in memory of its length.
    ///
    /// # Errors
    ///
    /// Want of memory.
    pub fn to_string(&self, alloc: Global) -> Result<String, AllocError>
        ensures ok { IfOk result (λ text. string_bytes text ≡ date_text self.now.0) }
    {
        match str::from_utf8(&printed(self.0)) {
            Ok(text) => String::from_str(alloc, text),
            Err(_) => unreachable!(),
        }
    }
}

impl fmt::Display for SavedDate {
    ghost output = { λ d. Some (date_text d.0) };

    fn fmt<W: fmt::Write>(&self, f: &mut fmt::Formatter<W>) -> fmt::Result {
        match str::from_utf8(&printed(self.0)) {
            Ok(text) => f.write_str(text),
            Err(_) => unreachable!(),
        }
    }
}

// What a moment prints, as bytes: they are of one length, so nothing grows.
fn printed(moment: DateTime) -> [u8; 20]
    ensures text { result ≡ date_text moment }
    ensures utf8 { IsUtf8 result }
{
    let year = year_of(moment);
    let [a, b] = digits((year / 100 % 100) as u8);
    let [c, d] = digits((year % 100) as u8);
    let [e, f] = digits(moment.month() as u8);
    let [g, h] = digits(moment.day() as u8);
    let [i, j] = digits(moment.hour() as u8);
    let [k, l] = digits(moment.minute() as u8);
    let [m, n] = digits(moment.second() as u8);
    [
        a, b, c, d, b'-', e, f, b'-', g, h, b'T', i, j, b':', k, l, b':', m, n, b'Z',
    ]
}

// The year without its sign.
fn year_of(moment: DateTime) -> u16
    ensures { result ≡ unsigned_abs moment.date.year }
{
    moment.year().unsigned_abs()
}

// Two digits of a number below 100.
fn digits(number: u8) -> [u8; 2]
    ensures text { result ≡ two_digits number }
    ensures ascii { AllByRecursion (λ b. b < 128) result }
{
    [b'0' + number / 10, b'0' + number % 10]
}
