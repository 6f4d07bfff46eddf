//! The names of days and months in a date (RFC 9110, section 5.6.7).
ghost use Rattle.std.specs.Prelude.{◌≡◌, ◌≤◌};
ghost use Rattle.httpdate.specs.Text as names;

/// The first three letters of a weekday, of which Monday is 1.
pub fn day_name(weekday: u8) -> &'static str
    requires low { 1 ≤ weekday }
    requires high { weekday ≤ 7 }
    ensures { result.now ≡ names.day_name weekday }
{
    match weekday {
        1 => "Mon",
        2 => "Tue",
        3 => "Wed",
        4 => "Thu",
        5 => "Fri",
        6 => "Sat",
        _ => "Sun",
    }
}

/// What the weekday's full name has after its first three letters.
pub fn day_name_rest(weekday: u8) -> &'static str
    requires low { 1 ≤ weekday }
    requires high { weekday ≤ 7 }
    ensures { result.now ≡ names.day_name_rest weekday }
{
    match weekday {
        2 => "sday",
        3 => "nesday",
        4 => "rsday",
        6 => "urday",
        _ => "day",
    }
}

/// The three letters of a month, of which January is 1.
pub fn month_name(month: u8) -> &'static str
    requires low { 1 ≤ month }
    requires high { month ≤ 12 }
    ensures { result.now ≡ names.month_name month }
{
    match month {
        1 => "Jan",
        2 => "Feb",
        3 => "Mar",
        4 => "Apr",
        5 => "May",
        6 => "Jun",
        7 => "Jul",
        8 => "Aug",
        9 => "Sep",
        10 => "Oct",
        11 => "Nov",
        _ => "Dec",
    }
}
