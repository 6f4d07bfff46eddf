//! When a row expires, and in how long.
ghost use Rattle.cookie_jar.specs.Terminal.{ArePlain};

use crate::terminal::Shown;
use cookie_store::CookieExpiration;
use jiff::civil::DateTime;
use saved_text::SavedDate;
use std::alloc::{AllocError, Global};

const DAY: u64 = 86_400;

const HOUR: u64 = 3_600;

const MINUTE: u64 = 60;

/// The moment in UTC, or `session` for none.
pub(crate) fn push_expires(
    alloc: Global,
    text: &mut Shown,
    expires: CookieExpiration,
) -> Result<(), AllocError> {
    match expires {
        CookieExpiration::AtUtc(moment) => push_moment(alloc, text, moment),
        CookieExpiration::SessionEnd => text.words("session"),
    }
}

// The date and the time, a minus before a year below 0.
fn push_moment(alloc: Global, text: &mut Shown, moment: DateTime) -> Result<(), AllocError> {
    if moment.year() < 0 {
        text.words("-")?;
    }
    let date = SavedDate(moment);
    let date = format!(in alloc; "{date}")?;
    text.bytes(date.as_bytes())
}

/// How long it is until then, or `-` for none.
pub(crate) fn push_left(
    text: &mut Shown,
    expires: CookieExpiration,
    now: DateTime,
) -> Result<(), AllocError> {
    match expires {
        CookieExpiration::AtUtc(moment) => push_length(text, seconds_until(now, moment)),
        CookieExpiration::SessionEnd => text.words("-"),
    }
}

/// A line of the moment in UTC and of how long it is until then, or of the end of the session.
pub(crate) fn push_until(
    alloc: Global,
    text: &mut Shown,
    expires: CookieExpiration,
    now: DateTime,
) -> Result<(), AllocError> {
    let CookieExpiration::AtUtc(moment) = expires else {
        return text.words("until: the end of the session\n");
    };
    text.words("until: ")?;
    push_moment(alloc, text, moment)?;
    text.words(", in ")?;
    push_length(text, seconds_until(now, moment))?;
    text.words("\n")
}

// The whole seconds from the one moment to the other, none where that isn't later.
fn seconds_until(now: DateTime, moment: DateTime) -> u64 {
    u64::try_from(now.duration_until(moment).as_secs()).unwrap_or(0)
}

fn push_length(text: &mut Shown, seconds: u64) -> Result<(), AllocError> {
    if DAY <= seconds {
        push_count(text, seconds / DAY, "d")
    } else if HOUR <= seconds {
        push_count(text, seconds / HOUR, "h")
    } else if MINUTE <= seconds {
        push_count(text, seconds / MINUTE, "m")
    } else {
        push_count(text, seconds, "s")
    }
}

fn push_count(text: &mut Shown, count: u64, unit: &'static str) -> Result<(), AllocError>
    requires { ArePlain unit.now }
{
    text.number(count)?;
    text.words(unit)
}
