//! What the rules of user agents make of a line before it is taken.
ghost use Rattle.cookie_jar.specs.Terminal.{ArePlain};

use crate::terminal::Shown;
use jiff::civil::DateTime;
use std::alloc::{AllocError, Global};
use user_agent::Rules;
use user_agent::changes::{cut, dated, shortened};

// A rule that changes lines.
#[derive(Clone, Copy, Debug, PartialEq, Eq)]
pub(crate) enum Change {
    LongAttributes,
    Dates,
    LongLives,
}

/// The line as these rules hand it on, with a line behind the text for each of them that changes it.
///
/// # Errors
///
/// `AllocError`, for want of memory.
pub(crate) fn push_changes(
    alloc: Global,
    text: &mut Shown,
    rules: &Rules,
    line: &str,
    now: DateTime,
) -> Result<String, AllocError> {
    let short = shortened(alloc, rules, line)?;
    push_change(text, Change::LongAttributes, line, short.as_str())?;
    let known = dated(alloc, rules, short.as_str())?;
    push_change(text, Change::Dates, short.as_str(), known.as_str())?;
    let handed = cut(alloc, rules, known.as_str(), now)?;
    push_change(text, Change::LongLives, known.as_str(), handed.as_str())?;
    Ok(handed)
}

// Tells what the rule made of the line, where it changed it.
fn push_change(
    text: &mut Shown,
    change: Change,
    line: &str,
    changed: &str,
) -> Result<(), AllocError> {
    if line == changed {
        return Ok(());
    }
    text.words(words(change))?;
    text.bytes(changed.as_bytes())?;
    text.words(section(change))
}

fn words(change: Change) -> &'static str
    ensures { ArePlain result.now }
{
    match change {
        Change::LongAttributes => "long-attributes: taken as ",
        Change::Dates => "dates: taken as ",
        Change::LongLives => "long-lives: taken as ",
    }
}

fn section(change: Change) -> &'static str
    ensures { ArePlain result.now }
{
    match change {
        Change::LongAttributes => " (draft-ietf-httpbis-rfc6265bis, section 5.6)\n",
        Change::Dates => " (RFC 6265, section 5.1.1)\n",
        Change::LongLives => " (draft-ietf-httpbis-rfc6265bis, section 5.5)\n",
    }
}
