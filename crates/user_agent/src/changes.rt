//! Which rules change a line, and what each of them makes of it.
ghost use Rattle.std.specs.Prelude.{◌≡◌, ◌↔◌, IfOk, IsTrue, None, OnErr, option_map, string_bytes};
ghost use Rattle.std.specs.Str.{IsUtf8};
ghost use Rattle.jiff.specs.Words.{civil_nanos};
ghost use Rattle.user_agent.specs.Agent.{IsDoneIf, rewrites};
ghost use Rattle.user_agent.specs.Changes as spec;
ghost use Rattle.user_agent.specs.CutLives.{IsCutLine};
ghost use Rattle.user_agent.specs.KnownDates.{IsKnownLine};
ghost use Rattle.user_agent.specs.LongAttributes.{IsShortLine};
ghost use Rattle.user_agent.specs.Refusals.{IsStoppedByControl};

use crate::cut_life::with_cut_life;
use crate::judging::has_control;
use crate::known_date::with_known_date;
use crate::left_alone::left_alone;
use crate::long_attributes::without_long_attributes;
use crate::rules::Rules;
use jiff::civil::DateTime;
use std::alloc::{AllocError, Global};

/// Which rules changed a line: those that made another text of the one that they were handed.
#[derive(Clone, Copy, Debug, PartialEq, Eq)]
pub struct Changes {
    pub long_attributes: bool,
    pub dates: bool,
    pub long_lives: bool,
}

// What is made of a line.
#[derive(Drop)]
pub(crate) struct Made {
    // Another text, or none where the line goes on as it came.
    pub(crate) text: Option<String>,
    pub(crate) changes: Changes,
}

impl Changes {
    /// No rule.
    pub fn none() -> Changes
        ensures { result ≡ spec.no_changes }
    {
        Changes {
            long_attributes: false,
            dates: false,
            long_lives: false,
        }
    }
}

// Whether a control character stops the line.
pub(crate) fn is_stopped(rules: &Rules, line: &[u8]) -> bool
    ensures { IsTrue result ↔ IsStoppedByControl rules.now line.now }
{
    rules.control && has_control(line)
}

// What is made of a line that no control character stops.
pub(crate) fn made_of(
    alloc: Global,
    rules: &Rules,
    line: &[u8],
    now: DateTime,
) -> Result<Made, AllocError>
    ensures made { IfOk result (λ made. spec.IsMadeOf rules.now (civil_nanos now) line.now
        (option_map string_bytes made.text) made.changes) }
    ensures err { OnErr result (IsUtf8 line.now × IsTrue (rewrites rules.now)) }
{
    if !rewrites(rules) {
        return Ok(as_it_came());
    }
    match str::from_utf8(line) {
        Ok(text) => made_of_text(alloc, rules, text, now),
        Err(_) => Ok(as_it_came()),
    }
}

// The same of a text.
fn made_of_text(alloc: Global, rules: &Rules, line: &str, now: DateTime) -> Result<Made, AllocError>
    ensures { IfOk result (λ made. spec.AreChangesTo rules.now (civil_nanos now) line.now
        (spec.left_of (option_map string_bytes made.text) line.now) made.changes) }
{
    let Some(brief) = left_alone(alloc, line, now)? else {
        return made_by_all(alloc, rules, line, now);
    };
    if brief {
        Ok(as_it_came())
    } else {
        made_by_the_last(alloc, rules, line, now)
    }
}

// A line that no rule changes.
fn as_it_came() -> Made
    ensures { (option_map string_bytes result.text ≡ None) × (result.changes ≡ spec.no_changes) }
{
    Made {
        text: None,
        changes: Changes::none(),
    }
}

// What the rules make of a text, one behind another.
fn made_by_all(alloc: Global, rules: &Rules, line: &str, now: DateTime) -> Result<Made, AllocError>
    ensures { IfOk result (λ made. spec.AreChangesTo rules.now (civil_nanos now) line.now
        (spec.left_of (option_map string_bytes made.text) line.now) made.changes) }
{
    let short = shortened(alloc, rules, line)?;
    let known = dated(alloc, rules, short.as_str())?;
    let handed = cut(alloc, rules, known.as_str(), now)?;
    Ok(Made {
        changes: changes_in(line, short.as_str(), known.as_str(), handed.as_str()),
        text: Some(handed),
    })
}

// The rules that made another text, of the text as it came, short, known and cut.
fn changes_in(line: &str, short: &str, known: &str, handed: &str) -> Changes
    ensures { result ≡ spec.changes_in line.now short.now known.now handed.now }
{
    Changes {
        long_attributes: line != short,
        dates: short != known,
        long_lives: known != handed,
    }
}

// The same of a text that the first two leave as it is.
fn made_by_the_last(
    alloc: Global,
    rules: &Rules,
    line: &str,
    now: DateTime,
) -> Result<Made, AllocError>
    ensures { IfOk result (λ made. IsDoneIf rules.now.long_lives (IsCutLine (civil_nanos now)) line.now
        (spec.left_of (option_map string_bytes made.text) line.now)
        × (made.changes ≡ spec.changes_in line.now line.now line.now
        (spec.left_of (option_map string_bytes made.text) line.now))) }
{
    let handed = cut(alloc, rules, line, now)?;
    let changes = Changes {
        long_attributes: false,
        dates: false,
        long_lives: line != handed.as_str(),
    };
    Ok(Made {
        text: Some(handed),
        changes,
    })
}

// Whether a rule is on that changes lines.
fn rewrites(rules: &Rules) -> bool
    ensures { result ≡ rewrites rules.now }
{
    rules.long_attributes || rules.dates || rules.long_lives
}

// The text that was made of the line, or the line.
pub(crate) fn left_of<'a>(text: &'a Option<String>, line: &'a [u8]) -> &'a [u8]
    ensures { result.now ≡ spec.left_of (option_map string_bytes text.now) line.now }
{
    match text {
        Some(text) => text.as_bytes(),
        None => line,
    }
}

/// The line without its long attributes, where that rule is on; else the line.
///
/// # Errors
///
/// `AllocError`, for want of memory.
pub fn shortened(alloc: Global, rules: &Rules, line: &str) -> Result<String, AllocError>
    ensures { IfOk result (λ short.
        IsDoneIf rules.now.long_attributes IsShortLine line.now (string_bytes short)) }
{
    if rules.long_attributes {
        without_long_attributes(alloc, line)
    } else {
        String::from_str(alloc, line)
    }
}

/// The line with its dates known, where that rule is on; else the line.
///
/// # Errors
///
/// `AllocError`, for want of memory.
pub fn dated(alloc: Global, rules: &Rules, line: &str) -> Result<String, AllocError>
    ensures { IfOk result (λ known. IsDoneIf rules.now.dates IsKnownLine line.now (string_bytes known)) }
{
    if rules.dates {
        with_known_date(alloc, line)
    } else {
        String::from_str(alloc, line)
    }
}

/// The line with its life cut, where that rule is on; else the line.
///
/// # Errors
///
/// `AllocError`, for want of memory.
pub fn cut(alloc: Global, rules: &Rules, line: &str, now: DateTime) -> Result<String, AllocError>
    ensures { IfOk result (λ cut.
        IsDoneIf rules.now.long_lives (IsCutLine (civil_nanos now)) line.now (string_bytes cut)) }
{
    if rules.long_lives {
        with_cut_life(alloc, line, now)
    } else {
        String::from_str(alloc, line)
    }
}
