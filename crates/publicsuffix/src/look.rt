//! A look at a text that a user takes for a list.
ghost use Rattle.std.specs.Prelude.{◌≡◌, ◌≢◌, ℕ, Some, None, All, true, false, MatchOption};
ghost use Rattle.std.specs.List.{list_any};
ghost use Rattle.publicsuffix.specs.Looks as look;
ghost use Rattle.publicsuffix.specs.Rules as spec;

use crate::line::{is_passed_over, rule_text};
use crate::list::without_mark;

/// The number of a text's first line that isn't passed over, counted from 1, where that is no rule of host names:
/// before its first white space stands a character of ASCII beside letters, digits, hyphens, full stops, `*` and `!`.
/// Takes no memory.
pub(crate) fn strange_line(text: &str) -> Option<usize>
    ensures { MatchOption result (look.IsNotStrange text.now) (λ number. look.IsStrange text.now number) }
{
    match first_line(text) {
        Some(first) if is_strange(first.line) => Some(first.number),
        _ => None,
    }
}

// A line of a text, and its number.
#[derive(Drop)]
struct Numbered<'t> {
    number: usize,
    line: &'t str,
}

// The first line that isn't passed over.
fn first_line(text: &str) -> Option<Numbered<'_>>
    ensures { MatchOption result (All look.IsPassedOver (look.lines_in text.now))
        (λ first. look.IsFirst text.now first.number first.line.now) }
{
    let mut number = 0;
    for line in without_mark(text).split('\n') {
        number += 1;
        if !is_passed_over(line) {
            return Some(Numbered { number, line });
        }
    }
    None
}

// Whether a line has a character that no rule of host names has.
fn is_strange(line: &str) -> bool
    ensures { result ≡ look.is_strange line.now }
{
    rule_text(line).as_bytes().iter().any(|b| is_stranger(*b))
}

fn is_stranger(b: u8) -> bool
    ensures { result ≡ look.is_stranger b }
{
    b < 128 && !(b.is_ascii_alphanumeric() || b == b'-' || b == b'.' || b == b'*' || b == b'!')
}
