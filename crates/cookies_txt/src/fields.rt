//! The fields of a line.
ghost use Rattle.std.specs.Prelude.{◌≡◌, ◌≤◌, ◌&&◌, ◌∷◌, [], true, false, Some, None, Ok, Err, MatchOption, IfOk};
ghost use Rattle.std.specs.Prelude.{option_map, IfSome, MatchResult};
ghost use Rattle.cookie_text.specs.Record.{without_dot};
ghost use Rattle.cookies_txt.specs.Reading as spec;
ghost use Rattle.cookies_txt.specs.Steps.{last_two, said_of, texts_of};
ghost use Rattle.cookies_txt.specs.Writing.{latest_second};

use crate::error::LineFault;
use crate::line::{HTTP_ONLY_MARK, LATEST_SECOND, Line};
use crate::row::begins_with_slash;

impl<'a> Line<'a> {
    /// What a line says of a cookie, nothing where it is passed over, or its first fault in the order of
    /// [`LineFault`].
    #[tactic(auto, unfolding(crate::specs::Reading::read_line))]
    pub(crate) fn parse(line: &'a str) -> Result<Option<Line<'a>>, LineFault>
        ensures said { MatchResult result (λ said. spec.read_line line.now ≡ Ok (option_map said_of said))
            (λ fault. spec.read_line line.now ≡ Err fault) }
        ensures bound { IfOk result (λ said. IfSome said (λ line. line.expires ≤ latest_second)) }
    {
        if is_passed_over(line.as_bytes()) {
            return Ok(None);
        }
        let (http_only, rest) = unmarked(line);
        match Fields::of(rest) {
            Some(fields) => Ok(Some(fields.line(http_only)?)),
            None => Err(LineFault::Fields),
        }
    }
}

// The line without the ASCII white space in front.
fn unindented(line: &str) -> &str
    ensures { result.now ≡ spec.unindented line.now }
{
    line.trim_ascii_start()
}

// The same of bytes.
fn unindented_bytes(line: &[u8]) -> &[u8]
    ensures { result.now ≡ spec.unindented line.now }
{
    line.trim_ascii_start()
}

/// Whether the line is blank, or a comment.
pub(crate) fn is_passed_over(line: &[u8]) -> bool
    ensures { result ≡ spec.is_passed_over line.now }
{
    let text = unindented_bytes(line);
    text.is_empty() || (begins_with_sign(text) && !text.starts_with(HTTP_ONLY_MARK.as_bytes()))
}

fn begins_with_sign(line: &[u8]) -> bool
    ensures { result ≡ spec.begins_with_sign line.now }
{
    matches!(line, [b'#', ..])
}

// Whether the line is marked as HttpOnly, and what stands behind this mark, or else the line.
fn unmarked(line: &str) -> (bool, &str)
    ensures marked { result.0 ≡ spec.is_marked line.now }
    ensures rest { result.1.now ≡ spec.unmarked line.now }
{
    match unindented(line).strip_prefix(HTTP_ONLY_MARK) {
        Some(rest) => (true, rest),
        None => (false, line),
    }
}

// The fields as they stand.
#[derive(Clone, Copy)]
pub(crate) struct Fields<'a> {
    domain: &'a str,
    below: &'a str,
    path: &'a str,
    secure: &'a str,
    expires: &'a str,
    name: &'a str,
    value: &'a str,
}

impl<'a> Fields<'a> {
    // The seven fields of a line, of which the last may be missing.
    fn of(line: &'a str) -> Option<Fields<'a>>
        ensures { option_map texts_of result ≡ spec.field_texts (spec.parts line.now) }
    {
        let (domain, rest) = cut(line)?;
        let (below, rest) = cut(rest)?;
        let (path, rest) = cut(rest)?;
        let (secure, rest) = cut(rest)?;
        let (expires, rest) = cut(rest)?;
        let (name, value) = last_two(rest)?;
        Some(Fields {
            domain,
            below,
            path,
            secure,
            expires,
            name,
            value,
        })
    }

    // What the fields say, or the first fault in their order.
    #[tactic(auto, unfolding(crate::specs::Reading::fault_of, crate::specs::Reading::said_by_fields))]
    fn line(&self, http_only: bool) -> Result<Line<'a>, LineFault>
        ensures said { MatchResult result (λ line. (spec.fault_of (texts_of self.now) ≡ None)
            × (said_of line ≡ spec.said_by_fields http_only (texts_of self.now)))
            (λ fault. spec.fault_of (texts_of self.now) ≡ Some fault) }
        ensures bound { IfOk result (λ line. line.expires ≤ latest_second) }
    {
        let domain = without_dot(self.domain);
        if domain.is_empty() {
            return Err(LineFault::EmptyDomain);
        }
        let below = flag_of(self.below)?;
        if !begins_with_slash(self.path) {
            return Err(LineFault::NoSlash);
        }
        let secure = flag_of(self.secure)?;
        let expires = second_of(self.expires)?;
        if self.name.is_empty() {
            return Err(LineFault::EmptyName);
        }
        Ok(Line {
            http_only,
            domain,
            below,
            path: self.path,
            secure,
            expires,
            name: self.name,
            value: self.value,
        })
    }
}

// The first part of a text between its tabs, and what follows the tab.
fn cut(text: &str) -> Option<(&str, &str)>
    ensures { MatchOption result (spec.parts text.now ≡ text.now ∷ [])
        (λ cut. spec.parts text.now ≡ cut.0.now ∷ spec.parts cut.1.now) }
{
    text.split_once('\t')
}

// The name and the value, where no third part follows; the value may be missing.
fn last_two(text: &str) -> Option<(&str, &str)>
    ensures { option_map (λ two. (two.0.now, two.1.now)) result ≡ last_two (spec.parts text.now) }
{
    match cut(text) {
        Some((name, value)) => if cut(value).is_none() {
            Some((name, value))
        } else {
            None
        },
        None => Some((text, "")),
    }
}

// The text without one dot in front.
fn without_dot(text: &str) -> &str
    ensures { result.now ≡ without_dot text.now }
{
    text.strip_prefix('.').unwrap_or(text)
}

fn flag_of(text: &str) -> Result<bool, LineFault>
    ensures { MatchResult result (λ flag. (spec.is_flag text.now ≡ true) × (flag ≡ spec.is_true text.now))
        (λ fault. (spec.is_flag text.now ≡ false) × (fault ≡ LineFault.Flag)) }
{
    if text.eq_ignore_ascii_case("TRUE") {
        Ok(true)
    } else if text.eq_ignore_ascii_case("FALSE") {
        Ok(false)
    } else {
        Err(LineFault::Flag)
    }
}

// The second of an expiry, at most the latest. No text is none, and a second before 1970 counts as the first behind.
fn second_of(text: &str) -> Result<u64, LineFault>
    ensures second { MatchResult result
        (λ second. (spec.is_expiry text.now ≡ true) × (second ≡ spec.second_of text.now))
        (λ fault. (spec.is_expiry text.now ≡ false) × (fault ≡ LineFault.Number)) }
    ensures bound { IfOk result (λ second. second ≤ latest_second) }
{
    if text.is_empty() {
        return Ok(0);
    }
    match text.strip_prefix('-') {
        Some(size) => {
            whole_second_of(size)?;
            Ok(1)
        }
        None => whole_second_of(text),
    }
}

// The whole seconds of a number with or without a fraction, at most the latest.
fn whole_second_of(text: &str) -> Result<u64, LineFault>
    ensures second { MatchResult result
        (λ second. (spec.is_decimal text.now ≡ true) × (second ≡ spec.whole_second_of text.now))
        (λ fault. (spec.is_decimal text.now ≡ false) × (fault ≡ LineFault.Number)) }
    ensures bound { IfOk result (λ second. second ≤ latest_second) }
{
    let whole = whole_of(text)?;
    match whole.parse::<u64>() {
        Ok(second) => Ok(second.min(LATEST_SECOND)),
        Err(_) => Ok(LATEST_SECOND),
    }
}

// The digits of a number that stand before its fraction.
fn whole_of(text: &str) -> Result<&str, LineFault>
    ensures whole { MatchResult result
        (λ whole. (spec.is_decimal text.now ≡ true) × (whole.now ≡ spec.whole_in (spec.dotted_parts text.now))
        × (spec.is_number whole.now ≡ true))
        (λ fault. (spec.is_decimal text.now ≡ false) × (fault ≡ LineFault.Number)) }
{
    match cut_at_dot(text) {
        Some((whole, fraction)) => if are_numbers(whole, fraction) {
            Ok(whole)
        } else {
            Err(LineFault::Number)
        },
        None => if is_number(text) {
            Ok(text)
        } else {
            Err(LineFault::Number)
        },
    }
}

// What stands before the first dot of a text, and behind it.
fn cut_at_dot(text: &str) -> Option<(&str, &str)>
    ensures { MatchOption result (spec.dotted_parts text.now ≡ text.now ∷ [])
        (λ cut. spec.dotted_parts text.now ≡ cut.0.now ∷ spec.dotted_parts cut.1.now) }
{
    text.split_once('.')
}

fn are_numbers(whole: &str, fraction: &str) -> bool
    ensures { result ≡ (spec.is_number whole.now && spec.is_number fraction.now) }
{
    is_number(whole) && is_number(fraction)
}

// Whether the text is one or more digits.
fn is_number(text: &str) -> bool
    ensures { result ≡ spec.is_number text.now }
{
    !text.is_empty() && text.as_bytes().iter().all(|b| b.is_ascii_digit())
}
