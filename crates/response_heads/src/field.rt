//! Field lines (RFC 9112, section 5).
ghost use Rattle.std.specs.Prelude.{◌≡◌, ◌<◌, position, slice_index, Some, MatchResult, if◌then◌else◌};
ghost use Rattle.std.specs.List.{list_any};
ghost use Rattle.response_heads.specs.Lines as spec;
ghost use Rattle.response_heads.specs.Read.{field_text};

use crate::error::LineFault;
use crate::head::Field;

/// The field of a field line, or why it is none.
#[tactic(auto, unfolding(crate::specs::Lines::fault_of))]
pub(crate) fn read_field(line: &[u8]) -> Result<Field<'_>, LineFault>
    ensures { MatchResult result (λ field. spec.IsField line.now (field_text field))
        (λ fault. spec.fault_of line.now ≡ Some fault) }
{
    if begins_white(line) {
        return Err(fault_of_fold(line));
    }
    let Some(at) = colon_in(line) else {
        return Err(LineFault::NoColon);
    };
    let name = &line[..at];
    if !is_token(name) {
        return Err(LineFault::Name);
    }
    if has_control(line) {
        return Err(LineFault::Control);
    }
    Ok(Field {
        name,
        value: trimmed(&line[at + 1..]),
    })
}

/// Why a line is no field line.
pub(crate) fn fault_of(line: &[u8]) -> Option<LineFault>
    ensures { result ≡ spec.fault_of line.now }
{
    read_field(line).err()
}

// What is wrong with a line that begins with white space.
fn fault_of_fold(line: &[u8]) -> LineFault
    ensures { result ≡ (if list_any spec.is_control line.now then LineFault.Control else LineFault.Folded) }
{
    if has_control(line) {
        LineFault::Control
    } else {
        LineFault::Folded
    }
}

// Whether the line begins with a space or a tab.
pub(crate) fn begins_white(line: &[u8]) -> bool
    ensures { result ≡ spec.is_white (slice_index line.now 0) }
{
    matches!(line, [first, ..] if is_white(*first))
}

fn is_white(b: u8) -> bool
    ensures { result ≡ spec.is_white b }
{
    b == b' ' || b == b'\t'
}

// Where the first colon stands.
fn colon_in(line: &[u8]) -> Option<usize>
    ensures { result ≡ position spec.is_colon line.now }
{
    line.iter().position(|b| *b == b':')
}

fn is_token(text: &[u8]) -> bool
    ensures { result ≡ spec.is_token text.now }
{
    !text.is_empty() && text.iter().all(|b| is_token_byte(*b))
}

fn is_token_byte(b: u8) -> bool
    ensures { result ≡ spec.is_token_byte b }
{
    b.is_ascii_alphanumeric() || b"!#$%&'*+-.^_`|~".contains(&b)
}

/// Whether a carriage return or a zero byte stands in the line.
pub(crate) fn has_control(line: &[u8]) -> bool
    ensures { result ≡ list_any spec.is_control line.now }
{
    line.iter().any(|b| *b == b'\r' || *b == 0)
}

/// The text without the spaces and tabs at both its ends.
#[tactic(auto, unfolding(crate::specs::Lines::trimmed))]
pub(crate) fn trimmed(text: &[u8]) -> &[u8]
    ensures { result.now ≡ spec.trimmed text.now }
{
    trimmed_end(trimmed_start(text))
}

// The text without the spaces and tabs in front.
fn trimmed_start(text: &[u8]) -> &[u8]
    ensures { result.now ≡ spec.trimmed_start text.now }
{
    let mut rest = text;
    while let [first, more @ ..] = rest
        && is_white(*first)
    {
        rest = more;
    }
    rest
}

// The text without the spaces and tabs at its end.
fn trimmed_end(text: &[u8]) -> &[u8]
    ensures { result.now ≡ spec.trimmed_end text.now }
{
    let mut rest = text;
    while let [more @ .., last] = rest
        && is_white(*last)
    {
        rest = more;
    }
    rest
}
