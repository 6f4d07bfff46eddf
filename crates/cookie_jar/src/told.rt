//! What is printed of a header and of lines that were received.
ghost use Rattle.std.specs.Prelude.{◌≡◌, IfOk, string_bytes};
ghost use Rattle.cookie_jar.specs.Terminal.{ArePlain, ShowsNoControl};
ghost use Rattle.cookie_jar.specs.Told as spec;

use crate::taking::End;
use crate::terminal::Shown;
use cookie_client::LineEnd;
use cookie_store::{CookieError, StoreAction};
use std::alloc::{AllocError, Global};
use user_agent::{Changes, Outcome, Refusal, SiteRefusal};

/// The line of a header, nothing where it is empty: `Cookie: ` and the header.
///
/// # Errors
///
/// `AllocError` where there is no memory for the text.
pub fn header_line(alloc: Global, header: &str) -> Result<String, AllocError>
    ensures { IfOk result (λ line. string_bytes line ≡ spec.header_line header.now) }
{
    let mut line = String::new(alloc);
    if !header.is_empty() {
        line.push_str("Cookie: ")?;
        line.push_str(header)?;
        line.push_str("\n")?;
    }
    Ok(line)
}

/// A line for each of the lines that were received, as long as there are ends: what became of it, the rules that
/// changed it, a tab, and the line as it came, of which each byte that isn't printable ASCII, and `%`, stands as `%`
/// and two digits.
///
/// # Errors
///
/// `AllocError` where there is no memory for the text.
pub fn told_lines(alloc: Global, lines: &[&[u8]], ends: &[End]) -> Result<Shown, AllocError>
    ensures { IfOk result ShowsNoControl }
{
    let mut text = Shown::new(alloc);
    let mut left = lines;
    for end in ends {
        let [line, rest @ ..] = left else {
            return Ok(text.finish());
        };
        push_told(&mut text, line, *end)?;
        left = rest;
    }
    Ok(text.finish())
}

/// Whether a line of this end wasn't stored.
pub fn is_refused(end: End) -> bool
    ensures { result ≡ spec.is_refused end }
{
    !matches!(end, End::Line(Outcome::Taken(LineEnd::Stored(_)), _))
}

fn push_told(text: &mut Shown, line: &[u8], end: End) -> Result<(), AllocError> {
    text.words(end_text(end))?;
    text.words(rules_text(end))?;
    text.words("\t")?;
    text.bytes(line)?;
    text.words("\n")
}

pub(crate) fn end_text(end: End) -> &'static str
    ensures { ArePlain result.now }
{
    match end {
        End::Line(outcome, _) => outcome_text(outcome),
        End::KeptOut(cause) => site_text(cause),
        End::Control => "refused: control character",
        End::Tab => "refused: tab",
    }
}

// The rules that changed a line of this end.
fn rules_text(end: End) -> &'static str
    ensures { ArePlain result.now }
{
    match end {
        End::Line(_, changes) => changes_text(changes),
        End::KeptOut(_) | End::Control | End::Tab => "",
    }
}

fn changes_text(changes: Changes) -> &'static str
    ensures { ArePlain result.now }
{
    match (changes.long_attributes, changes.dates, changes.long_lives) {
        (false, false, false) => "",
        (true, false, false) => " (long-attributes)",
        (false, true, false) => " (dates)",
        (false, false, true) => " (long-lives)",
        (true, true, false) => " (long-attributes, dates)",
        (true, false, true) => " (long-attributes, long-lives)",
        (false, true, true) => " (dates, long-lives)",
        (true, true, true) => " (long-attributes, dates, long-lives)",
    }
}

fn outcome_text(outcome: Outcome) -> &'static str
    ensures { ArePlain result.now }
{
    match outcome {
        Outcome::Taken(end) => line_end_text(end),
        Outcome::Refused(rule) => refusal_text(rule),
    }
}

fn site_text(cause: SiteRefusal) -> &'static str
    ensures { ArePlain result.now }
{
    match cause {
        SiteRefusal::CrossSite => "refused: SameSite",
        SiteRefusal::NoneLacksSecure => "refused: SameSite=None, not Secure",
    }
}

fn refusal_text(rule: Refusal) -> &'static str
    ensures { ArePlain result.now }
{
    match rule {
        Refusal::Control => "refused: control character",
        Refusal::TooLong => "refused: over 4096 bytes",
        Refusal::SecurePrefix => "refused: __Secure-",
        Refusal::HostPrefix => "refused: __Host-",
        Refusal::SecureFromHttp => "refused: Secure over http",
        Refusal::SecureOverlay => "refused: over a Secure cookie",
        Refusal::LacksSecure => "refused: not Secure",
    }
}

fn line_end_text(end: LineEnd) -> &'static str
    ensures { ArePlain result.now }
{
    match end {
        LineEnd::Stored(action) => action_text(action),
        LineEnd::Refused(cause) => cause_text(cause),
        LineEnd::NotText => "refused: no text",
        LineEnd::HostPrefix => "refused: __Host-",
    }
}

fn action_text(action: StoreAction) -> &'static str
    ensures { ArePlain result.now }
{
    match action {
        StoreAction::Inserted => "inserted",
        StoreAction::ExpiredExisting => "removed",
        StoreAction::UpdatedExisting => "replaced",
    }
}

fn cause_text(cause: CookieError) -> &'static str
    ensures { ArePlain result.now }
{
    match cause {
        CookieError::NonHttpScheme => "refused: HttpOnly",
        CookieError::NonRelativeScheme => "refused: no host",
        CookieError::DomainMismatch => "refused: other domain",
        CookieError::Expired => "refused: expired",
        CookieError::Parse => "refused: no cookie",
        CookieError::PublicSuffix => "refused: public suffix",
        CookieError::UnspecifiedDomain => "refused: no domain",
        CookieError::OutOfMemory => "refused: memory",
    }
}
