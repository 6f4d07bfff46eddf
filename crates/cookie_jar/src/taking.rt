//! The `Set-Cookie` lines of an answer, taken into a jar.
ghost use Rattle.std.specs.Prelude.{◌≡◌, IfOk, IfErr, OnErr, map};
ghost use Rattle.jiff.specs.Words.{civil_nanos};
ghost use Rattle.user_agent.specs.Agent.{AsksForMemory};
ghost use Rattle.user_agent.specs.SecurePlaces.{ArePlacesOf};
ghost use Rattle.cookie_jar.specs.Taking as spec;

use crate::form::Form;
use crate::keeping::has_control;
use cookie_client::{Client, Stopped};
use jiff::civil::DateTime;
use std::alloc::AllocError;
use url::Url;
use user_agent::cross_answer::comes_across;
use user_agent::{Changes, Initiator, Outcome, OutcomeFor, Rules, SecurePlaces, SiteRefusal, take};

/// What became of a line in a jar.
#[derive(Clone, Copy, Debug, PartialEq, Eq)]
pub enum End {
    /// It went as a user agent takes it, behind the changes of these rules.
    Line(Outcome, Changes),
    /// Its answer may not set it, by its `SameSite` and what started the request. Nothing changed.
    KeptOut(SiteRefusal),
    /// A control character, which is a byte below 32 but the tab, or 127, stands in it. Nothing changed.
    Control,
    /// A tab stands in it, and the jar is to be saved as `cookies.txt`, which parts its fields by tabs. Nothing
    /// changed.
    Tab,
}

/// Takes the lines of an answer at `now` to a request to this URL that was started so into the client of a jar that is
/// to be saved in this form, one after another, each behind these rules.
///
/// # Errors
///
/// `Stopped` with the line, counted from 1, at which memory was refused: those before it are applied and no later one
/// was looked at. At 0 none was looked at.
pub(crate) fn take_all(
    client: &mut Client,
    form: Form,
    rules: &Rules,
    url: &Url,
    initiator: &Initiator<'_>,
    lines: &[&[u8]],
    now: DateTime,
) -> Result<Vec<End>, Stopped>
    ensures all { IfOk result (λ ends. spec.TakesFor form rules.now client.old.suffixes client.old.rows url.now
        initiator.now (civil_nanos now) (map (λ line. line.now) lines.now) ends.items client.new.rows) }
    ensures stopped { IfErr result (λ stopped. spec.IsStoppedFor form rules.now client.old.suffixes client.old.rows
        url.now initiator.now (civil_nanos now) (map (λ line. line.now) lines.now) stopped.0 client.new.rows) }
    ensures list { client.new.suffixes ≡ client.old.suffixes }
{
    let across = comes_across(client.store(), url, initiator);
    take_from(client, form, rules, across, url, lines, now)
}

// Takes the lines of an answer that comes across sites, or doesn't.
fn take_from(
    client: &mut Client,
    form: Form,
    rules: &Rules,
    across: bool,
    url: &Url,
    lines: &[&[u8]],
    now: DateTime,
) -> Result<Vec<End>, Stopped>
    ensures all { IfOk result (λ ends. spec.TakesAll form rules.now across client.old.suffixes client.old.rows url.now
        (civil_nanos now) (map (λ line. line.now) lines.now) ends.items client.new.rows) }
    ensures stopped { IfErr result (λ stopped. spec.IsStopped form rules.now across client.old.suffixes
        client.old.rows url.now
        (civil_nanos now) (map (λ line. line.now) lines.now) stopped.0 client.new.rows) }
    ensures list { client.new.suffixes ≡ client.old.suffixes }
{
    let (alloc, store) = (client.alloc(), client.store());
    let Ok(secure) = SecurePlaces::of(alloc, store, rules, url, lines.len(), now) else {
        return Err(Stopped(0));
    };
    take_beside(client, form, rules, across, &secure, url, lines, now)
}

// The same where the Secure rows stand at these places.
fn take_beside(
    client: &mut Client,
    form: Form,
    rules: &Rules,
    across: bool,
    secure: &SecurePlaces,
    url: &Url,
    lines: &[&[u8]],
    now: DateTime,
) -> Result<Vec<End>, Stopped>
    requires { ArePlacesOf secure.now rules.now url.now (civil_nanos now) client.old.rows }
    ensures all { IfOk result (λ ends. spec.TakesAll form rules.now across client.old.suffixes client.old.rows url.now
        (civil_nanos now) (map (λ line. line.now) lines.now) ends.items client.new.rows) }
    ensures stopped { IfErr result (λ stopped. spec.IsStopped form rules.now across client.old.suffixes
        client.old.rows url.now
        (civil_nanos now) (map (λ line. line.now) lines.now) stopped.0 client.new.rows) }
    ensures list { client.new.suffixes ≡ client.old.suffixes }
{
    let Ok(mut ends) = Vec::with_capacity(client.alloc(), lines.len()) else {
        return Err(Stopped(0));
    };
    for (i, line) in lines.iter().enumerate() {
        match take_line(client, form, rules, across, secure, url, line, now) {
            // There is room for one end a line, so this push is not refused.
            Ok(end) => match ends.push(end) {
                Ok(()) => {}
                Err(_) => return Err(Stopped(0)),
            },
            Err(_) => return Err(Stopped(i + 1)),
        }
    }
    Ok(ends)
}

/// Takes one line, where the Secure rows stand at these places.
///
/// # Errors
///
/// `AllocError` where memory was refused. The rows are then as they were.
pub(crate) fn take_line(
    client: &mut Client,
    form: Form,
    rules: &Rules,
    across: bool,
    secure: &SecurePlaces,
    url: &Url,
    line: &[u8],
    now: DateTime,
) -> Result<End, AllocError>
    requires { ArePlacesOf secure.now rules.now url.now (civil_nanos now) client.old.rows }
    ensures ok { IfOk result (λ end. spec.TakesLine form rules.now across client.old.suffixes client.old.rows url.now
        (civil_nanos now) line.now end client.new.rows) }
    ensures err { OnErr result ((client.new.rows ≡ client.old.rows) × AsksForMemory rules.now url.now line.now) }
    ensures list { client.new.suffixes ≡ client.old.suffixes }
    ensures places { ArePlacesOf secure.now rules.now url.now (civil_nanos now) client.new.rows }
{
    if has_control(line) {
        return Ok(End::Control);
    }
    if parts_by_tabs(form) && has_tab(line) {
        return Ok(End::Tab);
    }
    match take(client, rules, across, secure, url, line, now) {
        Ok((OutcomeFor::Judged(outcome), changes)) => Ok(End::Line(outcome, changes)),
        Ok((OutcomeFor::KeptOut(cause), _)) => Ok(End::KeptOut(cause)),
        Err(refused) => Err(refused),
    }
}

fn has_tab(line: &[u8]) -> bool
    ensures { result ≡ spec.has_tab line.now }
{
    line.iter().any(|b| *b == b'\t')
}

fn parts_by_tabs(form: Form) -> bool
    ensures { result ≡ spec.parts_by_tabs form }
{
    matches!(form, Form::Txt)
}
