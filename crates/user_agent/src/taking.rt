//! The one way to take a line: behind rules, of an answer that comes across sites or doesn't.
ghost use Rattle.std.specs.Prelude.{◌≡◌, IfOk, Ok, OnErr};
ghost use Rattle.cookie_text.specs.Reading.{ReadsPlain};
ghost use Rattle.jiff.specs.Words.{civil_nanos};
ghost use Rattle.user_agent.specs.Agent as spec;
ghost use Rattle.user_agent.specs.Changes.{AreChanges};
ghost use Rattle.user_agent.specs.CrossAnswers as site;
ghost use Rattle.user_agent.specs.Refusals.{IsLetIn};
ghost use Rattle.user_agent.specs.SecurePlaces.{ArePlacesOf, ShowPlaces};

use crate::changes::{Changes, is_stopped, left_of, made_of};
use crate::cross_answer::{OutcomeFor, site_refusal};
use crate::judging::refusal;
use crate::rules::{Outcome, Refusal, Rules};
use crate::secure_places::SecurePlaces;
use cookie::Cookie as RawCookie;
use cookie_client::Client;
use cookie_text::laws::one_outcome;
use jiff::civil::DateTime;
use std::alloc::AllocError;
use url::Url;

/// Takes one `Set-Cookie` line of an answer from this URL at `now` into a client behind these rules, and says what
/// became of it and which rules changed it. `across` is whether the answer comes across sites
/// ([`crate::cross_answer::comes_across`]). Of many lines of one answer the Secure rows stand at these places, those of
/// the client as the answer's lines began ([`SecurePlaces::of`]); of one line alone give [`SecurePlaces::none`].
///
/// # Errors
///
/// `AllocError` where memory was refused. The rows are then as they were.
pub fn take(
    client: &mut Client,
    rules: &Rules,
    across: bool,
    secure: &SecurePlaces,
    url: &Url,
    line: &[u8],
    now: DateTime,
) -> Result<(OutcomeFor, Changes), AllocError>
    requires { ShowPlaces secure.now (civil_nanos now) client.old.rows }
    ensures ok { IfOk result (λ told. site.TakesLineFrom rules.now across client.old.suffixes client.old.rows url.now
        (civil_nanos now) line.now told.0 client.new.rows) }
    ensures changes { IfOk result (λ told. AreChanges rules.now (civil_nanos now) line.now told.1) }
    ensures err { OnErr result ((client.new.rows ≡ client.old.rows)
        × spec.AsksForMemory rules.now url.now line.now) }
    ensures list { client.new.suffixes ≡ client.old.suffixes }
    ensures places { ArePlacesOf secure.now rules.now url.now (civil_nanos now) client.old.rows
        → ArePlacesOf secure.now rules.now url.now (civil_nanos now) client.new.rows }
{
    if is_stopped(rules, line) {
        let outcome = OutcomeFor::Judged(Outcome::Refused(Refusal::Control));
        return Ok((outcome, Changes::none()));
    }
    let made = made_of(client.alloc(), rules, line, now)?;
    let left = left_of(&made.text, line);
    let outcome = take_handed(client, rules, across, secure, url, left, now)?;
    Ok((outcome, made.changes))
}

// Takes a line as the client gets it, that no control character stops.
fn take_handed(
    client: &mut Client,
    rules: &Rules,
    across: bool,
    secure: &SecurePlaces,
    url: &Url,
    line: &[u8],
    now: DateTime,
) -> Result<OutcomeFor, AllocError>
    requires { ShowPlaces secure.now (civil_nanos now) client.old.rows }
    ensures ok { IfOk result (λ outcome. site.TakesHandedFrom rules.now across client.old.suffixes client.old.rows
        url.now (civil_nanos now) line.now outcome client.new.rows) }
    ensures err { OnErr result ((client.new.rows ≡ client.old.rows) × spec.HandedAsks rules.now url.now line.now) }
    ensures list { client.new.suffixes ≡ client.old.suffixes }
{
    one_outcome();
    let Ok(text) = str::from_utf8(line) else {
        return take_unread(client, rules, across, url, line, now);
    };
    match RawCookie::parse(text) {
        Ok(cookie) => take_read(client, rules, across, secure, url, text, &cookie, now),
        Err(_) => take_unread(client, rules, across, url, line, now),
    }
}

// The same of a line that is no text, or reads as no cookie: nothing keeps it out, and no rule refuses it.
fn take_unread(
    client: &mut Client,
    rules: &Rules,
    across: bool,
    url: &Url,
    line: &[u8],
    now: DateTime,
) -> Result<OutcomeFor, AllocError>
    requires let_in { IsLetIn rules.now client.old.rows url.now (civil_nanos now) line.now }
    requires set { site.MaySet rules.now across line.now }
    ensures ok { IfOk result (λ outcome. site.TakesHandedFrom rules.now across client.old.suffixes client.old.rows
        url.now (civil_nanos now) line.now outcome client.new.rows) }
    ensures err { OnErr result ((client.new.rows ≡ client.old.rows) × spec.HandedAsks rules.now url.now line.now) }
    ensures list { client.new.suffixes ≡ client.old.suffixes }
{
    let end = client.receive_line(url, line, now)?;
    Ok(OutcomeFor::Judged(Outcome::Taken(end)))
}

// The same of a line of which the cookie was read.
fn take_read(
    client: &mut Client,
    rules: &Rules,
    across: bool,
    secure: &SecurePlaces,
    url: &Url,
    line: &str,
    cookie: &RawCookie<'_>,
    now: DateTime,
) -> Result<OutcomeFor, AllocError>
    requires shown { ShowPlaces secure.now (civil_nanos now) client.old.rows }
    requires read { ReadsPlain line.now (Ok cookie.now) }
    ensures ok { IfOk result (λ outcome. site.TakesHandedFrom rules.now across client.old.suffixes client.old.rows
        url.now (civil_nanos now) line.now outcome client.new.rows) }
    ensures err { OnErr result ((client.new.rows ≡ client.old.rows) × spec.HandedAsks rules.now url.now line.now) }
    ensures list { client.new.suffixes ≡ client.old.suffixes }
{
    one_outcome();
    if let Some(cause) = site_refusal(rules, across, cookie) {
        return Ok(OutcomeFor::KeptOut(cause));
    }
    let (alloc, store) = (client.alloc(), client.store());
    if let Some(rule) = refusal(alloc, rules, store, secure, url, line, cookie, now)? {
        return Ok(OutcomeFor::Judged(Outcome::Refused(rule)));
    }
    let end = client.receive_read(url, line, cookie, now)?;
    Ok(OutcomeFor::Judged(Outcome::Taken(end)))
}
