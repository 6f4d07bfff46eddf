//! The command that takes what URLs answered.
ghost use Rattle.std.specs.Prelude.{◌≡◌, ◌⊎◌, ◌||◌, ◌∷◌, [], Bool, Some, is_some, IfOk, IfErr, IsSomeAnd, OnOk, map};
ghost use Rattle.std.specs.Prelude.{if◌then◌else◌};
ghost use Rattle.std.specs.Option.{option_copied};
ghost use Rattle.jiff.specs.Words.{civil_nanos};
ghost use Rattle.response_heads.specs.Visits.{IsVisitRefusal, visit_text};
ghost use Rattle.cookie_jar.specs.Terminal.{ArePlain};
ghost use Rattle.jar_commands.specs.Outcomes.{GivesReceived, outcome_text};
ghost use Rattle.jar_commands.specs.Performing.{FailsToReceive};
ghost use Rattle.jar_commands.specs.Plans.{plan_text};
ghost use Rattle.jar_commands.specs.Receiving as spec;
ghost use Rattle.jar_commands.specs.Started.{TakesFrom};

use crate::failure::Failure;
use crate::jar_text::saved;
use crate::outcome::Outcome;
use crate::passed_over::{push_line, push_passed_over};
use crate::plan::{Plan, Start};
use cookie_jar::{End, Jar, Shown, is_refused, told_lines};
use jiff::civil::DateTime;
use response_heads::{LocationFault, Lost, ReadError, StopFault, Visit, Visited, answer, visits};
use std::alloc::{AllocError, Global};
use url::Url;

// What is told of lines, and whether one of them was refused or heads are left out.
#[derive(Drop)]
struct Received {
    told: Shown,
    is_any_refused: bool,
}

/// `receive URL`, of the text that was read, where the first request is started so.
pub(crate) fn receive(
    alloc: Global,
    plan: &Plan<'_>,
    jar: &mut Jar,
    url: &Url,
    start: &Start,
    is_one: bool,
    brought: Option<&[u8]>,
) -> Result<Outcome, Failure>
    ensures ok { IfOk result (λ outcome. IsSomeAnd (option_copied brought.entry) (λ text.
        GivesReceived (plan_text plan.now) jar.old url.now start.now is_one text (outcome_text outcome))) }
    ensures err { IfErr result
        (FailsToReceive (plan_text plan.now) jar.old url.now start.now is_one (option_copied brought.entry)) }
{
    match brought {
        Some(text) => receive_text(alloc, plan, jar, url, start, is_one, text),
        None => Err(Failure::Input),
    }
}

// Takes the lines of the heads of a text.
fn receive_text(
    alloc: Global,
    plan: &Plan<'_>,
    jar: &mut Jar,
    url: &Url,
    start: &Start,
    is_one: bool,
    text: &[u8],
) -> Result<Outcome, Failure>
    ensures ok { IfOk result (λ outcome.
        GivesReceived (plan_text plan.now) jar.old url.now start.now is_one text.now (outcome_text outcome)) }
    ensures err { IfErr result
        (FailsToReceive (plan_text plan.now) jar.old url.now start.now is_one (Some text.now)) }
{
    let Received {
        told,
        is_any_refused,
    } = receive_heads(alloc, plan, jar, url, start, is_one, text)?;
    match saved(plan, jar) {
        Ok(text) => Ok(Outcome::kept(told, status_of(is_any_refused), text)),
        Err(failure) => Err(failure),
    }
}

/// The status of lines, of which some were refused or none.
pub(crate) fn status_of(is_any_refused: bool) -> u8
    ensures { result ≡ (if is_any_refused then 1 else 0) }
{
    if is_any_refused { 1 } else { 0 }
}

// Takes the lines of the heads of a text, the first of which this URL answered.
fn receive_heads(
    alloc: Global,
    plan: &Plan<'_>,
    jar: &mut Jar,
    url: &Url,
    start: &Start,
    is_one: bool,
    text: &[u8],
) -> Result<Received, Failure>
    ensures ok { IfOk result (λ received. spec.TakesHeads is_one plan.now.form plan.now.rules start.now jar.old
        (civil_nanos plan.now.at) url.now text.now received.is_any_refused jar.new.rows) }
    ensures err { IfErr result (λ failure. (failure ≡ Failure.Memory) ⊎ spec.IsNoHeads text.now failure) }
{
    let Visited { visits, lost, stop } = visits_of(alloc, is_one, url, text)?;
    let received = receive_visits(alloc, plan, jar, start, &visits)?;
    let received = with_lost(received, lost)?;
    Ok(with_stop(received, stop)?)
}

// The heads of a text, each with the URL that answered it, or the last of them, where this URL alone was asked.
fn visits_of<'a>(
    alloc: Global,
    is_one: bool,
    url: &Url,
    text: &'a [u8],
) -> Result<Visited<'a>, Failure>
    ensures ok { IfOk result (λ given. spec.AreVisits is_one url.now text.now
        (map visit_text given.visits.items) given.lost given.stop) }
    ensures err { IfErr result (λ failure. (failure ≡ Failure.Memory) ⊎ spec.IsNoHeads text.now failure) }
{
    match read_visits(alloc, is_one, url, text) {
        Ok(given) => Ok(given),
        Err(ReadError::OutOfMemory) => Err(Failure::Memory),
        Err(ReadError::Line(line, _)) => Err(Failure::Heads(line)),
    }
}

// The heads that are read, or the last of them.
fn read_visits<'a>(
    alloc: Global,
    is_one: bool,
    url: &Url,
    text: &'a [u8],
) -> Result<Visited<'a>, ReadError>
    ensures ok { IfOk result (λ given. spec.AreVisits is_one url.now text.now
        (map visit_text given.visits.items) given.lost given.stop) }
    ensures err { IfErr result (IsVisitRefusal text.now) }
{
    if is_one {
        answer(alloc, url, text)
    } else {
        visits(alloc, url, text)
    }
}

// What is told where heads are left out, behind what was told.
fn with_lost(received: Received, lost: Option<Lost>) -> Result<Received, AllocError>
    ensures { IfOk result (λ more. more.is_any_refused ≡ (received.is_any_refused || is_some lost)) }
{
    let Some(lost) = lost else {
        return Ok(received);
    };
    let mut told = received.told;
    let line = u64::try_from(lost.line).unwrap_or(u64::MAX);
    push_line(&mut told, location_words(lost.fault), line)?;
    Ok(Received {
        told,
        is_any_refused: true,
    })
}

// What is told where heads are left out from a line on, behind what was told.
fn with_stop(received: Received, stop: Option<(usize, StopFault)>) -> Result<Received, AllocError>
    ensures { IfOk result (λ more. more.is_any_refused ≡ (received.is_any_refused || is_some stop)) }
{
    let Some((number, fault)) = stop else {
        return Ok(received);
    };
    let mut told = received.told;
    push_line(&mut told, stop_words(fault), number as u64)?;
    Ok(Received {
        told,
        is_any_refused: true,
    })
}

// Why nothing is read from a line on.
fn stop_words(fault: StopFault) -> &'static str
    ensures { ArePlain result.now }
{
    match fault {
        StopFault::Status => "refused: no status line\theads from line ",
        StopFault::Between => "refused: text between heads\theads from line ",
        StopFault::Unended => "refused: head without an end\theads from line ",
    }
}

// Why a line leads to no URL, and what is left out for that.
fn location_words(fault: LocationFault) -> &'static str
    ensures { ArePlain result.now }
{
    match fault {
        LocationFault::NotPlain => "refused: no plain Location\theads behind line ",
        LocationFault::Several => "refused: more than one Location\theads behind line ",
        LocationFault::Empty => "refused: empty Location\theads behind line ",
        LocationFault::Folded => "refused: folded line of a redirection\theads behind line ",
        LocationFault::NoField => "refused: Location that is no field line\theads behind line ",
    }
}

// Takes the lines of each visit, one after another.
fn receive_visits(
    alloc: Global,
    plan: &Plan<'_>,
    jar: &mut Jar,
    start: &Start,
    visits: &[Visit<'_>],
) -> Result<Received, AllocError>
    ensures { IfOk result (λ received. spec.TakesVisits plan.now.form plan.now.rules start.now jar.old.suffixes
        jar.old.rows (civil_nanos plan.now.at) (map visit_text visits.now) received.is_any_refused jar.new.rows) }
{
    let mut received = Received {
        told: Shown::new(alloc),
        is_any_refused: false,
    };
    for visit in visits {
        receive_visit(alloc, plan, jar, start, visit, &mut received)?;
    }
    Ok(received)
}

// Takes the lines of a visit, and tells of them behind what was told.
fn receive_visit(
    alloc: Global,
    plan: &Plan<'_>,
    jar: &mut Jar,
    start: &Start,
    visit: &Visit<'_>,
    received: &mut Received,
) -> Result<(), AllocError>
    ensures ok { OnOk result ((refused : Bool) × spec.TakesVisits plan.now.form plan.now.rules start.now
        jar.old.suffixes jar.old.rows (civil_nanos plan.now.at) (visit_text visit.now ∷ []) refused jar.new.rows
        × (received.new.is_any_refused ≡ (received.old.is_any_refused || refused))) }
    ensures list { jar.new.suffixes ≡ jar.old.suffixes }
{
    let read = visit.set_cookie_lines(alloc)?;
    let lines = slices_of(alloc, &read)?;
    let ends = take_answer(plan, jar, start, &visit.url, &lines)?;
    push_visit(
        alloc,
        &mut received.told,
        plan.is_verbose,
        visit,
        &lines,
        &ends,
    )?;
    received.is_any_refused = received.is_any_refused || is_any_refused(&ends);
    Ok(())
}

/// Takes the lines of an answer from this URL to a request that is started so, one after another.
pub(crate) fn take_answer(
    plan: &Plan<'_>,
    jar: &mut Jar,
    start: &Start,
    url: &Url,
    lines: &[&[u8]],
) -> Result<Vec<End>, AllocError>
    ensures ok { IfOk result (λ ends. TakesFrom start.now plan.now.form plan.now.rules jar.old.suffixes jar.old.rows
        url.now (civil_nanos plan.now.at) (map (λ line. line.now) lines.now) ends.items jar.new.rows) }
    ensures list { jar.new.suffixes ≡ jar.old.suffixes }
{
    match jar.receive(
        plan.form,
        &plan.rules,
        url,
        &start.initiator(),
        lines,
        plan.at,
    ) {
        Ok(ends) => Ok(ends),
        Err(_) => Err(AllocError),
    }
}

// The bytes of each line.
fn slices_of(alloc: Global, lines: &[Vec<u8>]) -> Result<Vec<&[u8]>, AllocError>
    ensures { IfOk result (λ slices.
        map (λ slice. slice.now) slices.items ≡ map (λ line. line.items) lines.now) }
{
    let mut slices = Vec::new(alloc);
    for line in lines {
        slices.push(line.as_slice())?;
    }
    Ok(slices)
}

// Tells of a visit, of which these are the lines: of what is passed over, and of the lines.
fn push_visit(
    alloc: Global,
    told: &mut Shown,
    is_verbose: bool,
    visit: &Visit<'_>,
    lines: &[&[u8]],
    ends: &[End],
) -> Result<(), AllocError> {
    if is_verbose {
        push_passed_over(told, visit)?;
    }
    told.add(&told_lines(alloc, lines, ends)?)
}

/// Whether a line wasn't stored.
pub(crate) fn is_any_refused(ends: &[End]) -> bool
    ensures { result ≡ spec.is_any_refused ends.now }
{
    ends.iter().any(|end| is_refused(*end))
}
