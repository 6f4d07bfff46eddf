//! A command over the jar's file, under its lock where it changes the jar.
ghost use Rattle.std.specs.Prelude.{◌≡◌, IfErr, IfOk, List, None, OnOk, Option, Some, ℕ, true};
ghost use Rattle.std.specs.Option.{option_copied};
ghost use Rattle.std.specs.Result.{result_map_both};
ghost use Rattle.kept_file.specs.Locks.{Held, with_put, IsUnread};
ghost use Rattle.jar_commands.specs.KeptSteps as steps;
ghost use Rattle.jar_commands.specs.Outcomes.{outcome_text};
ghost use Rattle.jar_commands.specs.Performing.{AnswersTexts};
ghost use Rattle.jar_commands.specs.Plans.{plan_text};
ghost use Rattle.jar_commands.specs.Program.{IsOfFiles, IsUnwritten};
ghost use Rattle.jar_commands.specs.ProgramKept as spec;

use crate::about::Stopped;
use crate::answering::{answer, dropped_of};
use crate::failure::Failure;
use crate::outcome::Outcome;
use crate::plan::{Command, Plan};
use cookie_jar::Shown;
use kept_file::Keeper;
use kept_file::files::Unread;
use kept_file::place::Place;
use std::alloc::Global;
use std::fs::Files;
use std::time::Duration;

// What the name of a new file beside a jar has.
pub(crate) const NAME: &str = "cookie-jar";

/// Whether the command changes the jar.
pub(crate) fn changes(command: &Command<'_>) -> bool
    ensures { result ≡ spec.changes command.now }
{
    match command {
        Command::Receive(_, _, _) | Command::Set(_, _) | Command::Remove(_, _, _) => true,
        Command::Clear | Command::Import(_, _, _) => true,
        Command::Header(_, _) | Command::Get(_, _) | Command::Explain(_, _) => false,
        Command::List(_, _) | Command::Export(_, _, _) => false,
    }
}

/// What a plan gives over the jar's file, which is replaced where the plan changes the jar. `list` is the file of the
/// suffix list. What is told of the rows that the jar drops is put into `dropped`.
pub(crate) fn outcome_of<H: Files + AllocGlobal, K: Keeper>(
    rt: &H,
    plan: &Plan<'_>,
    list: &str,
    suffixes: &[u8],
    brought: Option<&[u8]>,
    dropped: &mut Option<Shown>,
    kept: &mut K,
) -> Result<Outcome, Stopped>
    ensures { steps.GivesKept (spec.changes plan.now.command) (plan_text plan.now) suffixes.now
        (option_copied brought.entry) (K.lock kept.old, K.lock kept.new)
        (result_map_both outcome_text (λ stopped. stopped.failure) result) }
{
    if changes(&plan.command) {
        return held(rt.alloc(), plan, list, suffixes, brought, dropped, kept);
    }
    let stored = read_jar(rt, plan.jar)?;
    answer_placed(
        rt.alloc(),
        plan,
        list,
        suffixes,
        stored.as_deref(),
        brought,
        dropped,
    )
}

// What a plan gives for texts; where they give nothing, with what that is about.
fn answer_placed(
    alloc: Global,
    plan: &Plan<'_>,
    list: &str,
    suffixes: &[u8],
    stored: Option<&[u8]>,
    brought: Option<&[u8]>,
    dropped: &mut Option<Shown>,
) -> Result<Outcome, Stopped>
    ensures { AnswersTexts (plan_text plan.now) suffixes.now (option_copied stored.entry)
        (option_copied brought.entry) (result_map_both outcome_text (λ stopped. stopped.failure) result) }
{
    match dropped_of(alloc, plan, stored) {
        Ok(told) => *dropped = told,
        Err(_) => return Err(Stopped::of(Failure::Memory)),
    }
    match answer(alloc, plan, suffixes, stored, brought) {
        Ok(outcome) => Ok(outcome),
        Err(failure) => Err(Stopped::in_texts(
            alloc, plan, list, suffixes, stored, brought, failure,
        )),
    }
}

// The same under the jar's lock, which is given back in any case.
fn held<K: Keeper>(
    alloc: Global,
    plan: &Plan<'_>,
    list: &str,
    suffixes: &[u8],
    brought: Option<&[u8]>,
    dropped: &mut Option<Shown>,
    kept: &mut K,
) -> Result<Outcome, Stopped>
    ensures { steps.GivesKept true (plan_text plan.now) suffixes.now
        (option_copied brought.entry) (K.lock kept.old, K.lock kept.new)
        (result_map_both outcome_text (λ stopped. stopped.failure) result) }
{
    begin(alloc, kept, plan.jar, plan.wait)?;
    let given = perform_held(alloc, plan, list, suffixes, brought, dropped, kept);
    kept.give();
    given
}

// Takes the jar's lock, and reads it. Where it isn't read, the lock is given back.
fn begin<K: Keeper>(alloc: Global, kept: &mut K, path: &str, wait: u64) -> Result<(), Stopped>
    ensures ok { OnOk result ((stored : Option (List ℕ))
        × (K.lock kept.new ≡ Held (record { path = path.now; seen = Some stored; put = None }))) }
    ensures err { IfErr result (λ stopped. IsOfFiles stopped.failure
        × IsUnread (K.lock kept.old, K.lock kept.new)) }
{
    if let Err(untaken) = kept.take(path, Duration::from_secs(wait)) {
        return Err(Stopped::untaken(alloc, path, untaken));
    }
    match kept.read() {
        Ok(()) => Ok(()),
        Err(unread) => {
            kept.give();
            Err(Stopped::unread(alloc, path, unread, Failure::JarFile))
        }
    }
}

// What a plan gives for what was read under the jar's lock, and puts its text in the jar's place.
fn perform_held<K: Keeper>(
    alloc: Global,
    plan: &Plan<'_>,
    list: &str,
    suffixes: &[u8],
    brought: Option<&[u8]>,
    dropped: &mut Option<Shown>,
    kept: &mut K,
) -> Result<Outcome, Stopped>
    ensures { steps.PerformsHeld (plan_text plan.now) suffixes.now (option_copied brought.entry)
        (K.lock kept.old, K.lock kept.new) (result_map_both outcome_text (λ stopped. stopped.failure) result) }
{
    match answer_placed(alloc, plan, list, suffixes, kept.bytes(), brought, dropped) {
        Ok(outcome) => replaced(alloc, plan.jar, outcome, kept),
        Err(stopped) => Err(stopped),
    }
}

// The outcome, whose text for the jar was put in the jar's place.
fn replaced<K: Keeper>(
    alloc: Global,
    jar: &str,
    outcome: Outcome,
    kept: &mut K,
) -> Result<Outcome, Stopped>
    ensures ok { IfOk result (λ done. steps.IsBut (outcome_text outcome) (outcome_text done)) }
    ensures err { IfErr result (λ stopped. IsUnwritten stopped.failure) }
    ensures lock { K.lock kept.new ≡ steps.put_of (outcome_text outcome).jar (K.lock kept.old) }
{
    let Outcome {
        printed,
        status,
        jar: text,
        file,
    } = outcome;
    if let Some(text) = text {
        put(alloc, jar, kept, text)?;
    }
    Ok(Outcome {
        printed,
        status,
        jar: None,
        file,
    })
}

// Puts the text in the jar's place.
fn put<K: Keeper>(alloc: Global, jar: &str, kept: &mut K, text: Vec<u8>) -> Result<(), Stopped>
    ensures err { IfErr result (λ stopped. IsUnwritten stopped.failure) }
    ensures lock { K.lock kept.new ≡ with_put text.items (K.lock kept.old) }
{
    match kept.replace(text) {
        Ok(()) => Ok(()),
        Err(unwritten) => Err(Stopped::unwritten(alloc, jar, unwritten, Failure::JarFile)),
    }
}

/// All that the jar holds, or none where it isn't there.
pub(crate) fn read_jar<H: Files + AllocGlobal>(
    rt: &H,
    path: &str,
) -> Result<Option<Vec<u8>>, Stopped>
    ensures { IfErr result (λ stopped. IsOfFiles stopped.failure) }
{
    match Place::of(rt, path, NAME).read(rt) {
        Ok(text) => Ok(Some(text)),
        Err(Unread::Missing) => Ok(None),
        Err(unread) => Err(Stopped::unread(rt.alloc(), path, unread, Failure::JarFile)),
    }
}
