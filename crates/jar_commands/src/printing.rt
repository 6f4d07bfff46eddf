//! What the program prints, and the other file of an export, which it writes before.
ghost use Rattle.std.specs.Prelude.{◌≡◌, ◌⊎◌, IfErr, IfOk, MatchOption, OnOk, [], ◌++◌, ◌∷◌, option_map};
ghost use Rattle.std.specs.Prelude.{string_bytes, true, unwrap_or};
ghost use Rattle.std.specs.Io.KnownBytes.{Keeps};
ghost use Rattle.devices.specs.Device.{Rose};
ghost use Rattle.plain_url.specs.Plain.{HasNoPlain};
ghost use Rattle.jar_commands.specs.Instead as urls;
ghost use Rattle.jar_commands.specs.Outcomes.{outcome_text};
ghost use Rattle.jar_commands.specs.Program as spec;
ghost use Rattle.jar_commands.specs.declared.failure.Failure.{Failure};

use crate::about::Stopped;
use crate::failure::Failure;
use crate::help::HELP;
use crate::keeping::NAME;
use crate::outcome::Outcome;
use crate::plan::{Command, Plan};
use crate::same_file::are_one_file;
use cookie_client::version_line;
use cookie_jar::Shown;
use devices::Sink;
use devices::pour::write_all;
use kept_file::place::Place;
use plain_url::plain_for;
use std::alloc::{AllocError, Global};
use std::fs::Files;

/// The name of the program's output, or input, in the place of a file's.
pub(crate) const DASH: &str = "-";

/// What a command gave.
#[derive(Drop)]
pub(crate) struct Done {
    /// The exit status, 0 or 1.
    pub(crate) status: u8,
    /// What an export tells of its rows, where it printed their text.
    pub(crate) counted: Option<Shown>,
}

/// Writes the other file of an export, unless that is the jar, and prints; or prints the text of that file.
pub(crate) fn finish<H: Files + AllocGlobal, W: Sink>(
    rt: &H,
    plan: &Plan<'_>,
    outcome: Outcome,
    writer: &mut W,
) -> Result<Done, Stopped>
    ensures ok { IfOk result (λ done. (done.status ≡ outcome.status) × spec.Printed
        (spec.written_by W.written W.failures writer.old writer.new)
        (spec.output plan.now.command (outcome_text outcome))) }
    ensures err { IfErr result (λ stopped. (spec.IsUnwritten stopped.failure × (writer.new ≡ writer.old))
        ⊎ ((stopped.failure ≡ Failure.Output) × spec.Unprinted
        (spec.written_by W.written W.failures writer.old writer.new)
        (spec.output plan.now.command (outcome_text outcome)))) }
{
    if prints_text(&plan.command) {
        return print_text(outcome, writer);
    }
    keep(rt, plan, &outcome)?;
    match print(writer, outcome.printed.as_str().as_bytes(), outcome.status) {
        Ok(status) => Ok(Done {
            status,
            counted: None,
        }),
        Err(failure) => Err(Stopped::of(failure)),
    }
}

// Whether a command prints the text of an export.
fn prints_text(command: &Command<'_>) -> bool
    ensures { result ≡ spec.prints_text command.now }
{
    match command {
        Command::Export(file, _, _) => *file == DASH,
        _ => false,
    }
}

// Prints the text of an export. What it tells of its rows is told beside it.
fn print_text<W: Sink>(outcome: Outcome, writer: &mut W) -> Result<Done, Stopped>
    ensures ok { IfOk result (λ done. (done.status ≡ outcome.status) × spec.Printed
        (spec.written_by W.written W.failures writer.old writer.new)
        (spec.output_by true (outcome_text outcome))) }
    ensures err { IfErr result (λ stopped. (stopped.failure ≡ Failure.Output) × spec.Unprinted
        (spec.written_by W.written W.failures writer.old writer.new)
        (spec.output_by true (outcome_text outcome))) }
{
    match print(writer, text_in(&outcome.file), outcome.status) {
        Ok(status) => Ok(Done {
            status,
            counted: outcome.printed.told(),
        }),
        Err(failure) => Err(Stopped::of(failure)),
    }
}

// The text of the other file.
fn text_in(file: &Option<Vec<u8>>) -> &[u8]
    ensures { result.now ≡ unwrap_or (option_map (λ text. text.items) file.now) [] }
{
    match file {
        Some(text) => text.as_slice(),
        None => b"",
    }
}

/// Prints the help.
pub(crate) fn print_help<W: Sink>(writer: &mut W) -> Result<u8, Failure>
    ensures { spec.PrintsOnly (writer.new ≡ writer.old)
        (spec.written_by W.written W.failures writer.old writer.new) result }
{
    print(writer, HELP.as_bytes(), 0)
}

/// Prints the line of the version.
pub(crate) fn print_version<W: Sink>(alloc: Global, writer: &mut W) -> Result<u8, Failure>
    ensures { spec.PrintsOnly (writer.new ≡ writer.old)
        (spec.written_by W.written W.failures writer.old writer.new) result }
{
    match version_line(alloc, NAME) {
        Ok(line) => print(writer, line.as_bytes(), 0),
        Err(_) => Err(Failure::Memory),
    }
}

/// `url TEXT`: prints the plain text for TEXT. Gives the exit status.
///
/// # Errors
///
/// `Url` where there is none, `Memory`, and `Output` where the writer failed.
pub(crate) fn print_plain<W: Sink>(alloc: Global, text: &str, writer: &mut W) -> Result<u8, Failure>
    ensures { urls.GivesPlain (writer.new ≡ writer.old)
        (spec.written_by W.written W.failures writer.old writer.new) text.now result }
{
    match plain_line(alloc, text) {
        Ok(Some(line)) => print(writer, line.as_bytes(), 0),
        Ok(None) => Err(Failure::Url),
        Err(_) => Err(Failure::Memory),
    }
}

// The plain text for a text, and a line feed.
fn plain_line(alloc: Global, text: &str) -> Result<Option<String>, AllocError>
    ensures { IfOk result (λ found. MatchOption found (HasNoPlain text.now)
        (λ line. (plain : _) × urls.IsPlainInstead text.now plain × (string_bytes line ≡ plain ++ 10 ∷ []))) }
{
    let Some(plain) = plain_for(alloc, text)? else {
        return Ok(None);
    };
    let mut line = plain;
    line.push_str("\n")?;
    Ok(Some(line))
}

// Writes the other file of an export, which isn't the jar itself.
fn keep<H: Files + AllocGlobal>(rt: &H, plan: &Plan<'_>, outcome: &Outcome) -> Result<(), Stopped>
    ensures { IfErr result (λ stopped. spec.IsUnwritten stopped.failure) }
{
    let (Command::Export(path, _, _), Some(text)) = (&plan.command, &outcome.file) else {
        return Ok(());
    };
    if are_one_file(rt, path, plan.jar) {
        return Err(Stopped::named(rt.alloc(), Failure::OwnFile, path, ""));
    }
    match Place::of(rt, path, NAME).replace(rt, text) {
        Ok(()) => Ok(()),
        Err(unwritten) => Err(Stopped::unwritten(rt.alloc(), path, unwritten, Failure::File)),
    }
}

/// Prints the text whole. Gives the status then.
#[tactic(auto, using(cookie_client::proofs::Written::appends_kept, cookie_client::proofs::Written::front_kept))]
pub(crate) fn print<W: Sink>(writer: &mut W, text: &[u8], status: u8) -> Result<u8, Failure>
    ensures ok { IfOk result (λ given. (given ≡ status) × spec.Printed
        (spec.written_by W.written W.failures writer.old writer.new)
        text.now) }
    ensures err { IfErr result (λ failure. (failure ≡ Failure.Output) × spec.Unprinted
        (spec.written_by W.written W.failures writer.old writer.new)
        text.now) }
    ensures failures { OnOk result (W.failures writer.new ≡ W.failures writer.old) }
    ensures unflushed { OnOk result (W.unflushed writer.new ≡ 0) }
{
    match write_all(writer, text) {
        Ok(()) => flushed(writer, status),
        Err(_) => Err(Failure::Output),
    }
}

// Flushes the writer. Gives the status then. What was written stays.
fn flushed<W: Sink>(writer: &mut W, status: u8) -> Result<u8, Failure>
    ensures ok { IfOk result (λ given. given ≡ status) }
    ensures err { IfErr result (λ failure.
        (failure ≡ Failure.Output) × Rose (W.failures writer.old) (W.failures writer.new)) }
    ensures bytes { Keeps (W.written writer.old) (W.written writer.new) }
    ensures failures { OnOk result (W.failures writer.new ≡ W.failures writer.old) }
    ensures unflushed { OnOk result (W.unflushed writer.new ≡ 0) }
{
    match writer.flush() {
        Ok(()) => Ok(status),
        Err(_) => Err(Failure::Output),
    }
}
