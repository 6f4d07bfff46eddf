//! The program: a command over the files of a jar.
ghost use Rattle.std.specs.Prelude.{◌≡◌, ◌⊎◌, ℕ, List, Option, Result, IfErr, IfOk, OnErr, option_map};
ghost use Rattle.jar_commands.specs.Performing.{Brings, BringsNothing, UnreadBut, read_by};
ghost use Rattle.jar_commands.specs.Plans.{plan_text};
ghost use Rattle.jar_commands.specs.Program as spec;
ghost use Rattle.jar_commands.specs.ProgramKept as kept_spec;
ghost use Rattle.jar_commands.specs.declared.failure.Failure.{Failure};

use crate::about::{Stopped, name_text};
use crate::answering::read_input;
pub use crate::ended::Ended;
use crate::ended::{refused, url_told};
use crate::failure::Failure;
use crate::keeping::{outcome_of, read_jar};
use crate::plan::{Command, Plan, plan_of};
use crate::printing::{DASH, Done, finish, print_help, print_plain, print_version};
use crate::words::{Name, Refusal, Words, read, url_asked};
use cookie_jar::Shown;
use devices::{Sink, Source};
use jiff::civil::DateTime;
use kept_file::{Keeper, files};
use std::alloc::{AllocError, Global};
use std::fs::{self, Files};
use std::io::ErrorKind;

/// What `cookie-jar WORDS` does, at the clock's moment where the words name none. `lists` are files of
/// suffix lists, of which the first that is there counts where the words name none, else the last.
///
/// It answers what [`crate::answer`] gives for the bytes of the files; then the jar is replaced, or the other
/// file of an export, as a whole, by a new file beside it; and then is printed. The status is 2 where
/// the words, or what they ask, are refused, then where the list isn't read (`suffix file`), the jar's lock
/// isn't to be had (`jar in use`, `lock file`), or the jar isn't read (`jar file`), then where the reader
/// failed (`input`) or the other file isn't read (`file`), then where [`crate::answer`] fails, then where a
/// file isn't written (`jar file`, `file`), and last where the writer failed (`output`). Up to there each file
/// is as it was. What a failure is about is told with it; where a URL isn't plain, the plain text for it in the place
/// of that. The file of the suffix list is told where the words ask for that (`-v`).
///
/// The other file is the reader's where it is `-`, or the writer's: then the text of the rows is printed, and what
/// else an export prints is [`Ended::counted`].
///
/// A command that changes the jar has `kept` take the jar's lock behind all that it reads elsewhere; then
/// the jar is read, its new text is put in its place, and the lock is given back before anything is printed.
///
/// `url TEXT` has no jar: it prints the plain text for TEXT.
#[tactic(auto, using(crate::proofs::ProgramLemmas::plain_only))]
pub fn program<H: Files + AllocGlobal, K: Keeper, R: Source, W: Sink>(
    rt: &H,
    words: &[String],
    clock: Option<DateTime>,
    lists: &[&str],
    kept: &mut K,
    reader: &mut R,
    writer: &mut W,
) -> Ended
    ensures { kept_spec.Runs (reader.new ≡ reader.old) (writer.new ≡ writer.old)
        (read_by R.left R.reads R.failures reader.old reader.new)
        (spec.written_by W.written W.failures writer.old writer.new)
        (K.lock kept.old, K.lock kept.new) result.status }
{
    if let Some(text) = url_asked(words) {
        return url_told(rt.alloc(), text, print_plain(rt.alloc(), text, writer));
    }
    match read(rt.alloc(), words) {
        Ok(words) => run_words(rt, &words, clock, lists, kept, reader, writer),
        Err(refusal) => answered(rt.alloc(), refusal, writer),
    }
}

// Prints what is asked of the program itself, or tells why the words ask for nothing.
fn answered<W: Sink>(alloc: Global, refusal: Refusal<'_>, writer: &mut W) -> Ended
    ensures { spec.IsWithoutJar (writer.new ≡ writer.old)
        (spec.written_by W.written W.failures writer.old writer.new) result.status }
{
    match refusal {
        Refusal::Help => Ended::of(print_help(writer)),
        Refusal::Version => Ended::of(print_version(alloc, writer)),
        refusal => Ended::stopped(refused(alloc, refusal)),
    }
}

// Runs what words ask for.
fn run_words<H: Files + AllocGlobal, K: Keeper, R: Source, W: Sink>(
    rt: &H,
    words: &Words<'_>,
    clock: Option<DateTime>,
    lists: &[&str],
    kept: &mut K,
    reader: &mut R,
    writer: &mut W,
) -> Ended
    ensures { kept_spec.RunsWords (reader.new ≡ reader.old) (writer.new ≡ writer.old)
        (read_by R.left R.reads R.failures reader.old reader.new)
        (spec.written_by W.written W.failures writer.old writer.new)
        (K.lock kept.old, K.lock kept.new) result.status }
{
    let list = list_file(rt, words.value(Name::Suffixes), lists);
    let told = match list_told(rt.alloc(), words, list) {
        Ok(told) => told,
        Err(_) => return Ended::stopped(Stopped::of(Failure::Memory)),
    };
    match plan_of(rt.alloc(), words, clock) {
        Ok(plan) => run(rt, &plan, list, kept, reader, writer).with_list(told),
        Err(stopped) => Ended::stopped(stopped).with_list(told),
    }
}

// The file of the suffix list, where it is to be told.
fn list_told(alloc: Global, words: &Words<'_>, list: &str) -> Result<Option<Shown>, AllocError> {
    if words.has(Name::Verbose) {
        Ok(Some(name_text(alloc, list)?))
    } else {
        Ok(None)
    }
}

/// Does what is planned, with the suffix list of this file.
pub fn run<H: Files + AllocGlobal, K: Keeper, R: Source, W: Sink>(
    rt: &H,
    plan: &Plan<'_>,
    list: &str,
    kept: &mut K,
    reader: &mut R,
    writer: &mut W,
) -> Ended
    ensures tells { (given : Result ℕ Failure) × spec.Serves (reader.new ≡ reader.old) (writer.new ≡ writer.old)
        (read_by R.left R.reads R.failures reader.old reader.new)
        (spec.written_by W.written W.failures writer.old writer.new)
        (plan_text plan.now) given
        × spec.IsToldBy given result.status }
    ensures keeps { kept_spec.KeepsJar (reader.new ≡ reader.old)
        (read_by R.left R.reads R.failures reader.old reader.new)
        (plan_text plan.now) (K.lock kept.old, K.lock kept.new) result.status }
{
    let mut dropped = None;
    match serve(rt, plan, list, &mut dropped, kept, reader, writer) {
        Ok(done) => Ended::with(done.status).with_rows(dropped, done.counted),
        Err(stopped) => Ended::stopped(stopped).with_rows(dropped, None),
    }
}

// The file of the suffix list that counts: the one that is asked, else the first of these that is there, else the last.
fn list_file<'a, H: Files>(rt: &H, asked: Option<&'a str>, lists: &[&'a str]) -> &'a str {
    if let Some(asked) = asked {
        return asked;
    }
    let mut last = "";
    for list in lists {
        last = *list;
        if is_there(rt, last) {
            return last;
        }
    }
    last
}

fn is_there<H: Files>(rt: &H, path: &str) -> bool {
    match fs::metadata(rt, path) {
        Ok(_) => true,
        Err(error) => error.kind() != ErrorKind::NotFound,
    }
}

// Reads the files, answers for them, writes those that are to change, and prints.
fn serve<H: Files + AllocGlobal, K: Keeper, R: Source, W: Sink>(
    rt: &H,
    plan: &Plan<'_>,
    list: &str,
    dropped: &mut Option<Shown>,
    kept: &mut K,
    reader: &mut R,
    writer: &mut W,
) -> Result<Done, Stopped>
    ensures serves_ok { IfOk result (λ done. spec.Ends (reader.new ≡ reader.old)
        (read_by R.left R.reads R.failures reader.old reader.new)
        (spec.written_by W.written W.failures writer.old writer.new)
        (plan_text plan.now) done.status) }
    ensures serves_err { IfErr result (λ stopped. spec.RunFails (reader.new ≡ reader.old) (writer.new ≡ writer.old)
        (read_by R.left R.reads R.failures reader.old reader.new)
        (spec.written_by W.written W.failures writer.old writer.new)
        (plan_text plan.now) stopped.failure) }
    ensures keeps_ok { IfOk result (λ done. kept_spec.KeepsJar (reader.new ≡ reader.old)
        (read_by R.left R.reads R.failures reader.old reader.new)
        (plan_text plan.now) (K.lock kept.old, K.lock kept.new) done.status) }
    ensures keeps_err { OnErr result (kept_spec.KeepsJar (reader.new ≡ reader.old)
        (read_by R.left R.reads R.failures reader.old reader.new)
        (plan_text plan.now) (K.lock kept.old, K.lock kept.new) 2) }
{
    let given = bring(rt, &plan.command, reader);
    let suffixes = match read_suffixes(rt, list) {
        Ok(suffixes) => suffixes,
        Err(stopped) => return Err(stopped),
    };
    let brought = match given {
        Ok(brought) => brought,
        Err(stopped) => return Err(first_of(rt, plan.jar, stopped)),
    };
    match outcome_of(rt, plan, list, &suffixes, brought.as_deref(), dropped, kept) {
        Ok(outcome) => finish(rt, plan, outcome, writer),
        Err(stopped) => Err(stopped),
    }
}

// What is brought to a command: all that the reader has, or the bytes of the other file of an import.
fn bring<H: Files + AllocGlobal, R: Source>(
    rt: &H,
    command: &Command<'_>,
    reader: &mut R,
) -> Result<Option<Vec<u8>>, Stopped>
    ensures ok { IfOk result (λ brought. (given : Option (List ℕ)) × Brings (reader.new ≡ reader.old)
        (read_by R.left R.reads R.failures reader.old reader.new)
        (spec.reads_input command.now) given (option_map (λ text. text.items) brought)) }
    ensures err { IfErr result (λ stopped. BringsNothing
        (read_by R.left R.reads R.failures reader.old reader.new)
        (spec.reads_input command.now) stopped.failure
        ⊎ (spec.IsOfFiles stopped.failure × UnreadBut (reader.new ≡ reader.old) (spec.reads_input command.now))) }
{
    if !reads_input(command) {
        return read_given(rt, command);
    }
    match read_input(rt.alloc(), reader) {
        Ok(text) => Ok(Some(text)),
        Err(failure) => Err(Stopped::of(failure)),
    }
}

// Whether a command reads the program's input.
fn reads_input(command: &Command<'_>) -> bool
    ensures { result ≡ spec.reads_input command.now }
{
    match command {
        Command::Receive(_, _, _) => true,
        Command::Import(file, _, _) => *file == DASH,
        _ => false,
    }
}

// What stands first against a command to which nothing is brought: that the jar isn't read, or that failure.
fn first_of<H: Files + AllocGlobal>(rt: &H, jar: &str, stopped: Stopped) -> Stopped
    ensures { (result.failure ≡ stopped.failure) ⊎ spec.IsOfFiles result.failure }
{
    match read_jar(rt, jar) {
        Ok(_) => stopped,
        Err(earlier) => earlier,
    }
}

// All that the file of the suffix list holds.
fn read_suffixes<H: Files + AllocGlobal>(rt: &H, path: &str) -> Result<Vec<u8>, Stopped>
    ensures { IfErr result (λ stopped. spec.IsOfFiles stopped.failure) }
{
    match files::read(rt, path) {
        Ok(text) => Ok(text),
        Err(unread) => Err(Stopped::unread(rt.alloc(), path, unread, Failure::SuffixFile)),
    }
}

// All that the other file of an import holds.
fn read_given<H: Files + AllocGlobal>(
    rt: &H,
    command: &Command<'_>,
) -> Result<Option<Vec<u8>>, Stopped>
    ensures { IfErr result (λ stopped. spec.IsOfFiles stopped.failure) }
{
    let Command::Import(path, _, _) = command else {
        return Ok(None);
    };
    match files::read(rt, path) {
        Ok(text) => Ok(Some(text)),
        Err(unread) => Err(Stopped::unread(rt.alloc(), path, unread, Failure::File)),
    }
}
