//! The program: a script from a reader, played to a writer for a client that is kept in a file.
ghost use Rattle.std.specs.Prelude.{◌≡◌, ◌⊎◌, ◌↔◌, ◌∷◌, [], ℕ, IfOk, IfErr, IsNone, IsTrue, List, None, Ok, OnErr};
ghost use Rattle.std.specs.Prelude.{OnOk, Option, Result, Some, map};
ghost use Rattle.std.specs.Prelude.{option_map, string_bytes};
ghost use Rattle.std.specs.Io.KnownBytes.{Appends};
ghost use Rattle.devices.specs.Device.{AppendsFront, Rose};
ghost use Rattle.kept_file.specs.Locks.{Held, bytes_of};
ghost use Rattle.cookie_run.specs.Program as spec;
ghost use Rattle.cookie_run.specs.ProgramKept as kept_spec;
ghost use Rattle.kept_file.specs.Locks.{IsUnread};

mod answering;
mod arguments;
mod failure;
mod help;

pub use crate::program::answering::{answer, list_of};
pub use crate::program::failure::Failure;
pub use crate::program::help::HELP;
use cookie_client::version_line;
use devices::pour::{WriteFailed, write_all};
use devices::{Sink, Source};
use kept_file::files::Unread;
pub use kept_file::{draft, files, place};
use kept_file::{Keeper, Untaken, Unwritten};
use std::alloc::Global;
use std::fs::Files;
use std::time::Duration;

// What the line of the version begins with.
const NAME: &str = "cookie-run";

// How long it is waited for the lock of the store file, in seconds.
const WAIT: u64 = 10;

/// What `cookie-run SUFFIXFILE SEED STOREFILE MOMENT` does: runs the script of a reader on the client
/// of a store file, and keeps that client in the file if the script ended whole. Answers the exit
/// status, with what goes to standard error at status 2; `words` are those behind the program's name.
///
/// It answers what [`answer`] gives for the bytes of both files. The client begins with the suffix list
/// of SUFFIXFILE and, where STOREFILE is there, with the rows that it holds and that aren't expired at
/// MOMENT; the script's last moment begins there. Key and generator come from SEED. The saved text at
/// the script's last moment is made first and then takes the file's place as a whole, with its owner,
/// group and rights, or as a file of its owner's alone where it wasn't there; a run that isn't whole
/// leaves the file as it was. Where STOREFILE is a link, the file is what it points to.
///
/// The status is 0 where every line was done and 1 after the fault of a line. At 2 the first of these
/// stands against it: not four words (`arguments`), SEED or MOMENT of another form (`seed`, `moment`),
/// SUFFIXFILE not read (`suffix file`) or no suffix list (`suffix list`), the lock of STOREFILE held by
/// another for ten seconds (`store in use`), no lock file to be had beside it (`lock file`), STOREFILE not
/// read or not written (`store file`), no saved text in it, as in an empty file, or for it (`store text`),
/// the reader or the writer failed (`input`, `output`). `memory` stands in their place where memory was
/// refused outside the script. Up to `store text` of what STOREFILE holds, the reader and the writer are
/// as they were.
///
/// STOREFILE is kept by `kept`: its lock is held from before it is read until the text stands in its place.
///
/// By `cookie-run --help` it prints [`HELP`], and by `cookie-run --version` the line `cookie-run VERSION`;
/// it reads nothing then. `output` stands against that where the writer failed, and `memory` against the
/// version, which leaves the writer as it was.
pub fn program<H: Files + AllocGlobal, K: Keeper, R: Source, W: Sink>(
    rt: &H,
    words: &[String],
    kept: &mut K,
    reader: &mut R,
    writer: &mut W,
) -> (u8, Option<&'static str>)
    ensures tells { spec.WordsTell
        (reader.new ≡ reader.old)
        (writer.new ≡ writer.old)
        (spec.devices_by R.left R.reads R.failures reader.old reader.new W.written W.failures writer.old writer.new)
        (map (λ word. string_bytes word) words.now) result.0 (option_map (λ said. said.now) result.1) }
    ensures failures { IsNone result.1 → (R.failures reader.new ≡ R.failures reader.old)
        × (W.failures writer.new ≡ W.failures writer.old) }
    ensures keeps { kept_spec.WordsKeep
        ((reader.new ≡ reader.old) × (writer.new ≡ writer.old))
        (spec.devices_by R.left R.reads R.failures reader.old reader.new W.written W.failures writer.old writer.new)
        (map (λ word. string_bytes word) words.now) (K.lock kept.old, K.lock kept.new) result.0 }
    ensures unflushed { IsNone result.1 → W.unflushed writer.new ≡ 0 }
{
    if are_alone(words, "--help") {
        return print(writer, HELP.as_bytes());
    }
    if are_alone(words, "--version") {
        return print_version(rt.alloc(), writer);
    }
    run_told(rt, words, kept, reader, writer)
}

// Whether the words are this one alone.
fn are_alone(words: &[String], asked: &str) -> bool
    ensures { IsTrue result ↔ (map (λ word. string_bytes word) words.now ≡ asked.now ∷ []) }
{
    match words {
        [word] => word.as_str() == asked,
        _ => false,
    }
}

// Prints the line of the version.
fn print_version<W: Sink>(alloc: Global, writer: &mut W) -> (u8, Option<&'static str>)
    ensures tells { spec.VersionTells
        (writer.new ≡ writer.old)
        (W.written writer.old, W.written writer.new)
        (W.failures writer.old, W.failures writer.new)
        result.0 (option_map (λ said. said.now) result.1) }
    ensures failures { IsNone result.1 → W.failures writer.new ≡ W.failures writer.old }
    ensures unflushed { IsNone result.1 → W.unflushed writer.new ≡ 0 }
{
    match version_line(alloc, NAME) {
        Ok(line) => print(writer, line.as_bytes()),
        Err(_) => (2, Some(Failure::Memory.words())),
    }
}

// Prints a text.
fn print<W: Sink>(writer: &mut W, text: &[u8]) -> (u8, Option<&'static str>)
    ensures tells { spec.PrintTells text.now
        (W.written writer.old, W.written writer.new)
        (W.failures writer.old, W.failures writer.new)
        result.0 (option_map (λ said. said.now) result.1) }
    ensures failures { IsNone result.1 → W.failures writer.new ≡ W.failures writer.old }
    ensures unflushed { IsNone result.1 → W.unflushed writer.new ≡ 0 }
{
    match write_flushed(writer, text) {
        Ok(()) => (0, None),
        Err(_) => (2, Some(Failure::Output.words())),
    }
}

// Writes the text whole, and flushes.
#[tactic(auto, using(cookie_client::proofs::Written::appends_kept, cookie_client::proofs::Written::front_kept))]
fn write_flushed<W: Sink>(writer: &mut W, text: &[u8]) -> Result<(), WriteFailed>
    ensures ok { OnOk result (Appends (W.written writer.old) (W.written writer.new) text.now) }
    ensures err { OnErr result (Rose (W.failures writer.old) (W.failures writer.new)
        × AppendsFront (W.written writer.old) (W.written writer.new) text.now) }
    ensures failures { OnOk result (W.failures writer.new ≡ W.failures writer.old) }
    ensures unflushed { OnOk result (W.unflushed writer.new ≡ 0) }
{
    match write_all(writer, text) {
        Ok(()) => match writer.flush() {
            Ok(()) => Ok(()),
            Err(_) => Err(WriteFailed),
        },
        Err(failed) => Err(failed),
    }
}

// Answers the exit status of a run, with what goes to standard error at status 2.
fn run_told<H: Files + AllocGlobal, K: Keeper, R: Source, W: Sink>(
    rt: &H,
    words: &[String],
    kept: &mut K,
    reader: &mut R,
    writer: &mut W,
) -> (u8, Option<&'static str>)
    ensures tells { spec.ProgramTells
        ((reader.new ≡ reader.old) × (writer.new ≡ writer.old))
        (spec.devices_by R.left R.reads R.failures reader.old reader.new W.written W.failures writer.old writer.new)
        (map (λ word. string_bytes word) words.now) result.0 (option_map (λ said. said.now) result.1) }
    ensures failures { IsNone result.1 → (R.failures reader.new ≡ R.failures reader.old)
        × (W.failures writer.new ≡ W.failures writer.old) }
    ensures keeps { kept_spec.KeepsStore
        ((reader.new ≡ reader.old) × (writer.new ≡ writer.old))
        (spec.devices_by R.left R.reads R.failures reader.old reader.new W.written W.failures writer.old writer.new)
        (map (λ word. string_bytes word) words.now) (K.lock kept.old, K.lock kept.new) result.0 }
    ensures unflushed { IsNone result.1 → W.unflushed writer.new ≡ 0 }
{
    match serve(rt, words, kept, reader, writer) {
        Ok(status) => (status, None),
        Err(failure) => (2, Some(failure.words())),
    }
}

// Reads the files, answers for them, and keeps what is to be saved. Gives the exit status.
fn serve<H: Files + AllocGlobal, K: Keeper, R: Source, W: Sink>(
    rt: &H,
    words: &[String],
    kept: &mut K,
    reader: &mut R,
    writer: &mut W,
) -> Result<u8, Failure>
    ensures ok { IfOk result (λ status. spec.ProgramTells
        ((reader.new ≡ reader.old) × (writer.new ≡ writer.old))
        (spec.devices_by R.left R.reads R.failures reader.old reader.new W.written W.failures writer.old writer.new)
        (map (λ word. string_bytes word) words.now) status None) }
    ensures err { IfErr result (spec.ProgramFails
        ((reader.new ≡ reader.old) × (writer.new ≡ writer.old))
        (spec.devices_by R.left R.reads R.failures reader.old reader.new W.written W.failures writer.old writer.new)
        (map (λ word. string_bytes word) words.now)) }
    ensures keeps_ok { IfOk result (kept_spec.KeepsStore
        ((reader.new ≡ reader.old) × (writer.new ≡ writer.old))
        (spec.devices_by R.left R.reads R.failures reader.old reader.new W.written W.failures writer.old writer.new)
        (map (λ word. string_bytes word) words.now) (K.lock kept.old, K.lock kept.new)) }
    ensures keeps_err { OnErr result (kept_spec.KeepsStore
        ((reader.new ≡ reader.old) × (writer.new ≡ writer.old))
        (spec.devices_by R.left R.reads R.failures reader.old reader.new W.written W.failures writer.old writer.new)
        (map (λ word. string_bytes word) words.now) (K.lock kept.old, K.lock kept.new) 2) }
    ensures failures { OnOk result ((R.failures reader.new ≡ R.failures reader.old)
        × (W.failures writer.new ≡ W.failures writer.old)) }
    ensures unflushed { OnOk result (W.unflushed writer.new ≡ 0) }
{
    let asked = match arguments::read(words) {
        Ok(asked) => asked,
        Err(failure) => return Err(failure),
    };
    let suffixes = read_suffixes(rt, asked.suffix_file)?;
    match begin(kept, asked.store_file) {
        Ok(()) => {
            let ended = serve_held(rt.alloc(), words, &suffixes, kept, reader, writer);
            kept.give();
            ended
        }
        Err(failure) => Err(first_of(rt.alloc(), &suffixes, failure)),
    }
}

// Takes the lock of the store file, and reads it. Where it isn't read, the lock is given back.
fn begin<K: Keeper>(kept: &mut K, path: &str) -> Result<(), Failure>
    ensures ok { OnOk result ((stored : Option (List ℕ))
        × (K.lock kept.new ≡ Held (record { path = path.now; seen = Some stored; put = None }))) }
    ensures err { IfErr result (λ failure. spec.IsOfFiles failure
        × IsUnread (K.lock kept.old, K.lock kept.new)) }
{
    if let Err(untaken) = kept.take(path, Duration::from_secs(WAIT)) {
        return Err(untaken_as(untaken));
    }
    match kept.read() {
        Ok(()) => Ok(()),
        Err(unread) => {
            kept.give();
            Err(unread_as(unread))
        }
    }
}

// What is told where the lock isn't taken.
fn untaken_as(untaken: Untaken) -> Failure
    ensures { spec.IsOfFiles result }
{
    match untaken {
        Untaken::InUse => Failure::StoreInUse,
        Untaken::NoLock(_) => Failure::LockFile,
        Untaken::Failed(_) => Failure::StoreFile,
        Untaken::Memory => Failure::Memory,
    }
}

// What is told where the store file isn't read.
fn unread_as(unread: Unread) -> Failure
    ensures { spec.IsOfFiles result }
{
    match unread {
        Unread::Memory => Failure::Memory,
        Unread::Missing | Unread::Failed(_) => Failure::StoreFile,
    }
}

// Answers for what was read, and puts what is to be saved in the store file's place. Gives the exit status.
fn serve_held<K: Keeper, R: Source, W: Sink>(
    alloc: Global,
    words: &[String],
    suffixes: &[u8],
    kept: &mut K,
    reader: &mut R,
    writer: &mut W,
) -> Result<u8, Failure>
    ensures ok { IfOk result (λ status. spec.ProgramTells
        ((reader.new ≡ reader.old) × (writer.new ≡ writer.old))
        (spec.devices_by R.left R.reads R.failures reader.old reader.new W.written W.failures writer.old writer.new)
        (map (λ word. string_bytes word) words.now) status None) }
    ensures err { IfErr result (spec.ProgramFails
        ((reader.new ≡ reader.old) × (writer.new ≡ writer.old))
        (spec.devices_by R.left R.reads R.failures reader.old reader.new W.written W.failures writer.old writer.new)
        (map (λ word. string_bytes word) words.now)) }
    ensures keeps_ok { IfOk result (kept_spec.RunKeeps
        ((reader.new ≡ reader.old) × (writer.new ≡ writer.old))
        (spec.devices_by R.left R.reads R.failures reader.old reader.new W.written W.failures writer.old writer.new)
        (map (λ word. string_bytes word) words.now) suffixes.now (K.lock kept.old, K.lock kept.new)) }
    ensures keeps_err { OnErr result (kept_spec.RunKeeps
        ((reader.new ≡ reader.old) × (writer.new ≡ writer.old))
        (spec.devices_by R.left R.reads R.failures reader.old reader.new W.written W.failures writer.old writer.new)
        (map (λ word. string_bytes word) words.now) suffixes.now (K.lock kept.old, K.lock kept.new) 2) }
    ensures failures { OnOk result ((R.failures reader.new ≡ R.failures reader.old)
        × (W.failures writer.new ≡ W.failures writer.old)) }
    ensures unflushed { OnOk result (W.unflushed writer.new ≡ 0) }
{
    match answer(alloc, words, suffixes, kept.bytes(), reader, writer) {
        Ok(Some(text)) => match kept.replace(text) {
            Ok(()) => Ok(0),
            Err(Unwritten::Memory) => Err(Failure::Memory),
            Err(Unwritten::Failed(_)) => Err(Failure::StoreFile),
        },
        Ok(None) => Ok(1),
        Err(failure) => Err(failure),
    }
}

// All that the suffix file holds.
fn read_suffixes<H: Files + AllocGlobal>(rt: &H, path: &str) -> Result<Vec<u8>, Failure>
    ensures { IfErr result spec.IsOfFiles }
{
    match files::read(rt, path) {
        Ok(text) => Ok(text),
        Err(Unread::Memory) => Err(Failure::Memory),
        Err(Unread::Missing | Unread::Failed(_)) => Err(Failure::SuffixFile),
    }
}

// What stands first against a run whose store file isn't read: that the other file holds no list, or
// that failure.
fn first_of(alloc: Global, suffixes: &[u8], failure: Failure) -> Failure
    ensures { (result ≡ failure) ⊎ spec.MakesNoList suffixes.now result }
{
    match list_of(alloc, suffixes) {
        Ok(_) => failure,
        Err(earlier) => earlier,
    }
}
