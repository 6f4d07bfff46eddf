//! What the program answers for its words and the bytes of its files.
ghost use Rattle.std.specs.Prelude.{◌≡◌, ◌⊎◌, Some, IfOk, IfErr, OnOk, map, option_map, string_bytes};
ghost use Rattle.std.specs.Option.{option_copied};
ghost use Rattle.std.specs.Result.{result_map_both};
ghost use Rattle.jiff.specs.Words.{civil_nanos};
ghost use Rattle.rand_chacha.specs.ChaCha.{of_seed};
ghost use Rattle.saved_text.specs.RonLayout.{ron_layout};
ghost use Rattle.cookie.specs.Key.{derived};
ghost use Rattle.cookie_store.specs.Placing.{saved};
ghost use Rattle.cookie_store.specs.SavedTexts.{Saves, IsAnyBeforeYears};
ghost use Rattle.cookie_client.specs.Loading.{IsNoSavedText, IsSuffixList};
ghost use Rattle.cookie_run.specs.Program as spec;
ghost use Rattle.cookie_run.specs.ProgramRead.{asked_for};

use crate::program::arguments::{self, Asked};
use crate::program::failure::Failure;
use crate::script::ended::{Ended, RunError};
use crate::script::run::run;
use cookie::Key;
use cookie_client::Client;
use cookie_store::Error;
use devices::{Counting, Sink, Source};
use jiff::civil::DateTime;
use kept_file::draft::Draft;
use publicsuffix::{List, ListError};
use rand_chacha::ChaCha20Rng;
use rand_core::SeedableRng;
use std::alloc::Global;

/// What the program answers for its words, the bytes of SUFFIXFILE and those of STOREFILE, or none
/// where that isn't there: it runs the script of the reader on the client that they make, and gives the
/// text that STOREFILE is to hold then.
///
/// `Some` text is status 0: every line was done, and the text is the client's, saved at the script's
/// last moment. `None` is status 1: a line has a fault, and nothing is to be saved. A failure is status
/// 2, with [`Failure::words`]. Key and generator come from SEED, MOMENT is the script's first moment,
/// and the names of the files mean nothing here.
///
/// # Errors
///
/// The first of these that holds. Before anything is read or written: `Arguments` where there aren't
/// four words, `Seed` where the second isn't 64 hexadecimal digits, `Moment` where the fourth is no
/// moment of a script, `SuffixList` where the first text is no suffix list, `StoreText` where the other
/// is no saved text. Then `Input` where the reader failed, `Output` where the writer failed, and, behind
/// a script that ended whole, `StoreText` where a row that is to be saved ends in a year below 0.
/// `Memory` stands in their place where memory was refused for the list or the client, before anything
/// is read or written, or for the text that is to be saved, behind a script that ended whole.
pub fn answer<R: Source, W: Sink>(
    alloc: Global,
    words: &[String],
    suffixes: &[u8],
    stored: Option<&[u8]>,
    reader: &mut R,
    writer: &mut W,
) -> Result<Option<Vec<u8>>, Failure>
    ensures gives { spec.RunGives
        ((reader.new ≡ reader.old) × (writer.new ≡ writer.old))
        (spec.devices_by R.left R.reads R.failures reader.old reader.new W.written W.failures writer.old writer.new)
        (map (λ word. string_bytes word) words.now) suffixes.now (option_copied stored.entry)
        (result_map_both (option_map (λ text. text.items)) (λ failure. failure) result) }
    ensures failures { OnOk result ((R.failures reader.new ≡ R.failures reader.old)
        × (W.failures writer.new ≡ W.failures writer.old)) }
    ensures unflushed { OnOk result (W.unflushed writer.new ≡ 0) }
{
    let asked = match arguments::read(words) {
        Ok(asked) => asked,
        Err(failure) => return Err(failure),
    };
    let mut client = client_of(alloc, &asked, suffixes, stored)?;
    run_script(alloc, &asked, &mut client, reader, writer)
}

// The client that the script begins with.
fn client_of(
    alloc: Global,
    asked: &Asked<'_>,
    suffixes: &[u8],
    stored: Option<&[u8]>,
) -> Result<Client, Failure>
    ensures ok { IfOk result (λ client. IsSuffixList suffixes.now client.suffixes
        × spec.AreLoaded (civil_nanos asked.now.at.date) (option_copied stored.entry) client.rows) }
    ensures err { IfErr result (spec.MakesNoClient suffixes.now (option_copied stored.entry)) }
{
    let list = list_of(alloc, suffixes)?;
    match stored {
        Some(text) => loaded(alloc, list, text, asked.at.date),
        None => Ok(Client::new(alloc, list)),
    }
}

/// The suffix list of a text.
///
/// # Errors
///
/// `SuffixList` where the text is none, or `Memory`.
pub fn list_of(alloc: Global, text: &[u8]) -> Result<List, Failure>
    ensures ok { IfOk result (IsSuffixList text.now) }
    ensures err { IfErr result (spec.MakesNoList text.now) }
{
    match List::parse(alloc, text) {
        Ok(list) => Ok(list),
        Err(cause) => Err(unlisted(cause)),
    }
}

// What a refusal to parse a list is told as.
fn unlisted(cause: ListError) -> Failure
    ensures { spec.IsListToldAs cause result }
{
    match cause {
        ListError::OutOfMemory => Failure::Memory,
        _ => Failure::SuffixList,
    }
}

// The client of a saved text.
fn loaded(alloc: Global, list: List, text: &[u8], at: DateTime) -> Result<Client, Failure>
    ensures ok { IfOk result (λ client. (client.suffixes ≡ list)
        × spec.AreLoaded (civil_nanos at) (Some text.now) client.rows) }
    ensures err { IfErr result (λ failure. (failure ≡ Failure.Memory)
        ⊎ ((failure ≡ Failure.StoreText) × IsNoSavedText text.now)) }
{
    match Client::load(alloc, list, &mut Counting::new(text), at) {
        Ok(client) => Ok(client),
        Err((cause, _)) => Err(unloaded(cause)),
    }
}

// What a refusal to load a client is told as. No read of a text in memory fails.
fn unloaded(cause: Error) -> Failure
    ensures { spec.IsToldAs cause result }
{
    match cause {
        Error::Io | Error::OutOfMemory => Failure::Memory,
        _ => Failure::StoreText,
    }
}

// Plays the script on the client, and makes the text that is to be saved where it ended whole.
fn run_script<R: Source, W: Sink>(
    alloc: Global,
    asked: &Asked<'_>,
    client: &mut Client,
    reader: &mut R,
    writer: &mut W,
) -> Result<Option<Vec<u8>>, Failure>
    ensures gives { spec.ScriptGives
        (spec.devices_by R.left R.reads R.failures reader.old reader.new W.written W.failures writer.old writer.new)
        (asked_for asked.now) client.old.suffixes client.old.rows
        (result_map_both (option_map (λ text. text.items)) (λ failure. failure) result) }
    ensures failures { OnOk result ((R.failures reader.new ≡ R.failures reader.old)
        × (W.failures writer.new ≡ W.failures writer.old)) }
    ensures unflushed { OnOk result (W.unflushed writer.new ≡ 0) }
{
    let mut last = asked.at.date;
    let (key, mut rng) = seeded(asked.seed);
    match run(alloc, reader, writer, client, &mut last, &key, &mut rng) {
        Ok(Ended::Whole) => Ok(Some(saved_text(alloc, client, last)?)),
        Ok(Ended::Faulty(_)) => Ok(None),
        Err(RunError::Read) => Err(Failure::Input),
        Err(RunError::Write) => Err(Failure::Output),
    }
}

// The key and the generator that come from a seed.
fn seeded(seed: [u8; 32]) -> (Key, ChaCha20Rng)
    ensures key { result.0 ≡ derived seed }
    ensures generator { result.1 ≡ of_seed seed }
{
    (Key::derive_from(&seed), ChaCha20Rng::from_seed(seed))
}

// The saved text of a client at a moment. A draft refuses a write for want of memory alone.
fn saved_text(alloc: Global, client: &Client, at: DateTime) -> Result<Vec<u8>, Failure>
    ensures ok { IfOk result (λ text.
        Saves ron_layout (saved (civil_nanos at) client.now.rows) text.items) }
    ensures err { IfErr result (λ failure. (failure ≡ Failure.Memory)
        ⊎ ((failure ≡ Failure.StoreText) × IsAnyBeforeYears (saved (civil_nanos at) client.now.rows))) }
{
    let mut draft = Draft::new(alloc);
    match client.save(&mut draft, at) {
        Ok(()) => Ok(draft.text),
        Err(Error::Year) => Err(Failure::StoreText),
        Err(_) => Err(Failure::Memory),
    }
}
