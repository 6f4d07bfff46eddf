//! What the words make of a client.
ghost use Rattle.std.specs.Prelude.{◌≡◌, [], IfOk, IfErr, OnErr};
ghost use Rattle.fonnalich_c.specs.Faults.{IsTold};
ghost use Rattle.fonnalich_c.specs.Given.{IsNoListOf};
ghost use Rattle.fonnalich_c.specs.Listing.{IsCount, IsListing, IsNoListing};
ghost use Rattle.fonnalich_c.specs.Tasks as spec;

use crate::by_list::by_shelf;
use crate::exporting::export;
use crate::given::{Given, list, moment};
use crate::importing::import;
use crate::listing::{count_of, listing};
use crate::page::Page;
use crate::refusal::Refusal;
use crate::rule::rules_of;
use crate::second::Second;
use crate::started::{header, receive};
use crate::word::{Task, Word};
use cookie_client::Client;
use cookie_store::serde::ron::save_incl_expired_and_nonpersistent;
use cookie_store::{Counting, Error};
use kept_file::draft::Draft;
use publicsuffix::List;
use std::alloc::Global;
use user_agent::Rules;

/// How a handle browses, which it knows beside its client.
#[derive(Drop)]
pub struct Browsing {
    /// The rules of its lines and headers.
    pub rules: Rules,
    /// The URL that was asked for last.
    pub page: Option<Page>,
    /// The second that was asked for last.
    pub second: Option<Second>,
}

/// The answer of a word, by the client and the list where they are there.
pub(crate) fn answer(
    alloc: Global,
    client: &mut Option<Client>,
    shelf: &mut Option<List>,
    browsing: &mut Browsing,
    word: Option<Word>,
    given: &Given<'_>,
) -> Result<Vec<u8>, Refusal>
    ensures ok { IfOk result (λ answer. spec.Makes word given.now
        (record { list = shelf.old; rules = browsing.old.rules; client = client.old }) answer.items
        (record { list = shelf.new; rules = browsing.new.rules; client = client.new })) }
    ensures err { IfErr result (λ refused. spec.Fails word given.now
        (record { list = shelf.old; rules = browsing.old.rules; client = client.old }) refused client.new) }
    ensures same { OnErr result ((shelf.new ≡ shelf.old) × (browsing.new.rules ≡ browsing.old.rules)) }
{
    match word {
        Some(Word::List) => {
            let first = first(alloc, given.text)?;
            *client = Some(first);
            Ok(Vec::new(alloc))
        }
        Some(Word::Load) => {
            let loaded = loaded(alloc, given)?;
            *client = Some(loaded);
            Ok(Vec::new(alloc))
        }
        Some(Word::Rules) => {
            browsing.rules = rules_of(given.number)?;
            Ok(Vec::new(alloc))
        }
        Some(Word::Keep) => {
            let list = list(alloc, given.text)?;
            *shelf = Some(list);
            Ok(Vec::new(alloc))
        }
        Some(Word::Ask(task)) => asked(alloc, client, browsing, task, given),
        Some(Word::By(by)) => by_shelf(alloc, shelf, client, by, given.number, given.subject),
        None => Err(Refusal::Word),
    }
}

// The answer of a task, by the client where there is one.
fn asked(
    alloc: Global,
    client: &mut Option<Client>,
    browsing: &mut Browsing,
    task: Task,
    given: &Given<'_>,
) -> Result<Vec<u8>, Refusal>
    ensures ok { IfOk result (λ answer.
        spec.DoesOf task given.now browsing.old.rules client.old answer.items client.new) }
    ensures err { IfErr result (λ refused.
        spec.RefusesOf task given.now browsing.old.rules client.old refused client.new) }
    ensures rules { browsing.new.rules ≡ browsing.old.rules }
{
    match client {
        Some(client) => ask(alloc, client, browsing, task, given),
        None => Err(Refusal::NoClient),
    }
}

// A client without a row, with the suffix list of a text.
fn first(alloc: Global, text: &[u8]) -> Result<Client, Refusal>
    ensures ok { IfOk result (spec.Begins text.now) }
    ensures err { IfErr result (IsNoListOf text.now) }
{
    let list = list(alloc, text)?;
    Ok(Client::new(alloc, list))
}

// A client of a saved text, with the suffix list of another.
fn loaded(alloc: Global, given: &Given<'_>) -> Result<Client, Refusal>
    ensures ok { IfOk result (spec.IsLoaded given.now.number given.now.subject given.now.text) }
    ensures err { IfErr result (spec.IsNoLoad given.now.number given.now.subject given.now.text) }
{
    let list = list(alloc, given.text)?;
    loaded_by(alloc, given.number, given.subject, list)
}

/// A client of a saved text, with this list.
pub(crate) fn loaded_by(
    alloc: Global,
    second: i64,
    saved: &[u8],
    list: List,
) -> Result<Client, Refusal>
    ensures ok { IfOk result (spec.IsLoadedBy second saved.now list) }
    ensures err { IfErr result (spec.IsNoLoadBy second saved.now) }
{
    let now = moment(second)?;
    match Client::load(alloc, list, &mut Counting::new(saved), now) {
        Ok(client) => Ok(client),
        Err((cause, _)) => Err(unloaded(cause)),
    }
}

// What a refusal to load a client is told as.
fn unloaded(cause: Error) -> Refusal
    ensures { spec.IsLoadToldAs cause result }
{
    match cause {
        Error::Io => Refusal::Read,
        Error::OutOfMemory => Refusal::Memory,
        _ => Refusal::Saved,
    }
}

// The answer of a client's task.
fn ask(
    alloc: Global,
    client: &mut Client,
    browsing: &mut Browsing,
    task: Task,
    given: &Given<'_>,
) -> Result<Vec<u8>, Refusal>
    ensures ok { IfOk result (λ answer.
        spec.Does task given.now browsing.old.rules client.old answer.items client.new) }
    ensures err { IfErr result (λ refused.
        spec.Refuses task given.now browsing.old.rules client.old refused client.new) }
    ensures rules { browsing.new.rules ≡ browsing.old.rules }
{
    let second = given.number;
    match task {
        Task::Receive(start) => receive(alloc, client, browsing, start, given),
        Task::Header(start) => header(alloc, client, browsing, start, given),
        Task::Save => save(alloc, client, second),
        Task::Restart => restart(alloc, client, second),
        Task::SaveAll => save_all(alloc, client),
        Task::Reload => reload(alloc, client, given.subject),
        Task::Count => count(alloc, client, second),
        Task::List => list_all(alloc, client, second),
        Task::Clear => {
            client.clear();
            Ok(Vec::new(alloc))
        }
        Task::Import => import(alloc, client, second, given.text),
        Task::Export(reader, sessions) => export(alloc, client, reader, sessions, second),
    }
}

// The saved text. Memory alone refuses a write.
fn save(alloc: Global, client: &Client, second: i64) -> Result<Vec<u8>, Refusal>
    ensures ok { IfOk result (λ answer. spec.IsSavedText second client.now.rows answer.items) }
    ensures err { IfErr result (IsTold (spec.IsSavingFault second client.now.rows)) }
{
    let now = moment(second)?;
    let mut draft = Draft::new(alloc);
    match client.save(&mut draft, now) {
        Ok(()) => Ok(draft.text),
        Err(Error::Year) => Err(Refusal::Year),
        Err(_) => Err(Refusal::Memory),
    }
}

// The saved text of all rows, those without an end and the expired ones too.
fn save_all(alloc: Global, client: &Client) -> Result<Vec<u8>, Refusal>
    ensures ok { IfOk result (λ answer. spec.IsWholeText client.now.rows answer.items) }
    ensures err { IfErr result (spec.IsNoWholeText client.now.rows) }
{
    let mut draft = Draft::new(alloc);
    match save_incl_expired_and_nonpersistent(client.store(), &mut draft) {
        Ok(()) => Ok(draft.text),
        Err(Error::Year) => Err(Refusal::Year),
        Err(_) => Err(Refusal::Memory),
    }
}

// Takes all rows of a saved text in the place of the client's.
fn reload(alloc: Global, client: &mut Client, saved: &[u8]) -> Result<Vec<u8>, Refusal>
    ensures ok { IfOk result (λ answer. (answer.items ≡ []) × spec.Reloads saved.now client.old client.new) }
    ensures err { IfErr result (spec.IsNoReload saved.now) }
    ensures same { OnErr result (client.new ≡ client.old) }
{
    match client.reload(&mut Counting::new(saved)) {
        Ok(()) => Ok(Vec::new(alloc)),
        Err(cause) => Err(unloaded(cause)),
    }
}

// Keeps what a saved text keeps.
fn restart(alloc: Global, client: &mut Client, second: i64) -> Result<Vec<u8>, Refusal>
    ensures ok { IfOk result (λ answer. (answer.items ≡ []) × spec.Restarts second client.old client.new) }
    ensures err { IfErr result (IsTold (spec.IsSavingFault second client.old.rows)) }
    ensures same { OnErr result (client.new ≡ client.old) }
{
    let now = moment(second)?;
    match client.restart(now) {
        Ok(()) => Ok(Vec::new(alloc)),
        Err(Error::Year) => Err(Refusal::Year),
        Err(_) => Err(Refusal::Memory),
    }
}

// How many cookies aren't expired, in eight bytes.
fn count(alloc: Global, client: &Client, second: i64) -> Result<Vec<u8>, Refusal>
    ensures ok { IfOk result (λ answer. IsCount second client.now.rows answer.items) }
    ensures err { IfErr result (IsNoListing second) }
{
    let now = moment(second)?;
    let count = count_of(client, now)?;
    let mut answer = Vec::with_capacity(alloc, 8)?;
    answer.extend_from_slice(&count.to_le_bytes())?;
    Ok(answer)
}

// The items of these.
fn list_all(alloc: Global, client: &Client, second: i64) -> Result<Vec<u8>, Refusal>
    ensures ok { IfOk result (λ answer. IsListing second client.now.rows answer.items) }
    ensures err { IfErr result (IsNoListing second) }
{
    let now = moment(second)?;
    Ok(listing(alloc, client, now)?)
}
