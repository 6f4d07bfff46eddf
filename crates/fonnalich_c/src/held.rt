//! What a handle holds, and what a call does with it.
ghost use Rattle.std.specs.Prelude.{◌≡◌, ◌≢◌, ◌∷◌, [], IfOk, IfErr, Some};
ghost use Rattle.cookie_store.specs.Rows.{key};
ghost use Rattle.fonnalich_c.specs.Given.{lines_of};
ghost use Rattle.fonnalich_c.specs.Handle as spec;
ghost use Rattle.fonnalich_c.specs.Numbers.{receive_word};
ghost use Rattle.fonnalich_c.specs.One.{ActsOnOne};
ghost use Rattle.fonnalich_c.specs.Tasks.{DoesOf, RefusesOf};
ghost use Rattle.fonnalich_c.specs.declared.word.Task.TheVariants.{Receive};

use crate::given::{Given, is_one_line};
use crate::one::{Key, Pick, told};
use crate::refusal::Refusal;
use crate::room::write;
use crate::started::{Start, receive_line};
use crate::task::{Browsing, answer};
use crate::word::{ANSWER, Task, Word};
use cookie_client::Client;
use publicsuffix::List;
use std::alloc::Global;
use user_agent::Rules;

/// What a handle holds.
#[derive(Drop)]
pub struct Held {
    /// The client, once there is one.
    pub client: Option<Client>,
    /// The list that it keeps for clients of this handle and of others.
    pub list: Option<List>,
    /// What it knows beside.
    pub browsing: Browsing,
    /// The answer that had no room.
    pub kept: Vec<u8>,
}

/// What a new handle holds: the rules of browsers alone.
pub(crate) fn fresh(alloc: Global) -> Held
    ensures { spec.IsFresh (spec.view result) }
{
    Held {
        client: None,
        list: None,
        browsing: Browsing {
            rules: Rules::browser(),
            page: None,
            second: None,
        },
        kept: Vec::new(alloc),
    }
}

/// Lets go what a handle held.
pub(crate) fn let_go(held: Held) {
    drop(held);
}

/// Does what a word says, and hands out its answer.
pub(crate) fn work(
    alloc: Global,
    held: &mut Held,
    word: u32,
    number: i64,
    subject: &[u8],
    text: &[u8],
    out: &mut [u8],
) -> isize
    ensures { spec.Acts word (record { number = number; subject = subject.now; page = text.now; text = text.now })
        (spec.view held.old) out.old (spec.view held.new) out.new result }
{
    if word == ANSWER {
        return hand_out(&mut held.kept, out);
    }
    let given = Given {
        number,
        subject,
        page: text,
        text,
    };
    act(alloc, held, Word::of(word), &given, out)
}

/// Takes the lines of an answer to a request that is started so, and hands out what became of each.
pub(crate) fn receive_for(
    alloc: Global,
    held: &mut Held,
    started: u32,
    second: i64,
    url: &[u8],
    page: &[u8],
    lines: &[u8],
    out: &mut [u8],
) -> isize
    ensures { spec.ActsOnReceipt started
        (record { number = second; subject = url.now; page = page.now; text = lines.now }) (spec.view held.old) out.old
        (spec.view held.new) out.new result }
{
    let given = Given {
        number: second,
        subject: url,
        page,
        text: lines,
    };
    let word = match Start::of(started) {
        Some(start) => Some(Word::receive(start)),
        None => None,
    };
    act(alloc, held, word, &given, out)
}

// Hands out what a word makes. Of a line by itself no list is made, where there is room for the number.
fn act(
    alloc: Global,
    held: &mut Held,
    word: Option<Word>,
    given: &Given<'_>,
    out: &mut [u8],
) -> isize
    ensures { spec.ActsBy word given.now (spec.view held.old) out.old (spec.view held.new) out.new result }
{
    if let Some(Word::Ask(Task::Receive(start))) = word {
        if !out.is_empty() && is_one_line(given.text) {
            return take_line(alloc, held, start, given, out);
        }
    }
    match answer(
        alloc,
        &mut held.client,
        &mut held.list,
        &mut held.browsing,
        word,
        given,
    ) {
        Ok(answer) => {
            held.kept = answer;
            hand_out(&mut held.kept, out)
        }
        Err(refusal) => refusal.number(),
    }
}

// Takes a line by itself, and writes the number of what became of it.
fn take_line(
    alloc: Global,
    held: &mut Held,
    start: Start,
    given: &Given<'_>,
    out: &mut [u8],
) -> isize
    requires one { lines_of given.now.text ≡ given.now.text ∷ [] }
    requires room { out.old ≢ [] }
    ensures { spec.ActsBy (Some (receive_word start)) given.now (spec.view held.old) out.old (spec.view held.new)
        out.new result }
{
    match line_number(alloc, &mut held.client, &mut held.browsing, start, given) {
        Ok(number) => {
            held.kept.clear();
            write(&[number], out)
        }
        Err(refusal) => refusal.number(),
    }
}

// The number of what became of it, by the client where there is one.
fn line_number(
    alloc: Global,
    client: &mut Option<Client>,
    browsing: &mut Browsing,
    start: Start,
    given: &Given<'_>,
) -> Result<u8, Refusal>
    requires one { lines_of given.now.text ≡ given.now.text ∷ [] }
    ensures ok { IfOk result (λ number. DoesOf (Receive start) given.now browsing.old.rules client.old (number ∷ [])
        client.new) }
    ensures err { IfErr result (λ refused. RefusesOf (Receive start) given.now browsing.old.rules client.old refused
        client.new) }
    ensures rules { browsing.new.rules ≡ browsing.old.rules }
{
    match client {
        Some(client) => receive_line(alloc, client, browsing, start, given),
        None => Err(Refusal::NoClient),
    }
}

/// Has a handle keep the list that another keeps, which stays as it is.
pub(crate) fn share(held: &mut Held, other: &mut Held) -> isize
    ensures { spec.Shares other.old.list (spec.view held.old) (spec.view held.new) result × (other.new ≡ other.old) }
{
    match shared(&other.list) {
        Ok(list) => {
            held.list = Some(list);
            0
        }
        Err(refusal) => refusal.number(),
    }
}

// The list, where there is one.
fn shared(shelf: &Option<List>) -> Result<List, Refusal>
    ensures ok { IfOk result (λ list. shelf.now ≡ Some list) }
    ensures err { IfErr result (spec.IsNoShare shelf.now) }
{
    match shelf {
        Some(list) => Ok(list.clone()?),
        None => Err(Refusal::NoList),
    }
}

/// Does what a word says with the cookie of a key, and hands out what is told of it.
pub(crate) fn pick_one(
    alloc: Global,
    held: &mut Held,
    word: u32,
    second: i64,
    domain: &[u8],
    path: &[u8],
    name: &[u8],
    out: &mut [u8],
) -> isize
    ensures { ActsOnOne word second (key domain.now path.now name.now) (spec.view held.old) out.old
        (spec.view held.new) out.new result }
{
    let texts = Key { domain, path, name };
    match told(alloc, &mut held.client, Pick::of(word), second, texts) {
        Ok(answer) => {
            held.kept = answer;
            hand_out(&mut held.kept, out)
        }
        Err(refusal) => refusal.number(),
    }
}

// Writes what is kept to the beginning of `out`, where there is room for all of it, and keeps it no longer.
fn hand_out(kept: &mut Vec<u8>, out: &mut [u8]) -> isize
    ensures { spec.IsHandedOut kept.old.items out.old kept.new.items out.new result }
{
    let length = kept.len();
    if length <= out.len() {
        out[..length].copy_from_slice(kept);
        kept.clear();
    }
    length as isize
}
