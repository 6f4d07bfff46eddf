//! One cookie of a client, by the text of its domain, that of its path and its name.
ghost use Rattle.std.specs.Prelude.{◌≡◌, IfOk, IfErr, OnErr};
ghost use Rattle.cookie_store.specs.Rows.{key};
ghost use Rattle.fonnalich_c.specs.Faults.{IsTold};
ghost use Rattle.fonnalich_c.specs.One as spec;

use crate::given::moment;
use crate::listing::found_text;
use crate::refusal::Refusal;
use cookie_client::Client;
use std::alloc::Global;

/// What a word does with one cookie.
#[derive(Clone, Copy, Debug, PartialEq, Eq)]
pub enum Pick {
    /// Tells it, unless it is expired.
    Get,
    /// Takes it out, and tells it.
    Remove,
}

impl Pick {
    /// What the word of a number does.
    pub fn of(number: u32) -> Option<Pick>
        ensures { result ≡ spec.pick_of number }
    {
        match number {
            0 => Some(Pick::Get),
            1 => Some(Pick::Remove),
            _ => None,
        }
    }
}

/// The texts under which a cookie is kept.
#[derive(Clone, Copy)]
pub(crate) struct Key<'k> {
    pub domain: &'k [u8],
    pub path: &'k [u8],
    pub name: &'k [u8],
}

/// The answer of a word, by the client where there is one.
pub(crate) fn told(
    alloc: Global,
    client: &mut Option<Client>,
    word: Option<Pick>,
    second: i64,
    texts: Key<'_>,
) -> Result<Vec<u8>, Refusal>
    ensures ok { IfOk result (λ answer. spec.PicksOf word second
        (key texts.entry.domain.now texts.entry.path.now texts.entry.name.now) client.old answer.items client.new) }
    ensures err { IfErr result (spec.IsNoPick word second
        (key texts.entry.domain.now texts.entry.path.now texts.entry.name.now) client.old) }
    ensures same { OnErr result (client.new ≡ client.old) }
{
    let Some(pick) = word else {
        return Err(Refusal::Word);
    };
    match client {
        Some(client) => picked(alloc, client, pick, second, texts),
        None => Err(Refusal::NoClient),
    }
}

fn picked(
    alloc: Global,
    client: &mut Client,
    pick: Pick,
    second: i64,
    texts: Key<'_>,
) -> Result<Vec<u8>, Refusal>
    ensures ok { IfOk result (λ answer. spec.Picks pick second
        (key texts.entry.domain.now texts.entry.path.now texts.entry.name.now) client.old answer.items client.new) }
    ensures err { IfErr result (IsTold (spec.IsPickFault second
        (key texts.entry.domain.now texts.entry.path.now texts.entry.name.now))) }
    ensures same { OnErr result (client.new ≡ client.old) }
{
    let now = moment(second)?;
    let (domain, path, name) = key_texts(texts)?;
    match pick {
        Pick::Get => Ok(found_text(alloc, client.store().get(domain, path, name, now))?),
        Pick::Remove => {
            let answer = found_text(alloc, client.store().get_any(domain, path, name))?;
            client.remove(domain, path, name);
            Ok(answer)
        }
    }
}

// The texts as text.
fn key_texts(texts: Key<'_>) -> Result<(&str, &str, &str), Refusal>
    ensures ok { IfOk result (λ all. (all.0.now ≡ texts.entry.domain.now) × (all.1.now ≡ texts.entry.path.now)
        × (all.2.now ≡ texts.entry.name.now)
        × spec.IsKeyText (key texts.entry.domain.now texts.entry.path.now texts.entry.name.now)) }
    ensures err { IfErr result (λ refused. (refused ≡ Refusal.Text)
        × (¬ (spec.IsKeyText (key texts.entry.domain.now texts.entry.path.now texts.entry.name.now)))) }
{
    let Ok(domain) = str::from_utf8(texts.domain) else {
        return Err(Refusal::Text);
    };
    let Ok(path) = str::from_utf8(texts.path) else {
        return Err(Refusal::Text);
    };
    let Ok(name) = str::from_utf8(texts.name) else {
        return Err(Refusal::Text);
    };
    Ok((domain, path, name))
}
