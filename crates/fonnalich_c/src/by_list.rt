//! What is asked of the list that a handle keeps.
ghost use Rattle.std.specs.Prelude.{◌≡◌, IfOk, IfErr, OnErr};
ghost use Rattle.fonnalich_c.specs.Tasks as spec;

use crate::refusal::Refusal;
use crate::shard::{shard_at_by, shard_by};
use crate::suffix::suffix_by;
use crate::task::loaded_by;
use crate::word::ByList;
use cookie_client::Client;
use publicsuffix::List;
use std::alloc::{AllocError, Global};

/// The answer of what is asked of the list, where one is kept.
pub(crate) fn by_shelf(
    alloc: Global,
    shelf: &Option<List>,
    client: &mut Option<Client>,
    by: ByList,
    second: i64,
    subject: &[u8],
) -> Result<Vec<u8>, Refusal>
    ensures ok { IfOk result (λ answer. spec.MakesOf by second subject.now shelf.now client.old answer.items
        client.new) }
    ensures err { IfErr result (spec.FailsOf by second subject.now shelf.now) }
    ensures same { OnErr result (client.new ≡ client.old) }
{
    match shelf {
        Some(list) => by_list(alloc, list, client, by, second, subject),
        None => Err(Refusal::NoList),
    }
}

fn by_list(
    alloc: Global,
    list: &List,
    client: &mut Option<Client>,
    by: ByList,
    second: i64,
    subject: &[u8],
) -> Result<Vec<u8>, Refusal>
    ensures ok { IfOk result (λ answer. spec.MakesBy by second subject.now list.now client.old answer.items
        client.new) }
    ensures err { IfErr result (spec.FailsBy by second subject.now list.now) }
    ensures same { OnErr result (client.new ≡ client.old) }
{
    match by {
        ByList::Begin => {
            let shared = list.clone()?;
            *client = Some(Client::new(alloc, shared));
            Ok(Vec::new(alloc))
        }
        ByList::Load => {
            let shared = list.clone()?;
            let loaded = loaded_by(alloc, second, subject, shared)?;
            *client = Some(loaded);
            Ok(Vec::new(alloc))
        }
        ByList::Suffix => Ok(copied(alloc, suffix_by(list, subject)?)?),
        ByList::Shard => {
            let shard = shard_by(list, subject)?;
            Ok(copied(alloc, shard)?)
        }
        ByList::ShardOfUrl => Ok(shard_at_by(alloc, list, subject)?.into_bytes()),
    }
}

// A copy of a text.
fn copied(alloc: Global, text: &[u8]) -> Result<Vec<u8>, AllocError>
    ensures { IfOk result (λ copy. copy.items ≡ text.now) }
{
    let mut copy = Vec::with_capacity(alloc, text.len())?;
    copy.extend_from_slice(text)?;
    Ok(copy)
}
