//! The shard of a host.
ghost use Rattle.std.specs.Prelude.{IfOk, IfErr, string_bytes};
ghost use Rattle.fonnalich_c.specs.Shard as spec;

use crate::given::{list, url};
use crate::refusal::Refusal;
use cookie_client::{shard_of, shard_of_url};
use publicsuffix::List;
use std::alloc::Global;

/// The shard of a host by the list of a text, which is read anew.
pub(crate) fn shard<'h>(alloc: Global, text: &[u8], host: &'h [u8]) -> Result<&'h [u8], Refusal>
    ensures ok { IfOk result (λ shard. spec.IsShardBy text.now host.now shard.now) }
    ensures err { IfErr result (spec.HasNoShard text.now host.now) }
{
    let list = list(alloc, text)?;
    shard_by(&list, host)
}

/// The shard of a host by a list.
pub(crate) fn shard_by<'h>(list: &List, host: &'h [u8]) -> Result<&'h [u8], Refusal>
    ensures ok { IfOk result (λ shard. spec.IsShardIn list.now host.now shard.now) }
    ensures err { IfErr result (spec.HasNoShardIn host.now) }
{
    let Ok(host) = str::from_utf8(host) else {
        return Err(Refusal::Text);
    };
    match shard_of(list, host) {
        Some(shard) => Ok(shard.as_bytes()),
        None => Err(Refusal::Host),
    }
}

/// The shard of the host of a text's URL by the list of a text, which is read anew.
pub(crate) fn shard_at(alloc: Global, text: &[u8], page: &[u8]) -> Result<String, Refusal>
    ensures ok { IfOk result (λ shard. spec.IsShardAtText text.now page.now (string_bytes shard)) }
    ensures err { IfErr result (spec.HasNoShardAt text.now page.now) }
{
    let list = list(alloc, text)?;
    shard_at_by(alloc, &list, page)
}

/// The shard of the host of a text's URL by a list.
pub(crate) fn shard_at_by(alloc: Global, list: &List, page: &[u8]) -> Result<String, Refusal>
    ensures ok { IfOk result (λ shard. spec.IsShardAtIn list.now page.now (string_bytes shard)) }
    ensures err { IfErr result (spec.HasNoShardAtIn page.now) }
{
    let url = url(alloc, page)?;
    match shard_of_url(list, &url) {
        Some(shard) => Ok(String::from_str(alloc, shard)?),
        None => Err(Refusal::Host),
    }
}
