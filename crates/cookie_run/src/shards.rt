//! What holds of shards.
ghost use Rattle.cookie_run.specs.ShardCut.{ShardsAreTheClient};
ghost use Rattle.cookie_run.specs.ShardExchanges.{ShardsServeSessions};
ghost use Rattle.cookie_run.specs.SharedHosts as law;

use cookie_text::laws::one_outcome;

/// A host has one shard. Hosts that can share a cookie have the same, where none of them ends with an address behind a
/// dot, as no host of a web URL does. Hosts of one shard can share a cookie, so no shard can be cut finer.
pub fn related_hosts_have_one_shard()
    ensures one { law.HostsHaveOneShard }
    ensures related { law.RelatedHostsHaveOneShard }
    ensures finest { law.OneShardIsRelated }
{}

/// No host of a URL of `http`, `https`, `ws`, `wss`, `ftp` or `file` ends with an address behind a dot.
pub fn special_hosts_end_in_no_address()
    ensures { law.SpecialHostsEndInNoAddress }
{}

/// A client is the clients of the shards: after any steps of hosts that end with no address behind a dot, the rows of a
/// client that was given those of a shard alone, and the restarts, are the rows of that shard, in their order; and each
/// header for a host of the shard is byte for byte the same. No session's exchange is among the steps of that shard.
pub fn shards_are_the_client()
    ensures { ShardsAreTheClient }
{
    one_outcome();
    cookie_store::laws();
}

/// So it is with sessions too, whose lines are handed in, nonces and all: any play leaves the rows that it leaves where
/// each of its exchanges is made as a look at the header on which its session is opened, and an answer of the lines
/// that the session closes with. Of that each shard's client is given its own.
pub fn shards_serve_sessions()
    ensures { ShardsServeSessions }
{
    one_outcome();
    cookie_store::laws();
}
