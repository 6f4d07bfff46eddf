//! The shard of a host.
ghost use Rattle.std.specs.Prelude.{◌≡◌, ◌≢◌, ◌↔◌, [], IsTrue, MatchOption, None};
ghost use Rattle.store_parts.specs.Schemes.{host_of};
ghost use Rattle.cookie_client.specs.Shard as spec;

use publicsuffix::List;
use store_parts::utils::is_host_name;
use url::Url;

/// The shard of a host: the shortest of it and the texts behind its dots that isn't empty and is no public suffix of
/// the list; the whole host where there is none, and for an address. `None` where the host has no byte.
///
/// The host is compared as it stands: a caller puts it into IDNA ASCII form, in lower case. The shard is an end of it.
/// It takes no memory, and reads the host once for each label of the list's longest rule at most.
pub fn shard_of<'h>(list: &List, host: &'h str) -> Option<&'h str>
    ensures { MatchOption result (host.now ≡ [])
        (λ shard. (host.now ≢ []) × spec.IsShardOf list.now host.now shard.now) }
{
    if host.is_empty() {
        return None;
    }
    Some(shard(list, host))
}

/// The shard of a URL's host. `None` where the URL has none.
pub fn shard_of_url<'u>(list: &List, url: &'u Url) -> Option<&'u str>
    ensures { MatchOption result (host_of url.now ≡ None) (λ shard. spec.IsShardAt list.now url.now shard.now) }
{
    match url.host_str() {
        Some(host) => Some(shard(list, host)),
        None => None,
    }
}

// The shard of a host that has a byte.
fn shard<'h>(list: &List, host: &'h str) -> &'h str
    ensures { spec.IsShardOf list.now host.now result.now }
{
    if !is_host_name(host) {
        return host;
    }
    match shortest(list, host) {
        Some(text) => text,
        None => host,
    }
}

// The shortest of the texts behind the host's dots that isn't empty and is no public suffix.
fn shortest<'h>(list: &List, host: &'h str) -> Option<&'h str>
    ensures { spec.IsShortestBehindDot list.now host.now result }
{
    let mut end = host.len();
    while end > 0 {
        if host.as_bytes()[end - 1] == b'.' && is_unlisted(list, &host[end..]) {
            return Some(&host[end..]);
        }
        end -= 1;
    }
    None
}

// Whether the text isn't empty, and no public suffix.
fn is_unlisted(list: &List, text: &str) -> bool
    ensures { IsTrue result ↔ spec.IsUnlisted list.now text.now }
{
    !text.is_empty() && !list.is_listed(text.as_bytes())
}
