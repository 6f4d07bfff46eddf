//! A ring of keys, which stand one behind another, with the ends of the earlier ones.
ghost use Rattle.std.specs.Prelude.{◌≡◌, ◌≤◌, ◌⊎◌, ◌*◌, ◌++◌, ◌∷◌, [], length, take, IfOk, IfErr, OnOk};
ghost use Rattle.fonnalich_c.specs.Faults.{IsTold};
ghost use Rattle.fonnalich_c.specs.Ring as spec;

use crate::given::moment;
use crate::refusal::Refusal;
use cookie::{EarlierKey, Key, KeyRing};
use jiff::civil::DateTime;
use std::alloc::{AllocError, Global};

/// How many bytes a key has.
const KEY_LEN: usize = 64;

/// How many earlier keys a ring may have.
const MOST_EARLIER: usize = 16;

/// The end of a key that has none.
const NO_END: i64 = i64::MAX;

/// The ring of the current key and, behind it, the earlier ones, each of which counts until its end.
pub(crate) fn ring_of(alloc: Global, keys: &[u8], ends: &[i64]) -> Result<KeyRing, Refusal>
    ensures ok { IfOk result (spec.IsRing keys.now ends.now) }
    ensures err { IfErr result (IsTold (spec.IsKeyFault keys.now ends.now)) }
{
    if ends.len() > MOST_EARLIER {
        return Err(Refusal::ManyKeys);
    }
    if keys.len() != KEY_LEN * (ends.len() + 1) {
        return Err(Refusal::Keys);
    }
    let (_, rest) = keys.split_at(KEY_LEN);
    let earlier = earlier_keys(alloc, rest, ends)?;
    Ok(KeyRing::with_earlier(alloc, Key::from(keys), earlier).unwrap())
}

// The earlier keys, with their ends.
fn earlier_keys(alloc: Global, keys: &[u8], ends: &[i64]) -> Result<Vec<EarlierKey>, Refusal>
    requires { length keys.now ≡ 64 * length ends.now }
    ensures ok { IfOk result (λ earlier. spec.AreEarlier keys.now ends.now earlier.items) }
    ensures err { IfErr result (λ refused. (refused ≡ Refusal.Memory)
        ⊎ ((refused ≡ Refusal.KeyEnd) × spec.HasNoEnd ends.now)) }
{
    let mut earlier = Vec::new(alloc);
    let mut left = keys;
    for end in ends {
        let (_, behind) = left.split_at(KEY_LEN);
        push(&mut earlier, earlier_key(left, end)?)?;
        left = behind;
    }
    Ok(earlier)
}

fn push(earlier: &mut Vec<EarlierKey>, key: EarlierKey) -> Result<(), AllocError>
    ensures { OnOk result (earlier.new.items ≡ earlier.old.items ++ key ∷ []) }
{
    Ok(earlier.push(key)?)
}

// The first of these keys, with its end.
fn earlier_key(keys: &[u8], end: &i64) -> Result<EarlierKey, Refusal>
    requires { 64 ≤ length keys.now }
    ensures ok { IfOk result (spec.IsEarlier (take 64 keys.now) end.now) }
    ensures err { IfErr result (λ refused. (refused ≡ Refusal.KeyEnd) × spec.IsNoEnd end.now) }
{
    let end = *end;
    let until = until(end)?;
    Ok(EarlierKey {
        key: Key::from(keys),
        until,
    })
}

// The moment from which a key with this end counts no more.
fn until(end: i64) -> Result<Option<DateTime>, Refusal>
    ensures ok { IfOk result (spec.IsUntil end) }
    ensures err { IfErr result (λ refused. (refused ≡ Refusal.KeyEnd) × spec.IsNoEnd end) }
{
    if end == NO_END {
        return Ok(None);
    }
    match moment(end) {
        Ok(at) => Ok(Some(at)),
        Err(_) => Err(Refusal::KeyEnd),
    }
}
