//! The public suffix of a host.
ghost use Rattle.std.specs.Prelude.{◌≡◌, IfOk, IfErr};
ghost use Rattle.fonnalich_c.specs.Suffix as spec;

use crate::given::list;
use crate::refusal::Refusal;
use publicsuffix::List;
use std::alloc::Global;

/// The public suffix of a host by the list of a text, which is read anew.
pub(crate) fn suffix<'h>(alloc: Global, text: &[u8], host: &'h [u8]) -> Result<&'h [u8], Refusal>
    ensures ok { IfOk result (λ suffix. spec.IsSuffixOf text.now host.now suffix.now) }
    ensures err { IfErr result (spec.HasNoSuffix text.now host.now) }
{
    let list = list(alloc, text)?;
    suffix_by(&list, host)
}

/// The public suffix of a host by a list.
pub(crate) fn suffix_by<'h>(list: &List, host: &'h [u8]) -> Result<&'h [u8], Refusal>
    ensures ok { IfOk result (λ suffix. spec.IsSuffixBy list.now host.now suffix.now) }
    ensures err { IfErr result (spec.HasNoSuffixBy list.now host.now) }
{
    match list.suffix(host) {
        Some(suffix) => Ok(suffix.as_bytes()),
        None => Err(Refusal::Host),
    }
}
