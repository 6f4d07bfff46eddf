//! Whether a text is a plain URL.
ghost use Rattle.fonnalich_c.specs.Plain as spec;

use crate::refusal::Refusal;
use std::alloc::Global;
use user_agent::is_plain_url;

/// 1 where the text is a plain URL and 0 where it isn't, or the number of `Memory`.
pub(crate) fn plain_number(alloc: Global, text: &[u8]) -> isize
    ensures { spec.TellsPlain text.now result }
{
    let Ok(text) = str::from_utf8(text) else {
        return 0;
    };
    match is_plain_url(alloc, text) {
        Ok(true) => 1,
        Ok(false) => 0,
        Err(_) => Refusal::Memory.number(),
    }
}
