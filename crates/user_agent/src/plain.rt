//! Plain URLs, for whoever hands one to another program.
ghost use Rattle.std.specs.Prelude.{◌↔◌, IfOk, IsTrue};
ghost use Rattle.plain_url.specs.Plain as spec;

use plain_url::is_plain;
use std::alloc::{AllocError, Global};

/// Whether the text is a plain URL, which each program reads as the same web address: one of `http` or `https`, with no
/// user and no password, that is its URL's own text. The case of scheme and host doesn't count, and `https://shop.test`
/// needs no `/` at its end.
///
/// Ask it of each URL that another program gets beside the cookies of an agent, as curl or a proxy: of
/// `https://shop.test\@evil.test/` the agent reads the host `shop.test`, and curl `evil.test`.
///
/// # Errors
///
/// `AllocError`, for want of memory; a text of more than 4 GB is one too.
pub fn is_plain_url(alloc: Global, text: &str) -> Result<bool, AllocError>
    ensures { IfOk result (λ plain. IsTrue plain ↔ spec.IsPlain text.now) }
{
    is_plain(alloc, text)
}
