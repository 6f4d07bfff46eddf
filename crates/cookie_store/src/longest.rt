//! Longer paths first (RFC 6265, section 5.4, step 2).

ghost use Rattle.std.specs.Prelude.{OnOk, map};
ghost use Rattle.cookie_store.specs.Given.{lent_row};
ghost use Rattle.cookie_store.specs.Longest.{AreLongestFirst};

use crate::stored_cookie::Cookie;
use std::alloc::AllocError;

/// Puts the cookies with more bytes in the text of their path first. Those of one length keep their order.
pub(crate) fn put_longest_first(cookies: &mut Vec<&Cookie<'static>>) -> Result<(), AllocError>
    ensures { OnOk result (AreLongestFirst (map lent_row cookies.old.items) (map lent_row cookies.new.items)) }
{
    cookies.sort_by(|one, other| other.path.as_str().len().cmp(&one.path.as_str().len()))
}
