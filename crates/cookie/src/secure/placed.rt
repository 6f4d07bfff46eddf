//! What is read under a ring of keys, with the place of the key and without it.

ghost use Rattle.std.specs.Prelude.{◌≡◌};
ghost use Rattle.cookie.specs.KeyRing as spec;

use cookie_text::Cookie;

/// The cookie alone.
pub fn without_place(read: Option<(Cookie<'static>, usize)>) -> Option<Cookie<'static>>
    ensures { result ≡ spec.without_place read.entry }
{
    match read {
        Some((cookie, _)) => Some(cookie),
        None => None,
    }
}
