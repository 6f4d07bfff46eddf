//! Prefixes that bind a cookie to its attributes.

ghost use Rattle.std.specs.Prelude.{◌≡◌, ◌≢◌, ◌↔◌, ℕ, List, ◌++◌, IfOk, IsOk, IsTrue, MatchOption, string_bytes};
ghost use Rattle.cookie_text.specs.Record.{Seen};
ghost use Rattle.cookie.specs.Prefix as spec;

use cookie_text::Cookie;
use std::alloc::{AllocError, Global};

/// A prefix of names, which promises what the attributes of a cookie of such a name say.
///
/// A prefixed jar puts it before each name that it is given, and takes it away again.
pub trait Prefix: Drop {
    ghost text: { List ℕ };

    ghost conformed: { Seen → Seen };

    ghost Conforms: { Seen → Type 0 };

    /// The prefix.
    fn text() -> &'static str
        ensures { result.now ≡ text };

    /// The cookie with its attributes as the prefix promises them.
    fn conform<'c>(cookie: Cookie<'c>) -> Cookie<'c>
        ensures { result ≡ conformed cookie.entry };

    /// Whether the cookie's attributes are as the prefix promises them. No memory is taken.
    fn conforms(cookie: &Cookie<'_>) -> bool
        ensures { IsTrue result ↔ Conforms cookie.now };

    /// The prefix and the name.
    ///
    /// # Errors
    ///
    /// Want of memory.
    fn prefixed_name(alloc: Global, name: &str) -> Result<String, AllocError>
        ensures { IfOk result (λ prefixed. string_bytes prefixed ≡ text ++ name.now) }
    {
        let mut prefixed = String::from_str(alloc, Self::text())?;
        prefixed.push_str(name)?;
        Ok(prefixed)
    }

    /// The cookie with the prefix before its name.
    ///
    /// # Errors
    ///
    /// Want of memory.
    fn prefix<'c>(alloc: Global, cookie: Cookie<'c>) -> Result<Cookie<'c>, AllocError>
        ensures { IfOk result (λ prefixed. prefixed ≡ spec.prefixed text cookie.entry) }
    {
        let mut cookie = cookie;
        let name = Self::prefixed_name(alloc, cookie.name())?;
        cookie.set_name_owned(name);
        Ok(cookie)
    }

    /// The cookie without the prefix before its name. One whose name lacks it stays as it is, and
    /// no memory is taken then.
    ///
    /// # Errors
    ///
    /// Want of memory, and only where the name has the prefix.
    fn clip<'c>(alloc: Global, cookie: Cookie<'c>) -> Result<Cookie<'c>, AllocError>
        ensures clipped { IfOk result (λ clipped. spec.IsClipped text cookie.entry clipped) }
        ensures succeeds { ((rest : List ℕ) → cookie.entry.cookie.name ≢ text ++ rest)
            → IsOk result }
    {
        let mut cookie = cookie;
        let Some(name) = without(cookie.name(), Self::text()) else {
            return Ok(cookie);
        };
        let name = String::from_str(alloc, name)?;
        cookie.set_name_owned(name);
        Ok(cookie)
    }

    /// The cookie with the prefix before its name, and with its attributes as the prefix promises
    /// them.
    ///
    /// # Errors
    ///
    /// Want of memory.
    fn apply<'c>(alloc: Global, cookie: Cookie<'c>) -> Result<Cookie<'c>, AllocError>
        ensures applied { IfOk result
            (λ applied. applied ≡ conformed (spec.prefixed text cookie.entry)) }
        ensures conforms { IfOk result Conforms }
    {
        Ok(Self::conform(Self::prefix(alloc, cookie)?))
    }

    ghost conforming: { (s : Seen) → Conforms (conformed s) };

    ghost keeps_pair: { (s : Seen) → spec.KeepsPair s (conformed s) };

    ghost clips: { (s clipped : Seen) → spec.IsClipped text (spec.prefixed text s) clipped
        → clipped.cookie.name ≡ s.cookie.name };
}

// The name without the prefix, where it has it.
fn without<'t>(name: &'t str, prefix: &str) -> Option<&'t str>
    ensures { MatchOption result ((rest : List ℕ) → name.now ≢ prefix.now ++ rest)
        (λ rest. name.now ≡ prefix.now ++ rest.now) }
{
    name.strip_prefix(prefix)
}

/// The prefix `__Host-`: the cookie is `Secure`, has the path `/` and no domain.
#[derive(Clone, Copy, Debug)]
pub struct Host;

impl Host {
    /// The prefix.
    pub const PREFIX: &'static str = "__Host-";
}

impl Prefix for Host {
    ghost use Rattle.std.proofs.Common.{refl, ap};

    ghost text = { spec.host_text };

    ghost conformed = { spec.host };

    ghost Conforms = { spec.IsHost };

    ghost conforming = { λ s. record { secure = refl; path = refl; domain = refl } };

    ghost keeps_pair = { λ s. (refl, refl) };

    ghost clips = { λ s clipped is. ap (λ c. c.cookie.name) (is.has s.cookie.name refl) };

    fn text() -> &'static str {
        Host::PREFIX
    }

    fn conform<'c>(cookie: Cookie<'c>) -> Cookie<'c> {
        let mut cookie = cookie;
        cookie.set_secure(Some(true));
        cookie.set_path("/");
        cookie.unset_domain();
        cookie
    }

    fn conforms(cookie: &Cookie<'_>) -> bool {
        cookie.secure() == Some(true) && cookie.path() == Some("/") && cookie.domain().is_none()
    }
}

/// The prefix `__Secure-`: the cookie is `Secure`.
#[derive(Clone, Copy, Debug)]
pub struct Secure;

impl Secure {
    /// The prefix.
    pub const PREFIX: &'static str = "__Secure-";
}

impl Prefix for Secure {
    ghost use Rattle.std.proofs.Common.{refl, ap};

    ghost text = { spec.secure_text };

    ghost conformed = { spec.secure };

    ghost Conforms = { spec.IsSecure };

    ghost conforming = { λ s. refl };

    ghost keeps_pair = { λ s. (refl, refl) };

    ghost clips = { λ s clipped is. ap (λ c. c.cookie.name) (is.has s.cookie.name refl) };

    fn text() -> &'static str {
        Secure::PREFIX
    }

    fn conform<'c>(cookie: Cookie<'c>) -> Cookie<'c> {
        let mut cookie = cookie;
        cookie.set_secure(Some(true));
        cookie
    }

    fn conforms(cookie: &Cookie<'_>) -> bool {
        cookie.secure() == Some(true)
    }
}
