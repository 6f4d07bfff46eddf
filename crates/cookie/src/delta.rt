//! Changes of a jar.

ghost use Rattle.std.specs.Prelude.{◌≡◌, IfOk, option_copied};
ghost use Rattle.cookie.specs.Jar.{cookie_of, standing};

use cookie_text::Cookie;
use std::alloc::{AllocError, Global};

/// A change under a name: a cookie that was added, or one that removes the original of its name.
#[derive(Debug, Drop)]
pub enum DeltaCookie {
    Added(Cookie<'static>),
    Removed(Cookie<'static>),
}

impl DeltaCookie {
    /// The cookie, a removal's too.
    pub fn cookie(&self) -> &Cookie<'static>
        ensures { result.now ≡ cookie_of self.now }
    {
        match self {
            DeltaCookie::Added(cookie) => cookie,
            DeltaCookie::Removed(cookie) => cookie,
        }
    }

    /// The cookie that was added, where it is no removal.
    pub fn added(&self) -> Option<&Cookie<'static>>
        ensures { option_copied result ≡ standing self.now }
    {
        match self {
            DeltaCookie::Added(cookie) => Some(cookie),
            DeltaCookie::Removed(_) => None,
        }
    }

    /// A copy.
    ///
    /// # Errors
    ///
    /// Want of memory.
    pub fn clone(&self, alloc: Global) -> Result<DeltaCookie, AllocError>
        ensures { IfOk result (λ change. change ≡ self.now) }
    {
        match self {
            DeltaCookie::Added(cookie) => Ok(DeltaCookie::Added(cookie.clone(alloc)?)),
            DeltaCookie::Removed(cookie) => Ok(DeltaCookie::Removed(cookie.clone(alloc)?)),
        }
    }
}
