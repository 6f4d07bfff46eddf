//! What a caller's closures name a cookie of a store.
ghost use Rattle.std.specs.Prelude.{◌≡◌};
ghost use Rattle.cookie_store.specs.Rows.{Row};
ghost use Rattle.cookie_store.specs.StoredCookie.{stored_of};

use crate::stored_cookie::Cookie;

/// A cookie as a caller's closures take and answer it. `Cookie<'static>` is one.
///
/// The bound of a closure that names `Cookie<'static>` itself can be stated, but no call by it can be
/// proved yet; by a type parameter with this bound it can.
pub trait StoreCookie: Sized {
    /// What contracts see of it.
    ghost shows: { Self → Row };

    /// The store's cookie as one.
    fn of_store<'s>(cookie: &'s Cookie<'static>) -> &'s Self
        ensures { shows result.now ≡ stored_of cookie.now };

    /// A cookie of the caller's own as one.
    fn from_store(cookie: Cookie<'static>) -> Self
        ensures { shows result ≡ stored_of cookie.entry };

    /// The cookie for a store.
    fn into_store(self) -> Cookie<'static>
        ensures { stored_of result ≡ shows self };
}

impl StoreCookie for Cookie<'static> {
    ghost shows = { stored_of };

    fn of_store<'s>(cookie: &'s Cookie<'static>) -> &'s Cookie<'static> {
        cookie
    }

    fn from_store(cookie: Cookie<'static>) -> Cookie<'static> {
        cookie
    }

    fn into_store(self) -> Cookie<'static> {
        self
    }
}
