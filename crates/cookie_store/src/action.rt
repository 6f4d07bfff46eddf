//! What an insertion did.

use store_parts::{CookieError, Error};

/// What an insertion did to the rows of a store.
#[derive(Clone, Copy, Debug, PartialEq, Eq)]
pub enum StoreAction {
    /// The cookie is a new row.
    Inserted,
    /// The cookie is expired, and so is now the row of its domain, path and name.
    ExpiredExisting,
    /// The cookie took the place of the row of its domain, path and name.
    UpdatedExisting,
}

/// The answer of a call on a store that may be refused by an [`Error`].
pub type StoreResult<T> = Result<T, Error>;

/// The answer of a call that puts a cookie into a store.
pub type InsertResult = Result<StoreAction, CookieError>;
