//! The rows of a store, lent and copied.
ghost use Rattle.std.specs.Prelude.{◌≡◌, ◌++◌, IfOk, List};
ghost use Rattle.jiff.specs.Words.{civil_nanos};
ghost use Rattle.cookie_store.specs.Given.{ArePicked};
ghost use Rattle.cookie_store.specs.Placing.{loaded_store};
ghost use Rattle.cookie_store.specs.Rows.{Row, live};
ghost use Rattle.cookie_jar.specs.Keeping.{IsKept, IsTaken};
ghost use Rattle.cookie_jar.specs.Rows.{AreCopies, lent_rows};

use crate::form::Form;
use crate::keeping::{is_kept, is_taken};
use cookie_store::{Cookie, CookieStore, Error};
use jiff::civil::DateTime;
use std::alloc::{AllocError, Global};

/// The rows of a store, in their order.
pub(crate) fn rows_of(
    alloc: Global,
    store: &CookieStore,
) -> Result<Vec<&Cookie<'static>>, AllocError>
    ensures { IfOk result (λ rows. lent_rows rows.items ≡ store.now.rows) }
{
    let mut rows = Vec::new(alloc);
    for cookie in store.iter_any() {
        rows.push(cookie)?;
    }
    Ok(rows)
}

/// The rows that aren't expired at `now`, in their order.
pub(crate) fn live_rows(
    alloc: Global,
    store: &CookieStore,
    now: DateTime,
) -> Result<Vec<&Cookie<'static>>, AllocError>
    ensures { IfOk result (λ rows. lent_rows rows.items ≡ live (civil_nanos now) store.now.rows) }
{
    let mut rows = Vec::new(alloc);
    for cookie in store.iter_unexpired(now) {
        rows.push(cookie)?;
    }
    Ok(rows)
}

/// The rows of the store of a jar that is saved in this form, and then those of another that it takes, in their order.
pub(crate) fn rows_with<'a>(
    alloc: Global,
    store: &'a CookieStore,
    other: &'a CookieStore,
    form: Form,
) -> Result<Vec<&'a Cookie<'static>>, AllocError>
    ensures { IfOk result (λ rows. (taken : List Row) × ArePicked (IsTaken form) other.now.rows taken
        × (lent_rows rows.items ≡ store.now.rows ++ taken)) }
{
    let mut rows = rows_of(alloc, store)?;
    for cookie in other.iter_any() {
        if is_taken(form, cookie) {
            rows.push(cookie)?;
        }
    }
    Ok(rows)
}

/// The rows of a store that a jar keeps, in their order.
pub(crate) fn kept_rows(
    alloc: Global,
    store: &CookieStore,
) -> Result<Vec<&Cookie<'static>>, AllocError>
    ensures { IfOk result (λ rows. ArePicked IsKept store.now.rows (lent_rows rows.items)) }
{
    let mut rows = Vec::new(alloc);
    for cookie in store.iter_any() {
        if is_kept(cookie) {
            rows.push(cookie)?;
        }
    }
    Ok(rows)
}

/// The rows of a store that a jar doesn't keep, in their order.
pub(crate) fn refused_rows(
    alloc: Global,
    store: &CookieStore,
) -> Result<Vec<&Cookie<'static>>, AllocError> {
    let mut rows = Vec::new(alloc);
    for cookie in store.iter_any() {
        if !is_kept(cookie) {
            rows.push(cookie)?;
        }
    }
    Ok(rows)
}

/// A store of these rows, with those that are expired at `now` or without. Of two with one key the later replaces the
/// earlier in its place.
pub(crate) fn placed(
    alloc: Global,
    rows: Vec<&Cookie<'static>>,
    with_expired: bool,
    now: DateTime,
) -> Result<CookieStore, AllocError>
    ensures { IfOk result (λ store. store
        ≡ loaded_store with_expired (civil_nanos now) (lent_rows rows.entry.items)) }
{
    let copies = copies_of(alloc, rows)?;
    match CookieStore::from_cookies(alloc, copies.into_iter(), with_expired, now) {
        Ok(store) => Ok(store),
        // Each of the copies is a cookie, so only memory was refused.
        Err(_) => Err(AllocError),
    }
}

// Copies of the cookies.
fn copies_of(
    alloc: Global,
    rows: Vec<&Cookie<'static>>,
) -> Result<Vec<Result<Cookie<'static>, Error>>, AllocError>
    ensures { IfOk result (λ copies. AreCopies (lent_rows rows.entry.items) copies.items) }
{
    let mut copies = Vec::new(alloc);
    for cookie in rows {
        copies.push(Ok(cookie.clone(alloc)?))?;
    }
    Ok(copies)
}
