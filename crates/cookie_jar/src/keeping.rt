//! Which rows a jar keeps.
ghost use Rattle.std.specs.Prelude.{◌≡◌, ◌↔◌, ◌||◌, IfOk, IsTrue};
ghost use Rattle.cookie_store.specs.Given.{ArePicked};
ghost use Rattle.cookie_store.specs.StoredCookie.{stored_of};
ghost use Rattle.cookie_jar.specs.Keeping as spec;

use crate::form::Form;
use crate::rows::{kept_rows, placed};
use cookie_client::client::is_held;
use cookie_client::pair::is_read_pair;
use cookie_store::{Cookie, CookieStore};
use cookies_txt::{RowFault, row_fault};
use jiff::civil::DateTime;
use std::alloc::{AllocError, Global};

/// Whether a jar keeps the cookie: no control character stands in its name, its value, its domain or its path, name and
/// value are as the printed text of the cookie gives them again, and it obeys the prefix `__Host-`.
pub(crate) fn is_kept(cookie: &Cookie<'static>) -> bool
    ensures { IsTrue result ↔ spec.IsKept (stored_of cookie.now) }
{
    let (name, value) = cookie.raw().name_value();
    !have_control(cookie) && is_read_pair(name, value) && is_held(cookie)
}

/// Whether an import takes the cookie into a jar that is saved in this form: the jar keeps it, and the form can hold
/// it.
pub(crate) fn is_taken(form: Form, cookie: &Cookie<'static>) -> bool
    ensures { IsTrue result ↔ spec.IsTaken form (stored_of cookie.now) }
{
    match fault_in(form, cookie) {
        Some(_) => false,
        None => is_kept(cookie),
    }
}

/// Why a text of this form can't hold the cookie, where that is so.
pub(crate) fn fault_in(form: Form, cookie: &Cookie<'static>) -> Option<RowFault>
    ensures { result ≡ spec.fault_in form (stored_of cookie.now) }
{
    match form {
        Form::Ron | Form::Json => None,
        Form::Txt => row_fault(cookie),
    }
}

/// Whether a control character stands in one of the cookie's texts: its name, its value, its domain or its path.
pub(crate) fn have_control(cookie: &Cookie<'static>) -> bool
    ensures { result ≡ spec.have_control (stored_of cookie.now) }
{
    let (name, value) = cookie.raw().name_value();
    let domain = cookie.domain.as_cow().unwrap_or("");
    (has_control(name.as_bytes()) || has_control(value.as_bytes()))
        || (has_control(domain.as_bytes()) || has_control(cookie.path.as_str().as_bytes()))
}

/// Whether a control character stands in the text: a byte below 32 but the tab, or 127.
pub(crate) fn has_control(text: &[u8]) -> bool
    ensures { result ≡ spec.has_control text.now }
{
    text.iter().any(|b| (*b < 32 && *b != b'\t') || *b == 127)
}

/// The store without the rows that a jar doesn't keep, and then without a list of public suffixes. Memory is taken only
/// where there are some.
///
/// # Errors
///
/// `AllocError`, for want of memory.
pub(crate) fn only_kept(
    alloc: Global,
    store: CookieStore,
    now: DateTime,
) -> Result<CookieStore, AllocError>
    ensures { IfOk result (λ left. ArePicked spec.IsKept store.rows left.rows) }
{
    cookie_store::laws();
    if are_kept(&store) {
        return Ok(store);
    }
    // The rows of a store stand in groups.
    let _rows = store.iter_any();
    let rows = kept_rows(alloc, &store)?;
    placed(alloc, rows, true, now)
}

// Whether a jar keeps each of its cookies.
fn are_kept(store: &CookieStore) -> bool
    ensures { IsTrue result ↔ spec.AreKept store.now.rows }
{
    for cookie in store.iter_any() {
        if !is_kept(cookie) {
            return false;
        }
    }
    true
}
