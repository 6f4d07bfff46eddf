//! The rows that are saved of a store, and the cookies that are loaded of rows.
ghost use Rattle.std.specs.Prelude.{◌≡◌, List, IfOk, IfErr, map, option_map};
ghost use Rattle.std.specs.List.{AllByRecursion};
ghost use Rattle.cookie_text.specs.ReadingBack.{Pairwise};
ghost use Rattle.jiff.specs.Words.{civil_nanos};
ghost use Rattle.saved_text.specs.JsonReading.{AreShown};
ghost use Rattle.saved_text.specs.Row.{Shown};
ghost use Rattle.saved_text.specs.Saved.{shown, IsCookieText};
ghost use Rattle.cookie_store.specs.SavedRows.{IsShownAs};
ghost use Rattle.cookie_store.specs.SavedTexts.{IsSaveFault, HasLoaded, of_saved_text};
ghost use Rattle.cookie_store.specs.Steps.{wanted};
ghost use Rattle.cookie_store.specs.StoredCookie.{stored_of};

use crate::loading::put_loaded;
use crate::rows::{IterAny, Rows};
use crate::saved_row::{loaded_of, saved_of};
use crate::saving::is_wanted;
use crate::store::CookieStore;
use crate::store_cookie::StoreCookie;
use crate::stored_cookie::Cookie;
use jiff::civil::DateTime;
use saved_text::{SavedRow, SavedTextError};
use std::alloc::{AllocError, Global};
use store_parts::Error;

/// The rows that are saved of the cookies, as they are shown.
///
/// # Errors
///
/// `Year` at the first whose end is of a year below 0, `OutOfMemory`.
pub(crate) fn saved_list(
    alloc: Global,
    cookies: IterAny<'_>,
    now: Option<DateTime>,
) -> Result<Vec<SavedRow>, Error>
    ensures ok { IfOk result (λ rows. Pairwise IsShownAs (wanted (option_map civil_nanos now) cookies.entry)
        (map shown rows.items)) }
    ensures err { IfErr result (IsSaveFault (wanted (option_map civil_nanos now) cookies.entry)) }
{
    let mut rows = Vec::new(alloc);
    for cookie in cookies {
        if is_wanted(cookie, &now) {
            rows.push(saved_of(alloc, cookie)?)?;
        }
    }
    Ok(rows)
}

/// Copies of those of the cookies that are saved, as a caller's closure takes them.
pub(crate) fn copies<C: StoreCookie + Drop>(
    alloc: Global,
    cookies: IterAny<'_>,
    now: Option<DateTime>,
) -> Result<Vec<C>, AllocError>
    ensures { IfOk result (λ copies. map C.shows copies.items
        ≡ wanted (option_map civil_nanos now) cookies.entry) }
{
    let mut copies = Vec::new(alloc);
    for cookie in cookies {
        if is_wanted(cookie, &now) {
            copies.push(C::from_store(cookie.clone(alloc)?))?;
        }
    }
    Ok(copies)
}

/// The cookies that a caller's closure answered.
pub(crate) fn taken<C: StoreCookie + Drop>(
    alloc: Global,
    cookies: Vec<C>,
) -> Result<Vec<Cookie<'static>>, AllocError>
    ensures { IfOk result (λ taken. map stored_of taken.items ≡ map C.shows cookies.items) }
{
    let mut taken = Vec::new(alloc);
    for cookie in cookies {
        taken.push(cookie.into_store())?;
    }
    Ok(taken)
}

/// A store that loaded the rows, whose texts read: those that are expired at `now` too, or not.
pub(crate) fn store_of_rows(
    alloc: Global,
    rows: Vec<SavedRow>,
    with_expired: bool,
    now: DateTime,
) -> Result<CookieStore, AllocError>
    requires { AllByRecursion (λ r. IsCookieText (shown r).raw) rows.items }
    ensures { IfOk result (λ store. (all : List Shown) → AreShown all rows.items
        → HasLoaded with_expired (civil_nanos now) all store) }
{
    let mut placed = Rows::new(alloc);
    for row in rows {
        let cookie = loaded_of(alloc, row)?;
        put_loaded(alloc, &mut placed, cookie, with_expired, now)?;
    }
    Ok(CookieStore::of_rows(alloc, placed))
}

/// A refusal of a saved text, by its name.
pub(crate) fn refusal(fault: SavedTextError) -> Error
    ensures { result ≡ of_saved_text fault }
{
    match fault {
        SavedTextError::NotText => Error::NotText,
        SavedTextError::Json => Error::Json,
        SavedTextError::Shape => Error::Shape,
        SavedTextError::Ron(place) => Error::Ron(place),
        SavedTextError::OutOfMemory => Error::OutOfMemory,
    }
}
