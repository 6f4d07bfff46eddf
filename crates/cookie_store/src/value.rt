//! Cookies and stores as values of JSON.
ghost use Rattle.std.specs.Prelude.{◌≡◌, Some, IfOk, IfErr, option_map, false};
ghost use Rattle.jiff.specs.Words.{civil_nanos};
ghost use Rattle.serde_json.specs.View.{view};
ghost use Rattle.saved_text.specs.Json.{row_value, rows_value};
ghost use Rattle.saved_text.specs.JsonReading.{IsNoRow, AreNoRows};
ghost use Rattle.saved_text.specs.Row.{Shown};
ghost use Rattle.cookie_store.specs.Placing.{saved};
ghost use Rattle.cookie_store.specs.SavedRows.{IsShownAs, IsLoadedFrom};
ghost use Rattle.cookie_store.specs.SavedTexts.{Saves, Loads, IsValueOf, IsRowFault, IsSaveFault, IsValueRefusal};
ghost use Rattle.cookie_store.specs.StoredCookie.{stored_of};

use crate::saved_row::{loaded_of, saved_of};
use crate::saved_rows::{refusal, saved_list, store_of_rows};
use crate::store::CookieStore;
use crate::stored_cookie::Cookie;
use jiff::civil::DateTime;
use serde_json::Value;
use std::alloc::Global;
use store_parts::Result;

impl<'a> Cookie<'a> {
    /// The cookie as a value: an object of its raw cookie's text, its path, its domain and its end.
    ///
    /// # Errors
    ///
    /// `Year` where the cookie ends in a year below 0, `OutOfMemory`.
    pub fn to_value(&self, alloc: Global) -> Result<Value>
        ensures ok { IfOk result (λ value. (t : Shown) × IsShownAs (stored_of self.now) t
            × (view value ≡ row_value t)) }
        ensures err { IfErr result (IsRowFault (stored_of self.now).death) }
    {
        let row = saved_of(alloc, self)?;
        let value = saved_text::to_value(alloc, &row)?;
        Ok(value)
    }

    /// The cookie that a value is, owning its texts.
    ///
    /// # Errors
    ///
    /// `Shape` where the value is of another shape, or the raw cookie or the date in it does not read;
    /// `OutOfMemory`.
    pub fn from_value(alloc: Global, value: &Value) -> Result<Cookie<'static>>
        ensures ok { IfOk result (λ cookie. (t : Shown) × (view value.now ≡ row_value t)
            × IsLoadedFrom t (stored_of cookie)) }
        ensures err { IfErr result (IsValueRefusal (IsNoRow (view value.now))) }
    {
        match saved_text::from_value(alloc, value) {
            Ok(row) => Ok(loaded_of(alloc, row)?),
            Err(fault) => Err(refusal(fault)),
        }
    }
}

impl CookieStore {
    /// The cookies that have an end and are not expired at `now` as a value: an array of theirs, in
    /// the order of the rows.
    ///
    /// # Errors
    ///
    /// `Year` where one of them ends in a year below 0, `OutOfMemory`.
    pub fn to_value(&self, now: DateTime) -> Result<Value>
        ensures ok { IfOk result (λ value. Saves rows_value (saved (civil_nanos now) self.now.rows) (view value)) }
        ensures err { IfErr result (IsSaveFault (saved (civil_nanos now) self.now.rows)) }
    {
        let rows = saved_list(self.alloc(), self.iter_any(), Some(now))?;
        let value = saved_text::rows_to_value(self.alloc(), &rows)?;
        Ok(value)
    }

    /// The store of the cookies that a value is, without those that are expired at `now`. Of two with
    /// one key the later replaces the earlier in its place. The store has no list of public suffixes.
    ///
    /// # Errors
    ///
    /// `Shape` where the value is of another shape, or a raw cookie or a date in it does not read;
    /// `OutOfMemory`.
    pub fn from_value(alloc: Global, value: &Value, now: DateTime) -> Result<CookieStore>
        ensures ok { IfOk result (Loads IsValueOf false (civil_nanos now) (view value.now)) }
        ensures err { IfErr result (IsValueRefusal (AreNoRows (view value.now))) }
    {
        match saved_text::rows_from_value(alloc, value) {
            Ok(rows) => Ok(store_of_rows(alloc, rows, false, now)?),
            Err(fault) => Err(refusal(fault)),
        }
    }
}
