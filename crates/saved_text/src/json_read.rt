//! Rows from values and texts of JSON.
ghost use Rattle.std.specs.Prelude.{◌≡◌, Some, IfOk, IfErr, MatchOption, option_map, IsTrue, ◌↔◌};
ghost use Rattle.serde_json.specs.Data.{Data};
ghost use Rattle.serde_json.specs.Read.{read};
ghost use Rattle.serde_json.specs.View.{view};
ghost use Rattle.saved_text.specs.JsonReading.{HasDeath, IsReadable, ShowsRow, ShowsRowsInJson, IsNoRow, AreNoRows};
ghost use Rattle.saved_text.specs.JsonReading.{IsShapeFault, IsJsonFault};
ghost use Rattle.saved_text.specs.Parts.{domain_view, row_view};
ghost use Rattle.saved_text.specs.Saved.{domain_shown, IsCookieText, IsDeath, IsShown};

use crate::date::date_of;
use crate::error::SavedTextError;
use crate::json_tokens::{row_in_order, rows_in_order};
use crate::json_value::{DomainPart, RowParts, row_of};
use crate::row::{SavedDomain, SavedExpiration, SavedRow};
use cookie_text::Cookie;
use json::Scratch;
use serde_json::Value;
use std::alloc::{AllocError, Global};

/// The row that a text of JSON is, its members in any order.
///
/// # Errors
///
/// `Json` where the text is no JSON, `Shape` where its value is of another shape or the raw cookie or the date in it
/// doesn't read, `OutOfMemory`.
pub fn row_from_json(alloc: Global, text: &str) -> Result<SavedRow, SavedTextError>
    ensures ok { IfOk result (λ r. (d : Data) × (read text.now ≡ Some d) × ShowsRow d r) }
    ensures err { IfErr result (IsJsonFault IsNoRow text.now) }
{
    let mut scratch = Scratch::new(alloc);
    row_from_json_in(alloc, text, &mut scratch)
}

/// As [`row_from_json`], in a scratch of the caller's: one that is kept from text to text is cleared once.
///
/// # Errors
///
/// As [`row_from_json`].
pub fn row_from_json_in(
    alloc: Global,
    text: &str,
    scratch: &mut Scratch,
) -> Result<SavedRow, SavedTextError>
    ensures ok { IfOk result (λ r. (d : Data) × (read text.now ≡ Some d) × ShowsRow d r) }
    ensures err { IfErr result (IsJsonFault IsNoRow text.now) }
{
    if let Some(row) = row_in_order(alloc, text, scratch)? {
        return Ok(row);
    }
    let value = value_of(alloc, text)?;
    from_value(alloc, &value)
}

/// The rows that a text of JSON is.
///
/// # Errors
///
/// `Json` where the text is no JSON, `Shape` where its value is of another shape or a raw cookie or a date in it
/// doesn't read, `OutOfMemory`.
pub fn rows_from_json(alloc: Global, text: &str) -> Result<Vec<SavedRow>, SavedTextError>
    ensures ok { IfOk result (λ rows. (d : Data) × (read text.now ≡ Some d) × ShowsRowsInJson d rows.items) }
    ensures err { IfErr result (IsJsonFault AreNoRows text.now) }
{
    if let Some(rows) = rows_in_order(alloc, text)? {
        return Ok(rows);
    }
    let value = value_of(alloc, text)?;
    rows_from_value(alloc, &value)
}

/// The row that a value is.
///
/// # Errors
///
/// `Shape` where the value is of another shape or the raw cookie or the date in it doesn't read, `OutOfMemory`.
pub fn from_value(alloc: Global, value: &Value) -> Result<SavedRow, SavedTextError>
    ensures ok { IfOk result (ShowsRow (view value.now)) }
    ensures err { IfErr result (IsShapeFault (IsNoRow (view value.now))) }
{
    match row_of(value) {
        Some(parts) => row_from(alloc, parts),
        None => Err(SavedTextError::Shape),
    }
}

/// The rows that a value is.
///
/// # Errors
///
/// `Shape` where the value is of another shape or a raw cookie or a date in it doesn't read, `OutOfMemory`.
pub fn rows_from_value(alloc: Global, value: &Value) -> Result<Vec<SavedRow>, SavedTextError>
    ensures ok { IfOk result (λ rows. ShowsRowsInJson (view value.now) rows.items) }
    ensures err { IfErr result (IsShapeFault (AreNoRows (view value.now))) }
{
    let mut rows = Vec::new(alloc);
    let mut rest = match value.as_array() {
        Some(items) => items.as_slice(),
        None => return Err(SavedTextError::Shape),
    };
    while let Some((item, tail)) = rest.split_first() {
        rows.push(from_value(alloc, item)?)?;
        rest = tail;
    }
    Ok(rows)
}

// The value that a text is.
fn value_of(alloc: Global, text: &str) -> Result<Value, SavedTextError>
    ensures ok { IfOk result (λ v. read text.now ≡ Some (view v)) }
    ensures err { IfErr result (IsJsonFault (λ d. ⊥) text.now) }
{
    match Value::from_str(alloc, text) {
        Ok(value) => Ok(value),
        Err(error) => {
            if error.is_memory() {
                return Err(SavedTextError::OutOfMemory);
            }
            Err(SavedTextError::Json)
        }
    }
}

// The row of these parts.
pub(crate) fn row_from(alloc: Global, parts: RowParts) -> Result<SavedRow, SavedTextError>
    ensures ok { IfOk result (IsShown (row_view parts.entry)) }
    ensures err { IfErr result (IsShapeFault (¬ (IsReadable (row_view parts.entry)))) }
{
    if !is_cookie(parts.raw) {
        return Err(SavedTextError::Shape);
    }
    let expires = match death_of(parts.expires) {
        Some(expires) => expires,
        None => return Err(SavedTextError::Shape),
    };
    Ok(SavedRow {
        raw_cookie: String::from_str(alloc, parts.raw)?,
        path: String::from_str(alloc, parts.path)?,
        is_from_path_attr: parts.from_attribute,
        domain: domain_from(alloc, parts.domain)?,
        expires,
    })
}

// Whether a text reads as a cookie.
pub(crate) fn is_cookie(text: &str) -> bool
    ensures { IsTrue result ↔ IsCookieText text.now }
{
    Cookie::parses(text)
}

// The death at a date, or at the end of the session.
pub(crate) fn death_of(date: Option<&str>) -> Option<SavedExpiration>
    ensures { MatchOption result (¬ (HasDeath (option_map (λ t. t.now) date.entry)))
        (IsDeath (option_map (λ t. t.now) date.entry)) }
{
    match date {
        Some(text) => Some(SavedExpiration::AtUtc(date_of(text)?)),
        None => Some(SavedExpiration::SessionEnd),
    }
}

fn domain_from(alloc: Global, domain: DomainPart) -> Result<SavedDomain, AllocError>
    ensures { IfOk result (λ d. domain_shown d ≡ domain_view domain.entry) }
{
    match domain {
        DomainPart::HostOnly(text) => Ok(SavedDomain::HostOnly(String::from_str(alloc, text)?)),
        DomainPart::Suffix(text) => Ok(SavedDomain::Suffix(String::from_str(alloc, text)?)),
        DomainPart::NotPresent => Ok(SavedDomain::NotPresent),
        DomainPart::Empty => Ok(SavedDomain::Empty),
    }
}
