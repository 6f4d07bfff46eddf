//! Rows as values of JSON.
ghost use Rattle.std.specs.Prelude.{◌≡◌, IfOk, map};
ghost use Rattle.serde_json.specs.Data.{object, string, boolean, array, item, no_items};
ghost use Rattle.serde_json.specs.View.{view};
ghost use Rattle.saved_text.specs.Json.{row_value, rows_value, domain_value, expires_value, one_member};
ghost use Rattle.saved_text.specs.Saved.{shown, domain_shown, expires_shown};

use crate::date_display::SavedDate;
use crate::row::{SavedDomain, SavedExpiration, SavedRow};
use serde_json::{Map, Value};
use std::alloc::{AllocError, Global};

/// A row as a value, an object of four members.
///
/// # Errors
///
/// `AllocError` where memory was refused.
pub fn to_value(alloc: Global, row: &SavedRow) -> Result<Value, AllocError>
    ensures { IfOk result (λ v. view v ≡ row_value (shown row.now)) }
{
    let mut members = Map::new(alloc);
    let domain = domain_to_value(alloc, &row.domain)?;
    members.insert(String::from_str(alloc, "domain")?, domain)?;
    let expires = expires_to_value(alloc, row.expires)?;
    members.insert(String::from_str(alloc, "expires")?, expires)?;
    let path = path_to_value(alloc, row.path.as_str(), row.is_from_path_attr)?;
    members.insert(String::from_str(alloc, "path")?, path)?;
    let raw = Value::try_from_str(alloc, row.raw_cookie.as_str())?;
    members.insert(String::from_str(alloc, "raw_cookie")?, raw)?;
    Ok(Value::Object(members))
}

/// Rows as a value, an array of their objects.
///
/// # Errors
///
/// `AllocError` where memory was refused.
pub fn rows_to_value(alloc: Global, rows: &[SavedRow]) -> Result<Value, AllocError>
    ensures { IfOk result (λ v. view v ≡ rows_value (map shown rows.now)) }
{
    let mut items = Vec::new(alloc);
    let mut rest = rows;
    while let Some((row, tail)) = rest.split_first() {
        items.push(to_value(alloc, row)?)?;
        rest = tail;
    }
    Ok(Value::Array(items))
}

fn domain_to_value(alloc: Global, domain: &SavedDomain) -> Result<Value, AllocError>
    ensures { IfOk result (λ v. view v ≡ domain_value (domain_shown domain.now)) }
{
    match domain {
        SavedDomain::HostOnly(text) => one_to_value(alloc, "HostOnly", text.as_str()),
        SavedDomain::Suffix(text) => one_to_value(alloc, "Suffix", text.as_str()),
        SavedDomain::NotPresent => Value::try_from_str(alloc, "NotPresent"),
        SavedDomain::Empty => Value::try_from_str(alloc, "Empty"),
    }
}

fn expires_to_value(alloc: Global, expires: SavedExpiration) -> Result<Value, AllocError>
    ensures { IfOk result (λ v. view v ≡ expires_value (expires_shown expires)) }
{
    match expires {
        SavedExpiration::AtUtc(at) => {
            let date = SavedDate(at).to_string(alloc)?;
            one_to_value(alloc, "AtUtc", date.as_str())
        }
        SavedExpiration::SessionEnd => Value::try_from_str(alloc, "SessionEnd"),
    }
}

// An object of one member, a text.
fn one_to_value(alloc: Global, name: &str, text: &str) -> Result<Value, AllocError>
    ensures { IfOk result (λ v. view v ≡ object (one_member name.now (string text.now))) }
{
    let mut members = Map::new(alloc);
    let value = Value::try_from_str(alloc, text)?;
    members.insert(String::from_str(alloc, name)?, value)?;
    Ok(Value::Object(members))
}

// An array of a path and whether it is of an attribute.
fn path_to_value(alloc: Global, path: &str, from_attribute: bool) -> Result<Value, AllocError>
    ensures { IfOk result (λ v. view v ≡ array (item (string path.now) (item (boolean from_attribute) no_items))) }
{
    let mut items = Vec::new(alloc);
    items.push(Value::try_from_str(alloc, path)?)?;
    items.push(Value::Bool(from_attribute))?;
    Ok(Value::Array(items))
}
