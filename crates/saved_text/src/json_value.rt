//! The parts of a row in a value of JSON.
ghost use Rattle.std.specs.Prelude.{◌≡◌, ◌≢◌, codes, List, ℕ, Bool, Option, Some, None, MatchOption, option_map};
ghost use Rattle.serde_json.specs.Data.{Data, string, object, boolean, array, item, no_items};
ghost use Rattle.serde_json.specs.View.{view, members_view};
ghost use Rattle.saved_text.specs.Json.{four_members, one_member, domain_value, expires_value, row_value};
ghost use Rattle.saved_text.specs.Row.{Shown, Domain as domain};
ghost use Rattle.saved_text.specs.Parts.{domain_view, row_view};

use serde_json::{Map, Value};

/// A domain's text, where it has one.
#[derive(Clone, Copy, Debug)]
pub enum DomainPart<'a> {
    HostOnly(&'a str),
    Suffix(&'a str),
    NotPresent,
    Empty,
}

/// The parts of a row.
#[derive(Clone, Copy, Debug)]
pub struct RowParts<'a> {
    pub raw: &'a str,
    pub path: &'a str,
    pub from_attribute: bool,
    pub domain: DomainPart<'a>,
    pub expires: Option<&'a str>,
}

// The one member of a map, with its name.
fn one_of<'a>(map: &'a Map<String, Value>) -> Option<(&'a str, &'a Value)>
    ensures { MatchOption result ((name : _) (d : Data) → members_view map.now.entries ≢ one_member name d)
        (λ p. members_view map.now.entries ≡ one_member p.0.now (view p.1.now)) }
{
    let mut members = map.iter();
    let (name, value) = members.next()?;
    if members.next().is_some() {
        return None;
    }
    Some((name.as_str(), value))
}

/// The four members of a row's object: domain, expires, path and raw cookie.
fn four_of<'a>(map: &'a Map<String, Value>) -> Option<(&'a Value, &'a Value, &'a Value, &'a Value)>
    ensures { MatchOption result ((a b c d : Data) → members_view map.now.entries ≢ four_members a b c d)
        (λ p. members_view map.now.entries ≡ four_members (view p.0.now) (view p.1.now) (view p.2.now) (view p.3.now)) }
{
    let mut members = map.iter();
    let (first, domain) = members.next()?;
    let (second, expires) = members.next()?;
    let (third, path) = members.next()?;
    let (fourth, raw) = members.next()?;
    if members.next().is_some() {
        return None;
    }
    if first.as_str() != "domain" || second.as_str() != "expires" {
        return None;
    }
    if third.as_str() != "path" || fourth.as_str() != "raw_cookie" {
        return None;
    }
    Some((domain, expires, path, raw))
}

/// The domain that a value is.
fn domain_of<'a>(value: &'a Value) -> Option<DomainPart<'a>>
    ensures { MatchOption result ((d : domain) → view value.now ≢ domain_value d)
        (λ d. view value.now ≡ domain_value (domain_view d)) }
{
    match value {
        Value::String(text) => match text.as_str() {
            "NotPresent" => Some(DomainPart::NotPresent),
            "Empty" => Some(DomainPart::Empty),
            _ => None,
        },
        Value::Object(map) => {
            let (name, text) = one_of(map)?;
            let text = text.as_str()?;
            match name {
                "HostOnly" => Some(DomainPart::HostOnly(text)),
                "Suffix" => Some(DomainPart::Suffix(text)),
                _ => None,
            }
        }
        _ => None,
    }
}

/// The expiry that a value is: a date's text, or the end of the session.
fn expires_of<'a>(value: &'a Value) -> Option<Option<&'a str>>
    ensures { MatchOption result ((e : Option (List ℕ)) → view value.now ≢ expires_value e)
        (λ e. view value.now ≡ expires_value (option_map (λ t. t.now) e)) }
{
    match value {
        Value::String(text) => {
            if text.as_str() == "SessionEnd" {
                Some(None)
            } else {
                None
            }
        }
        Value::Object(map) => {
            let (name, text) = one_of(map)?;
            let text = text.as_str()?;
            if name == "AtUtc" {
                Some(Some(text))
            } else {
                None
            }
        }
        _ => None,
    }
}

/// The path that a value is, and whether it is of an attribute.
fn path_of<'a>(value: &'a Value) -> Option<(&'a str, bool)>
    ensures { MatchOption result ((p : List ℕ) (b : Bool)
        → view value.now ≢ array (item (string p) (item (boolean b) no_items)))
        (λ p. view value.now ≡ array (item (string p.0.now) (item (boolean p.1) no_items))) }
{
    let mut items = value.as_array()?.iter();
    let path = items.next()?;
    let from_attribute = items.next()?;
    if items.next().is_some() {
        return None;
    }
    Some((path.as_str()?, from_attribute.as_bool()?))
}

/// The row that a value is.
pub fn row_of<'a>(value: &'a Value) -> Option<RowParts<'a>>
    ensures { MatchOption result ((r : Shown) → view value.now ≢ row_value r)
        (λ r. view value.now ≡ row_value (row_view r)) }
{
    let (domain, expires, path, raw) = four_of(value.as_object()?)?;
    let (path, from_attribute) = path_of(path)?;
    Some(RowParts {
        raw: raw.as_str()?,
        path,
        from_attribute,
        domain: domain_of(domain)?,
        expires: expires_of(expires)?,
    })
}
