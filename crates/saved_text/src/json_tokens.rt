//! Rows from a text of JSON token by token, where the members of each stand in the order in which they are written.
//!
//! Most saved texts are such. Of any other one the value is made first, by `json_read`: of it a reader sees what order
//! its members have, and why it shows no rows.
ghost use Rattle.std.specs.Prelude.{◌≡◌, ◌∷◌, ◌++◌, [], List, option_map, Some, IfOk, IfErr, IfSome, IsTrue, OnSome};
ghost use Rattle.json.specs.Lex.{tokens};
ghost use Rattle.json.specs.Token.{begin_object, end_object, begin_array, end_array, key, string, boolean};
ghost use Rattle.serde_json.specs.Read.{read};
ghost use Rattle.saved_text.specs.Json.{row_value, rows_value};
ghost use Rattle.saved_text.specs.JsonReading.{AreShown};
ghost use Rattle.saved_text.specs.JsonTokens.{tokens_of_domain, tokens_of_expires, tokens_of_row};
ghost use Rattle.saved_text.specs.Parts.{domain_view, row_view};
ghost use Rattle.saved_text.specs.Row.{Shown};
ghost use Rattle.saved_text.specs.Saved.{IsShown};
ghost use Rattle.saved_text.specs.declared.error.SavedTextError.TheVariants as fault;

use crate::error::SavedTextError;
use crate::json_read::row_from;
use crate::json_value::{DomainPart, RowParts};
use crate::row::SavedRow;
use json::{Reader, Scratch, Token};
use std::alloc::Global;

/// The row of a text, unless its members stand in another order or it isn't a row that reads.
///
/// # Errors
///
/// `OutOfMemory`.
pub(crate) fn row_in_order(
    alloc: Global,
    text: &str,
    scratch: &mut Scratch,
) -> Result<Option<SavedRow>, SavedTextError>
    ensures ok { IfOk result (λ row. IfSome row (λ row. (t : Shown)
        × (read text.now ≡ Some (row_value t)) × IsShown t row)) }
    ensures err { IfErr result (λ e. e ≡ fault.OutOfMemory) }
{
    let mut reader = Reader::new(text, scratch)?;
    let Some(parts) = parts_of(&mut reader) else {
        return Ok(None);
    };
    if !is_at_end(&mut reader) {
        return Ok(None);
    }
    readable_row(alloc, parts)
}

/// The rows of a list, unless the members of one stand in another order or it isn't a list of rows that read.
///
/// # Errors
///
/// `OutOfMemory`.
#[tactic(auto, using(crate::proofs::TokenLemmas::ordered_start, crate::proofs::TokenLemmas::row_counts))]
pub(crate) fn rows_in_order(
    alloc: Global,
    text: &str,
) -> Result<Option<Vec<SavedRow>>, SavedTextError>
    ensures ok { IfOk result (λ rows. IfSome rows (λ rows. (all : List Shown)
        × (read text.now ≡ Some (rows_value all)) × AreShown all rows.items)) }
    ensures err { IfErr result (λ e. e ≡ fault.OutOfMemory) }
{
    let mut scratch = Scratch::new(alloc);
    let mut reader = Reader::new(text, &mut scratch)?;
    let mut rows = Vec::new(alloc);
    if open_array(&mut reader).is_none() {
        return Ok(None);
    }
    while !reader.take_end_array() {
        let Some(parts) = parts_of(&mut reader) else {
            return Ok(None);
        };
        let Some(row) = readable_row(alloc, parts)? else {
            return Ok(None);
        };
        rows.push(row)?;
    }
    if !is_at_end(&mut reader) {
        return Ok(None);
    }
    Ok(Some(rows))
}

// The row of these parts, where it reads.
fn readable_row(alloc: Global, parts: RowParts) -> Result<Option<SavedRow>, SavedTextError>
    ensures ok { IfOk result (λ row. IfSome row (IsShown (row_view parts.entry))) }
    ensures err { IfErr result (λ e. e ≡ fault.OutOfMemory) }
{
    match row_from(alloc, parts) {
        Ok(row) => Ok(Some(row)),
        Err(SavedTextError::OutOfMemory) => Err(SavedTextError::OutOfMemory),
        Err(_) => Ok(None),
    }
}

// The parts of the next row.
fn parts_of<'a>(reader: &mut Reader<'a>) -> Option<RowParts<'a>>
    ensures { IfSome result (λ r. reader.old ≡ tokens_of_row (row_view r) ++ reader.new) }
{
    open_object(reader)?;
    take_key(reader, "raw_cookie")?;
    let raw = take_string(reader)?;
    take_key(reader, "path")?;
    let (path, from_attribute) = path_of(reader)?;
    take_key(reader, "domain")?;
    let domain = domain_of(reader)?;
    take_key(reader, "expires")?;
    let expires = expires_of(reader)?;
    close_object(reader)?;
    Some(RowParts {
        raw,
        path,
        from_attribute,
        domain,
        expires,
    })
}

// The next value as a path, and whether it is of an attribute.
fn path_of<'a>(reader: &mut Reader<'a>) -> Option<(&'a str, bool)>
    ensures { IfSome result (λ p. reader.old
        ≡ begin_array ∷ string p.0.now ∷ boolean p.1 ∷ end_array ∷ reader.new) }
{
    open_array(reader)?;
    let path = take_string(reader)?;
    let from_attribute = take_bool(reader)?;
    if !reader.take_end_array() {
        return None;
    }
    Some((path, from_attribute))
}

// The next value as a domain.
fn domain_of<'a>(reader: &mut Reader<'a>) -> Option<DomainPart<'a>>
    ensures { IfSome result (λ d. reader.old ≡ tokens_of_domain (domain_view d) ++ reader.new) }
{
    match reader.next()? {
        Token::String(text) => match text {
            "NotPresent" => Some(DomainPart::NotPresent),
            "Empty" => Some(DomainPart::Empty),
            _ => None,
        },
        Token::BeginObject => named_domain(reader),
        _ => None,
    }
}

// The domain of an object that was opened.
fn named_domain<'a>(reader: &mut Reader<'a>) -> Option<DomainPart<'a>>
    ensures { IfSome result (λ d. begin_object ∷ reader.old ≡ tokens_of_domain (domain_view d) ++ reader.new) }
{
    let Some(Token::Key(name)) = reader.next() else {
        return None;
    };
    let text = take_string(reader)?;
    close_object(reader)?;
    match name {
        "HostOnly" => Some(DomainPart::HostOnly(text)),
        "Suffix" => Some(DomainPart::Suffix(text)),
        _ => None,
    }
}

// The next value as an expiry: a date's text, or the end of the session.
fn expires_of<'a>(reader: &mut Reader<'a>) -> Option<Option<&'a str>>
    ensures { IfSome result (λ e. reader.old ≡ tokens_of_expires (option_map (λ t. t.now) e) ++ reader.new) }
{
    match reader.next()? {
        Token::String(text) => {
            if text == "SessionEnd" {
                Some(None)
            } else {
                None
            }
        }
        Token::BeginObject => {
            take_key(reader, "AtUtc")?;
            let date = take_string(reader)?;
            close_object(reader)?;
            Some(Some(date))
        }
        _ => None,
    }
}

// ---- tokens

fn is_at_end(reader: &mut Reader<'_>) -> bool
    ensures { IsTrue result → reader.old ≡ [] }
{
    reader.next().is_none()
}

fn open_object(reader: &mut Reader<'_>) -> Option<()>
    ensures { OnSome result (reader.old ≡ begin_object ∷ reader.new) }
{
    match reader.next()? {
        Token::BeginObject => Some(()),
        _ => None,
    }
}

fn close_object(reader: &mut Reader<'_>) -> Option<()>
    ensures { OnSome result (reader.old ≡ end_object ∷ reader.new) }
{
    match reader.next()? {
        Token::EndObject => Some(()),
        _ => None,
    }
}

fn open_array(reader: &mut Reader<'_>) -> Option<()>
    ensures { OnSome result (reader.old ≡ begin_array ∷ reader.new) }
{
    match reader.next()? {
        Token::BeginArray => Some(()),
        _ => None,
    }
}

fn take_key(reader: &mut Reader<'_>, name: &str) -> Option<()>
    ensures { OnSome result (reader.old ≡ key name.now ∷ reader.new) }
{
    match reader.next()? {
        Token::Key(found) => { if found == name { Some(()) } else { None } }
        _ => None,
    }
}

fn take_string<'a>(reader: &mut Reader<'a>) -> Option<&'a str>
    ensures { IfSome result (λ s. reader.old ≡ string s.now ∷ reader.new) }
{
    match reader.next()? {
        Token::String(text) => Some(text),
        _ => None,
    }
}

fn take_bool(reader: &mut Reader<'_>) -> Option<bool>
    ensures { IfSome result (λ b. reader.old ≡ boolean b ∷ reader.new) }
{
    match reader.next()? {
        Token::Bool(value) => Some(value),
        _ => None,
    }
}
