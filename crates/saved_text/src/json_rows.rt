//! Rows in JSON, as they are written.
ghost use Rattle.std.specs.Prelude.{◌≡◌, ◌++◌, map, IfOk, OnOk, string_bytes};
ghost use Rattle.saved_text.specs.Json.{row_text, domain_json, expires_text, tagged_text, list_text, row_lines};
ghost use Rattle.saved_text.specs.Json.{more_lines, path_lines, domain_lines, expires_lines};
ghost use Rattle.saved_text.specs.Saved.{shown, domain_shown, expires_shown};

use crate::date_display::SavedDate;
use crate::json_write::push_string;
use crate::ron_rows::push_bool;
use crate::row::{SavedDomain, SavedExpiration, SavedRow};
use std::alloc::{AllocError, Global};

// How long the longest row is whose texts are empty.
const LAYOUT_LEN: usize = 103;

/// A row in compact JSON, without a line feed.
///
/// # Errors
///
/// `AllocError` where memory was refused.
pub fn row_to_json(alloc: Global, row: &SavedRow) -> Result<String, AllocError>
    ensures { IfOk result (λ s. string_bytes s ≡ row_text (shown row.now)) }
{
    let mut out = String::with_capacity(alloc, row_len(row))?;
    push_row(alloc, &mut out, row)?;
    Ok(out)
}

fn push_row(alloc: Global, out: &mut String, row: &SavedRow) -> Result<(), AllocError>
    ensures { OnOk result (string_bytes out.new ≡ string_bytes out.old ++ row_text (shown row.now)) }
{
    out.push_str("{\"raw_cookie\":")?;
    push_string(out, &row.raw_cookie)?;
    out.push_str(",\"path\":[")?;
    push_string(out, &row.path)?;
    out.push_str(",")?;
    push_bool(out, row.is_from_path_attr)?;
    out.push_str("],\"domain\":")?;
    push_domain(out, &row.domain)?;
    out.push_str(",\"expires\":")?;
    push_expires(alloc, out, row.expires)?;
    out.push_str("}")?;
    Ok(())
}

fn push_domain(out: &mut String, domain: &SavedDomain) -> Result<(), AllocError>
    ensures { OnOk result (string_bytes out.new
        ≡ string_bytes out.old ++ domain_json (domain_shown domain.now)) }
{
    match domain {
        SavedDomain::HostOnly(text) => push_tagged(out, "{\"HostOnly\":", text.as_str(), "}")?,
        SavedDomain::Suffix(text) => push_tagged(out, "{\"Suffix\":", text.as_str(), "}")?,
        SavedDomain::NotPresent => out.push_str("\"NotPresent\"")?,
        SavedDomain::Empty => out.push_str("\"Empty\"")?,
    }
    Ok(())
}

fn push_expires(alloc: Global, out: &mut String, expires: SavedExpiration) -> Result<(), AllocError>
    ensures { OnOk result (string_bytes out.new
        ≡ string_bytes out.old ++ expires_text (expires_shown expires)) }
{
    match expires {
        SavedExpiration::AtUtc(at) => {
            let date = SavedDate(at).to_string(alloc)?;
            push_tagged(out, "{\"AtUtc\":", date.as_str(), "}")?;
        }
        SavedExpiration::SessionEnd => out.push_str("\"SessionEnd\"")?,
    }
    Ok(())
}

// About how long a row is in compact JSON, so that its memory is asked for at once. Nothing but speed rests on it: a
// text that turns out longer grows.
fn row_len(row: &SavedRow) -> usize {
    let domain = match &row.domain {
        SavedDomain::HostOnly(text) => text.len(),
        SavedDomain::Suffix(text) => text.len(),
        SavedDomain::NotPresent => 0,
        SavedDomain::Empty => 0,
    };
    LAYOUT_LEN
        .saturating_add(row.raw_cookie.len())
        .saturating_add(row.path.len())
        .saturating_add(domain)
}

// A string behind its tag and before what closes it.
fn push_tagged(out: &mut String, tag: &str, text: &str, close: &str) -> Result<(), AllocError>
    ensures { OnOk result (string_bytes out.new
        ≡ string_bytes out.old ++ tagged_text tag.now text.now close.now) }
{
    out.push_str(tag)?;
    push_string(out, text)?;
    out.push_str(close)?;
    Ok(())
}

/// A list of rows in JSON, indented by two spaces a level and ended by a line feed.
///
/// # Errors
///
/// `AllocError` where memory was refused.
pub fn rows_to_json(alloc: Global, rows: &[SavedRow]) -> Result<String, AllocError>
    ensures { IfOk result (λ s. string_bytes s ≡ list_text (map shown rows.now)) }
{
    let mut out = String::new(alloc);
    match rows.split_first() {
        Some((first, more)) => {
            out.push_str("[\n")?;
            push_row_lines(alloc, &mut out, first)?;
            push_more_lines(alloc, &mut out, more)?;
        }
        None => out.push_str("[]")?,
    }
    out.push_str("\n")?;
    Ok(out)
}

// Each further row behind a comma, and the list's end.
fn push_more_lines(alloc: Global, out: &mut String, rows: &[SavedRow]) -> Result<(), AllocError>
    ensures { OnOk result (string_bytes out.new
        ≡ string_bytes out.old ++ more_lines (map shown rows.now)) }
{
    let mut rest = rows;
    while let Some((row, tail)) = rest.split_first() {
        out.push_str(",\n")?;
        push_row_lines(alloc, out, row)?;
        rest = tail;
    }
    out.push_str("\n]")?;
    Ok(())
}

fn push_row_lines(alloc: Global, out: &mut String, row: &SavedRow) -> Result<(), AllocError>
    ensures { OnOk result (string_bytes out.new
        ≡ string_bytes out.old ++ row_lines (shown row.now)) }
{
    out.push_str("  {\n    \"raw_cookie\": ")?;
    push_string(out, &row.raw_cookie)?;
    out.push_str(",\n    \"path\": ")?;
    push_path_lines(out, row)?;
    out.push_str(",\n    \"domain\": ")?;
    push_domain_lines(out, &row.domain)?;
    out.push_str(",\n    \"expires\": ")?;
    push_expires_lines(alloc, out, row.expires)?;
    out.push_str("\n  }")?;
    Ok(())
}

fn push_path_lines(out: &mut String, row: &SavedRow) -> Result<(), AllocError>
    ensures { OnOk result (string_bytes out.new
        ≡ string_bytes out.old ++ path_lines (shown row.now)) }
{
    out.push_str("[\n      ")?;
    push_string(out, &row.path)?;
    out.push_str(",\n      ")?;
    push_bool(out, row.is_from_path_attr)?;
    out.push_str("\n    ]")?;
    Ok(())
}

fn push_domain_lines(out: &mut String, domain: &SavedDomain) -> Result<(), AllocError>
    ensures { OnOk result (string_bytes out.new
        ≡ string_bytes out.old ++ domain_lines (domain_shown domain.now)) }
{
    match domain {
        SavedDomain::HostOnly(text) => push_tagged(
            out,
            "{\n      \"HostOnly\": ",
            text.as_str(),
            "\n    }",
        )?,
        SavedDomain::Suffix(text) => {
            push_tagged(out, "{\n      \"Suffix\": ", text.as_str(), "\n    }")?
        }
        SavedDomain::NotPresent => out.push_str("\"NotPresent\"")?,
        SavedDomain::Empty => out.push_str("\"Empty\"")?,
    }
    Ok(())
}

fn push_expires_lines(
    alloc: Global,
    out: &mut String,
    expires: SavedExpiration,
) -> Result<(), AllocError>
    ensures { OnOk result (string_bytes out.new
        ≡ string_bytes out.old ++ expires_lines (expires_shown expires)) }
{
    match expires {
        SavedExpiration::AtUtc(at) => {
            let date = SavedDate(at).to_string(alloc)?;
            push_tagged(out, "{\n      \"AtUtc\": ", date.as_str(), "\n    }")?;
        }
        SavedExpiration::SessionEnd => out.push_str("\"SessionEnd\"")?,
    }
    Ok(())
}
