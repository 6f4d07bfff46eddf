//! Rows in RON, as they are written.
ghost use Rattle.std.specs.Prelude.{◌≡◌, ◌++◌, map, IfOk, OnOk, string_bytes};
ghost use Rattle.saved_text.specs.RonLayout.{bool_layout, row_layout, rows_layout, domain_layout, expires_layout};
ghost use Rattle.saved_text.specs.RonLayout.{ron_layout, tagged_layout};
ghost use Rattle.saved_text.specs.Saved.{shown, domain_shown, expires_shown};

use crate::date_display::SavedDate;
use crate::ron_write::push_quoted;
use crate::row::{SavedDomain, SavedExpiration, SavedRow};
use std::alloc::{AllocError, Global};

/// A list of rows in RON, ended by a line feed.
///
/// # Errors
///
/// `AllocError` where memory was refused.
pub fn rows_to_ron(alloc: Global, rows: &[SavedRow]) -> Result<String, AllocError>
    ensures { IfOk result (λ s. string_bytes s ≡ ron_layout (map shown rows.now)) }
{
    let mut out = String::new(alloc);
    if rows.is_empty() {
        out.push_str("[]\n")?;
        return Ok(out);
    }
    out.push_str("[\n")?;
    push_rows(alloc, &mut out, rows)?;
    out.push_str("]\n")?;
    Ok(out)
}

fn push_rows(alloc: Global, out: &mut String, rows: &[SavedRow]) -> Result<(), AllocError>
    ensures { OnOk result (string_bytes out.new
        ≡ string_bytes out.old ++ rows_layout (map shown rows.now)) }
{
    let mut rest = rows;
    while let Some((row, tail)) = rest.split_first() {
        push_row(alloc, out, row)?;
        rest = tail;
    }
    Ok(())
}

fn push_row(alloc: Global, out: &mut String, row: &SavedRow) -> Result<(), AllocError>
    ensures { OnOk result (string_bytes out.new
        ≡ string_bytes out.old ++ row_layout (shown row.now)) }
{
    out.push_str("    (\n        raw_cookie: ")?;
    push_quoted(out, &row.raw_cookie)?;
    out.push_str(",\n        path: (")?;
    push_quoted(out, &row.path)?;
    out.push_str(", ")?;
    push_bool(out, row.is_from_path_attr)?;
    out.push_str("),\n        domain: ")?;
    push_domain(out, &row.domain)?;
    out.push_str(",\n        expires: ")?;
    push_expires(alloc, out, row.expires)?;
    out.push_str(",\n    ),\n")?;
    Ok(())
}

pub(crate) fn push_bool(out: &mut String, value: bool) -> Result<(), AllocError>
    ensures { OnOk result (string_bytes out.new ≡ string_bytes out.old ++ bool_layout value) }
{
    if value {
        out.push_str("true")?;
    } else {
        out.push_str("false")?;
    }
    Ok(())
}

fn push_domain(out: &mut String, domain: &SavedDomain) -> Result<(), AllocError>
    ensures { OnOk result (string_bytes out.new
        ≡ string_bytes out.old ++ domain_layout (domain_shown domain.now)) }
{
    match domain {
        SavedDomain::HostOnly(text) => push_tagged(out, "HostOnly(", text.as_str())?,
        SavedDomain::Suffix(text) => push_tagged(out, "Suffix(", text.as_str())?,
        SavedDomain::NotPresent => out.push_str("NotPresent")?,
        SavedDomain::Empty => out.push_str("Empty")?,
    }
    Ok(())
}

fn push_expires(alloc: Global, out: &mut String, expires: SavedExpiration) -> Result<(), AllocError>
    ensures { OnOk result (string_bytes out.new
        ≡ string_bytes out.old ++ expires_layout (expires_shown expires)) }
{
    match expires {
        SavedExpiration::AtUtc(at) => {
            let date = SavedDate(at).to_string(alloc)?;
            push_tagged(out, "AtUtc(", date.as_str())?;
        }
        SavedExpiration::SessionEnd => out.push_str("SessionEnd")?,
    }
    Ok(())
}

// A string in brackets behind its tag.
fn push_tagged(out: &mut String, tag: &str, text: &str) -> Result<(), AllocError>
    ensures { OnOk result (string_bytes out.new
        ≡ string_bytes out.old ++ tagged_layout tag.now text.now) }
{
    out.push_str(tag)?;
    push_quoted(out, text)?;
    out.push_str(")")?;
    Ok(())
}
