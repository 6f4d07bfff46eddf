//! A list of rows of RON.
ghost use Rattle.std.specs.Prelude.{◌≡◌, [], MatchResult, option_map, string_bytes};
ghost use Rattle.saved_text.specs.Drafts.{IsListRead, drafted};
ghost use Rattle.saved_text.specs.Faults.{StopsAs};
ghost use Rattle.saved_text.specs.JsonReading.{HasDeath, IsReadable};
ghost use Rattle.saved_text.specs.Ron.{list};
ghost use Rattle.saved_text.specs.Saved.{IsDeath, IsShown};

use crate::json_read::death_of;
use crate::ron_drafts::{Draft, earlier, read_row};
use crate::ron_parts::{gap, sign_of};
use crate::ron_text::{Stop, cut};
use crate::row::{SavedExpiration, SavedRow};
use std::alloc::Global;

// The death at a date that reads, or at the end of the session.
fn death(date: &Option<String>) -> SavedExpiration
    ensures { HasDeath (option_map string_bytes date.now) → IsDeath (option_map string_bytes date.now) result }
{
    match date {
        Some(text) => match death_of(Some(text.as_str())) {
            Some(expires) => expires,
            None => SavedExpiration::SessionEnd,
        },
        None => SavedExpiration::SessionEnd,
    }
}

// The row that was read, where its date reads.
fn row_of(draft: Draft) -> SavedRow
    ensures { IsReadable (drafted draft) → IsShown (drafted draft) result }
{
    let expires = death(&draft.date);
    SavedRow {
        raw_cookie: draft.raw_cookie,
        path: draft.path,
        is_from_path_attr: draft.is_from_path_attr,
        domain: draft.domain,
        expires,
    }
}

/// Adds the rows of the list at the front of the text; the rest at the first string in it that doesn't read, and what
/// is behind the list.
pub fn read_list<'a>(
    alloc: Global,
    text: &'a str,
    rows: &mut Vec<SavedRow>,
) -> Result<(Option<&'a str>, &'a str), Stop<'a>>
    requires { rows.now.items ≡ [] }
    ensures { MatchResult result (λ p. IsListRead list text.now rows.new.items p.0 p.1.now) (StopsAs list text.now) }
{
    let rest = sign_of(text, b'[')?;
    let mut rest = gap(rest);
    let mut unread = None;
    if let Some(behind) = cut(rest, b']') {
        return Ok((unread, behind));
    }
    loop {
        let (draft, other, behind) = read_row(alloc, rest)?;
        unread = earlier(unread, other);
        rows.push(row_of(draft))?;
        let next = gap(behind);
        if let Some(behind) = cut(next, b']') {
            return Ok((unread, behind));
        }
        let behind = sign_of(next, b',')?;
        rest = gap(behind);
        if let Some(behind) = cut(rest, b']') {
            return Ok((unread, behind));
        }
    }
}
