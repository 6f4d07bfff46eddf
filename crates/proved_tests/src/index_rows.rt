//! A plain list of rows, an index that is kept with it, and what a plain scan answers.

ghost use Rattle.std.specs.Prelude.{◌≡◌, ◌<◌, List, length};
ghost use Rattle.place_index.specs.Index.{Agrees, IsIndex, StandsAt};
ghost use Rattle.place_index.specs.Places.{Place};
ghost use Rattle.proved_tests.specs.Rows.{AreIndexed, IsAbsent, place_of};

use place_index::{Index, Looks};
use std::alloc::{AllocError, Global};
use std::marker::Brand;
use std::process::Abort;
use std::sync::ledger::{Blank, Ledger};

// Where the index has the row of a domain, a path and a name, counted from none.
fn position_from<L: Ledger>(index: &Index, row: (&str, &str, &str), blank: Blank) -> Option<usize>
    requires name { blank.name ≡ L.name }
    requires parts { blank.parts ≡ L.parts }
    requires some { 0 < L.parts }
    requires index { IsIndex index.now }
    ensures { (places : List Place) → Agrees places index.now → StandsAt (place_of row.entry) places result }
{
    let mut looks = Looks::<L>::new(blank);
    index.position(row.0, row.1, row.2, &mut looks)
}

// Where the index has the row of a domain, a path and a name.
fn position(index: &Index, row: (&str, &str, &str)) -> Option<usize>
    requires { IsIndex index.now }
    ensures { (places : List Place) → Agrees places index.now → StandsAt (place_of row.entry) places result }
{
    position_from::<Brand>(index, row, Blank::new(1))
}

// Where a row of the domain and the path goes: behind the last of both, else behind the domain's last, else last.
fn place_behind(rows: &[(&str, &str, &str)], domain: &str, path: &str) -> usize {
    let mut behind_domain = rows.len();
    let mut behind_both = None;
    for i in 0..rows.len() {
        if rows[i].0 == domain {
            behind_domain = i + 1;
            if rows[i].1 == path {
                behind_both = Some(i + 1);
            }
        }
    }
    behind_both.unwrap_or(behind_domain)
}

/// Puts a row into both, where they have none of its domain, path and name, and asserts that it goes where a plain scan
/// says.
pub(crate) fn put<'a>(
    rt: &impl Abort,
    alloc: Global,
    index: &mut Index,
    rows: &mut Vec<(&'a str, &'a str, &'a str)>,
    row: (&'a str, &'a str, &'a str),
) -> Result<(), AllocError>
    requires { AreIndexed rows.old.items index.old }
    ensures { AreIndexed rows.new.items index.new }
{
    match position(index, row) {
        Some(_) => Ok(()),
        None => put_new(rt, alloc, index, rows, row),
    }
}

fn put_new<'a>(
    rt: &impl Abort,
    alloc: Global,
    index: &mut Index,
    rows: &mut Vec<(&'a str, &'a str, &'a str)>,
    row: (&'a str, &'a str, &'a str),
) -> Result<(), AllocError>
    requires indexed { AreIndexed rows.old.items index.old }
    requires absent { IsAbsent row rows.old.items }
    ensures { AreIndexed rows.new.items index.new }
{
    let behind = place_behind(rows, row.0, row.1);
    rows.reserve(1)?;
    let at = index.put(alloc, rows.len(), row.0, row.1, row.2)?;
    assert!(rt; at <= rows.len());
    assert!(rt; at == behind, "{} {} {}", row.0, row.1, row.2);
    rows.insert(at, row)?;
    Ok(())
}

/// Puts a row for each line into both: its domain, its path and its name, with a blank between.
pub(crate) fn fill(
    rt: &impl Abort,
    alloc: Global,
    index: &mut Index,
    rows: &mut Vec<(&'static str, &'static str, &'static str)>,
    lines: &'static str,
) -> Result<(), AllocError>
    requires { AreIndexed rows.old.items index.old }
    ensures { AreIndexed rows.new.items index.new }
{
    for line in lines.split('\n') {
        let (domain, rest) = line.split_once(' ').unwrap_or(("no row", ""));
        let (path, name) = rest.split_once(' ').unwrap_or((rest, ""));
        put(rt, alloc, index, rows, (domain, path, name))?;
    }
    Ok(())
}

/// Takes a row out of both.
pub(crate) fn take(index: &mut Index, rows: &mut Vec<(&str, &str, &str)>, at: usize)
    requires indexed { AreIndexed rows.old.items index.old }
    requires there { at < length rows.old.items }
    ensures { AreIndexed rows.new.items index.new }
{
    let (domain, path, _) = rows[at];
    index.remove(at, domain, path);
    rows.remove(at);
}

// Whether the index has the row where a plain scan finds it, and none where that finds none.
fn has_the_row(index: &Index, rows: &[(&str, &str, &str)], row: (&str, &str, &str)) -> bool
    requires { IsIndex index.now }
{
    position(index, row) == rows.iter().position(|other| *other == row)
}

/// Whether the index has just the rows of each domain, each path and each name that a plain scan finds.
pub(crate) fn has_the_rows(
    index: &Index,
    rows: &[(&str, &str, &str)],
    domains: &str,
    paths: &str,
    names: &str,
) -> bool
    requires { IsIndex index.now }
{
    for domain in domains.split(' ') {
        for path in paths.split(' ') {
            for name in names.split(' ') {
                if !has_the_row(index, rows, (domain, path, name)) {
                    return false;
                }
            }
        }
    }
    true
}

// Whether a request to the host can meet a row of the domain.
fn meets_domain(host: &str, domain: &str) -> bool {
    match host.as_bytes().strip_suffix(domain.as_bytes()) {
        Some(rest) => rest.is_empty() || matches!(rest, [.., b'.']),
        None => false,
    }
}

// Whether the request-path path-matches the path.
fn meets_path(request: &str, path: &str) -> bool {
    match request.as_bytes().strip_prefix(path.as_bytes()) {
        Some(rest) => {
            rest.is_empty() || matches!(rest, [b'/', ..]) || matches!(path.as_bytes(), [.., b'/'])
        }
        None => false,
    }
}

/// Whether the parts have just the rows that a plain scan finds for the host and the request-path.
pub(crate) fn are_found(
    found: &[(usize, usize)],
    rows: &[(&str, &str, &str)],
    host: &str,
    request: &str,
) -> bool {
    for i in 0..rows.len() {
        let is_in = found.iter().any(|part| part.0 <= i && i < part.1);
        if is_in != (meets_domain(host, rows[i].0) && meets_path(request, rows[i].1)) {
            return false;
        }
    }
    true
}
