//! A row more in a domain's part.

ghost use Rattle.std.specs.Prelude.{◌≡◌, ◌++◌, [], ◌∷◌, IfOk, IfSome, OnOk, OnErr, None, false, string_bytes};
ghost use Rattle.std.specs.List.{list_any};
ghost use Rattle.std.specs.Str.{bytes_eq};
ghost use Rattle.place_index.specs.Entries.{place_of, value_at, with_value};
ghost use Rattle.place_index.specs.Index.{last};
ghost use Rattle.place_index.specs.PathParts.{BeginBefore, EndBefore, LengthensAny};
ghost use Rattle.place_index.specs.Putting.{HasRoom, IsReady, Puts, PutsAt};

use crate::index::Domains;
use crate::names::Names;
use crate::part::{DomainRows, PathRows, Paths};
use crate::starts::Starts;
use crate::text_list::TextList;
use crate::text_map::TextMap;
use std::alloc::{AllocError, Global};

/// Has one row more of the path: behind its others, else last. Answers where, counted from where the domain begins.
pub(crate) fn put(
    alloc: Global,
    domain: &mut DomainRows,
    path: &str,
    name: &str,
) -> Result<usize, AllocError>
    requires { HasRoom path.now name.now domain.old }
    ensures ok { IfOk result (λ at. Puts path.now name.now domain.old domain.new at) }
    ensures err { OnErr result (domain.new ≡ domain.old) }
{
    match lengthen(alloc, &mut domain.paths, path, name)? {
        Some(at) => {
            if at < domain.len {
                domain.paths.move_from(at);
            }
            domain.len += 1;
            Ok(at)
        }
        None => {
            let at = domain.len;
            begin_path(alloc, &mut domain.paths, at, path, name)?;
            domain.len += 1;
            Ok(at)
        }
    }
}

// Has one row more of the path, where it has some. Answers where these ended.
fn lengthen(
    alloc: Global,
    paths: &mut Paths,
    path: &str,
    name: &str,
) -> Result<Option<usize>, AllocError>
    requires absent { IfSome (value_at path.now paths.old) (λ part. list_any (bytes_eq name.now) part.names ≡ false) }
    requires room { EndBefore last paths.old }
    ensures ok { IfOk result (λ at. LengthensAny path.now name.now paths.old paths.new at) }
    ensures err { OnErr result (paths.new ≡ paths.old) }
{
    let Some(place) = paths.rows.place(path) else {
        return Ok(None);
    };
    let rows = paths.rows.value_mut(place);
    rows.names.push(alloc, name)?;
    let at = paths.starts.get(place) + rows.len;
    rows.len += 1;
    Ok(Some(at))
}

// Has a path more, which begins at `start` with the one row of the name.
fn begin_path(
    alloc: Global,
    paths: &mut Paths,
    start: usize,
    path: &str,
    name: &str,
) -> Result<(), AllocError>
    requires absent { value_at path.now paths.old ≡ None }
    requires last { BeginBefore start paths.old }
    ensures ok { OnOk result (paths.new
        ≡ with_value paths.old path.now (record { start = start; len = 1; names = name.now ∷ [] })) }
    ensures err { OnErr result (paths.new ≡ paths.old) }
{
    let mut names = Names::new(alloc);
    names.push(alloc, name)?;
    let rows = PathRows { len: 1, names };
    begin_rows(alloc, &mut paths.starts, &mut paths.rows, path, start, rows)
}

// Has a path's part more, of a text that has none.
fn begin_rows(
    alloc: Global,
    starts: &mut Starts,
    rows: &mut TextList<PathRows>,
    text: &str,
    start: usize,
    value: PathRows,
) -> Result<(), AllocError>
    requires { place_of text.now rows.old ≡ None }
    ensures starts_ok { OnOk result (starts.new ≡ starts.old ++ start ∷ []) }
    ensures rows_ok { OnOk result (rows.new ≡ with_value rows.old text.now value) }
    ensures starts_err { OnErr result (starts.new ≡ starts.old) }
    ensures rows_err { OnErr result (rows.new ≡ rows.old) }
{
    let last = starts.len();
    starts.push(start)?;
    match rows.push(alloc, text, value) {
        Ok(()) => Ok(()),
        Err(e) => {
            starts.remove(last);
            Err(e)
        }
    }
}

// Has a domain's part more, of a text that has none.
fn begin_part(
    starts: &mut Starts,
    rows: &mut TextMap<DomainRows>,
    text: String,
    start: usize,
    value: DomainRows,
) -> Result<(), AllocError>
    ensures starts_ok { OnOk result (starts.new ≡ starts.old ++ start ∷ []) }
    ensures rows_ok { OnOk result (rows.new ≡ with_value rows.old (string_bytes text) value) }
    ensures starts_err { OnErr result (starts.new ≡ starts.old) }
    ensures rows_err { OnErr result (rows.new ≡ rows.old) }
{
    let place = starts.len();
    starts.push(start)?;
    match rows.insert(text, value) {
        Ok(_) => Ok(()),
        Err(e) => {
            starts.remove(place);
            Err(e)
        }
    }
}

// The parts of one path, which has the domain's one row.
fn one_path(alloc: Global, path: &str, name: &str) -> Result<Paths, AllocError>
    ensures { IfOk result (λ paths.
        paths ≡ (path.now, record { start = 0; len = 1; names = name.now ∷ [] }) ∷ []) }
{
    let mut paths = Paths::new(alloc);
    begin_path(alloc, &mut paths, 0, path, name)?;
    Ok(paths)
}

/// Has one row more of the domain, the path and the name. Answers where in the vector it goes.
pub(crate) fn put_row(
    alloc: Global,
    domains: &mut Domains,
    rows: usize,
    domain: &str,
    path: &str,
    name: &str,
) -> Result<usize, AllocError>
    requires { IsReady (record { domain = domain.now; path = path.now; name = name.now }) rows domains.old }
    ensures ok { IfOk result (λ at.
        PutsAt (record { domain = domain.now; path = path.now; name = name.now }) rows domains.old domains.new at) }
    ensures err { OnErr result (domains.new ≡ domains.old) }
{
    match domains.rows.place(domain) {
        Some(place) => {
            let inner = put(alloc, domains.rows.value_mut(place), path, name)?;
            let at = domains.starts.get(place) + inner;
            if at < rows {
                domains.starts.move_from(at);
            }
            Ok(at)
        }
        None => {
            begin(alloc, domains, rows, domain, path, name)?;
            Ok(rows)
        }
    }
}

// Has a domain more, which begins at `start` with the one row of the path and the name.
fn begin(
    alloc: Global,
    domains: &mut Domains,
    start: usize,
    domain: &str,
    path: &str,
    name: &str,
) -> Result<(), AllocError>
    requires absent { value_at domain.now domains.old ≡ None }
    requires last { IsReady (record { domain = domain.now; path = path.now; name = name.now }) start domains.old }
    ensures ok { OnOk result (domains.new ≡ with_value domains.old domain.now (record {
      start = start;
      len = 1;
      paths = (path.now, record { start = 0; len = 1; names = name.now ∷ [] }) ∷ [];
    })) }
    ensures err { OnErr result (domains.new ≡ domains.old) }
{
    let paths = one_path(alloc, path, name)?;
    let text = String::from_str(alloc, domain)?;
    let rows = DomainRows { len: 1, paths };
    begin_part(&mut domains.starts, &mut domains.rows, text, start, rows)
}
