//! A row fewer in an index.

ghost use Rattle.std.specs.Prelude.{◌<◌};
ghost use Rattle.place_index.specs.Index.{PathsInside};
ghost use Rattle.place_index.specs.Entries.{value_at};
ghost use Rattle.place_index.specs.Taking.{BeginsBy, HasRow, Shortens, Takes, TakesAt};

use crate::index::Domains;
use crate::part::{DomainRows, Paths};

// Has one row fewer of the path, the one at `at`, counted from where the domain begins, and no part where that was the
// only one.
fn shorten(paths: &mut Paths, at: usize, path: &str)
    requires { BeginsBy at (value_at path.now paths.old) }
    ensures { Shortens path.now at paths.old paths.new }
{
    let Some(place) = paths.rows.place(path) else {
        return;
    };
    let inner = at - paths.starts.get(place);
    let rows = paths.rows.value_mut(place);
    if rows.len > 1 {
        rows.len -= 1;
        rows.names.take(inner);
    } else {
        paths.rows.remove(place);
        paths.starts.remove(place);
    }
}

/// Has one row fewer of the path, the one at `at`, counted from where the domain begins.
fn take(domain: &mut DomainRows, at: usize, path: &str)
    requires some { 0 < domain.old.len }
    requires inside { PathsInside domain.old }
    requires begun { BeginsBy at (value_at path.now domain.old.paths) }
    ensures { Takes path.now at domain.old domain.new }
{
    domain.len -= 1;
    shorten(&mut domain.paths, at, path);
    if at < domain.len {
        domain.paths.move_back(at);
    }
}

/// Has the row at `at`, which is of the domain and the path, no more.
pub(crate) fn take_row(domains: &mut Domains, at: usize, domain: &str, path: &str)
    requires { HasRow domain.now path.now at domains.old }
    ensures { TakesAt domain.now path.now at domains.old domains.new }
{
    if let Some(place) = domains.rows.place(domain) {
        let inner = at - domains.starts.get(place);
        let rows = domains.rows.value_mut(place);
        if rows.len > 1 {
            take(rows, inner, path);
        } else {
            domains.rows.remove(domain);
            domains.starts.remove(place);
        }
    }
    domains.starts.move_back(at);
}
