//! What an index is asked for a host and a path of a request.

ghost use Rattle.std.specs.Prelude.{◌≡◌, ◌+◌, ◌++◌, ◌≤◌, OnOk, Some, length};
ghost use Rattle.place_index.specs.Entries.{value_at};
ghost use Rattle.place_index.specs.Candidates.{domains_of, paths_of};
ghost use Rattle.place_index.specs.Index.{part_at};
ghost use Rattle.place_index.specs.Found.{span_of, spans_of, spans, path_looks, looks_for, Fits, AllFit};

use crate::index::Domains;
use crate::looks::Looks;
use crate::part::DomainRows;
use std::alloc::AllocError;
use std::sync::ledger::Ledger;

// Asks for a path of the domain that begins at `start`, and notes where its part is.
fn ask_path<L: Ledger>(
    start: usize,
    domain: &DomainRows,
    path: &str,
    found: &mut Vec<(usize, usize)>,
    looks: &mut Looks<L>,
) -> Result<(), AllocError>
    requires { Fits (part_at start domain.now) }
    ensures spans { OnOk result (found.new.items
        ≡ found.old.items ++ span_of (part_at start domain.now) (value_at path.now domain.now.paths)) }
    ensures look { looks.new ≡ looks.old + 1 }
{
    if let Some((inner, rows)) = domain.ask(path, looks) {
        let start = start + inner;
        found.push((start, start + rows.len))?;
    }
    Ok(())
}

// Asks for the path, and for each beginning of it that ends with a slash or that a slash follows, each once.
fn ask_paths<L: Ledger>(
    start: usize,
    domain: &DomainRows,
    path: &str,
    found: &mut Vec<(usize, usize)>,
    looks: &mut Looks<L>,
) -> Result<(), AllocError>
    requires { Fits (part_at start domain.now) }
    ensures spans { OnOk result (found.new.items
        ≡ found.old.items ++ spans_of (paths_of path.now) (Some (part_at start domain.now))) }
    ensures looks { looks.new ≤ looks.old + length (paths_of path.now) }
{
    ask_path(start, domain, path, found, looks)?;
    let mut behind = false;
    for i in 0..path.len() {
        let slash = path.as_bytes()[i] == b'/';
        if behind || slash {
            ask_path(start, domain, &path[..i], found, looks)?;
        }
        behind = slash;
    }
    Ok(())
}

// Asks for a domain, and where it has a part for the paths in it.
fn ask_domain<L: Ledger>(
    domains: &Domains,
    domain: &str,
    path: &str,
    found: &mut Vec<(usize, usize)>,
    looks: &mut Looks<L>,
) -> Result<(), AllocError>
    requires { AllFit domains.now }
    ensures spans { OnOk result (found.new.items
        ≡ found.old.items ++ spans_of (paths_of path.now) (value_at domain.now domains.now)) }
    ensures looks { looks.new
        ≤ looks.old + (1 + path_looks (length (paths_of path.now)) (value_at domain.now domains.now)) }
{
    match domains.ask(domain, looks) {
        Some((start, rows)) => ask_paths(start, rows, path, found, looks),
        None => Ok(()),
    }
}

/// Asks for the host and for the text after each of its dots.
pub(crate) fn ask_domains<L: Ledger>(
    domains: &Domains,
    host: &str,
    path: &str,
    found: &mut Vec<(usize, usize)>,
    looks: &mut Looks<L>,
) -> Result<(), AllocError>
    requires { AllFit domains.now }
    ensures spans { OnOk result (found.new.items
        ≡ found.old.items ++ spans domains.now (domains_of host.now) (paths_of path.now)) }
    ensures looks { looks.new
        ≤ looks.old + looks_for domains.now (domains_of host.now) (length (paths_of path.now)) }
{
    ask_domain(domains, host, path, found, looks)?;
    for i in 0..host.len() {
        if host.as_bytes()[i] == b'.' {
            ask_domain(domains, &host[i + 1..], path, found, looks)?;
        }
    }
    Ok(())
}
