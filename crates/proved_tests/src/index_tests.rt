//! Tests of `place_index`: against a plain list of rows, and with its questions counted.

ghost use Rattle.std.specs.Prelude.{◌≡◌, ◌≤◌, ◌<◌, ◌+◌, ◌*◌, List, codes};
ghost use Rattle.place_index.specs.Found.{domains_with_rows};
ghost use Rattle.place_index.specs.Index.{Agrees, IsIndex};
ghost use Rattle.place_index.specs.Places.{Place};
ghost use Rattle.proved_tests.specs.Rows.{AreIndexed};

use crate::index_rows::{are_found, fill, has_the_rows, put, take};
use place_index::{Index, Looks};
use std::alloc::{AllocError, Global};
use std::marker::Brand;
use std::process::Abort;
use std::sync::ledger::{Blank, Ledger};

// A request of four domain texts and five path texts: so many questions, those of the paths for each domain that has
// a row.
fn find_deep<L: Ledger>(
    alloc: Global,
    index: &Index,
    looks: &mut Looks<L>,
) -> Result<Vec<(usize, usize)>, AllocError>
    requires { IsIndex index.now }
    ensures { (places : List Place) → Agrees places index.now
        → looks.new ≤ looks.old + (4 + domains_with_rows (codes "a.b.c.com") places * 5) }
{
    index.find(alloc, "a.b.c.com", "/x/y", looks)
}

// Whether these are the parts that are found so, counted from none.
fn finds_deep<L: Ledger>(
    alloc: Global,
    index: &Index,
    parts: &[(usize, usize)],
    blank: Blank,
) -> Result<bool, AllocError>
    requires name { blank.name ≡ L.name }
    requires parts { blank.parts ≡ L.parts }
    requires some { 0 < L.parts }
    requires index { IsIndex index.now }
{
    let mut looks = Looks::<L>::new(blank);
    let found = find_deep(alloc, index, &mut looks)?;
    Ok(found.as_slice() == parts)
}

// Whether the index finds the rows that a plain scan finds for a host and a request-path, counted from none.
fn finds_from<L: Ledger>(
    alloc: Global,
    index: &Index,
    rows: &[(&str, &str, &str)],
    request: (&str, &str),
    blank: Blank,
) -> Result<bool, AllocError>
    requires name { blank.name ≡ L.name }
    requires parts { blank.parts ≡ L.parts }
    requires some { 0 < L.parts }
    requires index { IsIndex index.now }
{
    let mut looks = Looks::<L>::new(blank);
    let found = index.find(alloc, request.0, request.1, &mut looks)?;
    Ok(are_found(&found, rows, request.0, request.1))
}

// Whether the index finds the rows that a plain scan finds.
fn finds_as_a_scan(
    alloc: Global,
    index: &Index,
    rows: &[(&str, &str, &str)],
    hosts: &str,
    paths: &str,
) -> Result<bool, AllocError>
    requires { IsIndex index.now }
{
    for host in hosts.split(' ') {
        for path in paths.split(' ') {
            if !finds_from::<Brand>(alloc, index, rows, (host, path), Blank::new(1))? {
                return Ok(false);
            }
        }
    }
    Ok(true)
}

// Whether the index has the rows where a plain scan finds them, and finds the same rows for each request.
fn answers_as_a_scan(
    alloc: Global,
    index: &Index,
    rows: &Vec<(&str, &str, &str)>,
) -> Result<bool, AllocError>
    requires { AreIndexed rows.now.items index.now }
{
    Ok(
        has_the_rows(index, rows, DOMAINS, PATHS, NAMES)
            && finds_as_a_scan(alloc, index, rows, HOSTS, PATHS)?,
    )
}

// The texts of rows and of requests; the last path is empty, and so is the last name.
const DOMAINS: &str = "com c.com b.c.com a.b.c.com d.com xc.com z.com";

const PATHS: &str = "/ /x /x/ /x/y /x/yz /x/y/ ";

const NAMES: &str = "a b bb c ";

const HOSTS: &str = "a.b.c.com c.com xc.com com d.com z.d.com";

fn domain_at(drawn: u64) -> &'static str {
    match drawn % 6 {
        0 => "com",
        1 => "c.com",
        2 => "b.c.com",
        3 => "a.b.c.com",
        4 => "d.com",
        _ => "xc.com",
    }
}

fn path_at(drawn: u64) -> &'static str {
    match drawn % 6 {
        0 => "/",
        1 => "/x",
        2 => "/x/",
        3 => "/x/y",
        4 => "/x/yz",
        _ => "",
    }
}

fn name_at(drawn: u64) -> &'static str {
    match drawn % 4 {
        0 => "a",
        1 => "b",
        2 => "bb",
        _ => "",
    }
}

// Takes a row out or puts one in, where it isn't there.
fn step(
    rt: &impl Abort,
    alloc: Global,
    index: &mut Index,
    rows: &mut Vec<(&'static str, &'static str, &'static str)>,
    drawn: u64,
) -> Result<(), AllocError>
    requires { AreIndexed rows.old.items index.old }
    ensures { AreIndexed rows.new.items index.new }
{
    if rows.len() > 0 && (drawn >> 20) % 9 < 4 {
        let at = (drawn >> 30) as usize % rows.len();
        take(index, rows, at);
        Ok(())
    } else {
        let row = (
            domain_at(drawn >> 30),
            path_at(drawn >> 40),
            name_at(drawn >> 50),
        );
        put(rt, alloc, index, rows, row)
    }
}

// Drawn steps, after each of which the index answers as a plain scan does.
fn walks(
    rt: &impl Abort,
    alloc: Global,
    index: &mut Index,
    rows: &mut Vec<(&'static str, &'static str, &'static str)>,
) -> Result<bool, AllocError>
    requires { AreIndexed rows.old.items index.old }
{
    let mut drawn = 20u64;
    for _ in 0..300usize {
        drawn = drawn
            .wrapping_mul(6364136223846793005)
            .wrapping_add(1442695040888963407);
        step(rt, alloc, index, rows, drawn)?;
        if !answers_as_a_scan(alloc, index, rows)? {
            return Ok(false);
        }
    }
    Ok(true)
}

fn walks_from_none(rt: &impl Abort, alloc: Global) -> Result<bool, AllocError> {
    let mut index = Index::new(alloc);
    let mut rows = Vec::new(alloc);
    walks(rt, alloc, &mut index, &mut rows)
}

#[test]
fn answers_as_a_plain_list(rt: HostRuntime) -> Result<(), AllocError> {
    assert!(rt; walks_from_none(&rt, rt.alloc())?);
    Ok(())
}

// Whether the parts of these rows are found for the request of four domain texts and five path texts, as told.
fn finds_parts(
    rt: &impl Abort,
    alloc: Global,
    lines: &'static str,
    parts: &[(usize, usize)],
) -> Result<bool, AllocError> {
    let mut index = Index::new(alloc);
    let mut rows = Vec::new(alloc);
    fill(rt, alloc, &mut index, &mut rows, lines)?;
    finds_both(alloc, &index, &rows, parts)
}

// The same of an index and its rows.
fn finds_both(
    alloc: Global,
    index: &Index,
    rows: &Vec<(&str, &str, &str)>,
    parts: &[(usize, usize)],
) -> Result<bool, AllocError>
    requires { AreIndexed rows.now.items index.now }
{
    Ok(
        finds_deep::<Brand>(alloc, index, parts, Blank::new(1))?
            && finds_as_a_scan(alloc, index, rows, HOSTS, PATHS)?,
    )
}

// None of the request's domains, one and all four, with rows between that it doesn't meet.
#[test]
fn finds_the_parts_of_a_request(rt: HostRuntime) -> Result<(), AllocError> {
    let alloc = rt.alloc();
    assert!(rt; finds_parts(&rt, alloc, "d.com / a\nxc.com /x a", &[])?);
    let one =
        "d.com / a\nc.com / a\nc.com /a a\nc.com /x a\nc.com / b\nc.com /x/yz a\nc.com /x/y a";
    assert!(rt; finds_parts(&rt, alloc, one, &[(1, 3), (4, 5), (6, 7)])?);
    let four =
        "com /x/y/ a\na.b.c.com /x/ a\nc.com /x a\nb.c.com  a\ncom /x/y a\nb.c.com /y a\nd.com /x a";
    assert!(rt; finds_parts(&rt, alloc, four, &[(1, 2), (2, 3), (3, 4), (4, 5)])?);
    Ok(())
}
