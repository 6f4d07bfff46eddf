//! The questions that requests put to the index of a store's rows.

ghost use Rattle.std.specs.Prelude.{◌≡◌, ◌≤◌, ◌<◌, ◌+◌, ◌*◌, codes};
ghost use Rattle.cookie_store.specs.Asking.{domains_with_rows};

use cookie_store::{Cookie, CookieStore, Looks};
use jiff::civil::DateTime;
use std::alloc::{AllocError, Global};
use std::sync::ledger::Ledger;
use std::test::Fail;
use url::Url;

fn now() -> DateTime {
    DateTime::constant(2024, 1, 1, 0, 0, 0, 0)
}

// A request of four domain texts and five path texts puts so many questions at the most: four, and five for each of the
// domains that has a row. This is proved and not run: the test below runs the request by `matches`, which is the call
// of a blank count.
pub(crate) fn match_deep<'s, L: Ledger>(
    store: &'s CookieStore,
    url: &Url,
    looks: &mut Looks<L>,
) -> Result<Option<Vec<&'s Cookie<'static>>>, AllocError>
    ensures { looks.new ≤ looks.old + (4 + domains_with_rows (codes "a.b.c.com") store.now.rows * 5) }
{
    if url.host_str() != Some("a.b.c.com") || url.path() != "/x/y" {
        return Ok(None);
    }
    Ok(Some(store.matches_counted(url, now(), looks)?))
}

// ` NAME=VALUE` of each of the cookies.
fn pairs(alloc: Global, cookies: Vec<&Cookie<'static>>) -> Option<String> {
    let mut out = String::new(alloc);
    for cookie in cookies {
        let (name, value) = cookie.raw().name_value();
        write!(out, " {name}={value}").ok()?;
    }
    Some(out)
}

// Whether these are the cookies.
fn are(alloc: Global, cookies: Vec<&Cookie<'static>>, wanted: &str) -> bool {
    match pairs(alloc, cookies) {
        Some(found) => found.as_str() == wanted,
        None => false,
    }
}

// Whether the cookie of a line `URL|COOKIE` is stored.
fn is_stored(alloc: Global, store: &mut CookieStore, line: &str) -> bool {
    let (url, cookie) = line.split_once('|').unwrap_or((line, ""));
    match Url::parse(alloc, url) {
        Ok(url) => store.parse(cookie, &url, now()).is_ok(),
        Err(_) => false,
    }
}

// Whether the cookie of each of the lines is stored.
fn receives(alloc: Global, store: &mut CookieStore, lines: &str) -> bool {
    for line in lines.lines() {
        if !is_stored(alloc, store, line) {
            return false;
        }
    }
    true
}

// Whether the request is given these once the lines are received.
fn gives(
    alloc: Global,
    store: &mut CookieStore,
    url: &Url,
    lines: &str,
    wanted: &str,
) -> Result<bool, AllocError> {
    let is_received = receives(alloc, store, lines);
    Ok(is_received && are(alloc, store.matches(url, now())?, wanted))
}

// What is received, and what the request is given then: one of its domains has rows, two have, and all four.
const STEPS: [(&str, &str); 3] = [
    (
        "http://d.com/|other=0\nhttp://c.com/|one=1; Domain=c.com; Path=/x",
        " one=1",
    ),
    ("http://a.b.c.com/|two=2; Path=/x/", " one=1 two=2"),
    (
        "http://b.c.com/|three=3; Domain=b.c.com; Path=/\nhttp://c.com/|four=4; Domain=com; Path=/x/y",
        " one=1 two=2 three=3 four=4",
    ),
];

#[test]
fn asks_for_what_a_request_can_meet(rt: HostRuntime) -> Result<(), Fail> {
    let alloc = rt.alloc();
    let url = Url::parse(alloc, "http://a.b.c.com/x/y")?;
    let mut store = CookieStore::new(alloc);
    for (lines, wanted) in STEPS {
        assert!(rt; gives(alloc, &mut store, &url, lines, wanted)?);
    }
    Ok(())
}
