//! The rows that a request is given, of parts of a vector of rows.

ghost use Rattle.std.specs.Prelude.{IfOk, OnOk, map};
ghost use Rattle.jiff.specs.Words.{civil_nanos};
ghost use Rattle.cookie_store.specs.Given.{AreGiven, lent_row};
ghost use Rattle.cookie_store.specs.Steps.{AreInside, GivesMore, IsJudged, rows_in};
ghost use Rattle.cookie_store.specs.StoredCookie.{stored_in};

use crate::coverage::Judged;
use crate::requests::is_given;
use crate::stored_cookie::Cookie;
use jiff::civil::DateTime;
use std::alloc::{AllocError, Global};
use url::Url;

// Puts those of the cookies that go with a request to the URL at `now` behind those that are given.
fn give<'c>(
    alloc: Global,
    cookies: &'c [Box<Cookie<'static>>],
    request_url: &Url,
    now: DateTime,
    last: &mut Option<Judged<'c>>,
    given: &mut Vec<&'c Cookie<'static>>,
) -> Result<(), AllocError>
    requires { IsJudged last.old request_url.now }
    ensures judged { OnOk result (IsJudged last.new request_url.now) }
    ensures given { OnOk result (GivesMore (map stored_in cookies.now) request_url.now (civil_nanos now)
        (map lent_row given.old.items) (map lent_row given.new.items)) }
{
    for cookie in cookies {
        let cookie = &**cookie;
        if is_given(alloc, cookie, request_url, now, last)? {
            given.push(cookie)?;
        }
    }
    Ok(())
}

/// Those of the cookies in the parts that go with a request to the URL at `now`, in their order. The parts stand in the
/// order of the cookies.
pub(crate) fn give_parts<'c>(
    alloc: Global,
    cookies: &'c [Box<Cookie<'static>>],
    parts: &[(usize, usize)],
    request_url: &Url,
    now: DateTime,
) -> Result<Vec<&'c Cookie<'static>>, AllocError>
    requires { AreInside (map stored_in cookies.now) parts.now }
    ensures { IfOk result (λ given. AreGiven (rows_in parts.now (map stored_in cookies.now))
        request_url.now (civil_nanos now) (map lent_row given.items)) }
{
    let mut given = Vec::new(alloc);
    let mut last = None;
    for part in parts {
        give(
            alloc,
            &cookies[part.0..part.1],
            request_url,
            now,
            &mut last,
            &mut given,
        )?;
    }
    Ok(given)
}
