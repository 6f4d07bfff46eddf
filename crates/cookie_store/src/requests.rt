//! What a request is given.

ghost use Rattle.std.specs.Prelude.{◌≡◌, ◌↔◌, length, map, IsTrue, IfOk};
ghost use Rattle.std.specs.Iterator.{at_most};
ghost use Rattle.std.specs.Map.Iter.{TakesFirst};
ghost use Rattle.jiff.specs.Words.{civil_nanos};
ghost use Rattle.cookie_store.specs.Given.{IsGiven, lent_cookie, lent_pair, pair_of, received_of, lent_row};
ghost use Rattle.cookie_store.specs.Steps.{IsJudged};
ghost use Rattle.cookie_store.specs.StoredCookie.{stored_of};

use crate::coverage::{Judged, covers};
use crate::rows::domain_text;
use crate::stored_cookie::Cookie;
use cookie::Cookie as RawCookie;
use jiff::civil::DateTime;
use std::alloc::{AllocError, Global};
use std::marker::Model;
use std::vec;
use url::Url;

/// The names and the values of the cookies that go with a request.
#[derive(Drop)]
pub struct RequestValues<'a> {
    cookies: vec::IntoIter<&'a Cookie<'static>>,
}

impl<'a> Model for RequestValues<'a> {
    ghost use Rattle.std.specs.Prelude.{List, ℕ, map};
    ghost use Rattle.std.specs.Vec.Iter.{into_iter_items};
    ghost use Rattle.cookie_store.specs.Given.{pair_of, lent_row};

    ghost Value = { List (List ℕ × List ℕ) };

    ghost view = { λ v. map (λ c. pair_of (lent_row c)) (into_iter_items v.cookies) };
}

impl<'a> RequestValues<'a> {
    pub(crate) fn new(cookies: Vec<&'a Cookie<'static>>) -> RequestValues<'a>
        ensures { result ≡ map pair_of (map lent_row cookies.entry.items) }
    {
        RequestValues {
            cookies: cookies.into_iter(),
        }
    }
}

impl<'a> Iterator for RequestValues<'a> {
    type Item = (&'a str, &'a str);

    ghost next_gives = { TakesFirst lent_pair };

    ghost remaining = { λ s. at_most (length s) };

    fn next(&mut self) -> Option<(&'a str, &'a str)> {
        let cookie = self.cookies.next()?;
        Some(cookie.raw().name_value())
    }
}

/// The cookies that go with a request, as they were received.
#[derive(Drop)]
pub struct RequestCookies<'a> {
    cookies: vec::IntoIter<&'a Cookie<'static>>,
}

impl<'a> Model for RequestCookies<'a> {
    ghost use Rattle.std.specs.Prelude.{List, map};
    ghost use Rattle.std.specs.Vec.Iter.{into_iter_items};
    ghost use Rattle.cookie_text.specs.Record.{Seen};
    ghost use Rattle.cookie_store.specs.Given.{received_of, lent_row};

    ghost Value = { List Seen };

    ghost view = { λ v. map (λ c. received_of (lent_row c)) (into_iter_items v.cookies) };
}

impl<'a> RequestCookies<'a> {
    pub(crate) fn new(cookies: Vec<&'a Cookie<'static>>) -> RequestCookies<'a>
        ensures { result ≡ map received_of (map lent_row cookies.entry.items) }
    {
        RequestCookies {
            cookies: cookies.into_iter(),
        }
    }
}

impl<'a> Iterator for RequestCookies<'a> {
    type Item = &'a RawCookie<'static>;

    ghost next_gives = { TakesFirst lent_cookie };

    ghost remaining = { λ s. at_most (length s) };

    fn next(&mut self) -> Option<&'a RawCookie<'static>> {
        let cookie = self.cookies.next()?;
        Some(cookie.raw())
    }
}

// Whether the cookie goes with a request to the URL at `now`.
pub(crate) fn is_given<'c>(
    alloc: Global,
    cookie: &'c Cookie<'static>,
    request_url: &Url,
    now: DateTime,
    last: &mut Option<Judged<'c>>,
) -> Result<bool, AllocError>
    requires { IsJudged last.old request_url.now }
    ensures given { IfOk result (λ given. IsTrue given
        ↔ IsGiven (stored_of cookie.now) request_url.now (civil_nanos now)) }
    ensures judged { IsJudged last.new request_url.now }
{
    if cookie.is_expired(now) || cookie.path.as_str().is_empty() || !cookie.matches(request_url) {
        return Ok(false);
    }
    covers(alloc, domain_text(cookie), request_url, last)
}
