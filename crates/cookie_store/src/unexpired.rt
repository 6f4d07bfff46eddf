//! The rows of a store that are not expired.

ghost use Rattle.std.specs.Prelude.{◌≡◌, length};
ghost use Rattle.std.specs.Iterator.{at_most};
ghost use Rattle.std.specs.Map.Iter.{TakesFirst};
ghost use Rattle.jiff.specs.Words.{civil_nanos};
ghost use Rattle.cookie_store.specs.Given.{lent_row};
ghost use Rattle.cookie_store.specs.Rows.{live};

use crate::rows::IterAny;
use crate::stored_cookie::Cookie;
use jiff::civil::DateTime;
use std::marker::Model;

/// The cookies of a store that are not expired at a moment, in the order of its rows.
#[derive(Drop)]
pub struct IterUnexpired<'a> {
    cookies: IterAny<'a>,
    now: DateTime,
}

impl<'a> Model for IterUnexpired<'a> {
    ghost use Rattle.std.specs.Prelude.{List};
    ghost use Rattle.jiff.specs.Words.{civil_nanos};
    ghost use Rattle.cookie_store.specs.Rows.{Row, live};

    ghost Value = { List Row };

    ghost view = { λ i. live (civil_nanos i.now) i.cookies };
}

impl<'a> IterUnexpired<'a> {
    pub(crate) fn new(cookies: IterAny<'a>, now: DateTime) -> IterUnexpired<'a>
        ensures { result ≡ live (civil_nanos now) cookies.entry }
    {
        IterUnexpired { cookies, now }
    }
}

impl<'a> Iterator for IterUnexpired<'a> {
    type Item = &'a Cookie<'static>;

    ghost next_gives = { TakesFirst lent_row };

    ghost remaining = { λ s. at_most (length s) };

    fn next(&mut self) -> Option<&'a Cookie<'static>> {
        next_live(&mut self.cookies, self.now)
    }
}

// The first of the cookies that are not expired.
fn next_live<'a>(cookies: &mut IterAny<'a>, now: DateTime) -> Option<&'a Cookie<'static>>
    ensures { TakesFirst lent_row (live (civil_nanos now) cookies.old) result
        (live (civil_nanos now) cookies.new) }
{
    while let Some(cookie) = cookies.next() {
        if !cookie.is_expired(now) {
            return Some(cookie);
        }
    }
    None
}
