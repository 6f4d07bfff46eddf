//! The `Cookie` header of a request behind rules, of which two leave cookies out of it.
ghost use Rattle.std.specs.Prelude.{◌≡◌, IfOk, map, string_bytes};
ghost use Rattle.jiff.specs.Words.{civil_nanos};
ghost use Rattle.cookie_store.specs.Given.{lent_row, pair_of};
ghost use Rattle.cookie_store.specs.StoredCookie.{stored_of};
ghost use Rattle.cookie_client.specs.Header as client;
ghost use Rattle.user_agent.specs.Headers as spec;
ghost use Rattle.user_agent.specs.SecureWins as win;

use crate::judging::has_control;
use crate::rules::Rules;
use crate::secure_wins::winners;
use cookie_client::client::header_of;
use cookie_store::{Cookie, CookieStore};
use jiff::civil::DateTime;
use std::alloc::{AllocError, Global};
use url::Url;

/// The header of a request to this URL at `now` from a store behind these rules, whatever starts it.
pub fn header_at(
    alloc: Global,
    store: &CookieStore,
    rules: &Rules,
    url: &Url,
    now: DateTime,
) -> Result<String, AllocError>
    ensures { IfOk result (λ header.
        spec.IsHeaderBehind rules.now store.now.rows url.now (civil_nanos now) (string_bytes header)) }
{
    // A URL that was parsed is valid, whatever is done with it.
    let _path = url.path();
    let given = store.matches_longest(url, now)?;
    header_text(alloc, rules, given)
}

/// The header of a request that is given these cookies, in their order.
pub fn header_text(
    alloc: Global,
    rules: &Rules,
    given: Vec<&Cookie<'static>>,
) -> Result<String, AllocError>
    ensures { IfOk result (λ header. string_bytes header
        ≡ client.header_of (map pair_of (spec.shown rules.now (map lent_row given.entry.items)))) }
{
    header_of(alloc, shown(alloc, rules, given)?)
}

// Those of these cookies that the header shows, in their order.
fn shown<'c>(
    alloc: Global,
    rules: &Rules,
    given: Vec<&'c Cookie<'static>>,
) -> Result<Vec<&'c Cookie<'static>>, AllocError>
    ensures { IfOk result (λ left.
        map lent_row left.items ≡ spec.shown rules.now (map lent_row given.entry.items)) }
{
    let winning = winning(alloc, rules, given)?;
    if rules.control {
        without_controls(alloc, winning)
    } else {
        Ok(winning)
    }
}

// Those that win, where Secure ones do, else all.
fn winning<'c>(
    alloc: Global,
    rules: &Rules,
    given: Vec<&'c Cookie<'static>>,
) -> Result<Vec<&'c Cookie<'static>>, AllocError>
    ensures { IfOk result (λ left. map lent_row left.items
        ≡ spec.left_if rules.now.secure_wins win.winners (map lent_row given.entry.items)) }
{
    if rules.secure_wins {
        winners(alloc, given)
    } else {
        Ok(given)
    }
}

// Those without a control character in name or value, in their order.
fn without_controls<'c>(
    alloc: Global,
    cookies: Vec<&'c Cookie<'static>>,
) -> Result<Vec<&'c Cookie<'static>>, AllocError>
    ensures { IfOk result (λ left. map lent_row left.items ≡ spec.free_rows (map lent_row cookies.entry.items)) }
{
    let mut left = Vec::new(alloc);
    for cookie in cookies {
        if is_free(cookie) {
            left.push(cookie)?;
        }
    }
    Ok(left)
}

// Whether no control character stands in the cookie's name or value.
fn is_free(cookie: &Cookie<'static>) -> bool
    ensures { result ≡ spec.is_free (stored_of cookie.now) }
{
    let (name, value) = cookie.raw().name_value();
    !(has_control(name.as_bytes()) || has_control(value.as_bytes()))
}
