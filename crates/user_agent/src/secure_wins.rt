//! Which of the cookies that a request is given its header has, where Secure ones win.
ghost use Rattle.std.specs.Prelude.{◌≡◌, ℕ, List, IfOk, map};
ghost use Rattle.std.specs.List.{list_any};
ghost use Rattle.percent_encoding.specs.Percent.{percent_decode};
ghost use Rattle.cookie_store.specs.Given.{lent_row};
ghost use Rattle.cookie_store.specs.StoredCookie.{stored_of};
ghost use Rattle.user_agent.specs.SecureWins as spec;

use crate::judging::is_marked_secure;
use cookie_store::Cookie;
use percent_encoding::percent_decode;
use std::alloc::{AllocError, Global};
use std::collections::BTreeSet;

/// The cookies that win, in their order: each that is Secure, and each other whose decoded name no Secure one of them
/// has.
pub fn winners<'c>(
    alloc: Global,
    cookies: Vec<&'c Cookie<'static>>,
) -> Result<Vec<&'c Cookie<'static>>, AllocError>
    ensures { IfOk result (λ left. map lent_row left.items ≡ spec.winners (map lent_row cookies.entry.items)) }
{
    let names = secure_names(alloc, &cookies)?;
    let mut left = Vec::new(alloc);
    for cookie in cookies {
        if wins(alloc, &names, cookie)? {
            left.push(cookie)?;
        }
    }
    Ok(left)
}

// The decoded names of the Secure ones.
fn secure_names(
    alloc: Global,
    cookies: &Vec<&Cookie<'static>>,
) -> Result<BTreeSet<Vec<u8>>, AllocError>
    ensures { IfOk result (λ names. (name : List ℕ)
        → spec.is_in names name ≡ list_any (spec.is_secure_of name) (map lent_row cookies.now.items)) }
{
    let mut names = BTreeSet::new(alloc);
    for i in 0..cookies.len() {
        let cookie = cookies[i];
        if is_marked_secure(cookie.raw()) {
            names.insert(decoded(alloc, cookie.raw().name())?)?;
        }
    }
    Ok(names)
}

// Whether the cookie is Secure, or its decoded name is none of these.
fn wins(
    alloc: Global,
    names: &BTreeSet<Vec<u8>>,
    cookie: &Cookie<'static>,
) -> Result<bool, AllocError>
    ensures { IfOk result (λ wins. wins ≡ spec.wins_beside (spec.is_in names.now) (stored_of cookie.now)) }
{
    if is_marked_secure(cookie.raw()) {
        return Ok(true);
    }
    let name = decoded(alloc, cookie.raw().name())?;
    Ok(!names.contains(name.as_slice()))
}

/// The text, percent-decoded.
pub fn decoded(alloc: Global, text: &str) -> Result<Vec<u8>, AllocError>
    ensures { IfOk result (λ bytes. bytes.items ≡ percent_decode text.now) }
{
    let mut bytes = Vec::new(alloc);
    percent_decode(text.as_bytes()).append_to(&mut bytes)?;
    Ok(bytes)
}
