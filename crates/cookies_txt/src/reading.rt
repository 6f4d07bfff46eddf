//! Rows of `cookies.txt`.
ghost use Rattle.std.specs.Prelude.{map, IfOk, IfErr};
ghost use Rattle.std.specs.Str.{IsUtf8};
ghost use Rattle.cookie_store.specs.StoredCookie.{stored_of};
ghost use Rattle.cookies_txt.specs.Reading as spec;

use crate::error::ReadError;
use crate::line::Line;
use cookie_store::Cookie;
use std::alloc::Global;

/// Reads the rows of a text, one for each line that names a cookie, in their order. Empty lines are passed over, and
/// those that begin with `#`, unless it is with `#HttpOnly_`. A carriage return before a line feed is dropped, and the
/// last line may lack its end.
///
/// A row's path counts as from an attribute. An expiry of 0 is none, and one after 9999-12-31T23:59:59 counts as that
/// moment. One dot in front of the domain is left out, whether or not the hosts below it count.
///
/// # Errors
///
/// `NotText` where the bytes aren't UTF-8, `Line` with the number of the first faulty line, counted from 1, and its
/// first fault; `OutOfMemory`.
pub fn read(alloc: Global, text: &[u8]) -> Result<Vec<Cookie<'static>>, ReadError>
    ensures ok { IfOk result (λ cookies. spec.GivesRows text.now (map stored_of cookies.items)) }
    ensures utf8 { IfOk result (λ _. IsUtf8 text.now) }
    ensures err { IfErr result (spec.IsBytesRefusal text.now) }
{
    match str::from_utf8(text) {
        Ok(text) => read_text(alloc, text),
        Err(_) => Err(ReadError::NotText),
    }
}

fn read_text(alloc: Global, text: &str) -> Result<Vec<Cookie<'static>>, ReadError>
    ensures ok { IfOk result (λ cookies. spec.GivesRows text.now (map stored_of cookies.items)) }
    ensures err { IfErr result (spec.IsReadRefusal text.now) }
{
    let mut cookies = Vec::new(alloc);
    let mut number = 0;
    for line in text.lines() {
        number += 1;
        match Line::parse(line) {
            Ok(Some(line)) => cookies.push(line.to_cookie(alloc)?)?,
            Ok(None) => {}
            Err(fault) => return Err(ReadError::Line(number, fault)),
        }
    }
    Ok(cookies)
}
