//! Cookies in the messages of a server: those of a request, and those of its answer.
ghost use Rattle.std.specs.Prelude.{◌≡◌, List, map, string_bytes, true, IfOk, OnOk, OnErr, IfErr};
ghost use Rattle.cookie_text.specs.Printing.{encoded};
ghost use Rattle.cookie_text.specs.Record.{Record};
ghost use Rattle.cookie_client.specs.Jar.{Holds, IsOpenedShown, lines_of};
ghost use Rattle.cookie_client.specs.Reading.{AreCookiesBy};
ghost use Rattle.http_cookies.specs.Fields.{header_in};
ghost use Rattle.http_cookies.specs.Messages.{AreNoLines, IsNoDelta, PutsDelta, PutsLines};

use crate::error::PutError;
use crate::fields::{header_in, put_line_texts};
use cookie::{Cookie, CookieJar, Delta, Key};
use cookie_client::Session;
use cookie_client::reading::header_jar;
use http::{HeaderMap, HeaderValue};
use std::alloc::{AllocError, Global};

/// A jar whose originals are the cookies of a request's `cookie` fields, and of which nothing was
/// changed.
///
/// The fields are read in their order, as one header, joined by `; ` (RFC 9113, section 8.2.3). That
/// is cut at each `;`. A piece is read as a pair whose name and value are percent-decoded; one that
/// isn't UTF-8, doesn't read or hides a prefix is passed over, and a later cookie takes the place of an
/// earlier one of its name.
///
/// # Errors
///
/// `AllocError` where there is no memory for the jar.
pub fn jar_of(alloc: Global, request: &HeaderMap<HeaderValue>) -> Result<CookieJar, AllocError>
    ensures { IfOk result (λ jar. (cookies : List Record)
        × AreCookiesBy true (header_in request.now) cookies × Holds cookies jar) }
{
    let header = header_in(alloc, request)?;
    header_jar(alloc, &header, true)
}

/// Appends a `set-cookie` field for each cookie that was added to the jar or removed from it, in no
/// promised order, behind those that are there. Name and value are escaped.
///
/// # Errors
///
/// `Value` where a line has a byte that no field value may have, as a control character in the path or
/// the domain of a cookie; then `Full` where the map has no room for one of them; `OutOfMemory` where
/// there is no memory. The map is unchanged then.
pub fn put_delta(
    alloc: Global,
    jar: &CookieJar,
    answer: &mut HeaderMap<HeaderValue>,
) -> Result<(), PutError>
    ensures ok { OnOk result (PutsDelta jar.now answer.old answer.new) }
    ensures err { IfErr result (IsNoDelta jar.now answer.old) }
    ensures same { OnErr result (answer.new ≡ answer.old) }
{
    let lines = lines_of(alloc, jar.delta())?;
    put_line_texts(answer, lines)
}

/// A session on a request's `cookie` fields, with the key that signs and seals.
///
/// The fields are read in their order, as one header, joined by `; ` (RFC 9113, section 8.2.3), as
/// [`Session::open_shown`] reads it.
///
/// # Errors
///
/// `AllocError` where there is no memory for the session.
pub fn session_of(
    alloc: Global,
    request: &HeaderMap<HeaderValue>,
    key: Key,
) -> Result<Session, AllocError>
    ensures { IfOk result (IsOpenedShown key (header_in request.now)) }
{
    let header = header_in(alloc, request)?;
    Session::open_shown(alloc, &header, key)
}

/// Appends the lines of [`Session::close`] as `set-cookie` fields, behind those that are there.
///
/// # Errors
///
/// `Full` where the map has no room for one of them; `OutOfMemory` where there is no memory. It is
/// never `Value`. The map is unchanged then.
pub fn put_lines(session: &Session, answer: &mut HeaderMap<HeaderValue>) -> Result<(), PutError>
    ensures ok { OnOk result (PutsLines session.now.jar answer.old answer.new) }
    ensures err { IfErr result (AreNoLines session.now.jar answer.old) }
    ensures same { OnErr result (answer.new ≡ answer.old) }
{
    match session.close() {
        Ok(lines) => put_line_texts(answer, lines),
        // The lines of a session are refused for want of memory alone.
        Err(_) => Err(PutError::OutOfMemory),
    }
}

// The line of each cookie.
fn lines_of(alloc: Global, cookies: Delta<'_>) -> Result<Vec<String>, AllocError>
    ensures { IfOk result (λ lines. map string_bytes lines.items ≡ lines_of cookies.entry) }
{
    let mut lines = Vec::new(alloc);
    for cookie in cookies {
        lines.push(line_of(alloc, cookie)?)?;
    }
    Ok(lines)
}

// The line of a cookie.
fn line_of(alloc: Global, cookie: &Cookie<'static>) -> Result<String, AllocError>
    ensures { IfOk result (λ line. string_bytes line ≡ encoded cookie.now.cookie) }
{
    let shown = cookie.encoded();
    format!(in alloc; "{shown}")
}
