//! The store of a jar's text.
ghost use Rattle.std.specs.Prelude.{◌≡◌, ◌≢◌, ◌⊎◌, false, IfOk, IfErr, map};
ghost use Rattle.jiff.specs.Words.{civil_nanos};
ghost use Rattle.cookie_store.specs.Placing.{loaded_store};
ghost use Rattle.cookie_store.specs.StoredCookie.{stored_of};
ghost use Rattle.cookies_txt.specs.declared.error.ReadError.TheVariants as lines;
ghost use Rattle.cookie_jar.specs.Reading as spec;

use crate::error::ReadError;
use crate::form::Form;
use cookie_store::serde::{json, ron};
use cookie_store::{Cookie, CookieStore, Counting, Error};
use jiff::civil::DateTime;
use std::alloc::{AllocError, Global};

/// The store of the rows that a text says and that aren't expired at `now`.
pub(crate) fn read(
    alloc: Global,
    form: Form,
    text: &[u8],
    now: DateTime,
) -> Result<CookieStore, ReadError>
    ensures ok { IfOk result (spec.Reads form (civil_nanos now) text.now) }
    ensures err { IfErr result (spec.IsUnread form text.now) }
{
    match form {
        Form::Ron => read_ron(alloc, text, now),
        Form::Json => read_json(alloc, text, now),
        Form::Txt => read_txt(alloc, text, now),
    }
}

fn read_ron(alloc: Global, text: &[u8], now: DateTime) -> Result<CookieStore, ReadError>
    ensures ok { IfOk result (spec.Reads Form.Ron (civil_nanos now) text.now) }
    ensures err { IfErr result (spec.IsUnread Form.Ron text.now) }
{
    match ron::load(alloc, &mut Counting::new(text), now) {
        Ok(store) => Ok(store),
        Err(cause) => Err(unread(cause)),
    }
}

fn read_json(alloc: Global, text: &[u8], now: DateTime) -> Result<CookieStore, ReadError>
    ensures ok { IfOk result (spec.Reads Form.Json (civil_nanos now) text.now) }
    ensures err { IfErr result (spec.IsUnread Form.Json text.now) }
{
    match json::load(alloc, &mut Counting::new(text), now) {
        Ok(store) => Ok(store),
        Err(cause) => Err(unread(cause)),
    }
}

// What a refusal to load a text is told as. No read of a text in memory fails.
fn unread(cause: Error) -> ReadError
    ensures { ((result ≡ ReadError.OutOfMemory) × ((cause ≡ Error.Io) ⊎ (cause ≡ Error.OutOfMemory)))
        ⊎ ((result ≢ ReadError.OutOfMemory) × (cause ≢ Error.Io) × (cause ≢ Error.OutOfMemory)) }
{
    match cause {
        Error::Io | Error::OutOfMemory => ReadError::OutOfMemory,
        cause => ReadError::Saved(cause),
    }
}

fn read_txt(alloc: Global, text: &[u8], now: DateTime) -> Result<CookieStore, ReadError>
    ensures ok { IfOk result (spec.Reads Form.Txt (civil_nanos now) text.now) }
    ensures err { IfErr result (spec.IsUnread Form.Txt text.now) }
{
    match cookies_txt::read(alloc, text) {
        Ok(cookies) => Ok(placed(alloc, cookies, now)?),
        Err(cause) => Err(unread_lines(cause)),
    }
}

// What a refusal to read lines is told as.
fn unread_lines(cause: cookies_txt::ReadError) -> ReadError
    ensures { ((result ≡ ReadError.OutOfMemory) × (cause ≡ lines.OutOfMemory))
        ⊎ ((result ≢ ReadError.OutOfMemory) × (cause ≢ lines.OutOfMemory)) }
{
    match cause {
        cookies_txt::ReadError::OutOfMemory => ReadError::OutOfMemory,
        cause => ReadError::Lines(cause),
    }
}

// The store of these cookies without those that are expired at `now`.
pub(crate) fn placed(
    alloc: Global,
    cookies: Vec<Cookie<'static>>,
    now: DateTime,
) -> Result<CookieStore, AllocError>
    ensures { IfOk result (λ store. store
        ≡ loaded_store false (civil_nanos now) (map stored_of cookies.entry.items)) }
{
    let mut given = Vec::new(alloc);
    for cookie in cookies {
        given.push(Ok(cookie))?;
    }
    match CookieStore::from_cookies(alloc, given.into_iter(), false, now) {
        Ok(store) => Ok(store),
        // Each of them is a cookie, so only memory was refused.
        Err(_) => Err(AllocError),
    }
}
