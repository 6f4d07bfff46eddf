//! The table of rows.
ghost use Rattle.std.specs.Prelude.{◌≡◌, ◌++◌, OnOk};
ghost use Rattle.cookie_store.specs.StoredCookie.{stored_of};
ghost use Rattle.cookie_jar.specs.Asking.{domain_field};
ghost use Rattle.cookie_jar.specs.Terminal.{ArePlain};

use crate::expiry::{push_expires, push_left};
use crate::terminal::Shown;
use cookie_store::{Cookie, CookieDomain};
use jiff::civil::DateTime;
use std::alloc::{AllocError, Global};

/// How rows are listed.
#[derive(Clone, Copy, Debug, PartialEq, Eq)]
pub enum Layout {
    /// In a table.
    Table,
    /// In an array of JSON.
    Json,
}

const HEAD: &str = "domain\tpath\tname\tvalue\texpires\tin\tsecure\thttponly\n";

/// A line of the columns' names, and a line of each cookie, in their order: domain with a dot in front where the hosts
/// below it count, path, name, value, the moment of its expiry in UTC or `session`, in how long that is, in the largest
/// whole one of the units `d`, `h`, `m` and `s`, or `-`, `Secure` or `-`, `HttpOnly` or `-`, parted by tabs. Of the
/// texts each byte that isn't printable ASCII, and `%`, stands as `%` and two digits.
///
/// # Errors
///
/// `AllocError` where there is no memory for the text.
pub(crate) fn listing(
    alloc: Global,
    cookies: Vec<&Cookie<'static>>,
    now: DateTime,
) -> Result<Shown, AllocError> {
    let mut text = Shown::new(alloc);
    text.words(HEAD)?;
    for cookie in cookies {
        push_row(alloc, &mut text, cookie, now)?;
    }
    Ok(text)
}

fn push_row(
    alloc: Global,
    text: &mut Shown,
    cookie: &Cookie<'static>,
    now: DateTime,
) -> Result<(), AllocError> {
    push_key(text, cookie)?;
    push_field(text, cookie.raw().value())?;
    text.words("\t")?;
    push_expires(alloc, text, cookie.expires)?;
    text.words("\t")?;
    push_left(text, cookie.expires, now)?;
    push_flags(text, cookie)
}

/// Domain, path and name, parted by tabs.
pub(crate) fn push_key(text: &mut Shown, cookie: &Cookie<'static>) -> Result<(), AllocError> {
    push_domain(text, cookie)?;
    push_field(text, cookie.path.as_str())?;
    push_field(text, cookie.raw().name())
}

fn push_flags(text: &mut Shown, cookie: &Cookie<'static>) -> Result<(), AllocError> {
    let raw = cookie.raw();
    text.words("\t")?;
    text.words(flag_text("Secure", raw.secure().unwrap_or(false)))?;
    text.words("\t")?;
    text.words(flag_text("HttpOnly", raw.http_only().unwrap_or(false)))?;
    text.words("\n")
}

/// The domain, with a dot in front where the hosts below it count.
pub(crate) fn push_domain(text: &mut Shown, cookie: &Cookie<'static>) -> Result<(), AllocError>
    ensures { OnOk result (text.new ≡ text.old ++ domain_field (stored_of cookie.now)) }
{
    if matches!(cookie.domain, CookieDomain::Suffix(_)) {
        text.words(".")?;
    }
    text.bytes(cookie.domain.as_cow().unwrap_or("").as_bytes())
}

// A field behind a tab.
fn push_field(text: &mut Shown, field: &str) -> Result<(), AllocError> {
    text.words("\t")?;
    text.bytes(field.as_bytes())
}

fn flag_text(name: &'static str, flag: bool) -> &'static str
    requires { ArePlain name.now }
    ensures { ArePlain result.now }
{
    if flag { name } else { "-" }
}
