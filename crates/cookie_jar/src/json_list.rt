//! Rows in JSON.

use crate::terminal::Shown;
use cookie_store::{Cookie, CookieDomain};
use cookies_txt::expiry_second;
use json::Writer;
use std::alloc::{AllocError, Global};

/// An array with an object of each cookie, in their order, and a line feed. No other character on which a terminal acts
/// stands in it: such ones are escaped.
///
/// # Errors
///
/// `AllocError` where there is no memory for the text.
pub(crate) fn rows_json(
    alloc: Global,
    cookies: Vec<&Cookie<'static>>,
) -> Result<Shown, AllocError> {
    let bytes = rows_text(alloc, cookies)?;
    let Ok(text) = String::from_utf8(bytes) else {
        // What a writer of JSON writes is UTF-8.
        return Err(AllocError);
    };
    let mut shown = Shown::new(alloc);
    shown.text(text.as_str())?;
    shown.words("\n")?;
    Ok(shown)
}

fn rows_text(alloc: Global, cookies: Vec<&Cookie<'static>>) -> Result<Vec<u8>, AllocError> {
    let mut writer = Writer::new(Vec::new(alloc));
    writer.begin_array()?;
    for cookie in cookies {
        write_row(&mut writer, cookie)?;
    }
    writer.end_array()?;
    Ok(writer.into_inner())
}

fn write_row(writer: &mut Writer, cookie: &Cookie<'static>) -> Result<(), AllocError> {
    let raw = cookie.raw();
    writer.begin_object()?;
    write_text(writer, "domain", cookie.domain.as_cow().unwrap_or(""))?;
    write_flag(
        writer,
        "hosts_below",
        matches!(cookie.domain, CookieDomain::Suffix(_)),
    )?;
    write_text(writer, "path", cookie.path.as_str())?;
    write_text(writer, "name", raw.name())?;
    write_text(writer, "value", raw.value())?;
    write_second(writer, "expires", expiry_second(cookie.expires))?;
    write_flag(writer, "secure", raw.secure().unwrap_or(false))?;
    write_flag(writer, "http_only", raw.http_only().unwrap_or(false))?;
    writer.end_object()
}

fn write_text(writer: &mut Writer, name: &str, text: &str) -> Result<(), AllocError> {
    writer.key(name)?;
    writer.string(text)
}

fn write_flag(writer: &mut Writer, name: &str, flag: bool) -> Result<(), AllocError> {
    writer.key(name)?;
    writer.boolean(flag)
}

// The second of an expiry, and `null` for 0, which is none.
fn write_second(writer: &mut Writer, name: &str, second: u64) -> Result<(), AllocError> {
    writer.key(name)?;
    if second == 0 {
        writer.null()
    } else {
        writer.u64(second)
    }
}
