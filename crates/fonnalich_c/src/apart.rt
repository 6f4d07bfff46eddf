//! A cookie read into its parts.
ghost use Rattle.std.specs.Prelude.{◌≡◌, ◌++◌, IfOk, IfErr, OnOk, option_copied};
ghost use Rattle.fonnalich_c.specs.Items.{reading_text};
ghost use Rattle.fonnalich_c.specs.Parts as spec;

use crate::attributes::{Attributes, attributes_of};
use crate::item::{push_item, push_none};
use crate::refusal::Refusal;
use cookie::{Cookie, ParseError};
use std::alloc::{AllocError, Global};

/// Reads a cookie, its name and value percent-decoded where `decode` says so: the items of its name, its value, its
/// path and its domain, and its attributes.
pub(crate) fn apart(
    alloc: Global,
    decode: bool,
    text: &[u8],
) -> Result<(Vec<u8>, Attributes), Refusal>
    ensures ok { IfOk result (λ parts. spec.AreParts decode text.now parts.0.items parts.1) }
    ensures err { IfErr result (spec.IsNoParts decode text.now) }
{
    let cookie = cookie_of(alloc, decode, text)?;
    let texts = texts_of(alloc, &cookie)?;
    Ok((texts, attributes_of(&cookie)))
}

// The cookie of a text.
fn cookie_of<'c>(alloc: Global, decode: bool, text: &'c [u8]) -> Result<Cookie<'c>, Refusal>
    ensures ok { IfOk result (spec.IsCookie decode text.now) }
    ensures err { IfErr result (spec.IsUnread decode text.now) }
{
    let Ok(text) = str::from_utf8(text) else {
        return Err(Refusal::Text);
    };
    match read(alloc, decode, text) {
        Ok(cookie) => Ok(cookie),
        Err(error) => Err(unread(error)),
    }
}

fn read<'c>(alloc: Global, decode: bool, text: &'c str) -> Result<Cookie<'c>, ParseError>
    ensures { spec.Reads decode text.now result }
{
    if decode {
        Cookie::parse_encoded(alloc, text)
    } else {
        Cookie::parse(text)
    }
}

// What a refusal to read a cookie is told as.
fn unread(error: ParseError) -> Refusal
    ensures { result ≡ spec.unread_as error }
{
    match error {
        ParseError::MissingPair => Refusal::Pair,
        ParseError::EmptyName => Refusal::EmptyName,
        ParseError::Utf8Error => Refusal::Text,
        ParseError::OutOfMemory => Refusal::Memory,
    }
}

fn texts_of(alloc: Global, cookie: &Cookie<'_>) -> Result<Vec<u8>, AllocError>
    ensures { IfOk result (λ texts. texts.items ≡ spec.texts_of cookie.now.cookie) }
{
    let mut texts = Vec::new(alloc);
    push_item(&mut texts, cookie.name().as_bytes())?;
    push_item(&mut texts, cookie.value().as_bytes())?;
    push_text(&mut texts, cookie.path())?;
    push_text(&mut texts, cookie.domain())?;
    Ok(texts)
}

fn push_text(texts: &mut Vec<u8>, text: Option<&str>) -> Result<(), AllocError>
    ensures { OnOk result (texts.new.items ≡ texts.old.items ++ reading_text (option_copied text.entry)) }
{
    match text {
        Some(text) => push_item(texts, text.as_bytes()),
        None => push_none(texts),
    }
}
