//! What a cookie prints (RFC 6265, section 4.1.1).
ghost use Rattle.std.specs.Prelude.{◌≡◌, ◌++◌, Some, true, false, option_map, IfOk, OnOk, string_bytes};
ghost use Rattle.cookie_text.specs.AttributeView.{attribute_view};
ghost use Rattle.cookie_text.specs.Printing.{attribute_text, escaped, piece_text, site_name, printed};
ghost use Rattle.cookie_text.specs.Printing.{encoded_pair, printed_attributes, shown_text, stripped};

use crate::attribute::Attribute;
use crate::cookie::Cookie;
use crate::date_display::PrintedDate;
use crate::draft::SameSite;
use crate::escape::PROFILE;
use crate::print_len::{attributes_len, escaped_len, pair_len};
use percent_encoding::utf8_percent_encode;
use std::alloc::{AllocError, Global};
use std::fmt;
use std::marker::Model;

/// A view of a cookie that prints its name and value escaped, its pair alone, or both.
///
/// [`Cookie::encoded`] and [`Cookie::stripped`] make it. It prints by `Display`, so by `write!` and
/// `to_string`.
#[derive(Drop)]
pub struct Display<'a, 'c> {
    cookie: &'a Cookie<'c>,
    encode: bool,
    strip: bool,
}

impl<'a, 'c> Model for Display<'a, 'c> {
    ghost use Rattle.cookie_text.specs.Printing.{Shown};

    ghost Value = { Shown };

    ghost view = { λ d. record { cookie = d.cookie.now.cookie; encode = d.encode; strip = d.strip } };
}

impl<'a, 'c> Display<'a, 'c> {
    /// The same view, which prints name and value escaped.
    pub fn encoded(self) -> Display<'a, 'c>
        ensures { result ≡ record self.entry { encode = true } }
    {
        Display {
            cookie: self.cookie,
            encode: true,
            strip: self.strip,
        }
    }

    /// The same view, which prints the pair alone.
    pub fn stripped(self) -> Display<'a, 'c>
        ensures { result ≡ record self.entry { strip = true } }
    {
        Display {
            cookie: self.cookie,
            encode: self.encode,
            strip: true,
        }
    }

    /// What the view prints, in memory of about its length.
    ///
    /// # Errors
    ///
    /// Want of memory.
    pub fn to_string(&self, alloc: Global) -> Result<String, AllocError>
        ensures { IfOk result (λ text. string_bytes text ≡ shown_text self.now) }
    {
        let mut len = pair_len(self.cookie);
        if self.encode {
            len = escaped_len(len);
        }
        if !self.strip {
            len = len.saturating_add(attributes_len(self.cookie));
        }
        let mut text = String::with_capacity(alloc, len)?;
        if self.encode {
            push_escaped_pair(&mut text, self.cookie)?;
        } else {
            push_pair(&mut text, self.cookie)?;
        }
        if !self.strip {
            push_attributes(&mut text, self.cookie)?;
        }
        Ok(text)
    }
}

impl<'c> Cookie<'c> {
    /// What the cookie prints, in memory of about its length.
    ///
    /// # Errors
    ///
    /// Want of memory.
    pub fn to_string(&self, alloc: Global) -> Result<String, AllocError>
        ensures { IfOk result (λ text. string_bytes text ≡ printed self.now.cookie) }
    {
        let len = pair_len(self).saturating_add(attributes_len(self));
        let mut text = String::with_capacity(alloc, len)?;
        push_pair(&mut text, self)?;
        push_attributes(&mut text, self)?;
        Ok(text)
    }

    /// A view that prints the cookie with its name and value percent-escaped.
    ///
    /// Escaped are the control characters, every byte past ASCII, the space, and
    /// `` " < > ` # ? { } / : ; = @ [ \ ] ^ | % ( ) , ``.
    pub fn encoded<'a>(&'a self) -> Display<'a, 'c>
        ensures { result ≡ record { cookie = self.now.cookie; encode = true; strip = false } }
    {
        Display {
            cookie: self,
            encode: true,
            strip: false,
        }
    }

    /// A view that prints `name=value` without the attributes.
    pub fn stripped<'a>(&'a self) -> Display<'a, 'c>
        ensures { result ≡ record { cookie = self.now.cookie; encode = false; strip = true } }
    {
        Display {
            cookie: self,
            encode: false,
            strip: true,
        }
    }
}

// Adds `name=value`.
fn push_pair(text: &mut String, cookie: &Cookie<'_>) -> Result<(), AllocError>
    ensures { OnOk result (string_bytes text.new ≡ string_bytes text.old ++ stripped cookie.now.cookie) }
{
    text.push_str(cookie.name())?;
    text.push_str("=")?;
    text.push_str(cookie.value())?;
    Ok(())
}

// Adds `name=value`, both escaped.
fn push_escaped_pair(text: &mut String, cookie: &Cookie<'_>) -> Result<(), AllocError>
    ensures { OnOk result (string_bytes text.new
        ≡ string_bytes text.old ++ stripped (encoded_pair cookie.now.cookie)) }
{
    utf8_percent_encode(cookie.name(), PROFILE).append_to(text)?;
    text.push_str("=")?;
    utf8_percent_encode(cookie.value(), PROFILE).append_to(text)?;
    Ok(())
}

// Adds the attributes, each behind a semicolon.
fn push_attributes(text: &mut String, cookie: &Cookie<'_>) -> Result<(), AllocError>
    ensures { OnOk result (string_bytes text.new
        ≡ string_bytes text.old ++ printed_attributes cookie.now.cookie) }
{
    if cookie.is_bare() {
        return Ok(());
    }
    push_piece(text, &cookie.http_only_printed())?;
    push_piece(text, &cookie.same_site_printed())?;
    push_piece(text, &cookie.partitioned_printed())?;
    push_piece(text, &cookie.secure_printed())?;
    push_piece(text, &cookie.path_printed())?;
    push_piece(text, &cookie.domain_printed())?;
    push_piece(text, &cookie.max_age_printed())?;
    push_piece(text, &cookie.expires_printed())?;
    Ok(())
}

// Adds an attribute behind a semicolon, or nothing.
fn push_piece(text: &mut String, attribute: &Option<Attribute<'_>>) -> Result<(), AllocError>
    ensures { OnOk result (string_bytes text.new
        ≡ string_bytes text.old ++ piece_text (option_map attribute_view attribute.now)) }
{
    if let Some(attribute) = attribute {
        text.push_str("; ")?;
        text.write(attribute)?;
    }
    Ok(())
}

impl fmt::Display for Display<'_, '_> {
    ghost output = { λ d. Some (shown_text d) };

    fn fmt<W: fmt::Write>(&self, f: &mut fmt::Formatter<W>) -> fmt::Result {
        let name = self.cookie.name();
        let value = self.cookie.value();
        if self.encode {
            let name = Escaped(name);
            let value = Escaped(value);
            write!(f, "{name}={value}")?;
        } else {
            write!(f, "{name}={value}")?;
        }
        if self.strip {
            return Ok(());
        }
        let attributes = Attributes(self.cookie);
        write!(f, "{attributes}")
    }
}

// A name or a value with its bytes of the profile percent-escaped.
#[derive(Drop)]
struct Escaped<'t>(&'t str);

impl fmt::Display for Escaped<'_> {
    ghost output = { λ e. Some (escaped e.0.now) };

    fn fmt<W: fmt::Write>(&self, f: &mut fmt::Formatter<W>) -> fmt::Result {
        let text = utf8_percent_encode(self.0, PROFILE);
        write!(f, "{text}")
    }
}

/// Prints `name=value` and the attributes, nothing of it escaped.
impl fmt::Display for Cookie<'_> {
    ghost output = { λ c. Some (printed c.cookie) };

    fn fmt<W: fmt::Write>(&self, f: &mut fmt::Formatter<W>) -> fmt::Result {
        let name = self.name();
        let value = self.value();
        let attributes = Attributes(self);
        write!(f, "{name}={value}{attributes}")
    }
}

// The attributes of a cookie, each behind a semicolon.
#[derive(Drop)]
struct Attributes<'a, 'c>(&'a Cookie<'c>);

impl fmt::Display for Attributes<'_, '_> {
    ghost output = { λ a. Some (printed_attributes a.0.now.cookie) };

    fn fmt<W: fmt::Write>(&self, f: &mut fmt::Formatter<W>) -> fmt::Result {
        let cookie = self.0;
        let http_only = Piece(cookie.http_only_printed());
        let same_site = Piece(cookie.same_site_printed());
        let partitioned = Piece(cookie.partitioned_printed());
        let secure = Piece(cookie.secure_printed());
        write!(f, "{http_only}{same_site}{partitioned}{secure}")?;
        let path = Piece(cookie.path_printed());
        let domain = Piece(cookie.domain_printed());
        let max_age = Piece(cookie.max_age_printed());
        let expires = Piece(cookie.expires_printed());
        write!(f, "{path}{domain}{max_age}{expires}")
    }
}

// An attribute behind a semicolon, or nothing.
#[derive(Drop)]
struct Piece<'a>(Option<Attribute<'a>>);

impl fmt::Display for Piece<'_> {
    ghost output = { λ p. Some (piece_text (option_map attribute_view p.0)) };

    fn fmt<W: fmt::Write>(&self, f: &mut fmt::Formatter<W>) -> fmt::Result {
        match &self.0 {
            Some(attribute) => write!(f, "; {attribute}"),
            None => Ok(()),
        }
    }
}

impl fmt::Display for Attribute<'_> {
    ghost output = { λ a. Some (attribute_text (attribute_view a)) };

    fn fmt<W: fmt::Write>(&self, f: &mut fmt::Formatter<W>) -> fmt::Result {
        match self {
            Attribute::HttpOnly => write!(f, "HttpOnly"),
            Attribute::Secure => write!(f, "Secure"),
            Attribute::Partitioned => write!(f, "Partitioned"),
            Attribute::SameSite(same_site) => write!(f, "SameSite={same_site}"),
            Attribute::MaxAge(seconds) => write!(f, "Max-Age={seconds}"),
            Attribute::Path(path) => write!(f, "Path={path}"),
            Attribute::Domain(domain) => write!(f, "Domain={domain}"),
            Attribute::Expires(moment) => {
                let date = PrintedDate(*moment);
                write!(f, "Expires={date}")
            }
        }
    }
}

/// Prints the variant's name.
impl fmt::Display for SameSite {
    ghost output = { λ s. Some (site_name s) };

    fn fmt<W: fmt::Write>(&self, f: &mut fmt::Formatter<W>) -> fmt::Result {
        match self {
            SameSite::Strict => write!(f, "Strict"),
            SameSite::Lax => write!(f, "Lax"),
            SameSite::None => write!(f, "None"),
        }
    }
}
