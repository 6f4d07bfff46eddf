//! What one piece of a cookie's text gives.
ghost use Rattle.std.specs.Prelude.{◌≡◌, ◌≢◌, Some, None, ℕ, List, ℤ, MatchOption, option_copied, IsTrue, IsSome, ◌↔◌};
ghost use Rattle.std.specs.Prelude.{codes, pos, option_map};
ghost use Rattle.std.specs.Str.{str_to_ascii_lowercase};
ghost use Rattle.cookie_text.specs.Pieces.{name_of, value_of};
ghost use Rattle.cookie_text.specs.declared.attribute.Kind.{Kind as Kinds};
ghost use Rattle.cookie_text.specs.Attribute.{kind_name, small_name, AreDigits, IsSeconds, Attribute as Said, Gives};
ghost use Rattle.cookie_text.specs.Attribute.{Says, kind};
ghost use Rattle.cookie_text.specs.declared.draft.SameSite.{SameSite as Sites};
ghost use Rattle.cookie_text.specs.AttributeView.{attribute_view};

use crate::date::moment_of;
use crate::draft::SameSite;
use crate::trim::trimmed;
use jiff::civil::DateTime;

/// The name of an attribute.
#[derive(Clone, Copy, Debug)]
pub enum Kind {
    HttpOnly,
    Secure,
    Partitioned,
    SameSite,
    MaxAge,
    Path,
    Domain,
    Expires,
}

/// An attribute with its value.
#[derive(Clone, Copy, Debug)]
pub enum Attribute<'c> {
    HttpOnly,
    Secure,
    Partitioned,
    SameSite(SameSite),
    MaxAge(i64),
    Path(&'c str),
    Domain(&'c str),
    Expires(DateTime),
}

/// The name of a piece and its value, each without the white space round it.
#[tactic(auto, unfolding(crate::specs::Pieces::name_of, crate::specs::Pieces::value_of, crate::specs::Pieces::text_after))]
pub fn split_piece(piece: &str) -> (&str, Option<&str>)
    ensures name { result.0.now ≡ name_of piece.now }
    ensures value { option_copied result.1 ≡ value_of piece.now }
{
    match piece.split_once('=') {
        Some((name, value)) => (trimmed(name), Some(trimmed(value))),
        None => (trimmed(piece), None),
    }
}

/// The attribute of this name, in letters of any case.
pub fn kind_of(name: &str) -> Option<Kind>
    ensures { MatchOption result
        ((k : Kinds) → str_to_ascii_lowercase name.now ≢ kind_name k)
        (λ k. str_to_ascii_lowercase name.now ≡ kind_name k) }
{
    if name.eq_ignore_ascii_case("secure") {
        Some(Kind::Secure)
    } else if name.eq_ignore_ascii_case("httponly") {
        Some(Kind::HttpOnly)
    } else if name.eq_ignore_ascii_case("partitioned") {
        Some(Kind::Partitioned)
    } else if name.eq_ignore_ascii_case("samesite") {
        Some(Kind::SameSite)
    } else if name.eq_ignore_ascii_case("max-age") {
        Some(Kind::MaxAge)
    } else if name.eq_ignore_ascii_case("path") {
        Some(Kind::Path)
    } else if name.eq_ignore_ascii_case("domain") {
        Some(Kind::Domain)
    } else if name.eq_ignore_ascii_case("expires") {
        Some(Kind::Expires)
    } else {
        None
    }
}

/// The `SameSite` of this name, in letters of any case.
pub fn same_site_of(text: &str) -> Option<SameSite>
    ensures { MatchOption result
        ((s : Sites) → str_to_ascii_lowercase text.now ≢ small_name s)
        (λ s. str_to_ascii_lowercase text.now ≡ small_name s) }
{
    if text.eq_ignore_ascii_case("strict") {
        Some(SameSite::Strict)
    } else if text.eq_ignore_ascii_case("lax") {
        Some(SameSite::Lax)
    } else if text.eq_ignore_ascii_case("none") {
        Some(SameSite::None)
    } else {
        None
    }
}

/// Whether the text is one or more digits.
pub fn are_digits(text: &str) -> bool
    ensures { IsTrue result ↔ AreDigits text.now }
{
    !text.is_empty() && text.bytes().all(|b| b.is_ascii_digit())
}

/// The seconds of a max-age: digits, after a `-` none.
pub fn seconds_of(text: &str) -> Option<i64>
    ensures { MatchOption result ((z : ℤ) → ¬ (IsSeconds text.now z)) (λ z. IsSeconds text.now z) }
{
    match text.strip_prefix('-') {
        Some(digits) => { if are_digits(digits) { Some(0) } else { None } }
        None => {
            if !are_digits(text) {
                return None;
            }
            match text.parse::<i64>() {
                Ok(seconds) => Some(seconds),
                Err(_) => Some(i64::MAX),
            }
        }
    }
}

/// What an attribute of this name says.
pub fn attribute_named(name: Kind, value: Option<&str>) -> Option<Attribute<'_>>
    ensures { MatchOption result
        ((a : Said) → kind a ≡ name → ¬ (Says (option_copied value.entry) a))
        (λ a. (kind (attribute_view a) ≡ name)
        × Says (option_copied value.entry) (attribute_view a)) }
{
    match name {
        Kind::HttpOnly => Some(Attribute::HttpOnly),
        Kind::Secure => Some(Attribute::Secure),
        Kind::Partitioned => Some(Attribute::Partitioned),
        Kind::SameSite => Some(Attribute::SameSite(same_site_of(value?)?)),
        Kind::MaxAge => Some(Attribute::MaxAge(seconds_of(value?)?)),
        Kind::Path => Some(Attribute::Path(value?)),
        Kind::Domain => {
            let domain = value?;
            if domain.is_empty() {
                None
            } else {
                Some(Attribute::Domain(domain))
            }
        }
        Kind::Expires => Some(Attribute::Expires(moment_of(value?)?)),
    }
}

/// What a piece gives.
pub fn attribute_of(piece: &str) -> Option<Attribute<'_>>
    ensures { MatchOption result
        ((a : Said) → ¬ (Gives piece.now a))
        (λ a. Gives piece.now (attribute_view a)) }
{
    let (name, value) = split_piece(piece);
    let kind = kind_of(name)?;
    attribute_named(kind, value)
}
