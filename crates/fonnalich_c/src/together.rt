//! A cookie printed from its parts.
ghost use Rattle.std.specs.Prelude.{◌≡◌, ◌<◌, None, true, IfOk, IfErr, MatchOption, option_copied, option_map};
ghost use Rattle.std.specs.Prelude.{string_bytes};
ghost use Rattle.std.specs.Str.{IsUtf8};
ghost use Rattle.jiff.specs.Words.{civil_nanos, signed_nanos};
ghost use Rattle.cookie_text.specs.Setting.{SetsExpires, with_domain, with_expires, with_path};
ghost use Rattle.cookie_text.specs.declared.expiration.Expiration.TheVariants.{DateTime as At};
ghost use Rattle.fonnalich_c.specs.Faults.{IsFirst};
ghost use Rattle.fonnalich_c.specs.Given.{nanos_of};
ghost use Rattle.fonnalich_c.specs.Parts as spec;

use crate::attributes::Attributes;
use crate::given::moment;
use crate::refusal::Refusal;
use cookie::{Cookie, Expiration, SameSite};
use jiff::SignedDuration;
use jiff::civil::DateTime;
use std::alloc::{AllocError, Global};
use std::marker::Model;

/// The texts of a cookie's parts.
#[derive(Drop)]
pub(crate) struct Texts<'t> {
    pub name: &'t [u8],
    pub value: &'t [u8],
    pub path: &'t [u8],
    pub domain: &'t [u8],
}

impl<'t> Model for Texts<'t> {
    ghost use Rattle.fonnalich_c.specs.Parts.{Texts};

    ghost Value = { Texts };

    ghost view = { λ t. record { name = t.name.now; value = t.value.now; path = t.path.now; domain = t.domain.now } };
}

/// Prints the cookie of these parts, its name and value percent-encoded where `encode` says so.
pub(crate) fn together(
    alloc: Global,
    encode: bool,
    attributes: &Attributes,
    texts: Texts<'_>,
) -> Result<String, Refusal>
    ensures ok { IfOk result (λ line.
        spec.IsPrinted encode attributes.now texts.entry (string_bytes line)) }
    ensures err { IfErr result (spec.IsUnprinted attributes.now texts.entry) }
{
    let cookie = made(attributes, texts)?;
    Ok(printed(alloc, encode, &cookie)?)
}

fn printed(alloc: Global, encode: bool, cookie: &Cookie<'_>) -> Result<String, AllocError>
    ensures { IfOk result (λ line. string_bytes line ≡ spec.line_of encode cookie.now.cookie) }
{
    if encode {
        cookie.encoded().to_string(alloc)
    } else {
        cookie.to_string(alloc)
    }
}

// The cookie of these parts.
fn made<'t>(attributes: &Attributes, texts: Texts<'t>) -> Result<Cookie<'t>, Refusal>
    ensures ok { IfOk result (λ cookie. spec.IsMade attributes.now texts.entry cookie.cookie) }
    ensures err { IfErr result (IsFirst (spec.IsUnmade attributes.now texts.entry)) }
{
    let end = end(attributes)?;
    let name = text(texts.name)?;
    let value = text(texts.value)?;
    let path = text_where(attributes.has_path, texts.path)?;
    let domain = text_where(attributes.has_domain, texts.domain)?;
    let site = site(attributes.same_site)?;
    let mut cookie = Cookie::new(name, value);
    put_path(&mut cookie, path);
    put_domain(&mut cookie, domain);
    put_attributes(&mut cookie, attributes, site);
    put_end(&mut cookie, end);
    Ok(cookie)
}

fn put_path<'c>(cookie: &mut Cookie<'c>, path: Option<&'c str>)
    ensures { cookie.new ≡ with_path cookie.old (option_copied path.entry) }
{
    match path {
        Some(path) => cookie.set_path(path),
        None => cookie.unset_path(),
    }
}

fn put_domain<'c>(cookie: &mut Cookie<'c>, domain: Option<&'c str>)
    ensures { cookie.new ≡ with_domain cookie.old (option_copied domain.entry) }
{
    match domain {
        Some(domain) => cookie.set_domain(domain),
        None => cookie.unset_domain(),
    }
}

// Sets all that has neither a text nor a moment.
fn put_attributes(cookie: &mut Cookie<'_>, attributes: &Attributes, site: Option<SameSite>)
    ensures { cookie.new ≡ spec.with_attributes cookie.old attributes.now site }
{
    cookie.set_http_only(flag(attributes.http_only));
    cookie.set_secure(flag(attributes.secure));
    cookie.set_partitioned(flag(attributes.partitioned));
    cookie.set_same_site(site);
    cookie.set_max_age(age(attributes.has_max_age, attributes.max_age));
}

fn put_end(cookie: &mut Cookie<'_>, end: Option<DateTime>)
    ensures { MatchOption end (cookie.new ≡ with_expires cookie.old None)
        (λ at. SetsExpires cookie.old (At at) cookie.new) }
{
    match end {
        Some(at) => cookie.set_expires(Expiration::DateTime(at)),
        None => cookie.unset_expires(),
    }
}

fn flag(is: bool) -> Option<bool>
    ensures { result ≡ spec.counted is true }
{
    if is { Some(true) } else { None }
}

fn age(has: bool, seconds: i64) -> Option<SignedDuration>
    ensures { option_map signed_nanos result ≡ option_map nanos_of (spec.counted has seconds) }
{
    if has {
        Some(SignedDuration::from_secs(seconds))
    } else {
        None
    }
}

fn text(bytes: &[u8]) -> Result<&str, Refusal>
    ensures ok { IfOk result (λ text. (text.now ≡ bytes.now) × IsUtf8 bytes.now) }
    ensures err { IfErr result (λ refused. (refused ≡ Refusal.Text) × (¬ IsUtf8 bytes.now)) }
{
    match str::from_utf8(bytes) {
        Ok(text) => Ok(text),
        Err(_) => Err(Refusal::Text),
    }
}

fn text_where(has: bool, bytes: &[u8]) -> Result<Option<&str>, Refusal>
    ensures ok { IfOk result (λ text.
        (option_copied text ≡ spec.counted has bytes.now) × spec.IsTextWhere has bytes.now) }
    ensures err { IfErr result (λ refused. (refused ≡ Refusal.Text) × (¬ spec.IsTextWhere has bytes.now)) }
{
    if has {
        Ok(Some(text(bytes)?))
    } else {
        Ok(None)
    }
}

fn site(number: u8) -> Result<Option<SameSite>, Refusal>
    ensures ok { IfOk result (λ site. number ≡ spec.site_number site) }
    ensures err { IfErr result (λ refused. (refused ≡ Refusal.Site) × (3 < number)) }
{
    match number {
        0 => Ok(None),
        1 => Ok(Some(SameSite::Strict)),
        2 => Ok(Some(SameSite::Lax)),
        3 => Ok(Some(SameSite::None)),
        _ => Err(Refusal::Site),
    }
}

fn end(attributes: &Attributes) -> Result<Option<DateTime>, Refusal>
    ensures ok { IfOk result (λ at. option_map civil_nanos at
        ≡ option_map nanos_of (spec.counted attributes.now.has_expires attributes.now.expires)) }
    ensures err { IfErr result (λ refused. (refused ≡ Refusal.Moment) × spec.EndsAtNoMoment attributes.now) }
{
    if attributes.has_expires {
        Ok(Some(moment(attributes.expires)?))
    } else {
        Ok(None)
    }
}
