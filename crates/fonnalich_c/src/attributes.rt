//! A cookie's attributes, as they cross to C.
ghost use Rattle.std.specs.Prelude.{◌≡◌, option_map};
ghost use Rattle.jiff.specs.Words.{civil_nanos, signed_nanos};
ghost use Rattle.cookie_text.specs.Printing.{is_set};
ghost use Rattle.fonnalich_c.specs.Parts as spec;

use crate::given::second_of;
use cookie::{Cookie, SameSite};
use jiff::SignedDuration;
use jiff::civil::DateTime;

/// A cookie's attributes, but for the texts of two. A number or a text counts where its flag is set.
#[repr(C)]
#[derive(Clone, Copy, Debug, PartialEq, Eq)]
pub struct Attributes {
    /// Whole seconds.
    pub max_age: i64,
    /// A whole second since 1970.
    pub expires: i64,
    /// Whether there is a max-age.
    pub has_max_age: bool,
    /// Whether there is an expiry.
    pub has_expires: bool,
    /// Whether there is a path.
    pub has_path: bool,
    /// Whether there is a domain.
    pub has_domain: bool,
    /// Whether scripts are to be kept from the cookie.
    pub http_only: bool,
    /// Whether the cookie is for secure requests alone.
    pub secure: bool,
    /// Whether the cookie is kept apart for each top-level site.
    pub partitioned: bool,
    /// 0 where nothing is said, 1 for `Strict`, 2 for `Lax`, 3 for `None`.
    pub same_site: u8,
}

/// The attributes of a cookie.
pub(crate) fn attributes_of(cookie: &Cookie<'_>) -> Attributes
    ensures { result ≡ spec.attributes_of cookie.now.cookie }
{
    Attributes {
        max_age: age(cookie.max_age()),
        expires: end(cookie.expires_datetime()),
        has_max_age: cookie.max_age().is_some(),
        has_expires: cookie.expires_datetime().is_some(),
        has_path: cookie.path().is_some(),
        has_domain: cookie.domain().is_some(),
        http_only: is_set(cookie.http_only()),
        secure: is_set(cookie.secure()),
        partitioned: is_set(cookie.partitioned()),
        same_site: site_number(cookie.same_site()),
    }
}

fn age(age: Option<SignedDuration>) -> i64
    ensures { result ≡ spec.seconds_of (option_map signed_nanos age) }
{
    match age {
        Some(age) => age.as_secs(),
        None => 0,
    }
}

fn end(at: Option<DateTime>) -> i64
    ensures { result ≡ spec.seconds_of (option_map civil_nanos at) }
{
    match at {
        Some(at) => second_of(at),
        None => 0,
    }
}

pub(crate) fn is_set(flag: Option<bool>) -> bool
    ensures { result ≡ is_set flag }
{
    flag == Some(true)
}

pub(crate) fn site_number(site: Option<SameSite>) -> u8
    ensures { result ≡ spec.site_number site }
{
    match site {
        None => 0,
        Some(SameSite::Strict) => 1,
        Some(SameSite::Lax) => 2,
        Some(SameSite::None) => 3,
    }
}
