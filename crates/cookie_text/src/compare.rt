//! When two cookies are equal.
ghost use Rattle.std.specs.Prelude.{◌≡◌, ◌↔◌, ◌&&◌, IsTrue, Bool, option_copied, option_map};
ghost use Rattle.std.specs.Cmp.{partial_equiv_from_equiv};
ghost use Rattle.std.specs.Option.{option_eq};
ghost use Rattle.std.specs.Ordering.{int_eq, on};
ghost use Rattle.std.specs.Str.{bytes_eq, str_to_ascii_lowercase};
ghost use Rattle.jiff.specs.Words.{signed_nanos, civil_nanos};
ghost use Rattle.cookie_text.specs.Record.{compared};
ghost use Rattle.cookie_text.specs.Same.{same_cookie, end_nanos};
ghost use Rattle.cookie_text.specs.SameEquivalence.{same_cookie_equiv};

use crate::cookie::Cookie;
use crate::expiration::Expiration;
use jiff::SignedDuration;
use jiff::civil::DateTime;

/// Two cookies are equal where their names and values are, their flags, max-ages and expiries,
/// and without the case of ASCII letters what `path()` and `domain()` answer. `same_site` is not
/// looked at.
impl<'c> PartialEq for Cookie<'c> {
    ghost eq = { same_cookie };

    ghost laws = { partial_equiv_from_equiv same_cookie_equiv };

    fn eq(&self, other: &Cookie<'c>) -> bool
        ensures value { result ≡ same_cookie self.now other.now }
        ensures compared { IsTrue result ↔ (compared self.now.cookie ≡ compared other.now.cookie) }
    {
        is_same(self, other)
    }
}

impl<'c> Eq for Cookie<'c> {
    ghost laws = { same_cookie_equiv };
}

// Whether the two have the same pair, flags, place and life.
fn is_same(left: &Cookie<'_>, right: &Cookie<'_>) -> bool
    ensures { result ≡ same_cookie left.now right.now }
{
    let pair = left.name() == right.name() && left.value() == right.value();
    let flags = left.http_only() == right.http_only()
        && left.secure() == right.secure()
        && left.partitioned() == right.partitioned();
    let place = same_text(left.path(), right.path()) && same_text(left.domain(), right.domain());
    let life = same_length(left.max_age(), right.max_age())
        && same_end(left.expires(), right.expires());
    pair && flags && place && life
}

// Whether both texts are there and equal but for the case of ASCII letters, or neither is there.
fn same_text(left: Option<&str>, right: Option<&str>) -> bool
    ensures { result ≡ option_eq bytes_eq
        (option_map str_to_ascii_lowercase (option_copied left.entry))
        (option_map str_to_ascii_lowercase (option_copied right.entry)) }
{
    match (left, right) {
        (Some(left), Some(right)) => left.eq_ignore_ascii_case(right),
        (None, None) => true,
        _ => false,
    }
}

// Whether both lengths are there and equal, or neither is there.
fn same_length(left: Option<SignedDuration>, right: Option<SignedDuration>) -> bool
    ensures { result ≡ option_eq int_eq (option_map signed_nanos left)
        (option_map signed_nanos right) }
{
    match (left, right) {
        (Some(left), Some(right)) => left == right,
        (None, None) => true,
        _ => false,
    }
}

// Whether both expiries are there and equal, or neither is there.
fn same_end(left: Option<Expiration>, right: Option<Expiration>) -> bool
    ensures { result ≡ option_eq (on end_nanos (option_eq int_eq)) left right }
{
    match (left, right) {
        (Some(left), Some(right)) => same_moment(left.datetime(), right.datetime()),
        (None, None) => true,
        _ => false,
    }
}

// Whether both moments are there and equal, or neither is there.
fn same_moment(left: Option<DateTime>, right: Option<DateTime>) -> bool
    ensures { result ≡ option_eq int_eq (option_map civil_nanos left)
        (option_map civil_nanos right) }
{
    match (left, right) {
        (Some(left), Some(right)) => left == right,
        (None, None) => true,
        _ => false,
    }
}
