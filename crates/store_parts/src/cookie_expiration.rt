//! When a cookie of a store ends (RFC 6265, section 5.3, step 3).
ghost use Rattle.std.specs.Prelude.{◌≡◌, ◌↔◌, IsTrue, Some, int_lt, option_map};
ghost use Rattle.std.specs.Int.{int_min};
ghost use Rattle.std.specs.Option.{option_eq};
ghost use Rattle.std.specs.Ordering.{on, int_eq};
ghost use Rattle.std.specs.Cmp.Rules.{comparing};
ghost use Rattle.std.proofs.Common.{rules};
ghost use Rattle.cookie_text.specs.Record.{moment_of};
ghost use Rattle.jiff.specs.Words.{civil_nanos, signed_nanos};
ghost use Rattle.store_parts.specs.Expiry as spec;
ghost use Rattle.store_parts.specs.Expiry.{death_of};

use cookie::{Cookie as RawCookie, Expiration};
use jiff::SignedDuration;
use jiff::civil::{DateTime, datetime};

/// When a cookie ends. Equality compares moments to the second.
#[derive(Clone, Copy, Debug, Eq)]
pub enum CookieExpiration {
    /// At this moment in UTC, as an attribute Max-Age or Expires set it.
    AtUtc(DateTime),
    /// With the session: the cookie is not kept beyond it.
    SessionEnd,
}

impl CookieExpiration {
    /// The expiry of a Max-Age of whole seconds at `now`: the Unix epoch for zero, else `now` plus
    /// the length, at most 9999-12-31T23:59:59.
    pub fn from_max_age(max_age: u64, now: DateTime) -> CookieExpiration
        ensures { death_of result
            ≡ Some (spec.expiry_after (spec.seconds max_age) (civil_nanos now)) }
    {
        let seconds = i64::try_from(max_age).unwrap_or(i64::MAX);
        CookieExpiration::from_duration(SignedDuration::from_secs(seconds), now)
    }

    /// The expiry of a length at `now`: the Unix epoch for zero or below, else `now` plus the
    /// length, at most 9999-12-31T23:59:59.
    pub fn from_duration(length: SignedDuration, now: DateTime) -> CookieExpiration
        ensures { death_of result
            ≡ Some (spec.expiry_after (signed_nanos length) (civil_nanos now)) }
    {
        if length.is_positive() {
            CookieExpiration::from(now.saturating_add(length))
        } else {
            CookieExpiration::AtUtc(epoch())
        }
    }

    /// The expiry of a cookie that is received at `now`: that of its Max-Age where it has one, else
    /// of its Expires, else the session's end.
    pub fn from_raw(raw_cookie: &RawCookie<'_>, now: DateTime) -> CookieExpiration
        ensures { death_of result ≡ spec.death raw_cookie.now.cookie (civil_nanos now) }
    {
        if let Some(max_age) = raw_cookie.max_age() {
            CookieExpiration::from_duration(max_age, now)
        } else if let Some(expires) = raw_cookie.expires() {
            CookieExpiration::from(expires)
        } else {
            CookieExpiration::SessionEnd
        }
    }

    /// Whether the expiry is at or before `now`.
    pub fn is_expired(&self, now: DateTime) -> bool
        ensures { result ≡ spec.is_dead (civil_nanos now) (death_of self.now) }
    {
        self.expires_by(&now)
    }

    /// Whether the expiry is at or before the moment.
    pub fn expires_by(&self, moment: &DateTime) -> bool
        ensures { result ≡ spec.is_dead (civil_nanos moment.now) (death_of self.now) }
    {
        match self {
            CookieExpiration::AtUtc(expiry) => *expiry <= *moment,
            CookieExpiration::SessionEnd => false,
        }
    }
}

/// The expiry at a moment, at most 9999-12-31T23:59:59.
impl From<DateTime> for CookieExpiration {
    ghost from_gives = { λ moment e. death_of e
        ≡ Some (int_min (civil_nanos moment) spec.latest) };

    fn from(moment: DateTime) -> CookieExpiration {
        let latest = latest();
        CookieExpiration::AtUtc(if moment < latest { moment } else { latest })
    }
}

/// The expiry that an Expires attribute gives, as it stands.
impl From<Expiration> for CookieExpiration {
    ghost from_gives = { λ expires e. death_of e
        ≡ option_map civil_nanos (moment_of (Some expires)) };

    fn from(expires: Expiration) -> CookieExpiration {
        match expires {
            Expiration::DateTime(moment) => CookieExpiration::AtUtc(moment),
            Expiration::Session => CookieExpiration::SessionEnd,
        }
    }
}

impl PartialEq for CookieExpiration {
    ghost eq = { on spec.death_second (option_eq int_eq) };

    ghost laws = { Prim.search (comparing, rules) };

    fn eq(&self, other: &CookieExpiration) -> bool
        ensures value { result ≡ on spec.death_second (option_eq int_eq) self.now other.now }
        ensures same { IsTrue result
            ↔ (spec.death_second self.now ≡ spec.death_second other.now) }
    {
        match (self, other) {
            (CookieExpiration::AtUtc(this), CookieExpiration::AtUtc(other)) => {
                whole_second(*this) == whole_second(*other)
            }
            (CookieExpiration::SessionEnd, CookieExpiration::SessionEnd) => true,
            _ => false,
        }
    }
}

// The seconds from the Unix epoch to the one in which the moment lies.
fn whole_second(moment: DateTime) -> i64
    ensures { result ≡ spec.whole_second (civil_nanos moment) }
{
    moment.to_plain().to_second()
}

// 1970-01-01T00:00:00.
fn epoch() -> DateTime
    ensures { civil_nanos result ≡ spec.epoch }
{
    datetime(1970, 1, 1, 0, 0, 0, 0)
}

// 9999-12-31T23:59:59.
fn latest() -> DateTime
    ensures { civil_nanos result ≡ spec.latest }
{
    datetime(9999, 12, 31, 23, 59, 59, 0)
}
