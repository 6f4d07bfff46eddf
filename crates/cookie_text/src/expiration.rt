//! When a cookie ends.
ghost use Rattle.std.specs.Prelude.{◌≡◌, ◌≢◌, ◌↔◌, IsTrue, Some, None};
ghost use Rattle.std.specs.Option.{ForSome};
ghost use Rattle.jiff.specs.Words.{civil_nanos};
ghost use Rattle.cookie_text.specs.Record.{moment_of};
ghost use Rattle.cookie_text.specs.Setting.{IsKept, IsMapped, latest_end};

use jiff::SignedDuration;
use jiff::civil::DateTime;

/// When a cookie ends: at a moment in UTC, or with the session, which is after every moment.
#[derive(Clone, Copy, Debug, PartialEq, Eq, PartialOrd, Ord, Hash)]
pub enum Expiration {
    /// At this moment.
    DateTime(DateTime),
    /// With the session.
    Session,
}

impl Expiration {
    ghost use Rattle.cookie_text.specs.declared.expiration.Expiration.TheVariants as ends;

    /// Whether this is a moment.
    pub fn is_datetime(&self) -> bool
        ensures { IsTrue result ↔ (self.now ≢ ends.Session) }
    {
        matches!(self, Expiration::DateTime(_))
    }

    /// Whether this is the end of the session.
    pub fn is_session(&self) -> bool
        ensures { IsTrue result ↔ (self.now ≡ ends.Session) }
    {
        matches!(self, Expiration::Session)
    }

    /// The moment, where it is one.
    pub fn datetime(self) -> Option<DateTime>
        ensures { result ≡ moment_of (Some self) }
    {
        match self {
            Expiration::DateTime(moment) => Some(moment),
            Expiration::Session => None,
        }
    }

    /// What `f` makes of the moment; the end of the session stays.
    pub fn map<F: FnOnce(DateTime) -> DateTime>(self, f: F) -> Expiration
        requires { ForSome (moment_of (Some self)) (F.pre f) }
        ensures { IsMapped self (F.post f) result }
    {
        match self {
            Expiration::DateTime(moment) => Expiration::DateTime(f(moment)),
            Expiration::Session => Expiration::Session,
        }
    }

    /// This expiry, or the latest one where it is after that.
    pub(crate) fn at_most_latest(self) -> Expiration
        ensures { IsKept self result }
    {
        match self {
            Expiration::DateTime(moment) => Expiration::DateTime(moment.min(latest())),
            Expiration::Session => Expiration::Session,
        }
    }
}

impl From<Option<DateTime>> for Expiration {
    ghost from_gives = { λ moment expiration. moment_of (Some expiration) ≡ moment };

    fn from(moment: Option<DateTime>) -> Expiration {
        match moment {
            Some(moment) => Expiration::DateTime(moment),
            None => Expiration::Session,
        }
    }
}

// 9999-12-31T23:59:59.999999.
fn latest() -> DateTime
    ensures { civil_nanos result ≡ latest_end }
{
    DateTime::MAX.saturating_sub(SignedDuration::from_nanos(999))
}
