//! The moments of a play: whole seconds of the years 1971 to 9998, in order.
ghost use Rattle.std.specs.Prelude.{◌≡◌, ◌*◌, ◌↔◌, pos, ◌≤ℤ◌, ◌<ℤ◌, IsTrue, IfErr, OnOk};
ghost use Rattle.jiff.specs.Words.{civil_nanos};
ghost use Rattle.cookie_client.specs.Moment.{second_1971};
ghost use Rattle.cookie_run.specs.Moments.{second_9999, the_beginning, IsMoment, IsWrong, Follows};

use crate::step::FaultKind;
use jiff::civil::{DateTime, datetime};

/// The moment before each play, which is before all of its moments: the beginning of 1970.
pub fn beginning() -> DateTime
    ensures { civil_nanos result ≡ the_beginning }
{
    datetime(1970, 1, 1, 0, 0, 0, 0)
}

/// Goes on from the last moment to this one.
///
/// # Errors
///
/// `Moment` where it isn't a whole second of the years 1971 to 9998, else `Back` where it is before
/// the last one. The last moment stays then.
pub fn come_to(last: &mut DateTime, at: DateTime) -> Result<(), FaultKind>
    ensures ok { OnOk result (Follows (civil_nanos last.old) (civil_nanos at) × (last.new ≡ at)) }
    ensures err { IfErr result (λ kind.
        IsWrong kind (civil_nanos last.old) (civil_nanos at) × (last.new ≡ last.old)) }
{
    if !is_moment(at) {
        return Err(FaultKind::Moment);
    }
    if at < *last {
        return Err(FaultKind::Back);
    }
    *last = at;
    Ok(())
}

/// Whether a moment is a whole second of the years 1971 to 9998.
pub fn is_moment(at: DateTime) -> bool
    ensures { IsTrue result ↔ IsMoment (civil_nanos at) }
{
    at.subsec_nanosecond() == 0 && is_within(at)
}

// Whether a moment is of the years 1971 to 9998.
fn is_within(at: DateTime) -> bool
    ensures { IsTrue result ↔ ((pos (second_1971 * 1_000_000_000) ≤ℤ civil_nanos at)
        × (civil_nanos at <ℤ pos (second_9999 * 1_000_000_000))) }
{
    begin_1971() <= at && at < begin_9999()
}

/// The beginning of 1971.
pub fn begin_1971() -> DateTime
    ensures { civil_nanos result ≡ pos (second_1971 * 1_000_000_000) }
{
    datetime(1971, 1, 1, 0, 0, 0, 0)
}

fn begin_9999() -> DateTime
    ensures { civil_nanos result ≡ pos (second_9999 * 1_000_000_000) }
{
    datetime(9999, 1, 1, 0, 0, 0, 0)
}
