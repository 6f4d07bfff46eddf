//! The second that was asked for last, whose date isn't made again.
ghost use Rattle.std.specs.Prelude.{◌≡◌, IfOk, IfErr};
ghost use Rattle.jiff.specs.Words.{civil_nanos};
ghost use Rattle.fonnalich_c.specs.Given as spec;

use crate::given::moment;
use crate::refusal::Refusal;
use jiff::civil::DateTime;

/// A second since 1970-01-01T00:00:00 beside its date.
#[derive(Clone, Copy)]
pub struct Second {
    number: i64,
    date: DateTime,
    ghost from: { civil_nanos date ≡ spec.nanos_of number },
}

/// The date of a second: the kept one where it is of that second, and else the second's, which is kept in its place. A
/// refusal leaves it.
pub(crate) fn date_at(kept: &mut Option<Second>, second: i64) -> Result<DateTime, Refusal>
    ensures ok { IfOk result (λ at. civil_nanos at ≡ spec.nanos_of second) }
    ensures err { IfErr result (λ refusal. (refusal ≡ Refusal.Moment) × spec.IsNoMoment second) }
{
    if let Some(last) = kept {
        if last.number == second {
            return Ok(last.date);
        }
    }
    let date = moment(second)?;
    *kept = Some(Second {
        number: second,
        date,
    });
    Ok(date)
}
