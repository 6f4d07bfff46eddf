//! The commands that take rows out of a jar.
ghost use Rattle.std.specs.Prelude.{◌≡◌, ◌⊎◌, [], IfOk, IfErr};
ghost use Rattle.cookie_jar.specs.Asking.{meant};
ghost use Rattle.jar_commands.specs.Outcomes as spec;
ghost use Rattle.jar_commands.specs.Performing.{FailsToRemove, Unkept};
ghost use Rattle.jar_commands.specs.Plans.{plan_text};

use crate::failure::Failure;
use crate::jar_text::saved;
use crate::outcome::Outcome;
use crate::passed_over::push_line;
use crate::plan::Plan;
use cookie_jar::{Jar, Shown};
use std::alloc::{AllocError, Global};

/// `remove DOMAIN PATH NAME`.
pub(crate) fn remove(
    alloc: Global,
    plan: &Plan<'_>,
    jar: &mut Jar,
    domain: &str,
    path: &str,
    name: &str,
) -> Result<Outcome, Failure>
    ensures ok { IfOk result (λ outcome. spec.GivesRemoved (plan_text plan.now) jar.old
        (meant domain.now path.now name.now jar.old.rows) (spec.outcome_text outcome)) }
    ensures err { IfErr result (FailsToRemove (plan_text plan.now) jar.old
        (meant domain.now path.now name.now jar.old.rows)) }
{
    if !jar.remove_named(domain, path, name)? {
        return Ok(Outcome::shown(count_line(alloc, 0)?, 1));
    }
    let text = saved(plan, jar)?;
    Ok(Outcome::kept(count_line(alloc, 1)?, 0, text))
}

/// `clear`.
pub(crate) fn clear(alloc: Global, plan: &Plan<'_>, jar: &mut Jar) -> Result<Outcome, Failure>
    ensures ok { IfOk result (λ outcome.
        spec.Keeps (plan_text plan.now) 0 [] (spec.outcome_text outcome)) }
    ensures err { IfErr result (λ failure.
        (failure ≡ Failure.Memory) ⊎ Unkept (plan_text plan.now) [] failure) }
{
    let count = jar.clear()?;
    let text = saved(plan, jar)?;
    Ok(Outcome::kept(count_line(alloc, count)?, 0, text))
}

/// The line of how many rows were moved or taken out.
///
/// # Errors
///
/// `AllocError`, for want of memory.
pub(crate) fn count_line(alloc: Global, count: usize) -> Result<Shown, AllocError> {
    let mut text = Shown::new(alloc);
    push_line(&mut text, "rows: ", count as u64)?;
    Ok(text)
}
