//! The command that takes a line as if a URL had answered it.
ghost use Rattle.std.specs.Prelude.{◌≡◌, IfOk, IfErr};
ghost use Rattle.jiff.specs.Words.{civil_nanos};
ghost use Rattle.jar_commands.specs.Outcomes.{GivesSet, outcome_text};
ghost use Rattle.jar_commands.specs.Performing.{FailsToSet};
ghost use Rattle.jar_commands.specs.Plans.{plan_text};
ghost use Rattle.jar_commands.specs.Setting as spec;

use crate::failure::Failure;
use crate::jar_text::saved;
use crate::outcome::Outcome;
use crate::plan::{Plan, Start};
use crate::receiving::{is_any_refused, status_of, take_answer};
use cookie_jar::{End, Jar, told_lines};
use std::alloc::{AllocError, Global};
use url::Url;

/// `set URL LINE`.
pub(crate) fn set(
    alloc: Global,
    plan: &Plan<'_>,
    jar: &mut Jar,
    url: &Url,
    line: &str,
) -> Result<Outcome, Failure>
    ensures ok { IfOk result (λ outcome.
        GivesSet (plan_text plan.now) jar.old url.now line.now (outcome_text outcome)) }
    ensures err { IfErr result (FailsToSet (plan_text plan.now) jar.old url.now line.now) }
{
    let line = line.as_bytes();
    let ends = take_line(alloc, plan, jar, url, line)?;
    let told = told_lines(alloc, &[line], &ends)?;
    match saved(plan, jar) {
        Ok(text) => Ok(Outcome::kept(told, status_of(is_any_refused(&ends)), text)),
        Err(failure) => Err(failure),
    }
}

// Takes the line, unless no head can have it.
fn take_line(
    alloc: Global,
    plan: &Plan<'_>,
    jar: &mut Jar,
    url: &Url,
    line: &[u8],
) -> Result<Vec<End>, AllocError>
    ensures { IfOk result (λ ends. spec.TakesSet plan.now.form plan.now.rules jar.old.suffixes jar.old.rows
        url.now (civil_nanos plan.now.at) line.now ends.items jar.new.rows) }
{
    if breaks_head(line) {
        return Ok(vec![in alloc; End::Control]?);
    }
    take_answer(plan, jar, &Start::User, url, &[line])
}

// Whether the line has a byte that none of a head has.
fn breaks_head(line: &[u8]) -> bool
    ensures { result ≡ spec.breaks_head line.now }
{
    line.iter().any(|b| *b == b'\n' || *b == b'\r' || *b == 0)
}
