//! The commands that print what a jar holds.
ghost use Rattle.std.specs.Prelude.{◌≡◌, ◌++◌, ◌∷◌, [], IfOk, IfErr, None, string_bytes};
ghost use Rattle.jar_commands.specs.Outcomes as spec;
ghost use Rattle.jar_commands.specs.Plans.{plan_text};

use crate::failure::Failure;
use crate::outcome::{Outcome, Printed};
use crate::plan::{Plan, Start};
use cookie_jar::{Jar, Layout, Which};
use std::alloc::{AllocError, Global};
use url::Url;

/// `header URL`, of a request that is started so.
pub(crate) fn header(
    plan: &Plan<'_>,
    jar: &Jar,
    url: &Url,
    start: &Start,
) -> Result<Outcome, Failure>
    ensures ok { IfOk result (λ outcome.
        spec.GivesHeader (plan_text plan.now) jar.now url.now start.now (spec.outcome_text outcome)) }
    ensures err { IfErr result (λ failure. failure ≡ Failure.Memory) }
{
    Ok(shown(jar.header(&plan.rules, url, &start.initiator(), plan.at)?))
}

/// `get URL NAME`.
pub(crate) fn get(
    alloc: Global,
    plan: &Plan<'_>,
    jar: &Jar,
    url: &Url,
    name: &str,
) -> Result<Outcome, Failure>
    ensures ok { IfOk result (λ outcome.
        spec.GivesValue (plan_text plan.now) jar.now url.now name.now (spec.outcome_text outcome)) }
    ensures err { IfErr result (λ failure. failure ≡ Failure.Memory) }
{
    match jar.get(url, name, plan.at)? {
        Some(value) => Ok(shown(line_of(value)?)),
        None => Ok(Outcome {
            printed: Printed::Exact(String::new(alloc)),
            status: 1,
            jar: None,
            file: None,
        }),
    }
}

// The text, and a line feed.
fn line_of(text: String) -> Result<String, AllocError>
    ensures { IfOk result (λ line. string_bytes line ≡ string_bytes text ++ 10 ∷ []) }
{
    let mut line = text;
    line.push_str("\n")?;
    Ok(line)
}

/// `list [--json] [--domain DOMAIN] [URL]`.
pub(crate) fn list(
    plan: &Plan<'_>,
    jar: &Jar,
    which: &Which<'_>,
    layout: Layout,
) -> Result<Outcome, Failure>
    ensures ok { IfOk result (λ outcome. spec.Tells 0 None None (spec.outcome_text outcome)) }
    ensures err { IfErr result (λ failure. failure ≡ Failure.Memory) }
{
    Ok(Outcome::shown(jar.list(which, layout, plan.at)?, 0))
}

/// `explain URL LINE`.
pub(crate) fn explain(plan: &Plan<'_>, jar: &Jar, url: &Url, line: &str) -> Result<Outcome, Failure>
    ensures ok { IfOk result (λ outcome. spec.Tells 0 None None (spec.outcome_text outcome)) }
    ensures err { IfErr result (λ failure. failure ≡ Failure.Memory) }
{
    let told = jar.explain(plan.form, &plan.rules, url, line.as_bytes(), plan.at)?;
    Ok(Outcome::shown(told, 0))
}

// A text that is printed, while each file stays as it was.
fn shown(printed: String) -> Outcome
    ensures { spec.Prints (string_bytes printed) (spec.outcome_text result) }
{
    Outcome {
        printed: Printed::Exact(printed),
        status: 0,
        jar: None,
        file: None,
    }
}
