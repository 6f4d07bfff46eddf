//! The command that gives rows to another file.
ghost use Rattle.std.specs.Prelude.{◌≡◌, IfOk, IfErr, None, Some};
ghost use Rattle.jar_commands.specs.Outcomes as spec;
ghost use Rattle.jar_commands.specs.Performing.{FailsToExport};
ghost use Rattle.jar_commands.specs.Plans.{plan_text};

use crate::failure::Failure;
use crate::outcome::{Outcome, Printed};
use crate::plan::Plan;
use crate::removing::count_line;
use cookie_jar::{Exported, Form, Jar, SaveError};
use cookies_txt::Reader;
use std::alloc::Global;

/// `export [--for READER] FILE`.
pub(crate) fn export(
    alloc: Global,
    plan: &Plan<'_>,
    jar: &Jar,
    form: Form,
    reader: Option<Reader>,
) -> Result<Outcome, Failure>
    ensures ok { IfOk result (λ outcome.
        spec.GivesExported (plan_text plan.now) jar.now form reader (spec.outcome_text outcome)) }
    ensures err { IfErr result (FailsToExport (plan_text plan.now) jar.now form reader) }
{
    match reader {
        Some(reader) => export_for(alloc, plan, jar, reader),
        None => export_all(alloc, plan, jar, form),
    }
}

fn export_all(alloc: Global, plan: &Plan<'_>, jar: &Jar, form: Form) -> Result<Outcome, Failure>
    ensures ok { IfOk result (λ outcome.
        spec.GivesExported (plan_text plan.now) jar.now form None (spec.outcome_text outcome)) }
    ensures err { IfErr result (FailsToExport (plan_text plan.now) jar.now form None) }
{
    match jar.export(form, plan.at) {
        Ok(exported) => exported_outcome(alloc, exported),
        Err(SaveError::OutOfMemory) => Err(Failure::Memory),
        Err(_) => Err(Failure::FileRow),
    }
}

fn export_for(alloc: Global, plan: &Plan<'_>, jar: &Jar, reader: Reader) -> Result<Outcome, Failure>
    ensures ok { IfOk result (λ outcome.
        spec.GivesExported (plan_text plan.now) jar.now Form.Txt (Some reader) (spec.outcome_text outcome)) }
    ensures err { IfErr result (λ failure. failure ≡ Failure.Memory) }
{
    match jar.export_for(reader, plan.at) {
        Ok(exported) => exported_outcome(alloc, exported),
        Err(_) => Err(Failure::Memory),
    }
}

// The text of the other file, and what is told of it: how many rows it holds, and those that it doesn't.
fn exported_outcome(alloc: Global, exported: Exported) -> Result<Outcome, Failure>
    ensures ok { IfOk result (λ outcome. spec.Tells 0 None (Some exported.text.items) (spec.outcome_text outcome)) }
    ensures err { IfErr result (λ failure. failure ≡ Failure.Memory) }
{
    let mut told = count_line(alloc, exported.rows)?;
    told.add(&exported.told)?;
    Ok(Outcome {
        printed: Printed::Told(told.finish()),
        status: 0,
        jar: None,
        file: Some(exported.text),
    })
}
