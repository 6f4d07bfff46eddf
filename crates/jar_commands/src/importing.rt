//! The command that takes rows of another file in.
ghost use Rattle.std.specs.Prelude.{◌≡◌, ◌≢◌, ◌==◌, ◌⊎◌, IfErr, IfOk, IfSome, IsNone, IsSomeAnd, length, true};
ghost use Rattle.std.specs.Prelude.{if◌then◌else◌};
ghost use Rattle.std.specs.Option.{option_copied};
ghost use Rattle.jiff.specs.Words.{civil_nanos};
ghost use Rattle.cookie_jar.specs.Entries.{HasNoItems};
ghost use Rattle.cookie_jar.specs.Importing.{Imports, import_text as done_text};
ghost use Rattle.jar_commands.specs.Outcomes as spec;
ghost use Rattle.jar_commands.specs.Performing as performing;
ghost use Rattle.jar_commands.specs.Plans.{plan_text};

use crate::failure::{Failure, Spot};
use crate::jar_text::saved;
use crate::outcome::Outcome;
use crate::passed_over::push_line;
use crate::plan::Plan;
use crate::removing::count_line;
use cookie_jar::{Form, ImportError, Imported, Jar, Refused, Shown, refused_text};
use std::alloc::{AllocError, Global};

/// `import [--strict] FILE`.
pub(crate) fn import(
    alloc: Global,
    plan: &Plan<'_>,
    jar: &mut Jar,
    form: Form,
    is_strict: bool,
    given: Option<&[u8]>,
) -> Result<Outcome, Failure>
    ensures ok { IfOk result (λ outcome. IsSomeAnd (option_copied given.entry) (λ text.
        spec.GivesImported (plan_text plan.now) jar.old form is_strict text (spec.outcome_text outcome))) }
    ensures err { IfErr result (performing.FailsToImport (plan_text plan.now) jar.old form is_strict
        (option_copied given.entry)) }
{
    match given {
        Some(text) => import_text(alloc, plan, jar, form, is_strict, text),
        None => Err(Failure::File),
    }
}

// Takes the lines or the rows of a text in.
fn import_text(
    alloc: Global,
    plan: &Plan<'_>,
    jar: &mut Jar,
    form: Form,
    is_strict: bool,
    text: &[u8],
) -> Result<Outcome, Failure>
    ensures ok { IfOk result (λ outcome.
        spec.GivesImported (plan_text plan.now) jar.old form is_strict text.now (spec.outcome_text outcome)) }
    ensures err { IfErr result
        (performing.FailsToImportText (plan_text plan.now) jar.old form is_strict text.now) }
{
    let done = taken(plan, jar, form, text)?;
    if let Some(failure) = first_refused(form, is_strict, &done.refused) {
        return Err(failure);
    }
    let printed = import_told(alloc, form, &done)?;
    match saved(plan, jar) {
        Ok(text) => Ok(Outcome::kept(printed, import_status(&done.refused), text)),
        Err(failure) => Err(failure),
    }
}

// The lines or the rows of a text, taken in.
fn taken(plan: &Plan<'_>, jar: &mut Jar, form: Form, text: &[u8]) -> Result<Imported, Failure>
    ensures ok { IfOk result (λ done. Imports form plan.now.form (civil_nanos plan.now.at) text.now jar.old.rows
        (done_text done) jar.new.rows) }
    ensures err { IfErr result (λ failure.
        (failure ≡ Failure.Memory) ⊎ ((failure ≡ Failure.FileText) × HasNoItems form text.now)) }
{
    match jar.import(form, plan.form, text, plan.at) {
        Ok(done) => Ok(done),
        Err(ImportError::OutOfMemory) => Err(Failure::Memory),
        Err(ImportError::NoList) => Err(Failure::FileText),
    }
}

// What tells the first of those that are refused, where none may be.
fn first_refused(form: Form, is_strict: bool, refused: &[Refused]) -> Option<Failure>
    ensures some { IfSome result (λ failure.
        (is_strict ≡ true) × (length refused.now ≢ 0) × performing.IsOfEntry failure) }
    ensures none { IsNone result → is_strict ≡ true → length refused.now ≡ 0 }
{
    match refused {
        [entry, ..] if is_strict => {
            Some(Failure::FileEntry(spot_in(form, entry.number), entry.cause))
        }
        _ => None,
    }
}

fn spot_in(form: Form, number: usize) -> Spot {
    match form {
        Form::Ron | Form::Json => Spot::Row(number),
        Form::Txt => Spot::Line(number),
    }
}

fn import_status(refused: &[Refused]) -> u8
    ensures { result ≡ (if length refused.now == 0 then 0 else 1) }
{
    if refused.is_empty() { 0 } else { 1 }
}

// How many lines or rows were taken, expired and replaced, and each that was refused.
fn import_told(alloc: Global, form: Form, done: &Imported) -> Result<Shown, AllocError> {
    let mut text = count_line(alloc, done.rows)?;
    if done.expired != 0 {
        push_line(&mut text, "expired: ", done.expired as u64)?;
    }
    if done.replaced != 0 {
        push_line(&mut text, "replaced: ", done.replaced as u64)?;
    }
    text.add(&refused_text(alloc, form, &done.refused)?)?;
    Ok(text)
}
