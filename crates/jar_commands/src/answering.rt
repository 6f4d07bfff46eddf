//! What a plan gives for the texts of the files.
ghost use Rattle.std.specs.Prelude.{IfErr, IfOk, IfSome, OnOk, ◌≡◌, true};
ghost use Rattle.std.specs.Option.{option_copied};
ghost use Rattle.std.specs.Result.{result_map_both};
ghost use Rattle.jar_commands.specs.Outcomes.{outcome_text};
ghost use Rattle.jar_commands.specs.Performing as spec;
ghost use Rattle.jar_commands.specs.Plans.{plan_text};

use crate::failure::Failure;
use crate::importing::import;
use crate::jar_text::jar_of;
use crate::moving::export;
use crate::outcome::Outcome;
use crate::plan::{Command, Plan};
use crate::receiving::receive;
use crate::removing::{clear, remove};
use crate::setting::set;
use crate::showing::{explain, get, header, list};
use cookie_jar::{Jar, ReadError, Shown, dropped_lines};
use devices::Source;
use devices::pour::{Stop, read_all};
use std::alloc::{AllocError, Global};

/// All that the reader has.
pub(crate) fn read_input<R: Source>(alloc: Global, reader: &mut R) -> Result<Vec<u8>, Failure>
    ensures ok { IfOk result (λ text. IfSome (R.left reader.old) (λ whole. text.items ≡ whole)) }
    ensures err { IfErr result (spec.BringsNothing
        (spec.read_by R.left R.reads R.failures reader.old reader.new)
        true) }
    ensures failures { OnOk result (R.failures reader.new ≡ R.failures reader.old) }
{
    match read_all(alloc, reader) {
        Ok(text) => Ok(text),
        Err(Stop::Read) => Err(Failure::Input),
        Err(Stop::Memory) => Err(Failure::Memory),
    }
}

/// What is told of the rows of a jar's text that the jar drops as it is loaded, where that is asked: a line of each.
/// None where there is no text, or none of the form: then the command fails and tells why.
///
/// # Errors
///
/// `AllocError`, for want of memory.
pub(crate) fn dropped_of(
    alloc: Global,
    plan: &Plan<'_>,
    stored: Option<&[u8]>,
) -> Result<Option<Shown>, AllocError> {
    let Some(text) = stored else {
        return Ok(None);
    };
    if !plan.is_verbose {
        return Ok(None);
    }
    match dropped_lines(alloc, plan.form, text, plan.at) {
        Ok(told) => Ok(Some(told)),
        Err(ReadError::OutOfMemory) => Err(AllocError),
        Err(_) => Ok(None),
    }
}

/// What a plan gives for the bytes of the suffix list, of the jar, or none where that isn't there, and for what is
/// brought to it: what was read of `receive`, or the other file of an import.
///
/// Status 1 is that a line was refused (`receive`, `set`), something of another file was (`import`), no cookie of the
/// name goes with a request (`get`), or no row matched (`remove`). These two change no file then.
///
/// # Errors
///
/// The first of these that holds. `SuffixList` where the first bytes are no suffix list with a rule, `JarText` where
/// the others are no text of the jar's form. Of `receive` `Heads` where what was read aren't heads of responses. Of
/// `import` `File` where there are no bytes, and `FileText` where they are to be RON or JSON and no list, and
/// `FileEntry` where nothing may be refused and something is. `JarRow` where a row that is to be kept has no text in
/// the jar's form; of `export` `FileRow` where one ends in a year below 0. `Memory` stands in their place where memory
/// was refused.
pub fn answer(
    alloc: Global,
    plan: &Plan<'_>,
    suffixes: &[u8],
    stored: Option<&[u8]>,
    brought: Option<&[u8]>,
) -> Result<Outcome, Failure>
    ensures { spec.AnswersTexts (plan_text plan.now) suffixes.now (option_copied stored.entry)
        (option_copied brought.entry) (result_map_both outcome_text (λ failure. failure) result) }
{
    match jar_of(alloc, plan, suffixes, stored) {
        Ok(mut jar) => perform(alloc, plan, &mut jar, brought),
        Err(failure) => Err(failure),
    }
}

// Does what is planned.
fn perform(
    alloc: Global,
    plan: &Plan<'_>,
    jar: &mut Jar,
    brought: Option<&[u8]>,
) -> Result<Outcome, Failure>
    ensures { spec.Performs (plan_text plan.now) jar.old (option_copied brought.entry)
        (result_map_both outcome_text (λ failure. failure) result) }
{
    match &plan.command {
        Command::Receive(url, start, is_one) => {
            receive(alloc, plan, jar, url, start, *is_one, brought)
        }
        Command::Header(url, start) => header(plan, jar, url, start),
        Command::Get(url, name) => get(alloc, plan, jar, url, name),
        Command::Set(url, line) => set(alloc, plan, jar, url, line),
        Command::List(which, layout) => list(plan, jar, which, *layout),
        Command::Explain(url, line) => explain(plan, jar, url, line),
        Command::Remove(domain, path, name) => remove(alloc, plan, jar, domain, path, name),
        Command::Clear => clear(alloc, plan, jar),
        Command::Import(_, form, is_strict) => import(alloc, plan, jar, *form, *is_strict, brought),
        Command::Export(_, form, reader) => export(alloc, plan, jar, *form, *reader),
    }
}
