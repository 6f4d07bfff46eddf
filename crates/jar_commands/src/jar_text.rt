//! A jar, of its text and back.
ghost use Rattle.std.specs.Prelude.{◌≡◌, ◌≢◌, ◌⊎◌, IfOk, IfErr, false, true};
ghost use Rattle.std.specs.Option.{option_copied};
ghost use Rattle.jiff.specs.Words.{civil_nanos};
ghost use Rattle.cookie_store.specs.Rows.{live};
ghost use Rattle.cookie_jar.specs.Saving.{HaveNoText, IsText};
ghost use Rattle.jar_commands.specs.Jars as spec;

use crate::failure::Failure;
use crate::plan::Plan;
use cookie_jar::{Jar, ReadError, SaveError};
use publicsuffix::{List, ListError};
use std::alloc::Global;

/// The jar of a text of the plan's form, or one without a row where there is none, with the list of a text.
///
/// # Errors
///
/// `SuffixList` where the first text is no list or has no rule, else `JarText` where the other isn't one of the form;
/// `Memory`.
pub(crate) fn jar_of(
    alloc: Global,
    plan: &Plan<'_>,
    suffixes: &[u8],
    stored: Option<&[u8]>,
) -> Result<Jar, Failure>
    ensures ok { IfOk result (spec.IsJar plan.now.form (civil_nanos plan.now.at) suffixes.now
        (option_copied stored.entry)) }
    ensures err { IfErr result (spec.MakesNoJar plan.now.form suffixes.now (option_copied stored.entry)) }
{
    let list = suffix_list_of(alloc, suffixes)?;
    let Some(text) = stored else {
        return Ok(Jar::new(alloc, list));
    };
    match Jar::load(alloc, list, plan.form, text, plan.at) {
        Ok(jar) => Ok(jar),
        Err(ReadError::OutOfMemory) => Err(Failure::Memory),
        Err(_) => Err(Failure::JarText),
    }
}

// The suffix list of a text, which has a rule.
fn suffix_list_of(alloc: Global, text: &[u8]) -> Result<List, Failure>
    ensures ok { IfOk result (spec.IsListOf text.now) }
    ensures err { IfErr result (spec.MakesNoList text.now) }
{
    match List::parse_hosts(alloc, text) {
        Ok(list) => with_rule(list),
        Err(cause) => Err(unlisted(cause)),
    }
}

// The list, if it has a rule.
fn with_rule(list: List) -> Result<List, Failure>
    ensures ok { IfOk result (λ given. (given ≡ list) × (spec.has_rule given ≡ true)) }
    ensures err { IfErr result (λ failure. (failure ≡ Failure.SuffixList) × (spec.has_rule list ≡ false)) }
{
    if list.has_rule() {
        Ok(list)
    } else {
        Err(Failure::SuffixList)
    }
}

// What a refusal to read a list is told as.
fn unlisted(cause: ListError) -> Failure
    ensures { ((result ≡ Failure.Memory) × (cause ≡ ListError.OutOfMemory))
        ⊎ ((result ≡ Failure.SuffixList) × (cause ≢ ListError.OutOfMemory)) }
{
    match cause {
        ListError::OutOfMemory => Failure::Memory,
        ListError::NotText | ListError::Rule(_) => Failure::SuffixList,
    }
}

/// The text of a jar in the plan's form, at its moment.
///
/// # Errors
///
/// `JarRow` where a row has none, or `Memory`.
pub(crate) fn saved(plan: &Plan<'_>, jar: &Jar) -> Result<Vec<u8>, Failure>
    ensures ok { IfOk result (λ text.
        IsText plan.now.form (live (civil_nanos plan.now.at) jar.now.rows) text.items) }
    ensures err { IfErr result (λ failure. (failure ≡ Failure.Memory) ⊎ ((failure ≡ Failure.JarRow)
        × HaveNoText plan.now.form false (live (civil_nanos plan.now.at) jar.now.rows))) }
{
    match jar.save(plan.form, plan.at) {
        Ok(text) => Ok(text),
        Err(SaveError::OutOfMemory) => Err(Failure::Memory),
        Err(_) => Err(Failure::JarRow),
    }
}
