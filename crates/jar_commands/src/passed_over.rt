//! What is told of heads and lines that are passed over, and of lines that are joined to others.
ghost use Rattle.cookie_jar.specs.Terminal.{ArePlain};

use cookie_jar::Shown;
use response_heads::{LineFault, Visit};
use std::alloc::AllocError;

/// Tells behind a text of a visit's head, where a proxy answered, and of its lines that are no field lines, each with
/// its number: that it is passed over, or is a folded one that is joined to the field before it.
///
/// # Errors
///
/// `AllocError`, for want of memory.
pub(crate) fn push_passed_over(told: &mut Shown, visit: &Visit<'_>) -> Result<(), AllocError> {
    let mut number = visit.head.number as u64;
    if visit.is_proxys() {
        push_line(told, "passed over: answer of a proxy\tline ", number)?;
    } else if visit.is_interim() {
        push_line(told, "passed over: interim answer\tline ", number)?;
    }
    let mut is_behind_field = false;
    for field in &visit.head.fields {
        number = number.saturating_add(1);
        let fault = field.fault();
        if let Some(fault) = fault {
            push_line(told, fault_words(is_behind_field, fault), number)?;
        }
        is_behind_field = takes_folds(is_behind_field, fault);
    }
    Ok(())
}

// Whether a folded line behind this one goes on with a field.
fn takes_folds(is_behind_field: bool, fault: Option<LineFault>) -> bool {
    match fault {
        None => true,
        Some(LineFault::Folded) => is_behind_field,
        Some(_) => false,
    }
}

/// Adds what a line is and its number.
///
/// # Errors
///
/// `AllocError`, for want of memory.
pub(crate) fn push_line(
    told: &mut Shown,
    words: &'static str,
    number: u64,
) -> Result<(), AllocError>
    requires { ArePlain words.now }
{
    told.words(words)?;
    told.number(number)?;
    told.words("\n")
}

fn fault_words(is_behind_field: bool, fault: LineFault) -> &'static str
    ensures { ArePlain result.now }
{
    match fault {
        LineFault::Folded if is_behind_field => "joined: folded line\tline ",
        LineFault::Folded => "passed over: folded line\tline ",
        LineFault::NoColon => "passed over: no colon\tline ",
        LineFault::Name => "passed over: no field name\tline ",
        LineFault::Control => "passed over: control character\tline ",
    }
}
