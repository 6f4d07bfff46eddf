//! Folded lines, which go on with the field before them (RFC 9112, section 5.2).
ghost use Rattle.std.specs.Prelude.{◌≡◌, IfOk, OnOk, map};
ghost use Rattle.response_heads.specs.Read as spec;
ghost use Rattle.response_heads.specs.Read.{field_text};

use crate::field::trimmed;
use crate::head::Field;
use std::alloc::{AllocError, Global};

/// The value of a field, to which the folded lines are joined with which what follows it begins.
///
/// # Errors
///
/// `AllocError`, for want of memory.
#[tactic(auto, unfolding(crate::specs::Read::unfolded))]
pub(crate) fn unfolded(
    alloc: Global,
    value: &[u8],
    behind: &[Field<'_>],
) -> Result<Vec<u8>, AllocError>
    ensures { IfOk result (λ line. line.items ≡ spec.unfolded value.now (map field_text behind.now)) }
{
    let mut line = Vec::from_slice(alloc, value)?;
    let mut left = behind;
    while let [fold, more @ ..] = left
        && fold.is_fold()
    {
        push_fold(&mut line, trimmed(fold.value))?;
        left = more;
    }
    Ok(line)
}

// Joins what stands in a folded line to a value.
#[tactic(auto, unfolding(crate::specs::Read::joined))]
fn push_fold(line: &mut Vec<u8>, fold: &[u8]) -> Result<(), AllocError>
    ensures { OnOk result (line.new.items ≡ spec.joined line.old.items fold.now) }
{
    if !line.is_empty() && !fold.is_empty() {
        line.push(b' ')?;
    }
    line.extend_from_slice(fold)
}
