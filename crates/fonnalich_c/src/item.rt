//! Texts in an answer, each behind its length.
ghost use Rattle.std.specs.Prelude.{◌≡◌, ◌++◌, None, OnOk};
ghost use Rattle.fonnalich_c.specs.Items.{item, reading_text};

use std::alloc::AllocError;

/// Puts a text behind its length.
pub(crate) fn push_item(answer: &mut Vec<u8>, text: &[u8]) -> Result<(), AllocError>
    ensures { OnOk result (answer.new.items ≡ answer.old.items ++ item text.now) }
{
    answer.extend_from_slice(&(text.len() as u64).to_le_bytes())?;
    answer.extend_from_slice(text)
}

/// Puts what stands for a text that isn't there.
pub(crate) fn push_none(answer: &mut Vec<u8>) -> Result<(), AllocError>
    ensures { OnOk result (answer.new.items ≡ answer.old.items ++ reading_text None) }
{
    answer.extend_from_slice(&u64::MAX.to_le_bytes())
}
