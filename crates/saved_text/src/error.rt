//! Why a text is no list of rows.

use std::alloc::{AllocError, AllocFailed};
use thiserror::Error;

/// Why a saved text isn't read.
#[derive(Clone, Copy, Debug, PartialEq, Eq, Error)]
pub enum SavedTextError {
    /// The bytes aren't UTF-8.
    #[error("NotText")]
    NotText,
    /// The text is no JSON.
    #[error("Json")]
    Json,
    /// The JSON is of another shape, or a raw cookie or a date in it doesn't read.
    #[error("Shape")]
    Shape,
    /// The RON isn't read behind so many bytes.
    #[error("Ron({0})")]
    Ron(usize),
    /// Memory was refused.
    #[error("OutOfMemory")]
    OutOfMemory,
}

impl From<AllocError> for SavedTextError {
    ghost use Rattle.std.specs.Prelude.{◌≡◌};
    ghost use Rattle.saved_text.specs.declared.error.SavedTextError.TheVariants.{OutOfMemory};

    ghost from_gives = { λ _ e. e ≡ OutOfMemory };

    fn from(_: AllocError) -> SavedTextError {
        SavedTextError::OutOfMemory
    }
}

impl<T: Drop> From<AllocFailed<T>> for SavedTextError {
    ghost use Rattle.std.specs.Prelude.{◌≡◌};
    ghost use Rattle.saved_text.specs.declared.error.SavedTextError.TheVariants.{OutOfMemory};

    ghost from_gives = { λ _ e. e ≡ OutOfMemory };

    fn from(_: AllocFailed<T>) -> SavedTextError {
        SavedTextError::OutOfMemory
    }
}
