//! Why a value wasn't sealed.

ghost use Rattle.std.specs.Prelude.{◌≡◌};

use std::alloc::AllocError;
use thiserror::Error;

/// Why a value wasn't sealed.
#[derive(Clone, Copy, Debug, PartialEq, Eq, Error)]
pub enum PrivateError {
    /// The value has over 2^36 - 32 bytes, or the name 2^61 bytes or more.
    #[error("TooLong")]
    TooLong,
    /// The generator's fill failed.
    #[error("Rng")]
    Rng,
    /// There is no memory for the text.
    #[error("OutOfMemory")]
    OutOfMemory,
}

impl From<AllocError> for PrivateError {
    ghost use Rattle.cookie.specs.declared.secure.private_error.PrivateError.TheVariants.{OutOfMemory};

    ghost from_gives = { λ _ e. e ≡ OutOfMemory };

    fn from(_: AllocError) -> PrivateError {
        PrivateError::OutOfMemory
    }
}
