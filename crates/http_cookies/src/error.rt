//! Why cookies aren't put into a map of fields.
ghost use Rattle.std.specs.Prelude.{◌≡◌};

use http_header::{HeaderMapError, HeaderValueError};
use std::alloc::{AllocError, AllocFailed};
use thiserror::Error;

/// Why cookies aren't put into a map of fields, which is as it was then.
#[derive(Clone, Copy, Debug, PartialEq, Eq, Error)]
pub enum PutError {
    /// A byte is none that a field value may have: a control character but the tab.
    #[error("Value")]
    Value,
    /// The map has as many names or values as it can count.
    #[error("Full")]
    Full,
    /// Memory was refused.
    #[error("OutOfMemory")]
    OutOfMemory,
}

impl From<AllocError> for PutError {
    ghost use Rattle.http_cookies.specs.declared.error.PutError.TheVariants.{OutOfMemory};

    ghost from_gives = { λ _ e. e ≡ OutOfMemory };

    fn from(_: AllocError) -> PutError {
        PutError::OutOfMemory
    }
}

impl<T: Drop> From<AllocFailed<T>> for PutError {
    ghost use Rattle.http_cookies.specs.declared.error.PutError.TheVariants.{OutOfMemory};

    ghost from_gives = { λ _ e. e ≡ OutOfMemory };

    fn from(_: AllocFailed<T>) -> PutError {
        PutError::OutOfMemory
    }
}

impl From<HeaderValueError> for PutError {
    ghost use Rattle.http_cookies.specs.Errors.{value_error};

    ghost from_gives = { λ error e. e ≡ value_error error };

    fn from(error: HeaderValueError) -> PutError {
        match error {
            HeaderValueError::Invalid => PutError::Value,
            HeaderValueError::OutOfMemory => PutError::OutOfMemory,
        }
    }
}

impl From<HeaderMapError> for PutError {
    ghost use Rattle.http_cookies.specs.Errors.{map_error};

    ghost from_gives = { λ error e. e ≡ map_error error };

    fn from(error: HeaderMapError) -> PutError {
        match error {
            HeaderMapError::MaxSizeReached => PutError::Full,
            HeaderMapError::OutOfMemory => PutError::OutOfMemory,
        }
    }
}
