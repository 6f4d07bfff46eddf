//! Why a text isn't read, and why there is none.
ghost use Rattle.std.specs.Prelude.{◌≡◌};

use cookie_store::Error;
use cookies_txt::RowFault;
use std::alloc::AllocError;
use thiserror::Error as ThisError;

/// Why a jar's text isn't read.
#[derive(Debug, Drop, ThisError)]
pub enum ReadError {
    /// A text of RON or JSON is refused.
    #[error("{0}")]
    Saved(Error),
    /// A text of `cookies.txt` is refused.
    #[error("{0}")]
    Lines(cookies_txt::ReadError),
    /// Memory was refused.
    #[error("OutOfMemory")]
    OutOfMemory,
}

/// Why nothing of a text is imported.
#[derive(Clone, Copy, Debug, PartialEq, Eq, ThisError)]
pub enum ImportError {
    /// It is to be RON or JSON, and is no list.
    #[error("NoList")]
    NoList,
    /// Memory was refused.
    #[error("OutOfMemory")]
    OutOfMemory,
}

/// Why a jar's rows have no text.
#[derive(Clone, Copy, Debug, PartialEq, Eq, ThisError)]
pub enum SaveError {
    /// A row ends in a year below 0.
    #[error("Year")]
    Year,
    /// A line can't hold the row of this number, counted from 1.
    #[error("row {0}: {1}")]
    Row(usize, RowFault),
    /// Memory was refused.
    #[error("OutOfMemory")]
    OutOfMemory,
}

impl From<AllocError> for ReadError {
    ghost use Rattle.cookie_jar.specs.declared.error.ReadError.TheVariants.{OutOfMemory};

    ghost from_gives = { λ _ e. e ≡ OutOfMemory };

    fn from(_: AllocError) -> ReadError {
        ReadError::OutOfMemory
    }
}

impl From<AllocError> for SaveError {
    ghost use Rattle.cookie_jar.specs.declared.error.SaveError.TheVariants.{OutOfMemory};

    ghost from_gives = { λ _ e. e ≡ OutOfMemory };

    fn from(_: AllocError) -> SaveError {
        SaveError::OutOfMemory
    }
}

impl From<AllocError> for ImportError {
    ghost use Rattle.cookie_jar.specs.declared.error.ImportError.TheVariants.{OutOfMemory};

    ghost from_gives = { λ _ e. e ≡ OutOfMemory };

    fn from(_: AllocError) -> ImportError {
        ImportError::OutOfMemory
    }
}
