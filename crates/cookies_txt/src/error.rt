//! Why rows aren't written and a text isn't read.
ghost use Rattle.std.specs.Prelude.{◌≡◌};

use std::alloc::{AllocError, AllocFailed};
use thiserror::Error;

/// Why a line can't hold a row, in the order in which it is told.
#[derive(Clone, Copy, Debug, PartialEq, Eq, Error)]
pub enum RowFault {
    /// The row has no domain, or an empty one.
    #[error("NoDomain")]
    NoDomain,
    /// The host begins with `#`, as comments do, with a dot, which readers leave out, or with white space.
    #[error("HostSign")]
    HostSign,
    /// The path doesn't begin with `/`.
    #[error("NoSlash")]
    NoSlash,
    /// The name is empty.
    #[error("EmptyName")]
    EmptyName,
    /// A tab or a line feed stands in the domain, the path, the name or the value.
    #[error("Separator")]
    Separator,
    /// The value ends in a carriage return, which readers drop.
    #[error("CarriageReturn")]
    CarriageReturn,
}

/// Why rows aren't written.
#[derive(Clone, Copy, Debug, PartialEq, Eq, Error)]
pub enum WriteError {
    /// A line can't hold the row of this number, counted from 1.
    #[error("row {0}: {1}")]
    Row(usize, RowFault),
    /// Memory was refused.
    #[error("OutOfMemory")]
    OutOfMemory,
}

/// What is wrong with a line, in the order in which it is told.
#[derive(Clone, Copy, Debug, PartialEq, Eq, Error)]
pub enum LineFault {
    /// It isn't UTF-8. Only [`crate::read_entries`] tells it.
    #[error("NotText")]
    NotText,
    /// There are neither seven fields nor six.
    #[error("Fields")]
    Fields,
    /// The domain is empty.
    #[error("EmptyDomain")]
    EmptyDomain,
    /// A flag is neither `TRUE` nor `FALSE`, in any case.
    #[error("Flag")]
    Flag,
    /// The path doesn't begin with `/`.
    #[error("NoSlash")]
    NoSlash,
    /// The expiry is neither empty nor a number of seconds, behind which a fraction and before which a minus may stand.
    #[error("Number")]
    Number,
    /// The name is empty.
    #[error("EmptyName")]
    EmptyName,
    /// The domain has no IDNA form, or a second dot in front. Only [`crate::read_entries`] tells it.
    #[error("Domain")]
    Domain,
}

/// Why a text isn't read.
#[derive(Clone, Copy, Debug, PartialEq, Eq, Error)]
pub enum ReadError {
    /// The bytes aren't UTF-8.
    #[error("NotText")]
    NotText,
    /// The line of this number, counted from 1, is faulty.
    #[error("line {0}: {1}")]
    Line(usize, LineFault),
    /// Memory was refused.
    #[error("OutOfMemory")]
    OutOfMemory,
}

impl From<AllocError> for WriteError {
    ghost use Rattle.cookies_txt.specs.declared.error.WriteError.TheVariants.{OutOfMemory};

    ghost from_gives = { λ _ e. e ≡ OutOfMemory };

    fn from(_: AllocError) -> WriteError {
        WriteError::OutOfMemory
    }
}

impl From<AllocError> for ReadError {
    ghost use Rattle.cookies_txt.specs.declared.error.ReadError.TheVariants.{OutOfMemory};

    ghost from_gives = { λ _ e. e ≡ OutOfMemory };

    fn from(_: AllocError) -> ReadError {
        ReadError::OutOfMemory
    }
}

impl<T: Drop> From<AllocFailed<T>> for ReadError {
    ghost use Rattle.cookies_txt.specs.declared.error.ReadError.TheVariants.{OutOfMemory};

    ghost from_gives = { λ _ e. e ≡ OutOfMemory };

    fn from(_: AllocFailed<T>) -> ReadError {
        ReadError::OutOfMemory
    }
}
