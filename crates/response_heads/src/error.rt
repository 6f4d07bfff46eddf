//! Why heads aren't read.
ghost use Rattle.std.specs.Prelude.{◌≡◌};

use std::alloc::{AllocError, AllocFailed};
use thiserror::Error;

/// Why a line of a head is no field line (RFC 9112, section 5).
#[derive(Clone, Copy, Debug, PartialEq, Eq, Error)]
pub enum LineFault {
    /// It begins with white space: the obsolete way to go on with the field before it (section 5.2). It holds neither a
    /// carriage return nor a zero byte.
    #[error("Folded")]
    Folded,
    /// It has no colon.
    #[error("NoColon")]
    NoColon,
    /// What stands before its first colon is no token, as where white space ends it (section 5.1).
    #[error("Name")]
    Name,
    /// It holds a carriage return that isn't at its end, or a zero byte (RFC 9110, section 5.5).
    #[error("Control")]
    Control,
}

/// Why nothing is read from a line on, which begins with `HTTP/`, in any case.
#[derive(Clone, Copy, Debug, PartialEq, Eq, Error)]
pub enum StopFault {
    /// It is no status line (RFC 9112, section 4), or not a whole one.
    #[error("Status")]
    Status,
    /// Something else stands between the head before it and this line, as trailers (section 7.1.2) or a body.
    #[error("Between")]
    Between,
    /// It is a status line, whose head no empty line ends: the text ends before that, or a line that begins with
    /// `HTTP/`, in any case, or with a carriage return.
    #[error("Unended")]
    Unended,
}

/// Why a line leads from its head to no URL.
#[derive(Clone, Copy, Debug, PartialEq, Eq, Error)]
pub enum LocationFault {
    /// It is a `Location` that isn't plain: programs may read another URL each.
    #[error("NotPlain")]
    NotPlain,
    /// It is the second `Location` of its head.
    #[error("Several")]
    Several,
    /// It is a `Location` without a value.
    #[error("Empty")]
    Empty,
    /// It is a folded line, which may go on with a `Location` or be one.
    #[error("Folded")]
    Folded,
    /// It begins with `Location`, and is no field line.
    #[error("NoField")]
    NoField,
}

/// Why visits aren't told.
#[derive(Clone, Copy, Debug, PartialEq, Eq, Error)]
pub enum ReadError {
    /// The text's first line is no status line. It is `Line(1, StopFault::Status)`.
    #[error("line {0}: {1}")]
    Line(usize, StopFault),
    /// Memory was refused, or a URL would have more than 4 GB.
    #[error("OutOfMemory")]
    OutOfMemory,
}

impl From<AllocError> for ReadError {
    ghost use Rattle.response_heads.specs.declared.error.ReadError.TheVariants.{OutOfMemory};

    ghost from_gives = { λ _ e. e ≡ OutOfMemory };

    fn from(_: AllocError) -> ReadError {
        ReadError::OutOfMemory
    }
}

impl<T: Drop> From<AllocFailed<T>> for ReadError {
    ghost use Rattle.response_heads.specs.declared.error.ReadError.TheVariants.{OutOfMemory};

    ghost from_gives = { λ _ e. e ≡ OutOfMemory };

    fn from(_: AllocFailed<T>) -> ReadError {
        ReadError::OutOfMemory
    }
}
