//! What clients and sites do in a play, and what comes of it.
ghost use Rattle.std.specs.Prelude.{◌≡◌};
ghost use Rattle.cookie_run.specs.declared.step.FaultKind.TheVariants.{Memory};

pub use cookie_client::{Command, LineEnd, Reading, SessionError, Stopped, Way};
use jiff::civil::DateTime;
use std::alloc::{AllocError, AllocFailed};
use url::Url;

/// Whether and when the answer of an exchange comes.
#[derive(Clone, Copy, Debug)]
pub enum Delivery {
    /// At this moment, read as UTC.
    At(DateTime),
    /// Never.
    Lost,
}

/// One step of a play. Moments are read as UTC.
#[derive(Drop, Debug)]
pub enum Step {
    /// A request to a URL, the commands of the site's session, and its answer.
    Exchange {
        url: Url,
        at: DateTime,
        commands: Vec<Command>,
        delivery: Delivery,
    },
    /// An answer of any lines, which no session made.
    Foreign {
        url: Url,
        lines: Vec<Vec<u8>>,
        at: DateTime,
    },
    /// A look at the header that a request to a URL would have.
    Header {
        url: Url,
        at: DateTime,
    },
    /// A restart of the client: its cookies are saved and loaded again.
    Restart {
        at: DateTime,
    },
}

/// Why a play ends early.
#[derive(Clone, Copy, Debug, PartialEq, Eq)]
pub enum FaultKind {
    /// A moment isn't a whole second of the years 1971 to 9998.
    Moment,
    /// A moment is before an earlier one.
    Back,
    /// A restart was refused, and not for want of memory. No play ends so.
    Restart,
    /// Memory was refused.
    Memory,
}

impl From<AllocError> for FaultKind {
    ghost from_gives = { λ _ kind. kind ≡ Memory };

    fn from(_: AllocError) -> FaultKind {
        FaultKind::Memory
    }
}

impl<T: Drop> From<AllocFailed<T>> for FaultKind {
    ghost from_gives = { λ _ kind. kind ≡ Memory };

    fn from(_: AllocFailed<T>) -> FaultKind {
        FaultKind::Memory
    }
}

/// Where a play ended early: the step, counted from 1, with what was read until then.
#[derive(Drop, Debug, PartialEq, Eq)]
pub struct Fault {
    pub step: usize,
    pub kind: FaultKind,
    pub readings: Vec<Reading>,
}
