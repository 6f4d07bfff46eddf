//! How the run of a script ends.

use devices::pour::WriteFailed;
use thiserror::Error;

/// How a run ends.
#[derive(Clone, Copy, Debug, PartialEq, Eq)]
pub enum Ended {
    /// Every line was done.
    Whole,
    /// This line, counted from 1, wasn't done: it is the first that has a fault.
    Faulty(u64),
}

/// Why a run gives up.
#[derive(Clone, Copy, Debug, PartialEq, Eq, Error)]
pub enum RunError {
    /// The reader failed.
    #[error("Read")]
    Read,
    /// The writer failed.
    #[error("Write")]
    Write,
}

impl From<WriteFailed> for RunError {
    ghost use Rattle.std.specs.Prelude.{◌≡◌};
    ghost use Rattle.cookie_run.specs.declared.script.ended.RunError.TheVariants.{Write};

    ghost from_gives = { λ _ e. e ≡ Write };

    fn from(_: WriteFailed) -> RunError {
        RunError::Write
    }
}
