//! How the program ended.
ghost use Rattle.std.specs.Prelude.{◌≡◌};
ghost use Rattle.jar_commands.specs.Program as spec;

use crate::about::{Stopped, url_about, word_about};
use crate::failure::Failure;
use crate::words::Refusal;
use cookie_jar::Shown;
use std::alloc::Global;

/// How the program ended. What is told is for standard error.
#[derive(Debug, Drop)]
pub struct Ended {
    /// The exit status: 0, 1 or 2.
    pub status: u8,
    /// What is told at status 2.
    pub failure: Option<&'static str>,
    /// What that is about, which goes behind it.
    pub about: Option<Shown>,
    /// The file of the suffix list that counts, where it is to be told.
    pub list: Option<Shown>,
    /// A line of each row of the jar's file that the jar drops as it is loaded, as an import tells it, where that is to
    /// be told.
    pub dropped: Option<Shown>,
    /// What an export tells of its rows, where the output has their text.
    pub counted: Option<Shown>,
}

impl Ended {
    /// It ended with this status.
    pub(crate) fn with(status: u8) -> Ended
        ensures { result.status ≡ status }
    {
        Ended {
            status,
            failure: None,
            about: None,
            list: None,
            dropped: None,
            counted: None,
        }
    }

    /// It was stopped.
    pub(crate) fn stopped(stopped: Stopped) -> Ended
        ensures { result.status ≡ 2 }
    {
        let Stopped { failure, about } = stopped;
        Ended {
            status: 2,
            failure: Some(failure.words()),
            about,
            list: None,
            dropped: None,
            counted: None,
        }
    }

    /// Where all that is asked is printed, it ended so.
    pub(crate) fn of(given: Result<u8, Failure>) -> Ended
        ensures { spec.IsToldBy given result.status }
    {
        match given {
            Ok(status) => Ended::with(status),
            Err(failure) => Ended::stopped(Stopped::of(failure)),
        }
    }

    /// The same, with the file of the suffix list told.
    pub(crate) fn with_list(mut self, list: Option<Shown>) -> Ended
        ensures { result.status ≡ self.status }
    {
        self.list = list;
        self
    }

    /// The same, with what is told of the rows that the jar drops, and of those that an export holds.
    pub(crate) fn with_rows(mut self, dropped: Option<Shown>, counted: Option<Shown>) -> Ended
        ensures { result.status ≡ self.status }
    {
        self.dropped = dropped;
        self.counted = counted;
        self
    }
}

/// How `url TEXT` ended.
pub(crate) fn url_told(alloc: Global, text: &str, given: Result<u8, Failure>) -> Ended
    ensures { spec.IsToldBy given result.status }
{
    match given {
        Err(Failure::Url) => Ended::stopped(Stopped::about(Failure::Url, url_about(alloc, text))),
        given => Ended::of(given),
    }
}

/// Why the words ask for nothing.
pub(crate) fn refused(alloc: Global, refusal: Refusal<'_>) -> Stopped {
    match refusal {
        Refusal::Words(kind, word) => {
            Stopped::about(Failure::Words(kind), word_about(alloc, word))
        }
        Refusal::Help | Refusal::Version | Refusal::Memory => Stopped::of(Failure::Memory),
    }
}
