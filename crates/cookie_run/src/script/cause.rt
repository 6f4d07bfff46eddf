//! What is wrong with a line of a script.
ghost use Rattle.std.specs.Prelude.{◌≡◌};
ghost use Rattle.cookie_run.specs.ScriptText.{cause_text};

use std::alloc::{AllocError, AllocFailed};

/// What is wrong with a line of a script, in the order in which it is tested.
#[derive(Clone, Copy, Debug, PartialEq, Eq)]
pub enum Cause {
    /// The first field is no word of a script.
    Word,
    /// A field isn't UTF-8.
    Text,
    /// The number of fields, a way, a max-age, an expiry or a seed isn't one that the word takes.
    Fields,
    /// The URL doesn't parse.
    Url,
    /// The moment isn't a second of the years 1971 to 9998 in the form `YYYY-MM-DDThh:mm:ssZ`.
    Moment,
    /// The moment is before an earlier one.
    Back,
    /// No session is open.
    NoSession,
    /// A session is open.
    Open,
    /// The name of a cookie is empty.
    EmptyName,
    /// The expiry of a cookie is of a year below 100.
    Year,
    /// The value or the name is too long to be sealed.
    TooLong,
    /// The generator's fill failed.
    Rng,
    /// Over 16 earlier keys would be left.
    Keys,
    /// A restart was refused, and not for want of memory. No script ends so.
    Restart,
    /// Memory was refused.
    Memory,
}

impl Cause {
    /// The name that a script's run prints.
    pub fn name(self) -> &'static str
        ensures { result.now ≡ cause_text self }
    {
        match self {
            Cause::Word => "Word",
            Cause::Text => "Text",
            Cause::Fields => "Fields",
            Cause::Url => "Url",
            Cause::Moment => "Moment",
            Cause::Back => "Back",
            Cause::NoSession => "NoSession",
            Cause::Open => "Open",
            Cause::EmptyName => "EmptyName",
            Cause::Year => "Year",
            Cause::TooLong => "TooLong",
            Cause::Rng => "Rng",
            Cause::Keys => "Keys",
            Cause::Restart => "Restart",
            Cause::Memory => "Memory",
        }
    }
}

impl From<AllocError> for Cause {
    ghost use Rattle.cookie_run.specs.declared.script.cause.Cause.TheVariants.{Memory};

    ghost from_gives = { λ _ e. e ≡ Memory };

    fn from(_: AllocError) -> Cause {
        Cause::Memory
    }
}

impl<T: Drop> From<AllocFailed<T>> for Cause {
    ghost use Rattle.cookie_run.specs.declared.script.cause.Cause.TheVariants.{Memory};

    ghost from_gives = { λ _ e. e ≡ Memory };

    fn from(_: AllocFailed<T>) -> Cause {
        Cause::Memory
    }
}
