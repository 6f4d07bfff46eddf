//! Why the program ends with status 2.
ghost use Rattle.std.specs.Prelude.{◌≡◌};

use crate::refusal::Kind;
use cookie_jar::Cause;
use cookies_txt::{LineFault, RowFault};
use std::alloc::AllocError;

/// Where in a text something stands that is refused.
#[derive(Clone, Copy, Debug, PartialEq, Eq)]
pub enum Spot {
    /// At the line of this number, counted from 1.
    Line(usize),
    /// At the item of this number, counted from 1, of a list of RON or JSON.
    Row(usize),
}

/// Why the program ends with status 2, in the order in which it is tested.
#[derive(Clone, Copy, Debug, PartialEq, Eq)]
pub enum Failure {
    /// The words ask for nothing.
    Words(Kind),
    /// The moment of `--now` isn't one, or there is no clock.
    Moment,
    /// Neither `--format` nor the jar's name tells a form.
    Format,
    /// What `--rules` has isn't a list of rules.
    Rules,
    /// The other file of an export is the jar itself, by its name or, at the end, by what the system says.
    OwnFile,
    /// Neither `--file-format` nor the other file's name tells a form, or it isn't `cookies.txt`, as a reader wants it.
    FileFormat,
    /// The text isn't a plain URL.
    Url,
    /// What `--from` has isn't a plain URL.
    From,
    /// What `--wait` has isn't a number of seconds.
    Wait,
    /// The file of the suffix list isn't read.
    SuffixFile,
    /// The jar's lock was held by another.
    JarInUse,
    /// No lock file can be made or opened beside the jar.
    LockFile,
    /// The jar isn't read, or, at the end, not written.
    JarFile,
    /// The reader failed.
    Input,
    /// The other file isn't read, or, at the end, not written.
    File,
    /// There is no suffix list in its file, or one without a rule.
    SuffixList,
    /// The jar's text isn't one of its form.
    JarText,
    /// What was read aren't heads of responses, by the line of this number, counted from 1.
    Heads(usize),
    /// The other file's text isn't one of its form.
    FileText,
    /// A line or a row of the other file is refused for this cause, and nothing may be.
    FileEntry(Spot, Cause),
    /// A row has no text in the jar's form.
    JarRow,
    /// A row has no text in the other file's form.
    FileRow,
    /// The writer failed. The files are written then.
    Output,
    /// Memory was refused.
    Memory,
}

impl Failure {
    /// The words that go to standard error.
    pub fn words(self) -> &'static str {
        match self {
            Failure::Words(kind) => kind.words(),
            Failure::Moment => "moment",
            Failure::Format => "format",
            Failure::Rules => "rules",
            Failure::OwnFile => "export onto the jar itself",
            Failure::FileFormat => "file format",
            Failure::Url => "url",
            Failure::From => "from",
            Failure::Wait => "wait",
            Failure::SuffixFile => "suffix file",
            Failure::JarInUse => "jar in use",
            Failure::LockFile => "lock file",
            Failure::JarFile => "jar file",
            Failure::File => "file",
            Failure::SuffixList => "suffix list",
            Failure::JarText => "jar text",
            Failure::Input => "input",
            Failure::Heads(_) => "heads: no status line",
            Failure::FileText => "file text",
            Failure::FileEntry(_, cause) => entry_words(cause),
            Failure::JarRow => "jar row",
            Failure::FileRow => "file row",
            Failure::Output => "output",
            Failure::Memory => "memory",
        }
    }
}

// The words of a line or a row that is refused.
fn entry_words(cause: Cause) -> &'static str {
    match cause {
        Cause::Faulty(fault) => fault_text(fault),
        Cause::NoRow => "file text: no row",
        Cause::Control => "file text: control character",
        Cause::Pair => "file text: name or value",
        Cause::Unfit(fault) => unfit_words(fault),
        Cause::HostPrefix => "file text: __Host-",
    }
}

fn fault_text(fault: LineFault) -> &'static str {
    match fault {
        LineFault::NotText => "file text: not UTF-8",
        LineFault::Fields => "file text: neither six nor seven fields",
        LineFault::EmptyDomain => "file text: no domain",
        LineFault::Flag => "file text: flag neither TRUE nor FALSE",
        LineFault::NoSlash => "file text: path without /",
        LineFault::Number => "file text: expiry is no number",
        LineFault::EmptyName => "file text: empty name",
        LineFault::Domain => "file text: domain without IDNA form",
    }
}

fn unfit_words(fault: RowFault) -> &'static str {
    match fault {
        RowFault::NoDomain => "file text: no domain",
        RowFault::HostSign => "file text: host begins with #, a dot or white space",
        RowFault::NoSlash => "file text: path without /",
        RowFault::EmptyName => "file text: empty name",
        RowFault::Separator => "file text: tab or line feed",
        RowFault::CarriageReturn => "file text: value ends in a carriage return",
    }
}

impl From<AllocError> for Failure {
    ghost use Rattle.jar_commands.specs.declared.failure.Failure.TheVariants.{Memory};

    ghost from_gives = { λ _ failure. failure ≡ Memory };

    fn from(_: AllocError) -> Failure {
        Failure::Memory
    }
}
