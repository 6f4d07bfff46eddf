//! Why words are refused.

/// What is wrong with words that are refused.
#[derive(Clone, Copy, Debug, PartialEq, Eq)]
pub enum Kind {
    /// An option that there isn't or that the command has not, a command that there isn't, or a word too many.
    UnknownWord,
    /// An option without its value.
    NoValue,
    /// A flag with a value.
    UnneededValue,
    /// An option or a flag that is given twice.
    Repeated,
    /// No JAR, or not all words of the command.
    MissingWord,
    /// No command.
    MissingCommand,
    /// A command in the place of JAR, behind which stands no command.
    MissingJar,
    /// A JAR without a name.
    EmptyJar,
    /// Something beside `url TEXT`, which has neither JAR nor options.
    Alone,
    /// A form that is none of `ron`, `json` and `txt`.
    Format,
    /// A reader that is none of `curl`, `wget` and `python`.
    Reader,
    /// A URL beside `--domain`.
    Both,
    /// `--navigate` without `--from`.
    NoFrom,
}

impl Kind {
    /// A few words on it, for one line on standard error.
    pub fn words(self) -> &'static str {
        match self {
            Kind::UnknownWord => "an option, command or word that isn't known",
            Kind::NoValue => "an option without its value",
            Kind::UnneededValue => "a flag with a value",
            Kind::Repeated => "an option given twice",
            Kind::MissingWord => "a word is missing",
            Kind::MissingCommand => "a command is missing",
            Kind::MissingJar => "no JAR stands before this command",
            Kind::EmptyJar => "JAR has no name",
            Kind::Alone => "url has one TEXT, and neither JAR nor options",
            Kind::Format => "a format that is none of ron, json and txt",
            Kind::Reader => "a reader that is none of curl, wget and python",
            Kind::Both => "a URL beside --domain",
            Kind::NoFrom => "an option without --from",
        }
    }
}

/// Why words aren't read.
#[derive(Clone, Copy, Debug, PartialEq, Eq)]
pub enum Refusal<'a> {
    /// The words ask for help.
    Help,
    /// The words ask for the version.
    Version,
    /// Memory was refused.
    Memory,
    /// What is wrong with them, and the word at which it shows: of a form or a reader the text that is none, of what
    /// is missing its name in the usage, as `JAR` or `URL`, and of a missing JAR the command that stands in its place.
    Words(Kind, &'a str),
}
