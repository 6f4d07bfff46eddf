//! The options and commands, by name.

/// An option or a flag.
#[derive(Clone, Copy, Debug, PartialEq, Eq)]
pub enum Name {
    /// `--now MOMENT`.
    Now,
    /// `--suffixes FILE`.
    Suffixes,
    /// `--format FORM`.
    Format,
    /// `--wait SECONDS`.
    Wait,
    /// `--rules LIST`.
    Rules,
    /// `-v`, `--verbose`.
    Verbose,
    /// `-h`, `--help`.
    Help,
    /// `-V`, `--version`.
    Version,
    /// `--json`, of `list`.
    Json,
    /// `--domain DOMAIN`, of `list`.
    Domain,
    /// `--strict`, of `import`.
    Strict,
    /// `--file-format FORM`, of `import` and `export`.
    FileFormat,
    /// `--for READER`, of `export`.
    For,
    /// `--from PAGE`, of `receive` and `header`.
    From,
    /// `--navigate`, of `receive` and `header`.
    Navigate,
    /// `--one`, of `receive`.
    One,
}

// How each option is written, and whether it has a value.
const OPTIONS: [(&str, (Name, bool)); 19] = [
    ("--now", (Name::Now, true)),
    ("--suffixes", (Name::Suffixes, true)),
    ("--format", (Name::Format, true)),
    ("--wait", (Name::Wait, true)),
    ("--rules", (Name::Rules, true)),
    ("-v", (Name::Verbose, false)),
    ("--verbose", (Name::Verbose, false)),
    ("-h", (Name::Help, false)),
    ("--help", (Name::Help, false)),
    ("-V", (Name::Version, false)),
    ("--version", (Name::Version, false)),
    ("--json", (Name::Json, false)),
    ("--domain", (Name::Domain, true)),
    ("--strict", (Name::Strict, false)),
    ("--file-format", (Name::FileFormat, true)),
    ("--for", (Name::For, true)),
    ("--from", (Name::From, true)),
    ("--navigate", (Name::Navigate, false)),
    ("--one", (Name::One, false)),
];

// How each command is written, the names of the words that it has, and how many of these have to be there.
const COMMANDS: [(&str, (&[&str], usize)); 10] = [
    ("receive", (&["URL"], 1)),
    ("header", (&["URL"], 1)),
    ("get", (&["URL", "NAME"], 2)),
    ("set", (&["URL", "LINE"], 2)),
    ("list", (&["URL"], 0)),
    ("explain", (&["URL", "LINE"], 2)),
    ("remove", (&["DOMAIN", "PATH", "NAME"], 3)),
    ("clear", (&[], 0)),
    ("import", (&["FILE"], 1)),
    ("export", (&["FILE"], 1)),
];

impl Name {
    /// The option that is written so, and whether it has a value.
    pub(crate) fn of(text: &str) -> Option<(Name, bool)> {
        row_of(&OPTIONS, text)
    }

    /// Whether the command of this name has the option.
    pub(crate) fn is_of(self, command: &str) -> bool {
        match self {
            Name::From | Name::Navigate => command == "receive" || command == "header",
            Name::One => command == "receive",
            Name::Json | Name::Domain => command == "list",
            Name::Strict => command == "import",
            Name::FileFormat => command == "import" || command == "export",
            Name::For => command == "export",
            _ => true,
        }
    }
}

/// The names of the words that the command of this name has, and how many of these have to be there.
pub(crate) fn words_of(command: &str) -> Option<(&'static [&'static str], usize)> {
    row_of(&COMMANDS, command)
}

// What stands in the first row of this text.
fn row_of<T: Copy>(rows: &[(&str, T)], text: &str) -> Option<T> {
    for row in rows {
        if text == row.0 {
            return Some(row.1);
        }
    }
    None
}
