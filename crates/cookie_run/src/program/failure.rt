//! Why the program ends with status 2.
ghost use Rattle.std.specs.Prelude.{◌≡◌};
ghost use Rattle.cookie_run.specs.Program.{failure_text};

/// Why the program ends with status 2, in the order in which it is tested.
#[derive(Clone, Copy, Debug, PartialEq, Eq)]
pub enum Failure {
    /// There aren't four words.
    Arguments,
    /// The second word isn't 64 hexadecimal digits.
    Seed,
    /// The fourth word is no moment of a script.
    Moment,
    /// The file of the suffix list isn't read.
    SuffixFile,
    /// It is no suffix list.
    SuffixList,
    /// The lock of the store file was held by another.
    StoreInUse,
    /// The system refuses the lock of the lock file beside the store file.
    LockFile,
    /// The store file isn't read, or, after the script, not written.
    StoreFile,
    /// It is no saved text, or, after the script, there is none.
    StoreText,
    /// The reader failed.
    Input,
    /// The writer failed.
    Output,
    /// Memory was refused outside the script.
    Memory,
}

impl Failure {
    /// The words that go to standard error.
    pub fn words(self) -> &'static str
        ensures { result.now ≡ failure_text self }
    {
        match self {
            Failure::Arguments => "arguments",
            Failure::Seed => "seed",
            Failure::Moment => "moment",
            Failure::SuffixFile => "suffix file",
            Failure::SuffixList => "suffix list",
            Failure::StoreInUse => "store in use",
            Failure::LockFile => "lock file",
            Failure::StoreFile => "store file",
            Failure::StoreText => "store text",
            Failure::Input => "input",
            Failure::Output => "output",
            Failure::Memory => "memory",
        }
    }
}
