//! What a device knows of its file's lock.
ghost use Rattle.std.specs.Prelude.{◌≡◌};
ghost use Rattle.std.specs.Option.{option_copied};
ghost use Rattle.kept_file.specs.Locks as spec;

/// What was done to a file under its lock.
#[derive(Drop)]
pub(crate) struct Holding {
    pub path: String,
    pub seen: Option<Option<Vec<u8>>>,
    pub put: Option<Vec<u8>>,
}

/// How it stands with the lock.
#[derive(Drop)]
pub(crate) enum Lock {
    Free,
    Held(Holding),
    Given(Holding),
}

impl Holding {
    /// The bytes that were read, or none.
    pub fn bytes(&self) -> Option<&[u8]>
        ensures { option_copied result ≡ spec.bytes_in (spec.holding_of self.now).seen }
    {
        match &self.seen {
            Some(bytes) => bytes.as_deref(),
            None => None,
        }
    }
}

impl Lock {
    /// The lock, given back.
    pub fn given(self) -> Lock
        ensures { spec.lock_of result ≡ spec.given_back (spec.lock_of self) }
    {
        match self {
            Lock::Free => Lock::Free,
            Lock::Held(holding) | Lock::Given(holding) => Lock::Given(holding),
        }
    }
}
