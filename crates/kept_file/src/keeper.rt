//! A device that keeps a file: it takes the file's lock, reads it and replaces it.
ghost use Rattle.std.specs.Prelude.{◌≡◌, OnOk, OnErr, Option, List, ℕ};

use crate::files::Unread;
use crate::place::Unwritten;
use std::time::Duration;

/// Why a lock isn't taken.
#[derive(Clone, Copy, Debug, PartialEq, Eq)]
pub enum Untaken {
    /// It was held by another all the time.
    InUse,
    /// No lock file can be made or opened beside the file, for this cause in words.
    NoLock(&'static str),
    /// The file isn't one that can be kept, or its folder isn't there, for this cause in words.
    Failed(&'static str),
    /// Memory was refused.
    Memory,
}

/// A file that is replaced as a whole, by who holds its lock. Each takes one lock, once.
pub trait Keeper {
    ghost use Rattle.std.specs.Option.{option_copied};
    ghost use Rattle.kept_file.specs.Locks.{Lock, Free, taken, with_seen, with_put, given_back, bytes_of};

    /// How it stands with the lock, and what was done under it.
    ghost lock: { Self → Lock };

    /// Takes the lock of the file under this path, and waits for it no longer than this.
    fn take(&mut self, path: &str, wait: Duration) -> Result<(), Untaken>
        ensures ok { OnOk result ((lock self.old ≡ Free) × (lock self.new ≡ taken path.now)) }
        ensures err { OnErr result (lock self.new ≡ lock self.old) };

    /// Reads the file, whose lock is held.
    fn read(&mut self) -> Result<(), Unread>
        ensures ok { OnOk result ((bytes : Option (List ℕ)) × (lock self.new ≡ with_seen bytes (lock self.old))) }
        ensures err { OnErr result (lock self.new ≡ lock self.old) };

    /// All that the file held as it was read, or none where it wasn't there.
    fn bytes(&self) -> Option<&[u8]>
        ensures { option_copied result ≡ bytes_of (lock self.now) };

    /// Puts the text in the file's place, whose lock is held. Where that is refused, the file stays as it
    /// was; but where nothing but the folder's sync is, the text stands.
    fn replace(&mut self, text: Vec<u8>) -> Result<(), Unwritten>
        ensures { lock self.new ≡ with_put text.items (lock self.old) };

    /// Gives the lock back.
    fn give(&mut self)
        ensures { lock self.new ≡ given_back (lock self.old) };
}
