//! A file of the system, kept under a lock file beside it.
ghost use Rattle.std.specs.Prelude.{◌≡◌};
ghost use Rattle.kept_file.specs.Locked.{lock_in};
ghost use Rattle.kept_file.specs.Locks.{Free};

use crate::files::Unread;
use crate::keeper::{Keeper, Untaken};
use crate::lock::{Holding, Lock};
use crate::lock_file::locked;
use crate::place::{Place, Unwritten};
use std::fs::{File, Files};
use std::mem;
use std::rt::Clock;
use std::time::Duration;

// Why what wants the lock is refused without it.
const UNHELD: &str = "its lock isn't held";

/// A file of the system. Its lock is the system's (flock) on a file beside it, `NAME.lock`, which is empty,
/// its owner's alone, and stays. The system gives the lock back where the process ends.
#[derive(Drop)]
pub struct Locked<'a, H> {
    rt: &'a H,
    stem: &'static str,
    // Whether the file is read where it has no lock file.
    without: bool,
    held: Option<(Place, Option<File>)>,
    lock: Lock,
}

impl<'a, H> Locked<'a, H> {
    /// A file that isn't known yet, whose lock is free. While its text is put in its place, a new file
    /// beside it is named `NAME.STEM.new`, as `jar.json.cookie-jar.new`.
    pub fn new(rt: &'a H, stem: &'static str) -> Locked<'a, H>
        ensures { lock_in result ≡ Free }
    {
        Locked {
            rt,
            stem,
            without: false,
            held: None,
            lock: Lock::Free,
        }
    }

    /// The same, but where a lock file can be neither made nor opened beside the file, as in a folder that isn't there,
    /// the file is read without one, and replacing it is refused.
    pub fn or_only_read(rt: &'a H, stem: &'static str) -> Locked<'a, H>
        ensures { lock_in result ≡ Free }
    {
        Locked {
            rt,
            stem,
            without: true,
            held: None,
            lock: Lock::Free,
        }
    }
}

impl<'a, H: Files<File = File> + AllocGlobal + Clock> Keeper for Locked<'a, H> {
    ghost lock = { lock_in };

    fn take(&mut self, path: &str, wait: Duration) -> Result<(), Untaken> {
        let Lock::Free = self.lock else {
            return Err(Untaken::InUse);
        };
        let Ok(named) = String::from_str(self.rt.alloc(), path) else {
            return Err(Untaken::Memory);
        };
        let place = Place::of(self.rt, path, self.stem);
        let file = locked(self.rt, &place, wait, self.without)?;
        self.held = Some((place, file));
        self.lock = Lock::Held(Holding {
            path: named,
            seen: None,
            put: None,
        });
        Ok(())
    }

    fn read(&mut self) -> Result<(), Unread> {
        let Some((place, _)) = &self.held else {
            return Err(Unread::Failed(UNHELD));
        };
        let bytes = match place.read(self.rt) {
            Ok(bytes) => Some(bytes),
            Err(Unread::Missing) => None,
            Err(unread) => return Err(unread),
        };
        match &mut self.lock {
            Lock::Held(holding) => {
                holding.seen = Some(bytes);
                Ok(())
            }
            Lock::Free | Lock::Given(_) => Err(Unread::Failed(UNHELD)),
        }
    }

    fn bytes(&self) -> Option<&[u8]> {
        match &self.lock {
            Lock::Free => None,
            Lock::Held(holding) | Lock::Given(holding) => holding.bytes(),
        }
    }

    fn replace(&mut self, text: Vec<u8>) -> Result<(), Unwritten> {
        let Lock::Held(holding) = &mut self.lock else {
            return Err(Unwritten::Failed(UNHELD));
        };
        let done = match &self.held {
            Some((place, Some(_))) => place.replace_alone(self.rt, &text),
            Some((_, None)) | None => Err(Unwritten::Failed(UNHELD)),
        };
        holding.put = Some(text);
        done
    }

    fn give(&mut self) {
        if let Some((_, Some(file))) = self.held.take() {
            let _ = file.unlock();
        }
        self.lock = mem::replace(&mut self.lock, Lock::Free).given();
    }
}
