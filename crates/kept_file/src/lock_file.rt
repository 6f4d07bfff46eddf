//! The lock file beside a kept file.
use crate::cause::words_of;
use crate::files::Unread;
use crate::keeper::Untaken;
use crate::place::{OWNERS, Place, plain_file};
use std::fs::{File, Files, Metadata, OpenOptions, Permissions, TryLockError};
use std::io::{self, ErrorKind};
use std::os::unix::fs::{MetadataExt, OpenOptionsExt, PermissionsExt, lchown};
use std::path::Path;
use std::rt::Clock;
use std::thread;
use std::time::{Duration, Instant};

// How long it is waited between two tries, in milliseconds.
const PAUSE: u64 = 10;

/// The lock file of a place, locked. It stays where it is: who took it away would have two hold the lock. None where it
/// can be neither made nor opened, if `without` is said.
pub(crate) fn locked<H: Files<File = File> + AllocGlobal + Clock>(
    rt: &H,
    place: &Place,
    wait: Duration,
    without: bool,
) -> Result<Option<File>, Untaken> {
    let (path, lock) = match place.with_lock(rt) {
        Ok(names) => names,
        Err(Unread::Memory) => return Err(Untaken::Memory),
        Err(Unread::Missing) => return Err(Untaken::Failed(words_of(ErrorKind::NotFound))),
        Err(Unread::Failed(cause)) => return Err(Untaken::Failed(cause)),
    };
    let file = match opened(rt, path.as_path(), lock.as_path()) {
        Ok(file) => file,
        Err(error) if without && error.kind() != ErrorKind::OutOfMemory => return Ok(None),
        Err(error) => return Err(untaken(error)),
    };
    match try_for(rt, &file, wait) {
        Ok(true) => Ok(Some(file)),
        Ok(false) => Err(Untaken::InUse),
        Err(error) => Err(untaken(error)),
    }
}

fn untaken(error: io::Error) -> Untaken {
    match error.kind() {
        ErrorKind::OutOfMemory => Untaken::Memory,
        // (its folder isn't there, so the file can't be kept either)
        ErrorKind::NotFound => Untaken::Failed(words_of(ErrorKind::NotFound)),
        kind => Untaken::NoLock(words_of(kind)),
    }
}

// Whether the lock is given within the time.
fn try_for<H: Clock>(rt: &H, file: &File, wait: Duration) -> io::Result<bool> {
    let begun = Instant::now(rt)?;
    for _ in 0..u64::MAX {
        match file.try_lock() {
            Ok(()) => return Ok(true),
            Err(TryLockError::WouldBlock) => {}
            Err(TryLockError::Error(error)) => return Err(error),
        }
        if begun.elapsed(rt)? >= wait {
            return Ok(false);
        }
        thread::sleep(rt, Duration::from_millis(PAUSE));
    }
    Ok(false)
}

// The lock file of a file, which is made where it isn't there.
fn opened<H: Files<File = File> + AllocGlobal>(
    rt: &H,
    path: Path<'_>,
    lock: Path<'_>,
) -> io::Result<File> {
    if plain_file(rt, lock)?.is_some() {
        return File::open(rt, lock);
    }
    let mut how = OpenOptions::new();
    how.write(true).create_new(true).mode(OWNERS);
    match how.open(rt, lock) {
        Ok(file) => {
            file.set_permissions(Permissions::from_mode(OWNERS))?;
            give_owner(rt, &file, lock, plain_file(rt, path)?);
            Ok(file)
        }
        Err(error) if error.kind() == ErrorKind::AlreadyExists => File::open(rt, lock),
        Err(error) => Err(error),
    }
}

// Gives a lock file the owner of the file that is there, where it may: else its owner couldn't take it.
fn give_owner<H: Files>(rt: &H, file: &File, lock: Path<'_>, kept: Option<Metadata>) {
    let (Some(kept), Ok(made)) = (kept, file.metadata()) else {
        return;
    };
    if made.uid() != kept.uid() || made.gid() != kept.gid() {
        let _ = lchown(rt, lock, Some(kept.uid()), Some(kept.gid()));
    }
}
