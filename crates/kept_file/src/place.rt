//! The file that a program keeps something in, read and replaced as a whole. What it holds, no contract sees.
use crate::cause::words_of;
use crate::files::{self, Unread};
use std::alloc::AllocError;
use std::fs::{self, File, Files, Metadata, OpenFile, OpenOptions, Permissions};
use std::io::{self, ErrorKind, Write};
use std::os::unix::fs::{MetadataExt, OpenOptionsExt, PermissionsExt, lchown};
use std::path::{Path, PathBuf};

// The rights of a file that is made: its owner's alone, for it holds session cookies.
pub(crate) const OWNERS: u32 = 0o600;

/// Why a file isn't replaced.
#[derive(Clone, Copy, Debug, PartialEq, Eq)]
pub enum Unwritten {
    /// Memory was refused.
    Memory,
    /// The system refused it, for this cause in words, as `No space left on device`.
    Failed(&'static str),
}

/// Where something is kept: a plain file, or none yet; where the file is a link, what it points to.
#[derive(Drop)]
pub struct Place {
    path: Result<PathBuf, Unread>,
    stem: &'static str,
}

impl Place {
    /// The place of a file, which is read and replaced there from now on. A new file beside it is named
    /// `STEM.N.new`, as `cookie-run.0.new`, or `NAME.STEM.new`.
    ///
    /// It is one that is never read, and so tells `Failed`, where a link points to nothing, where what
    /// stands there is no plain file, where a new file beside it can't be, for the length of its name, and
    /// where the file itself has the name of a new file or of a lock file. `Memory` it tells where memory
    /// was refused.
    pub fn of<H: Files + AllocGlobal>(rt: &H, path: &str, stem: &'static str) -> Place {
        let path = match resolved(rt, path, stem) {
            Ok(path) => Ok(path),
            Err(error) => match error.kind() {
                ErrorKind::OutOfMemory => Err(Unread::Memory),
                kind => Err(Unread::Failed(words_of(kind))),
            },
        };
        Place { path, stem }
    }

    /// All that the file holds.
    pub fn read<H: Files + AllocGlobal>(&self, rt: &H) -> Result<Vec<u8>, Unread> {
        match &self.path {
            Ok(path) => files::read(rt, path.as_path().as_str()),
            Err(cause) => Err(*cause),
        }
    }

    /// Puts the text in the place of what the file holds, with its owner, group and rights, or those of
    /// its owner alone where it wasn't there: it is written to a new file beside that, `STEM.N.new`, which
    /// then takes its name. Where that is refused, the file stays as it was, and none is left beside it.
    ///
    /// Where nothing but the folder's sync is refused behind that, the text stands, and `Failed` is
    /// told all the same, since it may be lost with the power.
    pub fn replace<H: Files + AllocGlobal>(&self, rt: &H, text: &[u8]) -> Result<(), Unwritten> {
        self.replace_by(rt, text, Naming::Numbered)
    }

    // The same by who holds the file's lock: the new file is `NAME.STEM.new`, and one that a killed run
    // left is taken away first.
    pub(crate) fn replace_alone<H: Files + AllocGlobal>(
        &self,
        rt: &H,
        text: &[u8],
    ) -> Result<(), Unwritten> {
        self.replace_by(rt, text, Naming::Alone)
    }

    fn replace_by<H: Files + AllocGlobal>(
        &self,
        rt: &H,
        text: &[u8],
        naming: Naming,
    ) -> Result<(), Unwritten> {
        let path = match &self.path {
            Ok(path) => path,
            Err(Unread::Memory) => return Err(Unwritten::Memory),
            Err(Unread::Missing) => return Err(Unwritten::Failed(words_of(ErrorKind::NotFound))),
            Err(Unread::Failed(cause)) => return Err(Unwritten::Failed(*cause)),
        };
        match put(rt, path.as_path(), self.stem, naming, text) {
            Ok(()) => Ok(()),
            Err(error) => match error.kind() {
                ErrorKind::OutOfMemory => Err(Unwritten::Memory),
                kind => Err(Unwritten::Failed(words_of(kind))),
            },
        }
    }

    // The file under a lock: where it stands, if it is one that can be kept, and `NAME.lock` beside it.
    pub(crate) fn with_lock<H: Files + AllocGlobal>(
        &self,
        rt: &H,
    ) -> Result<(PathBuf, PathBuf), Unread> {
        let path = match &self.path {
            Ok(path) => path.as_path(),
            Err(cause) => return Err(*cause),
        };
        match lock_beside(rt, path, self.stem) {
            Ok(names) => Ok(names),
            Err(error) => match error.kind() {
                ErrorKind::OutOfMemory => Err(Unread::Memory),
                kind => Err(Unread::Failed(words_of(kind))),
            },
        }
    }
}

// How a new file beside one is named.
#[derive(Clone, Copy)]
enum Naming {
    // `STEM.N.new`, for the first number under which nothing stands.
    Numbered,
    // `NAME.STEM.new`, by who holds the lock of the file of this name.
    Alone,
}

// The name that a store file is read and replaced under.
fn resolved<H: Files + AllocGlobal>(rt: &H, path: &str, stem: &str) -> io::Result<PathBuf> {
    let is_link = match standing(rt, Path::new(path))? {
        Some(found) => found.is_symlink(),
        None => false,
    };
    let place = if is_link {
        fs::canonicalize(rt, path)?
    } else {
        PathBuf::from_str(rt.alloc(), path)?
    };
    plain_file(rt, place.as_path())?;
    if is_of_another(place.as_path(), stem) {
        return Err(io::Error::from(ErrorKind::InvalidInput));
    }
    // (a longest name that the system takes now isn't refused behind the script)
    let longest = beside(rt, place.as_path(), stem, u32::MAX)?;
    standing(rt, longest.as_path())?;
    Ok(place)
}

// What stands under a name, where anything does. A link isn't followed.
fn standing<H: Files>(rt: &H, path: Path<'_>) -> io::Result<Option<Metadata>> {
    match fs::symlink_metadata(rt, path) {
        Ok(found) => Ok(Some(found)),
        Err(error) if error.kind() == ErrorKind::NotFound => Ok(None),
        Err(error) => Err(error),
    }
}

// The plain file that stands under a name, where anything does.
pub(crate) fn plain_file<H: Files>(rt: &H, path: Path<'_>) -> io::Result<Option<Metadata>> {
    match standing(rt, path)? {
        Some(found) => {
            if found.is_file() {
                Ok(Some(found))
            } else {
                Err(io::Error::from(ErrorKind::InvalidInput))
            }
        }
        None => Ok(None),
    }
}

// The name of a new file beside one, of this number.
fn beside<H: AllocGlobal>(
    rt: &H,
    path: Path<'_>,
    stem: &str,
    number: u32,
) -> Result<PathBuf, AllocError> {
    let name = format!(in rt.alloc(); "{stem}.{number}.new")?;
    path.with_file_name(rt.alloc(), name.as_str())
}

// The name of the new file beside one, by who holds its lock.
fn beside_alone<H: AllocGlobal>(rt: &H, path: Path<'_>, stem: &str) -> Result<PathBuf, AllocError> {
    let name = path.file_name().unwrap_or("");
    let name = format!(in rt.alloc(); "{name}.{stem}.new")?;
    path.with_file_name(rt.alloc(), name.as_str())
}

// Where a file stands, and the name of its lock file.
fn lock_beside<H: Files + AllocGlobal>(
    rt: &H,
    path: Path<'_>,
    stem: &str,
) -> io::Result<(PathBuf, PathBuf)> {
    // (a name that the system takes now isn't refused behind the script)
    let new = beside_alone(rt, path, stem)?;
    plain_file(rt, new.as_path())?;
    let name = path.file_name().unwrap_or("");
    let name = format!(in rt.alloc(); "{name}.lock")?;
    let lock = path.with_file_name(rt.alloc(), name.as_str())?;
    Ok((PathBuf::from_str(rt.alloc(), path.as_str())?, lock))
}

// Whether a file has the name of a new file or of a lock file.
fn is_of_another(path: Path<'_>, stem: &str) -> bool {
    let Some(name) = path.file_name() else {
        return false;
    };
    let Some(front) = name.strip_suffix(".new") else {
        return name.ends_with(".lock");
    };
    if is_numbered(front, stem) {
        return true;
    }
    match front.strip_suffix(stem) {
        Some(name) => name.ends_with('.'),
        None => false,
    }
}

// Whether a name is the stem, a point and a number.
fn is_numbered(name: &str, stem: &str) -> bool {
    let Some(behind) = name.strip_prefix(stem) else {
        return false;
    };
    match behind.strip_prefix(".") {
        Some(number) => number.parse::<u32>().is_ok(),
        None => false,
    }
}

// Makes a new file beside one, of the first name under which nothing stands.
fn create_beside<H: Files + AllocGlobal>(
    rt: &H,
    path: Path<'_>,
    stem: &str,
) -> io::Result<(H::File, PathBuf)> {
    let mut how = OpenOptions::new();
    how.write(true).create_new(true).mode(OWNERS);
    for number in 0..u32::MAX {
        let name = beside(rt, path, stem, number)?;
        match how.open(rt, name.as_path()) {
            Ok(file) => return Ok((file, name)),
            Err(error) if error.kind() == ErrorKind::AlreadyExists => {}
            Err(error) => return Err(error),
        }
    }
    Err(io::Error::from(ErrorKind::AlreadyExists))
}

// Makes the new file beside one by who holds its lock: one that stands there is of a run that was killed.
fn create_alone<H: Files + AllocGlobal>(
    rt: &H,
    path: Path<'_>,
    stem: &str,
) -> io::Result<(H::File, PathBuf)> {
    let name = beside_alone(rt, path, stem)?;
    if plain_file(rt, name.as_path())?.is_some() {
        fs::remove_file(rt, name.as_path())?;
    }
    let mut how = OpenOptions::new();
    how.write(true).create_new(true).mode(OWNERS);
    let file = how.open(rt, name.as_path())?;
    Ok((file, name))
}

fn create<H: Files + AllocGlobal>(
    rt: &H,
    path: Path<'_>,
    stem: &str,
    naming: Naming,
) -> io::Result<(H::File, PathBuf)> {
    match naming {
        Naming::Numbered => create_beside(rt, path, stem),
        Naming::Alone => create_alone(rt, path, stem),
    }
}

// Writes a new file beside one, up to the disk, and gives it that one's name. Where this is refused, it
// is taken away again.
fn put<H: Files + AllocGlobal>(
    rt: &H,
    path: Path<'_>,
    stem: &str,
    naming: Naming,
    text: &[u8],
) -> io::Result<()> {
    let old = plain_file(rt, path)?;
    let folder = File::open(rt, path.with_file_name(rt.alloc(), ".")?)?;
    let (mut file, name) = create(rt, path, stem, naming)?;
    let mut done = fill(rt, &mut file, name.as_path(), &old, text);
    if done.is_ok() {
        done = fs::rename(rt, name.as_path(), path);
    }
    if done.is_err() {
        let _ = fs::remove_file(rt, name.as_path());
        return done;
    }
    sync_folder(&folder)
}

// Writes a new file with the rights of an old one, up to the disk.
fn fill<H: Files>(
    rt: &H,
    file: &mut H::File,
    name: Path<'_>,
    old: &Option<Metadata>,
    text: &[u8],
) -> io::Result<()> {
    file.write_all(text)?;
    match old {
        Some(old) => give_rights(rt, file, name, old)?,
        None => file.set_permissions(Permissions::from_mode(OWNERS))?,
    }
    file.sync_all()
}

// Gives a new file the owner, the group and the rights of an old one.
fn give_rights<H: Files>(rt: &H, file: &H::File, name: Path<'_>, old: &Metadata) -> io::Result<()> {
    let new = file.metadata()?;
    if new.uid() != old.uid() || new.gid() != old.gid() {
        lchown(rt, name, Some(old.uid()), Some(old.gid()))?;
    }
    file.set_permissions(old.permissions())
}

// Syncs a folder, where its file system has such a call.
fn sync_folder<F: OpenFile>(folder: &F) -> io::Result<()> {
    match folder.sync_all() {
        Err(error) if error.kind() == ErrorKind::InvalidInput => Ok(()),
        done => done,
    }
}
