//! Why a command ends with status 2, and what that is about.
ghost use Rattle.std.specs.Prelude.{◌≡◌, ◌⊎◌};
ghost use Rattle.jar_commands.specs.Program.{IsOfFiles};

use crate::failure::{Failure, Spot};
use crate::plan::{Command, Plan};
use crate::url_cause::url_cause;
use cookie_jar::{Form, Shown, place_of};
use kept_file::files::Unread;
use kept_file::{Untaken, Unwritten};
use plain_url::plain_for;
use publicsuffix::{List, ListError};
use std::alloc::{AllocError, Global};

// What is told where a file isn't there that has to be.
const MISSING: &str = "No such file or directory";

/// Why a command ends with status 2.
#[derive(Debug, Drop)]
pub struct Stopped {
    /// The failure.
    pub failure: Failure,
    /// What it is about: a word, the plain text to ask for in the place of a URL, the name of a file with the cause for
    /// which the system refused that, or a place in a text. None where it is about nothing, and where memory was
    /// refused for it.
    pub about: Option<Shown>,
}

impl Stopped {
    /// A failure of which no more is told.
    pub(crate) fn of(failure: Failure) -> Stopped
        ensures { result.failure ≡ failure }
    {
        Stopped {
            failure,
            about: None,
        }
    }

    /// A failure, and what it is about where there is memory for that.
    pub(crate) fn about(failure: Failure, about: Result<Option<Shown>, AllocError>) -> Stopped
        ensures { result.failure ≡ failure }
    {
        Stopped {
            failure,
            about: about.unwrap_or(None),
        }
    }

    /// A failure that is about a name, with what stands behind that.
    pub(crate) fn named(
        alloc: Global,
        failure: Failure,
        name: &str,
        behind: &'static str,
    ) -> Stopped
        ensures { result.failure ≡ failure }
    {
        Stopped::about(failure, name_about(alloc, name, behind))
    }

    // The system refused the file of this name.
    fn by(alloc: Global, failure: Failure, name: &str, cause: &'static str) -> Stopped
        ensures { result.failure ≡ failure }
    {
        Stopped::about(failure, cause_about(alloc, name, cause))
    }

    /// Where a file of this name isn't read: want of memory, or that it was refused.
    pub(crate) fn unread(alloc: Global, name: &str, unread: Unread, refused: Failure) -> Stopped
        ensures { (result.failure ≡ refused) ⊎ (result.failure ≡ Failure.Memory) }
    {
        match unread {
            Unread::Memory => Stopped::of(Failure::Memory),
            Unread::Missing => Stopped::by(alloc, refused, name, MISSING),
            Unread::Failed(cause) => Stopped::by(alloc, refused, name, cause),
        }
    }

    /// Where a file of this name isn't written: want of memory, or that it was refused.
    pub(crate) fn unwritten(
        alloc: Global,
        name: &str,
        unwritten: Unwritten,
        refused: Failure,
    ) -> Stopped
        ensures { (result.failure ≡ refused) ⊎ (result.failure ≡ Failure.Memory) }
    {
        match unwritten {
            Unwritten::Memory => Stopped::of(Failure::Memory),
            Unwritten::Failed(cause) => Stopped::by(alloc, refused, name, cause),
        }
    }

    /// Where the jar's lock isn't taken.
    pub(crate) fn untaken(alloc: Global, jar: &str, untaken: Untaken) -> Stopped
        ensures { IsOfFiles result.failure }
    {
        match untaken {
            Untaken::InUse => Stopped::named(alloc, Failure::JarInUse, jar, ""),
            Untaken::NoLock(cause) => {
                Stopped::about(Failure::LockFile, lock_about(alloc, jar, cause))
            }
            Untaken::Failed(cause) => Stopped::by(alloc, Failure::JarFile, jar, cause),
            Untaken::Memory => Stopped::of(Failure::Memory),
        }
    }

    /// Texts give nothing for this failure: with why the first is no suffix list, where one of them isn't read or
    /// written, or what of it is refused. `list` is the file of the first.
    pub(crate) fn in_texts(
        alloc: Global,
        plan: &Plan<'_>,
        list: &str,
        suffixes: &[u8],
        stored: Option<&[u8]>,
        brought: Option<&[u8]>,
        failure: Failure,
    ) -> Stopped
        ensures { result.failure ≡ failure }
    {
        let about = match (failure, &plan.command) {
            (Failure::SuffixList, _) => list_about(alloc, list, suffixes),
            (Failure::JarText, _) => text_about(alloc, plan.jar, plan.form, stored),
            (Failure::JarRow, _) => name_about(alloc, plan.jar, ""),
            (Failure::FileText, Command::Import(file, form, _)) => {
                text_about(alloc, file, *form, brought)
            }
            (Failure::FileRow, Command::Export(file, _, _)) => name_about(alloc, file, ""),
            (Failure::Heads(line), _) => spot_about(alloc, Spot::Line(line)),
            (Failure::FileEntry(spot, _), _) => spot_about(alloc, spot),
            _ => Ok(None),
        };
        Stopped::about(failure, about)
    }
}

/// A name as a terminal may have it, and of an empty one that it is so.
///
/// # Errors
///
/// `AllocError`, for want of memory.
pub(crate) fn name_text(alloc: Global, name: &str) -> Result<Shown, AllocError> {
    let mut told = Shown::new(alloc);
    if name.is_empty() {
        told.words("an empty word")?;
    } else {
        told.text(name)?;
    }
    Ok(told)
}

// A name, and what stands behind it.
fn name_about(
    alloc: Global,
    name: &str,
    behind: &'static str,
) -> Result<Option<Shown>, AllocError> {
    let mut told = name_text(alloc, name)?;
    told.text(behind)?;
    Ok(Some(told))
}

// A name, and the cause for which the system refused its file.
fn cause_about(
    alloc: Global,
    name: &str,
    cause: &'static str,
) -> Result<Option<Shown>, AllocError> {
    let mut told = name_text(alloc, name)?;
    told.words(": ")?;
    told.text(cause)?;
    Ok(Some(told))
}

// The name of a jar's lock, and the cause for which the system refused it.
fn lock_about(alloc: Global, jar: &str, cause: &'static str) -> Result<Option<Shown>, AllocError> {
    let mut told = name_text(alloc, jar)?;
    told.words(".lock: ")?;
    told.text(cause)?;
    Ok(Some(told))
}

// Why the text of a file is no suffix list.
fn list_about(alloc: Global, list: &str, text: &[u8]) -> Result<Option<Shown>, AllocError> {
    let mut told = name_text(alloc, list)?;
    match List::parse_hosts(alloc, text) {
        Err(ListError::Rule(number)) => {
            told.words(": line ")?;
            told.number(number as u64)?;
            told.words(": no rule")?;
        }
        Err(ListError::NotText) => told.words(": not UTF-8")?,
        Ok(list) if !list.has_rule() => told.words(": has no rule")?,
        Ok(_) | Err(ListError::OutOfMemory) => {}
    }
    Ok(Some(told))
}

// Where the text of a file stops to be read.
fn text_about(
    alloc: Global,
    name: &str,
    form: Form,
    text: Option<&[u8]>,
) -> Result<Option<Shown>, AllocError> {
    let mut told = name_text(alloc, name)?;
    if let Some(text) = text {
        if let Some(place) = place_of(alloc, form, text)? {
            told.words(": ")?;
            place.tell(alloc, &mut told)?;
        }
    }
    Ok(Some(told))
}

fn spot_about(alloc: Global, spot: Spot) -> Result<Option<Shown>, AllocError> {
    let mut told = Shown::new(alloc);
    let (what, number) = match spot {
        Spot::Line(number) => ("line ", number),
        Spot::Row(number) => ("row ", number),
    };
    told.text(what)?;
    told.number(number as u64)?;
    Ok(Some(told))
}

/// What to ask in the place of a URL that isn't plain, or why there is no such text.
///
/// # Errors
///
/// `AllocError`, for want of memory.
pub(crate) fn plain_about(alloc: Global, text: &str) -> Result<Option<Shown>, AllocError> {
    let Some(plain) = plain_for(alloc, text)? else {
        return url_about(alloc, text);
    };
    let mut told = Shown::new(alloc);
    told.words("ask ")?;
    told.text(plain.as_str())?;
    told.words(" instead")?;
    Ok(Some(told))
}

/// A text without what stands before its last `@`, which may be a password, and why no URL is to be asked for in its
/// place.
///
/// # Errors
///
/// `AllocError`, for want of memory.
pub(crate) fn url_about(alloc: Global, text: &str) -> Result<Option<Shown>, AllocError> {
    let mut told = name_text(alloc, without_user(text))?;
    told.words(": ")?;
    told.text(url_cause(alloc, text)?)?;
    Ok(Some(told))
}

/// A word without what stands before its last `@`.
///
/// # Errors
///
/// `AllocError`, for want of memory.
pub(crate) fn word_about(alloc: Global, word: &str) -> Result<Option<Shown>, AllocError> {
    Ok(Some(name_text(alloc, without_user(word))?))
}

// What stands behind the last `@` of a text.
fn without_user(text: &str) -> &str {
    let mut last = text;
    for part in text.split('@') {
        last = part;
    }
    last
}
