//! Why the system refuses something, in words.
use std::io::ErrorKind;

/// The words of an error: of those of the system that are known here as strerror of POSIX has them. `InvalidInput` is
/// also told where no plain file stands under a name, or the name is a lock's or a new file's.
pub(crate) fn words_of(kind: ErrorKind) -> &'static str {
    match kind {
        ErrorKind::NotFound => "No such file or directory",
        ErrorKind::PermissionDenied => "Permission denied",
        ErrorKind::AlreadyExists => "File exists",
        ErrorKind::NotADirectory => "Not a directory",
        ErrorKind::IsADirectory => "Is a directory",
        ErrorKind::ReadOnlyFilesystem => "Read-only file system",
        ErrorKind::FilesystemLoop => "Too many levels of symbolic links",
        ErrorKind::InvalidFilename => "File name too long",
        ErrorKind::StorageFull => "No space left on device",
        ErrorKind::QuotaExceeded => "Disk quota exceeded",
        ErrorKind::FileTooLarge => "File too large",
        ErrorKind::Unsupported => "Operation not supported",
        ErrorKind::InvalidInput => "not a file that can be kept",
        _ => "refused by the system",
    }
}
