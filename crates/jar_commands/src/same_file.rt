//! Whether two names are of one file.
use crate::plan::last_part;
use std::fs::{self, Files};
use std::os::unix::fs::MetadataExt;

/// Whether the system says that two names are of one file, or would be where it isn't there yet.
pub(crate) fn are_one_file<H: Files>(rt: &H, path: &str, other: &str) -> bool {
    are_same(rt, path, other)
        || last_part(path) == last_part(other) && are_same(rt, folder_of(path), folder_of(other))
}

// Whether there is something under two names, and it is the same.
fn are_same<H: Files>(rt: &H, path: &str, other: &str) -> bool {
    match (fs::metadata(rt, path), fs::metadata(rt, other)) {
        (Ok(found), Ok(there)) => found.dev() == there.dev() && found.ino() == there.ino(),
        _ => false,
    }
}

// The folder in which a file of this name stands.
fn folder_of(path: &str) -> &str {
    match path.rfind('/') {
        Some(0) => "/",
        Some(at) => &path[..at],
        None => ".",
    }
}
