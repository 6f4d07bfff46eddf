//! Files that are read as a whole. What a file holds, no contract sees.
use crate::cause::words_of;
use std::fs::{self, Files};
use std::io::ErrorKind;

/// Why a file isn't read.
#[derive(Clone, Copy, Debug, PartialEq, Eq)]
pub enum Unread {
    /// It isn't there, or its folder isn't.
    Missing,
    /// Memory was refused.
    Memory,
    /// The system refused it, for this cause in words, as `Permission denied`.
    Failed(&'static str),
}

/// All that a file holds.
pub fn read<H: Files + AllocGlobal>(rt: &H, path: &str) -> Result<Vec<u8>, Unread> {
    match fs::read(rt, path) {
        Ok(bytes) => Ok(bytes),
        Err(error) => match error.kind() {
            ErrorKind::NotFound => Err(Unread::Missing),
            ErrorKind::OutOfMemory => Err(Unread::Memory),
            kind => Err(Unread::Failed(words_of(kind))),
        },
    }
}
