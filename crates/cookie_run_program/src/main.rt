//! `cookie-run`: plays the script of standard input to standard output, for a client that is kept in a file.
#![tactic(auto)]

use cookie_run::Counting;
use cookie_run::program::files::{self, Unread};
use cookie_run::program::program;
use kept_file::Locked;
use std::alloc::AllocError;
use std::env;
use std::fs::File;
use std::io::{self, BufReader, BufWriter, ErrorKind};
use std::process::ExitCode;

fn main(rt: HostRuntime) -> ExitCode {
    let (status, words) = start(&rt);
    if let Some(words) = words {
        let _ = eprintln!(rt; "cookie-run: {words}");
    }
    ExitCode::from(status)
}

// What the program answers, or want of memory.
fn start(rt: &HostRuntime) -> (u8, Option<&'static str>) {
    match answer(rt) {
        Ok(answer) => answer,
        Err(AllocError) => (2, Some("memory")),
    }
}

// Hands the program its words, standard input and standard output.
fn answer(rt: &HostRuntime) -> Result<(u8, Option<&'static str>), AllocError> {
    let _taken = closed_taken(rt);
    let words = with_seed(rt, words(rt)?)?;
    let Ok(reader) = BufReader::new(rt.alloc(), rt.reader()) else {
        return Err(AllocError);
    };
    let Ok(writer) = BufWriter::new(rt.alloc(), io::writer(rt)) else {
        return Err(AllocError);
    };
    Ok(program(
        rt,
        &words,
        &mut Locked::or_only_read(rt, "cookie-run"),
        &mut Counting::new(reader),
        &mut Counting::new(writer),
    ))
}

// Files that take the numbers of what is closed of standard input, output and error, so that no file that is opened
// later is written to or read in its place. A folder can be neither.
fn closed_taken(rt: &HostRuntime) -> [io::Result<File>; 3] {
    [
        File::open(rt, "/"),
        File::open(rt, "/"),
        File::open(rt, "/"),
    ]
}

// The words behind the program's name. One that isn't UTF-8 is no text, so there aren't four then.
fn words(rt: &HostRuntime) -> Result<Vec<String>, AllocError> {
    match env::args(rt) {
        Ok(words) => words.skip(1).collect(rt.alloc()),
        Err(error) if error.kind() == ErrorKind::OutOfMemory => Err(AllocError),
        Err(_) => Ok(Vec::new(rt.alloc())),
    }
}

// The words, with what a file holds in the place of a SEED `@FILE`: a line feed at its end is left out.
fn with_seed(rt: &HostRuntime, mut words: Vec<String>) -> Result<Vec<String>, AllocError> {
    if let Some(seed) = words.get_mut(1) {
        if let Some(path) = seed.strip_prefix('@') {
            if let Some(text) = file_text(rt, path)? {
                *seed = text;
            }
        }
    }
    Ok(words)
}

// The text of a file, or none where it isn't read or isn't UTF-8: then the word stays, which is no seed.
fn file_text(rt: &HostRuntime, path: &str) -> Result<Option<String>, AllocError> {
    match files::read(rt, path) {
        Ok(bytes) => match str::from_utf8(&bytes) {
            Ok(text) => Ok(Some(String::from_str(
                rt.alloc(),
                text.strip_suffix('\n').unwrap_or(text),
            )?)),
            Err(_) => Ok(None),
        },
        Err(Unread::Memory) => Err(AllocError),
        Err(Unread::Missing | Unread::Failed(_)) => Ok(None),
    }
}
