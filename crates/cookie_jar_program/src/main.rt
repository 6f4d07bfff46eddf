//! `cookie-jar`: a jar of cookies for the shell.
#![tactic(auto)]

mod piped;

use crate::piped::Piped;
use cookie_jar::Shown;
use devices::Counting;
use jar_commands::program::{Ended, program};
use jiff::Timestamp;
use jiff::civil::DateTime;
use jiff::tz::TimeZone;
use kept_file::Locked;
use std::alloc::AllocError;
use std::env::{self, VarError};
use std::io::{self, BufReader, BufWriter, ErrorKind};
use std::process::ExitCode;

// Where Debian's package `publicsuffix` puts its list, which counts unless the environment names another.
const INSTALLED: &str = "/usr/share/publicsuffix/public_suffix_list.dat";

fn main(rt: HostRuntime) -> ExitCode {
    match start(&rt) {
        Ok(status) => ExitCode::from(status),
        Err(AllocError) => {
            let _ = eprintln!(rt; "cookie-jar: memory");
            ExitCode::from(2)
        }
    }
}

// Runs the program, and tells on standard error what is to be told there. Gives the exit status.
fn start(rt: &HostRuntime) -> Result<u8, AllocError> {
    let Some(words) = words(rt)? else {
        let _ = eprintln!(rt; "cookie-jar: a word that isn't UTF-8");
        return Ok(2);
    };
    let named = named_list(rt)?;
    let list = match &named {
        Some(path) => path.as_str(),
        None => INSTALLED,
    };
    let Ok(reader) = BufReader::new(rt.alloc(), rt.reader()) else {
        return Err(AllocError);
    };
    let Ok(writer) = BufWriter::new(rt.alloc(), io::writer(rt)) else {
        return Err(AllocError);
    };
    let mut writer = Piped::new(Counting::new(writer));
    let ended = program(
        rt,
        &words,
        clock(rt),
        &[list],
        &mut Locked::new(rt, "cookie-jar"),
        &mut Counting::new(reader),
        &mut writer,
    );
    tell(rt, &ended, writer.is_closed);
    Ok(ended.status)
}

// Of an output that nobody reads nothing is told.
fn tell(rt: &HostRuntime, ended: &Ended, is_closed: bool) {
    if let Some(path) = &ended.list {
        let _ = eprintln!(rt; "cookie-jar: suffix list of {}", path.as_str());
    }
    tell_lines(rt, &ended.dropped);
    tell_lines(rt, &ended.counted);
    match ended.failure {
        Some("output") if is_closed => {}
        Some(words) => tell_failure(rt, words, &ended.about),
        None => {}
    }
}

fn tell_lines(rt: &HostRuntime, text: &Option<Shown>) {
    if let Some(text) = text {
        for line in text.as_str().lines() {
            let _ = eprintln!(rt; "cookie-jar: {line}");
        }
    }
}

// One line of the failure and of what it is about.
fn tell_failure(rt: &HostRuntime, words: &str, about: &Option<Shown>) {
    match about {
        Some(about) => {
            let _ = eprintln!(rt; "cookie-jar: {words}: {}", about.as_str());
        }
        None => {
            let _ = eprintln!(rt; "cookie-jar: {words}");
        }
    }
}

// The whole second that the clock shows in UTC.
fn clock(rt: &HostRuntime) -> Option<DateTime> {
    let now = Timestamp::now(rt).ok()?;
    let second = Timestamp::from_second(now.as_second()).ok()?;
    Some(TimeZone::UTC.to_datetime(second))
}

// The file of a suffix list that the environment names. An empty name counts as none, and so does one that isn't
// UTF-8.
fn named_list(rt: &HostRuntime) -> Result<Option<String>, AllocError> {
    match env::var(rt, "COOKIE_JAR_SUFFIXES") {
        Ok(path) if path.is_empty() => Ok(None),
        Ok(path) => Ok(Some(path)),
        Err(VarError::OutOfMemory) => Err(AllocError),
        Err(VarError::NotPresent | VarError::NotUnicode) => Ok(None),
    }
}

// The words behind the program's name, or nothing where one isn't UTF-8.
fn words(rt: &HostRuntime) -> Result<Option<Vec<String>>, AllocError> {
    match env::args(rt) {
        Ok(words) => Ok(Some(words.skip(1).collect(rt.alloc())?)),
        Err(error) if error.kind() == ErrorKind::OutOfMemory => Err(AllocError),
        Err(_) => Ok(None),
    }
}
