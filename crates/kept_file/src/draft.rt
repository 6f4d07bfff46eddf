//! A text that is made in memory before a file is touched.
ghost use Rattle.std.specs.Prelude.{◌≡◌, [], Some};

use devices::{Failing, Sink};
use std::alloc::Global;
use std::io::{self, ErrorKind};

/// A writer to memory, which gives back what was written.
#[derive(Drop)]
pub struct Draft {
    /// What was written.
    pub text: Vec<u8>,
    /// How many writes failed.
    pub failed: u64,
    /// How many times it was flushed.
    pub flushed: u64,
    /// How many bytes were written since then.
    pub unflushed: u64,
}

impl Draft {
    /// One to which nothing was written.
    pub fn new(alloc: Global) -> Draft
        ensures { result.text.items ≡ [] }
    {
        Draft {
            text: Vec::new(alloc),
            failed: 0,
            flushed: 0,
            unflushed: 0,
        }
    }
}

impl Failing for Draft {
    ghost failures = { λ d. d.failed };
}

impl Sink for Draft {
    ghost written = { λ d. Some d.text.items };

    ghost flushes = { λ d. d.flushed };

    ghost unflushed = { λ d. d.unflushed };

    fn write(&mut self, buf: &[u8]) -> io::Result<usize> {
        match self.text.extend_from_slice(buf) {
            Ok(()) => {
                self.unflushed = self.unflushed.saturating_add(buf.len() as u64);
                Ok(buf.len())
            }
            Err(_) => {
                self.failed = self.failed.saturating_add(1);
                Err(io::Error::from(ErrorKind::OutOfMemory))
            }
        }
    }

    fn flush(&mut self) -> io::Result<()> {
        self.flushed = self.flushed.saturating_add(1);
        self.unflushed = 0;
        Ok(())
    }
}
