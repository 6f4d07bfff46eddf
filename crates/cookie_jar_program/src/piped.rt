//! Standard output, of which one can tell afterwards whether nobody read on.

use devices::{Failing, Sink};
use std::io::{self, ErrorKind};

/// A writer that remembers whether a call failed since nobody reads.
#[derive(Drop)]
pub(crate) struct Piped<W> {
    writer: W,
    /// Whether one did.
    pub(crate) is_closed: bool,
}

impl<W> Piped<W> {
    /// The writer, none of whose calls has failed yet.
    pub(crate) fn new(writer: W) -> Piped<W> {
        Piped {
            writer,
            is_closed: false,
        }
    }
}

impl<W: Failing> Failing for Piped<W> {
    ghost failures = { λ p. W.failures p.writer };
}

impl<W: Sink> Sink for Piped<W> {
    ghost written = { λ p. W.written p.writer };

    ghost flushes = { λ p. W.flushes p.writer };

    ghost unflushed = { λ p. W.unflushed p.writer };

    fn write(&mut self, buf: &[u8]) -> io::Result<usize> {
        match self.writer.write(buf) {
            Ok(taken) => Ok(taken),
            Err(error) => {
                self.is_closed = self.is_closed || nobody_reads(&error);
                Err(error)
            }
        }
    }

    fn flush(&mut self) -> io::Result<()> {
        match self.writer.flush() {
            Ok(()) => Ok(()),
            Err(error) => {
                self.is_closed = self.is_closed || nobody_reads(&error);
                Err(error)
            }
        }
    }
}

fn nobody_reads(error: &io::Error) -> bool {
    error.kind() == ErrorKind::BrokenPipe
}
