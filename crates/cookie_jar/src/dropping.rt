//! What is told of rows that a load drops.
ghost use Rattle.std.specs.Prelude.{IfErr, IfOk};
ghost use Rattle.cookie_jar.specs.Reading as spec;
ghost use Rattle.cookie_jar.specs.Terminal.{ShowsNoControl};

use crate::error::ReadError;
use crate::form::Form;
use crate::left_out::refused_lines;
use crate::reading::read;
use crate::rows::refused_rows;
use crate::terminal::Shown;
use jiff::civil::DateTime;
use std::alloc::Global;

/// A line of each row of a text that [`crate::Jar::load`] drops at `now` since a jar doesn't keep it, as an import
/// tells it. Expired rows, and those that a later one of their key replaces, are dropped without a word. It reads the
/// text as `load` does.
///
/// # Errors
///
/// As `load`.
pub fn dropped_lines(
    alloc: Global,
    form: Form,
    text: &[u8],
    now: DateTime,
) -> Result<Shown, ReadError>
    ensures ok { IfOk result ShowsNoControl }
    ensures err { IfErr result (spec.IsUnread form text.now) }
{
    match read(alloc, form, text, now) {
        Ok(store) => match refused_rows(alloc, &store) {
            Ok(rows) => match refused_lines(alloc, form, rows) {
                Ok(told) => Ok(told.finish()),
                Err(_) => Err(ReadError::OutOfMemory),
            },
            Err(_) => Err(ReadError::OutOfMemory),
        },
        Err(cause) => Err(cause),
    }
}
