//! The pair of name and value that a line begins with.

use crate::terminal::Shown;
use std::alloc::AllocError;

/// A line of the name and one of the value that a line has, without the white space round them, or why it has no pair,
/// and so is ignored as a whole (RFC 6265, section 5.2, steps 1 to 5).
///
/// # Errors
///
/// `AllocError`, for want of memory.
pub(crate) fn push_pair(text: &mut Shown, line: &str) -> Result<(), AllocError> {
    let Some((name, value)) = first(line).split_once('=') else {
        return text.words(
            "no pair: no = stands before the first ; (RFC 6265, section 5.2, step 2)\n",
        );
    };
    let name = name.trim();
    if name.is_empty() {
        return text.words("no pair: the name is empty (RFC 6265, section 5.2, step 5)\n");
    }
    text.words("name: ")?;
    text.bytes(name.as_bytes())?;
    text.words("\nvalue: ")?;
    text.bytes(value.trim().as_bytes())?;
    text.words("\n")
}

// The piece before the first semicolon.
fn first(line: &str) -> &str {
    match line.split_once(';') {
        Some((first, _)) => first,
        None => line,
    }
}
