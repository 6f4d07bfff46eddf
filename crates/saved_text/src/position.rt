//! A position in a text, by line and column.
ghost use Rattle.std.specs.Prelude.{◌≡◌, ◌==◌, ◌+◌, ℕ, chars, length, take, Some};
ghost use Rattle.std.specs.List.{count_by};
ghost use Rattle.saved_text.specs.Position.{IsCharacterOf, IsLastLine, IsPosition, position_text};

use std::fmt;

/// A position in a text, printed as `line 3, column 14`.
///
/// Of `SavedTextError::Ron(n)` the position of n tells a person where the text stops to be read.
#[derive(Clone, Copy, Debug, Drop, PartialEq, Eq)]
pub struct TextPosition {
    /// The line, from 1. A line ends by `\n`.
    pub line: usize,
    /// The column, from 1. It counts characters.
    pub column: usize,
}

impl TextPosition {
    /// The position of the byte at an offset. Inside a character it is that character's, and past
    /// the end it is the end's.
    pub fn of(text: &str, offset: usize) -> TextPosition
        ensures { IsPosition text.now offset result }
    {
        let front = front_of(text, offset);
        TextPosition {
            line: line_feeds(front.as_bytes()) + 1,
            column: column_behind(last_line(front)),
        }
    }
}

impl fmt::Display for TextPosition {
    ghost output = { λ p. Some (position_text p) };

    fn fmt<W: fmt::Write>(&self, f: &mut fmt::Formatter<W>) -> fmt::Result {
        let TextPosition { line, column } = *self;
        write!(f, "line {line}, column {column}")
    }
}

// What stands before the character with the byte at an offset.
fn front_of(text: &str, offset: usize) -> &str
    ensures { (start : ℕ) × IsCharacterOf text.now offset start × (result.now ≡ take start text.now) }
{
    text.split_at(text.floor_char_boundary(offset)).0
}

// How many line feeds are among the bytes.
fn line_feeds(bytes: &[u8]) -> usize
    ensures { result ≡ count_by (λ b. b == 10) bytes.now }
{
    bytes.iter().filter(|b| **b == b'\n').count()
}

// What stands behind the last line feed.
fn last_line(text: &str) -> &str
    ensures { IsLastLine text.now result.now }
{
    match text.rsplit_once('\n') {
        Some((_, line)) => line,
        None => text,
    }
}

// The column behind what stands before it in its line.
fn column_behind(begun: &str) -> usize
    ensures { result ≡ length (chars begun.now) + 1 }
{
    begun.chars().count() + 1
}
