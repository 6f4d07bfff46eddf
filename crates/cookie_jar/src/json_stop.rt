//! Where a text stops to be a list of JSON.
ghost use Rattle.std.specs.Prelude.{◌<◌, ◌≤◌, OnSome, length};

use json::{Reader, Scratch, Token};
use std::alloc::{AllocError, Global};

// How deep lists and objects of a text nest that is read, as `serde_json` has it.
const MAX_DEPTH: usize = 127;

// The tokens of a text, and where the last that was asked for begins.
#[derive(Drop)]
struct Walk<'a> {
    reader: Reader<'a>,
    at: usize,
}

/// The offset at which a text stops to be a list of JSON: that of the first token that doesn't fit, or the end. A
/// string counts as a whole, and a name with its colon.
///
/// # Errors
///
/// `AllocError`, for want of memory.
pub(crate) fn stop_of(alloc: Global, text: &str) -> Result<usize, AllocError> {
    let mut scratch = Scratch::new(alloc);
    let reader = Reader::new(text, &mut scratch)?;
    let mut walk = Walk { reader, at: 0 };
    if walk.list().is_some() {
        walk.next();
    }
    Ok(walk.at)
}

impl<'a> Walk<'a> {
    fn next(&mut self) -> Option<Token<'a>>
        ensures { OnSome result (length self.new.reader < length self.old.reader) }
    {
        self.at = self.reader.offset();
        self.reader.next()
    }

    // Passes a list.
    fn list(&mut self) -> Option<()> {
        match self.next()? {
            Token::BeginArray => self.items(MAX_DEPTH - 1),
            _ => None,
        }
    }

    // Passes a value.
    #[cycle(pass)]
    fn value(&mut self, depth: usize) -> Option<()>
        ensures { OnSome result (length self.new.reader < length self.old.reader) }
    {
        match self.next()? {
            Token::String(_) | Token::Bool(_) | Token::Null => Some(()),
            Token::Number(text) => if_finite(text),
            Token::BeginArray => self.items(depth.checked_sub(1)?),
            Token::BeginObject => self.members(depth.checked_sub(1)?),
            Token::EndArray | Token::EndObject | Token::Key(_) | Token::Bad => None,
        }
    }

    // Passes what is left of a list.
    #[cycle(pass)]
    fn items(&mut self, depth: usize) -> Option<()>
        ensures { OnSome result (length self.new.reader ≤ length self.old.reader) }
    {
        while !self.reader.take_end_array() {
            self.value(depth)?;
        }
        Some(())
    }

    // Passes what is left of an object.
    #[cycle(pass)]
    fn members(&mut self, depth: usize) -> Option<()>
        ensures { OnSome result (length self.new.reader ≤ length self.old.reader) }
    {
        while self.key()? {
            self.value(depth)?;
        }
        Some(())
    }

    // Passes a key, or the brace that closes an object: whether it is a key.
    fn key(&mut self) -> Option<bool>
        ensures { OnSome result (length self.new.reader < length self.old.reader) }
    {
        match self.next()? {
            Token::Key(_) => Some(true),
            Token::EndObject => Some(false),
            _ => None,
        }
    }
}

// Nothing for a number that is too large.
fn if_finite(text: &str) -> Option<()> {
    match text.parse::<f64>() {
        Ok(number) if number.is_finite() => Some(()),
        _ => None,
    }
}
