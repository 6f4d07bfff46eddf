//! Texts on which no terminal acts.
ghost use Rattle.std.specs.Prelude.{◌≡◌, ◌++◌, [], OnOk};
ghost use Rattle.cookie_jar.specs.Terminal as spec;

use percent_encoding::{AsciiSet, CONTROLS, ascii_set, percent_encode};
use std::alloc::{AllocError, Global};
use std::marker::Model;

/// The bytes that are escaped by [`Shown::bytes`]: all but printable ASCII, and `%`.
pub(crate) const HIDDEN: AsciiSet = ascii_set!(CONTROLS.add(b'%'));

/// A text on which no terminal acts: but for tabs and line feeds it has neither control characters nor marks of
/// bidirectional text.
#[derive(Debug, Drop)]
pub struct Shown {
    alloc: Global,
    text: String,
}

impl Model for Shown {
    ghost use Rattle.std.specs.Prelude.{List, ℕ, string_bytes};
    ghost use Rattle.cookie_jar.specs.Terminal.{ShowsNoControl};

    ghost Value = { List ℕ };

    ghost view = { λ s. string_bytes s.text };

    ghost invariant = { λ s. ShowsNoControl (string_bytes s.text) };
}

impl Shown {
    /// A text without a character.
    pub fn new(alloc: Global) -> Shown
        ensures { result ≡ [] }
    {
        Shown {
            alloc,
            text: String::new(alloc),
        }
    }

    /// The text, for a terminal.
    pub fn as_str(&self) -> &str
        ensures text { result.now ≡ self.now }
        ensures shows { spec.ShowsNoControl result.now }
    {
        self.text.as_str()
    }

    /// The text as it is, of which a caller knows then that no terminal acts on it.
    pub fn finish(self) -> Shown
        ensures same { result ≡ self }
        ensures shows { spec.ShowsNoControl result }
    {
        let _ = &self.text;
        self
    }

    /// Adds words of the program's own.
    ///
    /// # Errors
    ///
    /// `AllocError`, for want of memory.
    pub fn words(&mut self, words: &str) -> Result<(), AllocError>
        requires { spec.ArePlain words.now }
        ensures { OnOk result (self.new ≡ self.old ++ words.now) }
    {
        self.text.push_str(words)
    }

    /// Adds what another text shows.
    ///
    /// # Errors
    ///
    /// `AllocError`, for want of memory.
    pub fn add(&mut self, more: &Shown) -> Result<(), AllocError>
        ensures { OnOk result (self.new ≡ self.old ++ more.now) }
    {
        self.text.push_str(more.as_str())
    }

    /// Adds a number.
    ///
    /// # Errors
    ///
    /// `AllocError`, for want of memory.
    pub fn number(&mut self, number: u64) -> Result<(), AllocError> {
        let digits = format!(in self.alloc; "{number}")?;
        self.bytes(digits.as_bytes())
    }

    /// Adds bytes of others: each that isn't printable ASCII, and `%`, as `%` and two digits.
    ///
    /// # Errors
    ///
    /// `AllocError`, for want of memory.
    pub fn bytes(&mut self, bytes: &[u8]) -> Result<(), AllocError>
        ensures { OnOk result (self.new ≡ self.old ++ spec.shown bytes.now) }
    {
        percent_encode(bytes, HIDDEN).append_to(&mut self.text)
    }

    /// Adds a text of others, with `\u` and four digits for each character on which a terminal acts: control characters
    /// and marks of bidirectional text. JSON without white space is then the same JSON (RFC 8259, section 7): they
    /// stand in its strings alone, whose values stay.
    ///
    /// # Errors
    ///
    /// `AllocError`, for want of memory. It may then have a front of the text.
    pub fn text(&mut self, text: &str) -> Result<(), AllocError> {
        for c in text.chars() {
            self.push(c)?;
        }
        Ok(())
    }

    fn push(&mut self, c: char) -> Result<(), AllocError> {
        if is_acted_on(u32::from(c)) {
            self.push_escape(u32::from(c))
        } else {
            self.text.push(c)
        }
    }

    fn push_escape(&mut self, code: u32) -> Result<(), AllocError> {
        let digits = format!(in self.alloc; "{code:04x}")?;
        self.words("\\u")?;
        self.bytes(digits.as_bytes())
    }
}

fn is_acted_on(code: u32) -> bool
    ensures { result ≡ spec.is_acted_on code }
{
    is_control_code(code) || is_mark(code)
}

fn is_control_code(code: u32) -> bool
    ensures { result ≡ spec.is_control_code code }
{
    code < 32 || (127 <= code && code <= 159)
}

fn is_mark(code: u32) -> bool
    ensures { result ≡ spec.is_mark code }
{
    code == 0x61c
        || code == 0x200e
        || code == 0x200f
        || (0x202a <= code && code <= 0x202e)
        || (0x2066 <= code && code <= 0x2069)
}
