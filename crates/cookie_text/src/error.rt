//! Why a text is no cookie.
ghost use Rattle.std.specs.Prelude.{◌≡◌};
ghost use Rattle.cookie_text.specs.ErrorText.{error_text};

use thiserror::Error;

/// Why a text is no cookie. It prints the variant's name.
#[derive(Clone, Copy, Debug, PartialEq, Eq, Error)]
pub enum ParseError {
    /// The text before the first `;` has no `=`.
    #[error("MissingPair")]
    MissingPair,
    /// Nothing but white space stands before the first `=`.
    #[error("EmptyName")]
    EmptyName,
    /// The percent-decoded name or value is not UTF-8.
    #[error("Utf8Error")]
    Utf8Error,
    /// Memory was refused.
    #[error("OutOfMemory")]
    OutOfMemory,
}

impl ParseError {
    /// The variant's name, which is what is printed.
    pub fn as_str(&self) -> &'static str
        ensures { result.now ≡ error_text self.now }
    {
        match self {
            ParseError::MissingPair => "MissingPair",
            ParseError::EmptyName => "EmptyName",
            ParseError::Utf8Error => "Utf8Error",
            ParseError::OutOfMemory => "OutOfMemory",
        }
    }
}
