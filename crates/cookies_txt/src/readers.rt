//! Who reads a text.
ghost use Rattle.std.specs.Prelude.{◌≡◌};
ghost use Rattle.cookies_txt.specs.Layout as spec;

/// Who is to read a text.
#[derive(Clone, Copy, Debug, PartialEq, Eq)]
pub enum Reader {
    /// curl, or any that reads the format as curl documents it.
    Curl,
    /// wget, which takes a line that begins with `#HttpOnly_` for a comment.
    Wget,
    /// `MozillaCookieJar` of Python, which takes the expiry `0` for the first second of 1970, and an empty one for
    /// none.
    Python,
}

impl Reader {
    // Whether it knows the mark of HttpOnly.
    pub(crate) fn knows_mark(self) -> bool
        ensures { result ≡ spec.knows_mark self }
    {
        match self {
            Reader::Curl | Reader::Python => true,
            Reader::Wget => false,
        }
    }

    // Whether it takes 0 for no expiry.
    pub(crate) fn knows_zero(self) -> bool
        ensures { result ≡ spec.knows_zero self }
    {
        match self {
            Reader::Curl | Reader::Wget => true,
            Reader::Python => false,
        }
    }
}
