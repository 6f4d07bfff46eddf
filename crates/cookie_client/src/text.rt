//! A text that contracts see as its bytes.
ghost use Rattle.std.specs.Prelude.{◌≡◌, IfOk, IsUtf8, string_bytes};

use std::alloc::{AllocError, Global};
use std::marker::Model;

/// A text, which a contract sees as the list of its bytes.
///
/// It is made of a `String` and gives it back, and neither takes memory.
#[derive(Drop, Debug)]
pub struct Text {
    string: String,
}

impl Model for Text {
    ghost use Rattle.std.specs.Prelude.{List, ℕ};
    ghost use Rattle.std.specs.String.{string_bytes};

    ghost Value = { List ℕ };

    ghost view = { λ t. string_bytes t.string };
}

impl Text {
    /// The text of a `String`.
    pub fn of(string: String) -> Text
        ensures { result ≡ string_bytes string }
    {
        Text { string }
    }

    /// A copy of a `str`.
    pub fn from_str(alloc: Global, text: &str) -> Result<Text, AllocError>
        ensures { IfOk result (λ t. t ≡ text.now) }
    {
        Ok(Text::of(String::from_str(alloc, text)?))
    }

    /// The text, borrowed.
    pub fn as_str(&self) -> &str
        ensures value { result.now ≡ self.now }
        ensures utf8 { IsUtf8 self.now }
    {
        self.string.as_str()
    }

    /// The `String` of the text.
    pub fn into_string(self) -> String
        ensures { string_bytes result ≡ self }
    {
        let Text { string } = self;
        string
    }

    /// A copy of the text.
    pub fn clone(&self) -> Result<Text, AllocError>
        ensures { IfOk result (λ t. t ≡ self.now) }
    {
        Ok(Text {
            string: self.string.clone()?,
        })
    }
}

impl PartialEq for Text {
    ghost use Rattle.std.specs.Str.{bytes_eq};
    ghost use Rattle.std.specs.Cmp.{partial_equiv_from_equiv};
    ghost use Rattle.std.specs.Cmp.Lexicographic.{nat_list_eq_equiv};

    ghost eq = { bytes_eq };

    ghost laws = { partial_equiv_from_equiv nat_list_eq_equiv };

    fn eq(&self, other: &Self) -> bool {
        self.as_str() == other.as_str()
    }
}

impl Eq for Text {
    ghost use Rattle.std.specs.Cmp.Lexicographic.{nat_list_eq_equiv};

    ghost laws = { nat_list_eq_equiv };
}
