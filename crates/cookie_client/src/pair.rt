//! Names and values that a text gives (RFC 6265, section 5.2).
ghost use Rattle.std.specs.Prelude.{◌≡◌, ◌↔◌, IsTrue};
ghost use Rattle.cookie_text.specs.Again.{IsReadPair};
ghost use Rattle.cookie_client.specs.Pair as spec;

/// Whether a text gives a cookie of this name and this value: what is printed of them reads as these again. The name
/// isn't empty and has no `=`, and neither of them has a semicolon or white space at an end.
pub fn is_read_pair(name: &str, value: &str) -> bool
    ensures { IsTrue result ↔ IsReadPair name.now value.now }
{
    are_read(name, value)
}

fn are_read(name: &str, value: &str) -> bool
    ensures { result ≡ spec.is_read_pair name.now value.now }
{
    is_name(name) && is_whole(value)
}

// Whether the text isn't empty, has no `=` and no semicolon, and no white space at an end.
fn is_name(text: &str) -> bool
    ensures { result ≡ spec.is_name text.now }
{
    !text.is_empty() && !has_equals(text) && is_whole(text)
}

// Whether the text has no semicolon, and no white space at an end.
fn is_whole(text: &str) -> bool
    ensures { result ≡ spec.is_whole text.now }
{
    !has_semicolon(text) && text.trim() == text
}

fn has_semicolon(text: &str) -> bool
    ensures { result ≡ spec.has_semicolon text.now }
{
    text.as_bytes().iter().any(|b| *b == b';')
}

fn has_equals(text: &str) -> bool
    ensures { result ≡ spec.has_equals text.now }
{
    text.as_bytes().iter().any(|b| *b == b'=')
}
