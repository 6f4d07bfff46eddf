//! Trimming that looks at characters only where it has to.
ghost use Rattle.std.specs.Prelude.{◌≡◌, IsTrue};
ghost use Rattle.std.specs.Str.{trim};

/// The text without the white space at its ends, as `str::trim` gives it. Most texts have none, or one space in front,
/// which their end bytes tell.
pub fn trimmed(text: &str) -> &str
    ensures { result.now ≡ trim text.now }
{
    if has_graphic_ends(text) {
        return text;
    }
    if let Some(rest) = text.strip_prefix(' ') {
        if has_graphic_ends(rest) {
            return rest;
        }
    }
    text.trim()
}

// Whether the first and the last byte are graphic ASCII, and so no white space. Another byte may be white space or a
// part of it.
fn has_graphic_ends(text: &str) -> bool
    ensures { IsTrue result → trim text.now ≡ text.now }
{
    let bytes = text.as_bytes();
    let len = bytes.len();
    if len > 0 && bytes[0].is_ascii_graphic() {
        return bytes[len - 1].is_ascii_graphic();
    }
    false
}
