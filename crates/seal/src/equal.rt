//! Comparison of codes and tags.

ghost use Rattle.std.specs.Prelude.{◌≡◌, ◌↔◌, IsTrue};

/// Whether the texts are the same: all bytes are compared, unless the lengths differ.
pub fn equal_bytes(a: &[u8], b: &[u8]) -> bool
    ensures { IsTrue result ↔ (a.now ≡ b.now) }
{
    if a.len() != b.len() {
        return false;
    }
    let mut differ = 0u8;
    for i in 0..a.len() {
        differ |= a[i] ^ b[i];
    }
    differ == 0
}
