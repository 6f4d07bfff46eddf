//! Control characters.
ghost use Rattle.std.specs.Prelude.{◌≡◌};
ghost use Rattle.fonnalich_c.specs.Control as spec;

/// Whether a control character stands in the text: a byte below 32 but the tab, or 127.
pub(crate) fn has_control(text: &[u8]) -> bool
    ensures { result ≡ spec.has_control text.now }
{
    text.iter().any(|b| (*b < 32 && *b != b'\t') || *b == 127)
}
