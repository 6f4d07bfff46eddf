//! The seeds that keys come from.
ghost use Rattle.std.specs.Prelude.{◌≡◌};
ghost use Rattle.cookie_run.specs.ScriptLine as spec;

use hex::FromHex;

/// The 32 bytes of 64 hexadecimal digits, of either case.
pub fn seed_of(text: &str) -> Option<[u8; 32]>
    ensures { result ≡ spec.seed_of text.now }
{
    <[u8; 32] as FromHex>::from_hex(text).ok()
}
