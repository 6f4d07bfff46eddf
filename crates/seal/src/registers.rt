//! Look-ups within a register of 16 bytes: no address hangs on what is looked up.

ghost use Rattle.std.specs.Prelude.{◌≡◌, map};
ghost use Rattle.seal.specs.Registers.{looked_up};

use std::simd::prelude::*;

/// The entry of a table that each place picks by its low four bits, and 0 where its top bit is set.
#[inline(always)]
pub(crate) fn shuffled(table: u8x16, places: u8x16) -> u8x16
    ensures { result ≡ map (looked_up table) places }
{
    table.swizzle_dyn(places & u8x16::splat(0x8F))
}
