//! The base64 of codes (RFC 4648, section 4) by sums in registers: no address and no branch hangs on a code.

ghost use Rattle.std.specs.Prelude.{◌≡◌, ◌<◌, ◌++◌, ◌∷◌, [], ℕ, map, take, slice_index};
ghost use Rattle.cookie.specs.Base64.{base64};
ghost use Rattle.cookie.specs.Base64Steps.{over, sextets, symbol};

use std::simd::prelude::*;

// The sextets of the first twelve bytes.
#[inline(always)]
fn sextets(bytes: u8x16) -> u8x16
    ensures { result ≡ sextets (take 12 bytes) }
{
    let groups = u32x4::from_le_bytes(bytes.swizzle([
        2, 1, 0, 3, 5, 4, 3, 6, 8, 7, 6, 9, 11, 10, 9, 12,
    ]));
    let low = u32x4::splat(63);
    let first = (groups >> u32x4::splat(18)) & low;
    let second = (groups >> u32x4::splat(12)) & low;
    let third = (groups >> u32x4::splat(6)) & low;
    let fourth = groups & low;
    let front = first + (second << u32x4::splat(8));
    let back = (third << u32x4::splat(16)) + (fourth << u32x4::splat(24));
    (front + back).to_le_bytes()
}

// All ones where a sextet is over the last one.
#[inline(always)]
fn over(last: u8, sextets: u8x16) -> u8x16
    requires { last < 64 }
    ensures { ((k : ℕ) → slice_index sextets k < 64) → result ≡ map (over last) sextets }
{
    u8x16::splat(0) - ((sextets + u8x16::splat(127 - last)) >> u8x16::splat(7))
}

// The symbols of sextets.
#[inline(always)]
fn symbols(sextets: u8x16) -> u8x16
    requires { (k : ℕ) → slice_index sextets k < 64 }
    ensures { result ≡ map symbol sextets }
{
    let capitals = sextets + u8x16::splat(b'A');
    let letters = capitals + (over(25, sextets) & u8x16::splat(6));
    let digits = letters - (over(51, sextets) & u8x16::splat(75));
    let plus = digits - (over(61, sextets) & u8x16::splat(15));
    plus + (over(62, sextets) & u8x16::splat(3))
}

// The symbols of the first twelve bytes.
#[inline(always)]
fn symbols_of(bytes: u8x16) -> u8x16
    ensures { result ≡ map symbol (sextets (take 12 bytes)) }
{
    symbols(sextets(bytes))
}

// Three registers one behind the other, of the last one eleven symbols, and the padding.
#[inline(always)]
fn joined(front: u8x16, middle: u8x16, back: u8x16) -> [u8; 44]
    ensures { result ≡ front ++ (middle ++ (take 11 back ++ (61 ∷ []))) }
{
    let mut text = [b'='; 44];
    text[..16].copy_from_slice(&front.to_array());
    text[16..32].copy_from_slice(&middle.to_array());
    text[32..43].copy_from_slice(&back.to_array()[..11]);
    text
}

/// The base64 of a code.
pub fn code_text(code: &[u8; 32]) -> [u8; 44]
    ensures { result ≡ base64 code.now }
{
    let last = u8x16::from_slice(&code[16..]).shuffle(
        u8x16::splat(0),
        [8, 9, 10, 11, 12, 13, 14, 15, 16, 16, 16, 16, 16, 16, 16, 16],
    );
    let front = symbols_of(u8x16::from_slice(code));
    let middle = symbols_of(u8x16::from_slice(&code[12..]));
    joined(front, middle, symbols_of(last))
}
