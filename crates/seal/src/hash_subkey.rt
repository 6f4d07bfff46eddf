//! GHASH (SP 800-38D, sections 6.3 and 6.4) by look-ups within registers: no address and no branch hangs on the
//! hash subkey H or on what is hashed.
//!
//! A block is a number, high byte first: its top bit is the coefficient of a^0. A register holds its bytes, the
//! lowest first.

ghost use Rattle.std.specs.Prelude.{◌≡◌, ◌<◌, ◌+◌, ◌*◌, ◌^◌, ◌++◌, ◌∷◌, [], List, ℕ, bit_xor, map, slice_index};
ghost use Rattle.std.specs.Int.{w128, bit_at, byte_at, to_be_bytes};
ghost use Rattle.std.specs.Simd.Lanes.{digits_l, number_l};
ghost use Rattle.seal.specs.Ghash.{ghash, number_of, block_product, product_low, scale, times_a, times_power};

use crate::registers::shuffled;
use std::marker::Model;
use std::simd::prelude::*;

// The bytes of a number.
#[inline(always)]
fn lanes_of(x: u128) -> u8x16
    ensures { result ≡ digits_l 256 16 x }
{
    let low = (x & 0xFFFF_FFFF_FFFF_FFFF) as u64;
    u64x2::from_array([low, (x >> 64) as u64]).to_le_bytes()
}

// The number of these bytes.
#[inline(always)]
fn number_of_lanes(v: u8x16) -> u128
    ensures { result ≡ number_l 256 v }
{
    let [low, high] = u64x2::from_le_bytes(v).to_array();
    ((high as u128) << 64) ^ (low as u128)
}

// The product with a: the coefficient that goes past a^127 is added at 1, a, a^2 and a^7. By shifts alone: from a
// mask or a product by one bit the optimiser makes a choice.
fn times_a(x: u128) -> u128
    ensures { result ≡ times_a x }
{
    let past = x << 127;
    (x >> 1) ^ (past ^ (past >> 1) ^ (past >> 2) ^ (past >> 7))
}

// The product with a^64: the half that goes past a^127 is added at 1, a, a^2 and a^7.
#[inline(always)]
fn times_power_64(x: u128) -> u128
    ensures { result ≡ times_power 64 x }
{
    let low = x & 0xFFFF_FFFF_FFFF_FFFF;
    (x >> 64) ^ ((low << 64) ^ (low << 63) ^ (low << 62) ^ (low << 57))
}

// Lane n is all ones where n has the bit, and else 0.
const BIT_0: [u8; 16] = [
    0, 255, 0, 255, 0, 255, 0, 255, 0, 255, 0, 255, 0, 255, 0, 255,
];

const BIT_1: [u8; 16] = [
    0, 0, 255, 255, 0, 0, 255, 255, 0, 0, 255, 255, 0, 0, 255, 255,
];

const BIT_2: [u8; 16] = [
    0, 0, 0, 0, 255, 255, 255, 255, 0, 0, 0, 0, 255, 255, 255, 255,
];

const BIT_3: [u8; 16] = [
    0, 0, 0, 0, 0, 0, 0, 0, 255, 255, 255, 255, 255, 255, 255, 255,
];

// Byte t of the sums of the four registers: sum n has those whose bits n has.
#[inline(always)]
fn row(t: u8, zeroth: u8x16, first: u8x16, second: u8x16, third: u8x16) -> u8x16
    requires { t < 16 }
    ensures { (n : ℕ) → n < 16 → slice_index result n
        ≡ bit_xor (scale (bit_at n 3) (slice_index third t)) (bit_xor (scale (bit_at n 2) (slice_index second t))
        (bit_xor (scale (bit_at n 1) (slice_index first t)) (scale (bit_at n 0) (slice_index zeroth t)))) }
{
    let place = u8x16::splat(t);
    let low = (u8x16::from_array(BIT_1) & shuffled(first, place))
        ^ (u8x16::from_array(BIT_0) & shuffled(zeroth, place));
    let next = u8x16::from_array(BIT_2) & shuffled(second, place);
    (u8x16::from_array(BIT_3) & shuffled(third, place)) ^ (next ^ low)
}

// Row t, of sixteen bytes: byte t of the products of h with the sixteen polynomials of four coefficients.
fn rows_of(h: u128) -> [u8; 256]
    ensures { (t n : ℕ) → t < 16 → n < 16
        → slice_index result (16 * t + n) ≡ byte_at t (product_low 4 n h) }
{
    let second = times_a(h);
    let first = times_a(second);
    let zeroth = times_a(first);
    let mut rows = [0; 256];
    for t in 0..16usize {
        let next = row(
            t as u8,
            lanes_of(zeroth),
            lanes_of(first),
            lanes_of(second),
            lanes_of(h),
        );
        next.copy_to_slice(&mut rows[16 * t..]);
    }
    rows
}

/// The hash subkey H (SP 800-38D, section 6.4), laid out for products: the bytes of its sixteen multiples and of those
/// of a^4 * H. Contracts see H, as a number.
#[derive(Drop)]
pub struct HashSubkey {
    number: u128,
    near: [u8; 256],
    far: [u8; 256],
}

impl Model for HashSubkey {
    ghost Value = { ℕ };

    ghost view = { λ s. s.number };

    ghost invariant = { λ s. ((t n : ℕ) → t < 16 → n < 16
        → slice_index s.near (16 * t + n) ≡ byte_at t (product_low 4 n s.number))
        × ((t n : ℕ) → t < 16 → n < 16
        → slice_index s.far (16 * t + n) ≡ byte_at t (product_low 4 n (times_power 4 s.number)))
        × (s.number < 2 ^ 128) };
}

impl HashSubkey {
    /// The subkey of a block.
    pub fn new(h: &[u8; 16]) -> HashSubkey
        ensures { result ≡ number_of h.now }
    {
        let number = u128::from_be_bytes(*h);
        let next = times_a(times_a(times_a(times_a(number))));
        HashSubkey {
            number,
            near: rows_of(number),
            far: rows_of(next),
        }
    }

    // Byte t of the products of H with the polynomials of eight coefficients in the lanes.
    #[inline(always)]
    fn bytes_at(&self, t: usize, x: u8x16) -> u8x16
        requires { t < 16 }
        ensures { result ≡ map (λ b. byte_at t (product_low 8 b self.now)) x }
    {
        let near = u8x16::from_slice(&self.near[16 * t..]);
        let far = u8x16::from_slice(&self.far[16 * t..]);
        shuffled(near, x >> u8x16::splat(4)) ^ shuffled(far, x & u8x16::splat(15))
    }

    // x * H: byte t of the multiples that the bytes of x pick is a number of its own, and those are worked off by
    // Horner's rule. What goes past a^127 is kept, to be reduced at the end.
    fn times(&self, x: u128) -> u128
        ensures { result ≡ block_product x self.now }
    {
        let _ = &self.number;
        let bytes = lanes_of(x);
        let mut sum = 0u128;
        let mut past = 0u128;
        for t in 0..16usize {
            past = (past >> 8) ^ (sum << 120);
            sum = (sum >> 8) ^ number_of_lanes(self.bytes_at(t, bytes));
        }
        sum ^ times_power_64(times_power_64(past))
    }

    /// (y + block) * H.
    pub fn step(&self, y: &[u8; 16], block: &[u8; 16]) -> [u8; 16]
        ensures { result ≡ to_be_bytes w128
            (block_product (bit_xor (number_of y.now) (number_of block.now)) self.now) }
    {
        let sum = u128::from_be_bytes(*y) ^ u128::from_be_bytes(*block);
        self.times(sum).to_be_bytes()
    }

    // The hash of one block more (6.4): H times the sum of the hash so far and the block.
    pub(crate) fn hash_block(&self, sum: u128, block: &[u8; 16]) -> u128
        ensures { (bs : List ℕ) → sum ≡ ghash self.now bs
            → result ≡ ghash self.now (bs ++ number_of block.now ∷ []) }
    {
        let _ = &self.number;
        self.times(sum ^ u128::from_be_bytes(*block))
    }
}
