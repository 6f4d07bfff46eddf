//! GHASH (SP 800-38D, sections 6.3 and 6.4) by multiples of H: four bits a step by sixteen of them,
//! eight by twice as many.
//!
//! A block is a number, high byte first: its top bit is the coefficient of a^0.

ghost use Rattle.std.specs.Prelude.{◌≡◌, ◌≤◌, ◌<◌, ◌+◌, ◌^◌, ◌++◌, ◌∷◌, [], List, ℕ, bit_xor, slice_index};
ghost use Rattle.std.specs.Int.{w128, to_be_bytes};
ghost use Rattle.seal.specs.Ghash.{ghash, number_of, block_product, product_low, times_power};

use crate::powers::{Turns, times_power};
use std::marker::Model;
use std::sync::ledger::Ledger;

/// The sixteen multiples of a block H: entry n is its product with the polynomial whose four
/// coefficients are the bits of n. Contracts see H, as a number.
#[derive(Drop)]
pub struct Multiples {
    table: [u128; 16],
}

impl Model for Multiples {
    ghost Value = { ℕ };

    ghost view = { λ s. slice_index s.table 8 };

    ghost invariant = { λ s. ((n : ℕ) → n < 16
        → slice_index s.table n ≡ product_low 4 n (slice_index s.table 8))
        × (slice_index s.table 8 < 2 ^ 128) };
}

impl Multiples {
    /// The multiples of `h`, in three turns.
    pub fn new<L: Ledger>(h: &[u8; 16], turns: &mut Turns<L>) -> Multiples
        ensures value { result ≡ number_of h.now }
        ensures turns { turns.new ≤ turns.old + 3 }
    {
        Multiples::of_number(u128::from_be_bytes(*h), turns)
    }

    // The same of a number.
    fn of_number<L: Ledger>(h: u128, turns: &mut Turns<L>) -> Multiples
        ensures value { result ≡ h }
        ensures turns { turns.new ≤ turns.old + 3 }
    {
        let four = times_power(1, h, turns);
        let two = times_power(1, four, turns);
        let one = times_power(1, two, turns);
        let three = two ^ one;
        let five = four ^ one;
        let six = four ^ two;
        let seven = four ^ three;
        Multiples {
            table: [
                0,
                one,
                two,
                three,
                four,
                five,
                six,
                seven,
                h,
                h ^ one,
                h ^ two,
                h ^ three,
                h ^ four,
                h ^ five,
                h ^ six,
                h ^ seven,
            ],
        }
    }

    // The product of H with the polynomial whose four coefficients are the low bits of x.
    fn multiple(&self, x: u128) -> u128
        ensures { result ≡ product_low 4 x self.now }
    {
        self.table[(x & 15) as usize]
    }

    // x * H, in at most 32 turns: the halves of x are worked off side by side, low bits first.
    fn times<L: Ledger>(&self, x: u128, turns: &mut Turns<L>) -> u128
        ensures value { result ≡ block_product x self.now }
        ensures turns { turns.new ≤ turns.old + 32 }
    {
        let mut rest = x;
        let mut low = self.multiple(x);
        let mut high = self.multiple(x >> 64);
        for j in 0..15u32 {
            rest >>= 4;
            let low_moved = times_power(4, low, turns);
            low = low_moved ^ self.multiple(rest);
            let high_moved = times_power(4, high, turns);
            high = high_moved ^ self.multiple(rest >> 64);
        }
        times_power(64, low, turns) ^ high
    }

    /// (y + block) * H, in at most 32 turns.
    pub fn step<L: Ledger>(&self, y: &[u8; 16], block: &[u8; 16], turns: &mut Turns<L>) -> [u8; 16]
        ensures value { result ≡ to_be_bytes w128
            (block_product (bit_xor (number_of y.now) (number_of block.now)) self.now) }
        ensures turns { turns.new ≤ turns.old + 32 }
    {
        let sum = u128::from_be_bytes(*y) ^ u128::from_be_bytes(*block);
        self.times(sum, turns).to_be_bytes()
    }
}

/// The multiples of a block H and those of a^4 * H, by which eight bits make a step: four pick one of
/// the former, four one of the latter. Contracts see H, as a number.
#[derive(Drop)]
pub(crate) struct ByteMultiples {
    near: Multiples,
    far: Multiples,
}

impl Model for ByteMultiples {
    ghost Value = { ℕ };

    ghost view = { λ s. s.near };

    ghost invariant = { λ s. (s.far ≡ times_power 4 s.near) × (s.near < 2 ^ 128) };
}

impl ByteMultiples {
    // The multiples of `h`, in seven turns.
    pub(crate) fn new<L: Ledger>(h: &[u8; 16], turns: &mut Turns<L>) -> ByteMultiples
        ensures value { result ≡ number_of h.now }
        ensures turns { turns.new ≤ turns.old + 7 }
    {
        let h = u128::from_be_bytes(*h);
        let next = times_power(4, h, turns);
        let near = Multiples::of_number(h, turns);
        let far = Multiples::of_number(next, turns);
        ByteMultiples { near, far }
    }

    // The product of H with the polynomial whose eight coefficients are the low bits of x.
    fn multiple(&self, x: u128) -> u128
        ensures { result ≡ product_low 8 x self.now }
    {
        self.near.multiple(x >> 4) ^ self.far.multiple(x)
    }

    // x * H, in at most 15 turns: the halves of x are worked off side by side, low bits first.
    fn times<L: Ledger>(&self, x: u128, turns: &mut Turns<L>) -> u128
        ensures value { result ≡ block_product x self.now }
        ensures turns { turns.new ≤ turns.old + 15 }
    {
        let mut rest = x;
        let mut low = self.multiple(x);
        let mut high = self.multiple(x >> 64);
        for j in 0..7u32 {
            rest >>= 8;
            let low_moved = times_power(8, low, turns);
            low = low_moved ^ self.multiple(rest);
            let high_moved = times_power(8, high, turns);
            high = high_moved ^ self.multiple(rest >> 64);
        }
        times_power(64, low, turns) ^ high
    }

    // The hash of one block more (6.4): H times the sum of the hash so far and the block.
    pub(crate) fn hash_block<L: Ledger>(
        &self,
        sum: u128,
        block: &[u8; 16],
        turns: &mut Turns<L>,
    ) -> u128
        ensures hashed { (bs : List ℕ) → sum ≡ ghash self.now bs
            → result ≡ ghash self.now (bs ++ number_of block.now ∷ []) }
        ensures turns { turns.new ≤ turns.old + 15 }
    {
        let _ = &self.near;
        self.times(sum ^ u128::from_be_bytes(*block), turns)
    }
}
