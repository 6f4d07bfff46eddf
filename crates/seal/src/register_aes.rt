//! AES-256 (FIPS 197) by look-ups within registers (Hamburg 2009): no address and no branch hangs on
//! the key or on what is enciphered.
//!
//! A register holds the sixteen bytes of a state, column by column.

ghost use Rattle.std.specs.Prelude.{◌≡◌, ◌<◌, ◌+◌, ◌*◌, ◌++◌, List, ℕ, map, take};
ghost use Rattle.seal.specs.Aes as spec;
ghost use Rattle.seal.specs.Bytes.{xor_bytes};
ghost use Rattle.seal.specs.Field.{byte_product};

use crate::registers::shuffled;
use std::simd::prelude::*;

// The bytes of a field of two coefficients, in which an inverse is found by look-ups alone: of a
// byte's low half and of its high half, which are added.
const INTO_LOW: [u8; 16] = [
    0, 112, 42, 90, 152, 232, 178, 194, 8, 120, 34, 82, 144, 224, 186, 202,
];

const INTO_HIGH: [u8; 16] = [
    0, 77, 124, 49, 125, 48, 1, 76, 129, 204, 253, 176, 252, 177, 128, 205,
];

// The inverse of a half, and its product with a constant; 128, which is looked up as 0, stands for
// the inverse of 0.
const INVERSE: [u8; 16] = [128, 1, 8, 13, 15, 6, 5, 14, 2, 12, 11, 10, 9, 3, 7, 4];

const SCALED: [u8; 16] = [128, 7, 11, 15, 6, 10, 4, 1, 9, 8, 5, 2, 12, 14, 13, 3];

// The S-box of both halves, which are added, but for its constant.
const OUT_HIGH: [u8; 16] = [
    0, 199, 189, 111, 23, 109, 210, 208, 120, 168, 2, 197, 122, 191, 170, 21,
];

const OUT_LOW: [u8; 16] = [
    0, 106, 187, 95, 165, 116, 228, 207, 250, 53, 43, 65, 209, 144, 30, 142,
];

// The S-box of each byte (5.1.1).
#[inline(always)]
fn sub_bytes(x: u8x16) -> u8x16
    ensures { result ≡ spec.sub_bytes x }
{
    let four = u8x16::splat(4);
    let fifteen = u8x16::splat(15);
    let p = shuffled(u8x16::from_array(INTO_LOW), x & fifteen);
    let q = shuffled(u8x16::from_array(INTO_HIGH), x >> four);
    let y = p ^ q;
    let i = y >> four;
    let k = y & fifteen;
    let ak = shuffled(u8x16::from_array(SCALED), k);
    let j = i ^ k;
    let ii = shuffled(u8x16::from_array(INVERSE), i);
    let jj = shuffled(u8x16::from_array(INVERSE), j);
    let io = shuffled(u8x16::from_array(INVERSE), ii ^ ak);
    let jo = shuffled(u8x16::from_array(INVERSE), jj ^ ak);
    let u = shuffled(u8x16::from_array(OUT_HIGH), io ^ j);
    let t = shuffled(u8x16::from_array(OUT_LOW), jo ^ i);
    (u ^ t) ^ u8x16::splat(0x63)
}

// What is added to twice the low bits, by a byte's high half: 0x1B where x^8 comes up (4.2.1).
const CARRIED: [u8; 16] = [0, 0, 0, 0, 0, 0, 0, 0, 27, 27, 27, 27, 27, 27, 27, 27];

// The product of each byte with x.
#[inline(always)]
fn doubled(x: u8x16) -> u8x16
    ensures { result ≡ map (byte_product 2) x }
{
    (x + x) ^ shuffled(u8x16::from_array(CARRIED), x >> u8x16::splat(4))
}

// Where ShiftRows takes each byte from (5.1.2).
const SHIFTED: [u8; 16] = [0, 5, 10, 15, 4, 9, 14, 3, 8, 13, 2, 7, 12, 1, 6, 11];

// The row below in the same column, and the one below that.
const NEXT_ROW: [u8; 16] = [1, 2, 3, 0, 5, 6, 7, 4, 9, 10, 11, 8, 13, 14, 15, 12];

const OVER_NEXT: [u8; 16] = [2, 3, 0, 1, 6, 7, 4, 5, 10, 11, 8, 9, 14, 15, 12, 13];

// ShiftRows (5.1.2).
#[inline(always)]
fn shift_rows(x: u8x16) -> u8x16
    ensures { result ≡ spec.shift_rows x }
{
    shuffled(x, u8x16::from_array(SHIFTED))
}

// MixColumns (5.1.3): 2a + 3b + c + d is 2(a + b) + b + (c + d).
#[inline(always)]
fn mix_columns(s: u8x16) -> u8x16
    ensures { result ≡ spec.mix_columns s }
{
    let next = shuffled(s, u8x16::from_array(NEXT_ROW));
    let sum = s ^ next;
    let over = shuffled(sum, u8x16::from_array(OVER_NEXT));
    (doubled(sum) ^ next) ^ over
}

// A round with MixColumns (5.1).
#[inline(always)]
fn round(s: u8x16, key: u8x16) -> u8x16
    ensures { result ≡ xor_bytes (spec.mix_columns (spec.shift_rows (spec.sub_bytes s))) key }
{
    mix_columns(shift_rows(sub_bytes(s))) ^ key
}

// The key of round r.
#[inline(always)]
fn round_key(w: &[u8; 240], r: usize) -> u8x16
    requires { r < 15 }
    ensures { result ≡ spec.round_key w.now r }
{
    u8x16::from_slice(&w[16 * r..])
}

/// A block under the key of which `w` is the schedule (5.1): 14 rounds, the last without
/// MixColumns.
pub(crate) fn encipher(w: &[u8; 240], block: &[u8; 16]) -> [u8; 16]
    ensures { (key : List ℕ) → w.now ≡ spec.schedule key 52 → result ≡ spec.aes key block.now }
{
    let mut s = u8x16::from_array(*block) ^ round_key(w, 0);
    for r in 0..13usize {
        s = round(s, round_key(w, r + 1));
    }
    (shift_rows(sub_bytes(s)) ^ round_key(w, 14)).to_array()
}

/// Two blocks, added.
pub(crate) fn sum_of_blocks(a: &[u8; 16], b: &[u8; 16]) -> [u8; 16]
    ensures { result ≡ xor_bytes a.now b.now }
{
    (u8x16::from_array(*a) ^ u8x16::from_array(*b)).to_array()
}

// Where the last word stands four times, and where it does turned left by a byte (RotWord, 5.2).
const LAST_WORD: [u8; 16] = [
    12, 13, 14, 15, 12, 13, 14, 15, 12, 13, 14, 15, 12, 13, 14, 15,
];

const LAST_WORD_TURNED: [u8; 16] = [
    13, 14, 15, 12, 13, 14, 15, 12, 13, 14, 15, 12, 13, 14, 15, 12,
];

// Words that are moved by one place or by two, with zeros before them.
const ONE_WORD_ON: [u8; 16] = [128, 128, 128, 128, 0, 1, 2, 3, 4, 5, 6, 7, 8, 9, 10, 11];

const TWO_WORDS_ON: [u8; 16] = [
    128, 128, 128, 128, 128, 128, 128, 128, 0, 1, 2, 3, 4, 5, 6, 7,
];

// The round constant (5.2): x^n.
#[inline(always)]
fn x_power(n: u32) -> u8
    requires { n < 7 }
    ensures { result ≡ spec.x_power n }
{
    1 << n
}

// Four times what is added to word 4 * m, by the four words before word 4 * m + 8 (5.2).
#[inline(always)]
fn key_step(last: u8x16, m: usize) -> u8x16
    requires { m < 13 }
    ensures { (t : List ℕ) → t ≡ spec.key_step (4 * m + 8) (spec.word last 3)
        → result ≡ t ++ (t ++ (t ++ t)) }
{
    if m % 2 == 0 {
        let p = x_power((m / 2) as u32);
        let constant = u8x16::from_array([p, 0, 0, 0, p, 0, 0, 0, p, 0, 0, 0, p, 0, 0, 0]);
        return sub_bytes(shuffled(last, u8x16::from_array(LAST_WORD_TURNED))) ^ constant;
    }
    sub_bytes(shuffled(last, u8x16::from_array(LAST_WORD)))
}

// The four words behind the first 4 * m + 8, each the sum of the one before it and the one eight
// before it.
#[inline(always)]
fn next_words(w: &[u8; 240], m: usize) -> u8x16
    requires { m < 13 }
    ensures { (key : List ℕ) → take (16 * m + 32) w.now ≡ spec.schedule key (4 * m)
        → take (16 * m + 32) w.now ++ result ≡ spec.schedule key (4 * m + 4) }
{
    let old = round_key(w, m);
    let one = old ^ shuffled(old, u8x16::from_array(ONE_WORD_ON));
    let all = one ^ shuffled(one, u8x16::from_array(TWO_WORDS_ON));
    all ^ key_step(round_key(w, m + 1), m)
}

/// The schedule of a key (5.2): its 8 words, and 52 words from them.
pub(crate) fn schedule(key: &[u8; 32]) -> [u8; 240]
    ensures { result ≡ spec.schedule key.now 52 }
{
    let mut w = [0u8; 240];
    for i in 0..32usize {
        w[i] = key[i];
    }
    for m in 0..13usize {
        let next = next_words(&w, m).to_array();
        w[16 * m + 32..16 * m + 48].copy_from_slice(&next);
    }
    w
}
