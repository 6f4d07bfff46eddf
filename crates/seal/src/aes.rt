//! AES-256 (FIPS 197), by tables.
//!
//! A state is its 16 bytes, column by column. `w` is a key schedule: 60 words of four bytes.

ghost use Rattle.std.specs.Prelude.{◌≡◌, ◌≤◌, ◌<◌, ◌+◌, ◌-◌, ◌^◌, ◌∷◌, ◌++◌, [], ℕ, List, length, take};
ghost use Rattle.seal.specs.Bytes.{xor_bytes};
ghost use Rattle.seal.specs.Aes as spec;
ghost use Rattle.seal.specs.Rounds.{KeepsRounds, with_column, after_two};
ghost use Rattle.seal.specs.Words.{bytes_of, state_bytes};

use crate::field::double;
use crate::tables::{row_0, row_1, row_2, row_3, s_box};

// A column after SubBytes, ShiftRows and MixColumns, of the four bytes that come to stand in it,
// and the key's word added.
fn column(p: u8, q: u8, r: u8, t: u8, key: u32) -> u32
    ensures { bytes_of result ≡ xor_bytes (spec.mixed_column p q r t) (bytes_of key) }
{
    ((row_0(p) ^ row_1(q)) ^ (row_2(r) ^ row_3(t))) ^ key
}

// The same without MixColumns.
fn last_column(p: u8, q: u8, r: u8, t: u8, key: u32) -> u32
    ensures { bytes_of result ≡ xor_bytes (spec.sub_bytes (p ∷ q ∷ r ∷ t ∷ [])) (bytes_of key) }
{
    u32::from_le_bytes([s_box(p), s_box(q), s_box(r), s_box(t)]) ^ key
}

// Columns as `column` makes them, but for what the byte of one row adds.
fn but_row_0(q: u8, r: u8, t: u8, key: u32) -> u32
    ensures { (p : ℕ) → p < 2 ^ 8 → xor_bytes (bytes_of result) (spec.of_row_0 p)
        ≡ xor_bytes (spec.mixed_column p q r t) (bytes_of key) }
{
    (row_1(q) ^ (row_2(r) ^ row_3(t))) ^ key
}

fn but_row_1(p: u8, r: u8, t: u8, key: u32) -> u32
    ensures { (q : ℕ) → q < 2 ^ 8 → xor_bytes (bytes_of result) (spec.of_row_1 q)
        ≡ xor_bytes (spec.mixed_column p q r t) (bytes_of key) }
{
    (row_0(p) ^ (row_2(r) ^ row_3(t))) ^ key
}

fn but_row_2(p: u8, q: u8, t: u8, key: u32) -> u32
    ensures { (r : ℕ) → r < 2 ^ 8 → xor_bytes (bytes_of result) (spec.of_row_2 r)
        ≡ xor_bytes (spec.mixed_column p q r t) (bytes_of key) }
{
    ((row_0(p) ^ row_1(q)) ^ row_3(t)) ^ key
}

fn but_row_3(p: u8, q: u8, r: u8, key: u32) -> u32
    ensures { (t : ℕ) → t < 2 ^ 8 → xor_bytes (bytes_of result) (spec.of_row_3 t)
        ≡ xor_bytes (spec.mixed_column p q r t) (bytes_of key) }
{
    ((row_0(p) ^ row_1(q)) ^ row_2(r)) ^ key
}

// Word i of a schedule.
fn word(w: &[u8; 240], i: usize) -> u32
    requires { i < 60 }
    ensures { bytes_of result ≡ spec.word w.now i }
{
    let at = 4 * i;
    u32::from_le_bytes([w[at], w[at + 1], w[at + 2], w[at + 3]])
}

/// The sum of two blocks.
pub(crate) fn xor_block(s: [u8; 16], block: &[u8; 16]) -> [u8; 16]
    ensures { result ≡ xor_bytes s block.now }
{
    let mut out = s;
    for i in 0..16usize {
        out[i] ^= block[i];
    }
    out
}

// A block with the first round key added (5.1.4).
fn first_state(block: &[u8; 16], w: &[u8; 240]) -> [u32; 4]
    ensures { state_bytes result ≡ xor_bytes block.now (spec.round_key w.now 0) }
{
    [
        u32::from_le_bytes([block[0], block[1], block[2], block[3]]) ^ word(w, 0),
        u32::from_le_bytes([block[4], block[5], block[6], block[7]]) ^ word(w, 1),
        u32::from_le_bytes([block[8], block[9], block[10], block[11]]) ^ word(w, 2),
        u32::from_le_bytes([block[12], block[13], block[14], block[15]]) ^ word(w, 3),
    ]
}

// The round after r of them, with MixColumns.
fn round(s: [u32; 4], w: &[u8; 240], r: usize) -> [u32; 4]
    requires { r < 13 }
    ensures { (block : List ℕ) → state_bytes s ≡ spec.rounds w.now block r
        → state_bytes result ≡ spec.rounds w.now block (r + 1) }
{
    let [a0, a1, a2, a3] = s[0].to_le_bytes();
    let [b0, b1, b2, b3] = s[1].to_le_bytes();
    let [c0, c1, c2, c3] = s[2].to_le_bytes();
    let [d0, d1, d2, d3] = s[3].to_le_bytes();
    let at = 4 * (r + 1);
    [
        column(a0, b1, c2, d3, word(w, at)),
        column(b0, c1, d2, a3, word(w, at + 1)),
        column(c0, d1, a2, b3, word(w, at + 2)),
        column(d0, a1, b2, c3, word(w, at + 3)),
    ]
}

// The last round, without MixColumns.
fn last_round(s: [u32; 4], w: &[u8; 240]) -> [u8; 16]
    ensures { result
        ≡ xor_bytes (spec.shift_rows (spec.sub_bytes (state_bytes s))) (spec.round_key w.now 14) }
{
    let [a0, a1, a2, a3] = s[0].to_le_bytes();
    let [b0, b1, b2, b3] = s[1].to_le_bytes();
    let [c0, c1, c2, c3] = s[2].to_le_bytes();
    let [d0, d1, d2, d3] = s[3].to_le_bytes();
    let x = last_column(a0, b1, c2, d3, word(w, 56));
    let y = last_column(b0, c1, d2, a3, word(w, 57));
    let z = last_column(c0, d1, a2, b3, word(w, 58));
    let t = last_column(d0, a1, b2, c3, word(w, 59));
    let [x0, x1, x2, x3] = x.to_le_bytes();
    let [y0, y1, y2, y3] = y.to_le_bytes();
    let [z0, z1, z2, z3] = z.to_le_bytes();
    let [t0, t1, t2, t3] = t.to_le_bytes();
    [
        x0, x1, x2, x3, y0, y1, y2, y3, z0, z1, z2, z3, t0, t1, t2, t3,
    ]
}

// A block's cipher, of its state after so many rounds: all have MixColumns but the fourteenth.
fn remaining_rounds(s: [u32; 4], w: &[u8; 240], done: usize) -> [u8; 16]
    requires { done ≤ 13 }
    ensures { (key block : List ℕ) → w.now ≡ spec.schedule key 52
        → state_bytes s ≡ spec.rounds w.now block done → result ≡ spec.aes key block }
{
    let mut s = s;
    for r in done..13 {
        let next = round(s, w, r);
        s = next;
    }
    last_round(s, w)
}

/// A block under the key of which `w` is the schedule (5.1): 14 rounds, the last without
/// MixColumns.
pub(crate) fn encipher(w: &[u8; 240], block: [u8; 16]) -> [u8; 16]
    ensures { (key : List ℕ) → w.now ≡ spec.schedule key 52 → result ≡ spec.aes key block }
{
    remaining_rounds(round(first_state(&block, w), w, 0), w, 1)
}

/// What two rounds make of the blocks that differ in their last byte alone, but for what this byte
/// adds. It comes to the first column in the first round, and the next one brings a byte of that
/// column to each: so 5 look-ups in the tables make up for 32.
#[derive(Drop)]
pub(crate) struct FirstRounds {
    // The first column after a round.
    first: u32,
    // The columns after two.
    second: [u32; 4],
}

// The columns after a second round, but for what the first of those before it adds: b, c and d are
// the others.
fn second_columns(b: u32, c: u32, d: u32, w: &[u8; 240]) -> [u32; 4]
    ensures { (a : ℕ) → with_column result (bytes_of a)
        ≡ xor_bytes (spec.mix_columns (spec.shift_rows (spec.sub_bytes
        (bytes_of a ++ bytes_of b ++ bytes_of c ++ bytes_of d)))) (spec.round_key w.now 2) }
{
    let [b0, b1, b2, b3] = b.to_le_bytes();
    let [c0, c1, c2, c3] = c.to_le_bytes();
    let [d0, d1, d2, d3] = d.to_le_bytes();
    [
        but_row_0(b1, c2, d3, word(w, 8)),
        but_row_3(b0, c1, d2, word(w, 9)),
        but_row_2(c0, d1, b3, word(w, 10)),
        but_row_1(d0, b2, c3, word(w, 11)),
    ]
}

/// The first rounds of the blocks that begin with the same 15 bytes as this one.
pub(crate) fn first_rounds(w: &[u8; 240], block: &[u8; 16]) -> FirstRounds
    ensures { KeepsRounds result w.now (take 15 block.now) }
{
    let s = first_state(block, w);
    let [a0, a1, a2, a3] = s[0].to_le_bytes();
    let [b0, b1, b2, b3] = s[1].to_le_bytes();
    let [c0, c1, c2, c3] = s[2].to_le_bytes();
    let [d0, d1, d2, _] = s[3].to_le_bytes();
    let first = but_row_3(a0, b1, c2, word(w, 4));
    let b = column(b0, c1, d2, a3, word(w, 5));
    let c = column(c0, d1, a2, b3, word(w, 6));
    let d = column(d0, a1, b2, c3, word(w, 7));
    FirstRounds {
        first,
        second: second_columns(b, c, d, w),
    }
}

// The state after two rounds, of the last byte with the key's byte added.
fn after_two(kept: &FirstRounds, last: u8) -> [u32; 4]
    ensures { state_bytes result ≡ after_two kept.now last }
{
    let [a0, a1, a2, a3] = (kept.first ^ row_3(last)).to_le_bytes();
    [
        kept.second[0] ^ row_0(a0),
        kept.second[1] ^ row_3(a3),
        kept.second[2] ^ row_2(a2),
        kept.second[3] ^ row_1(a1),
    ]
}

/// As [`encipher`], of a block whose first rounds are kept, by its last byte.
pub(crate) fn encipher_last(w: &[u8; 240], kept: &FirstRounds, last: u8) -> [u8; 16]
    ensures { (key front : List ℕ) → w.now ≡ spec.schedule key 52
        → KeepsRounds kept.now w.now front → result ≡ spec.aes key (front ++ last ∷ []) }
{
    remaining_rounds(after_two(kept, last ^ w[15]), w, 2)
}

// x^n, which the round constants are made of (5.2).
fn x_power(n: usize) -> u8
    ensures { result ≡ spec.x_power n }
{
    let mut power = 1u8;
    for turn in 0..n {
        power = double(power);
    }
    power
}

// What is added to word i - 8, from the bytes of word i - 1.
fn key_step(i: usize, p: u8, q: u8, r: u8, s: u8) -> [u8; 4]
    requires { 8 ≤ i }
    ensures { result ≡ spec.key_step i (p ∷ q ∷ r ∷ s ∷ []) }
{
    if i % 8 == 0 {
        return [s_box(q) ^ x_power(i / 8 - 1), s_box(r), s_box(s), s_box(p)];
    }
    if i % 8 == 4 {
        return [s_box(p), s_box(q), s_box(r), s_box(s)];
    }
    [p, q, r, s]
}

// Word i, from those before it.
fn next_word(w: &[u8; 240], i: usize) -> [u8; 4]
    requires { (8 ≤ i) × (i < 60) }
    ensures { result
        ≡ xor_bytes (spec.word w.now (i - 8)) (spec.key_step i (spec.word w.now (i - 1))) }
{
    let last = 4 * (i - 1);
    let [p, q, r, s] = key_step(i, w[last], w[last + 1], w[last + 2], w[last + 3]);
    let old = 4 * (i - 8);
    [w[old] ^ p, w[old + 1] ^ q, w[old + 2] ^ r, w[old + 3] ^ s]
}

/// The schedule of a key (5.2): its 8 words, and 52 words from them.
pub(crate) fn schedule(key: &[u8; 32]) -> [u8; 240]
    ensures { result ≡ spec.schedule key.now 52 }
{
    let mut w = [0u8; 240];
    for i in 0..32usize {
        w[i] = key[i];
    }
    for n in 0..52usize {
        let [p, q, r, s] = next_word(&w, n + 8);
        w[4 * n + 32] = p;
        w[4 * n + 33] = q;
        w[4 * n + 34] = r;
        w[4 * n + 35] = s;
    }
    w
}
