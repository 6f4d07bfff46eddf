//! AES-256-GCM with nonces of 12 bytes and tags of 16 (SP 800-38D), by tables.

ghost use Rattle.std.specs.Prelude.{◌≡◌, ◌≤◌, ◌<◌, ◌↔◌, ◌⊎◌, ℕ, List, length, IfOk, OnOk, OnErr, IsErrOf, IsOk, IsTrue};
ghost use Rattle.std.specs.Prelude.{◌++◌, ◌+◌, ◌*◌, ◌^◌, take, slice_index};
ghost use Rattle.std.specs.Int.{w64, to_be_bytes};
ghost use Rattle.std.specs.List.{slice_range};
ghost use Rattle.seal.specs.Ghash.{ghash, blocks, blocks_of};
ghost use Rattle.seal.specs.Aes.{schedule as words};
ghost use Rattle.seal.specs.Gcm as spec;
ghost use Rattle.seal.specs.Bytes.{xored_front};
ghost use Rattle.seal.specs.declared.error.SealError.TheVariants.{TooLong, Refused};

use crate::aes::{encipher, encipher_last, first_rounds, schedule, xor_block};
use crate::equal::equal_bytes;
use crate::error::SealError;
use crate::ghash::ByteMultiples;
use crate::powers::Turns;
use std::marker::Brand;
use std::sync::ledger::{Blank, Ledger};

pub(crate) const BLOCK_LEN: usize = 16;

// The counter has 2^32 - 2 blocks to give to a text.
const MAX_TEXT_LEN: usize = (1 << 36) - 32;

// Its length in bits stands in 64 bits.
const MAX_AAD_LEN: usize = (1 << 61) - 1;

/// Whether text and additional data have lengths that can be sealed: at most 2^36 - 32 bytes, and
/// fewer than 2^61 (SP 800-38D, section 5.2.1.1).
pub fn is_sealable(aad: &[u8], text: &[u8]) -> bool
    ensures { IsTrue result ↔ spec.IsSealable aad.now text.now }
{
    text.len() <= MAX_TEXT_LEN && aad.len() <= MAX_AAD_LEN
}

/// Adds a block to the text from `at` on, as far as the text goes: ys is what was added before.
pub(crate) fn add_block(text: &mut [u8], at: usize, block: &[u8; 16])
    requires { at < length text.old }
    ensures { (xs ys : List ℕ) → length xs ≡ length text.old → length ys ≡ at
        → text.old ≡ xored_front xs ys
        → text.new ≡ xored_front xs (ys ++ block.now) }
{
    let left = text.len() - at;
    if left >= 16 {
        for i in 0..16usize {
            text[at + i] ^= block[i];
        }
    } else {
        for i in 0..left {
            text[at + i] ^= block[i];
        }
    }
}

/// The standard's J0.
pub(crate) fn first_counter(nonce: &[u8; 12]) -> [u8; 16]
    ensures { result ≡ spec.first_counter nonce.now }
{
    let [a, b, c, d, e, f, g, h, i, j, k, l] = *nonce;
    [a, b, c, d, e, f, g, h, i, j, k, l, 0, 0, 0, 1]
}

/// The counter block after this one: the standard's inc32. Where its last byte isn't 0, all others
/// are those of this one.
pub(crate) fn next_counter(block: &[u8; 16]) -> [u8; 16]
    ensures next { result ≡ spec.inc32 block.now }
    ensures front { (¬ (slice_index result 15 ≡ 0)) → take 15 result ≡ take 15 block.now }
{
    let [a, b, c, d, e, f, g, h, i, j, k, l, m, n, o, p] = *block;
    let [q, r, s, t] = u32::from_be_bytes([m, n, o, p])
        .wrapping_add(1)
        .to_be_bytes();
    [a, b, c, d, e, f, g, h, i, j, k, l, q, r, s, t]
}

// Adds the key stream to `text`: w is the schedule of the key. What the first two rounds make of a
// counter block but for its last byte is kept while that byte alone changes.
fn cipher(w: &[u8; 240], nonce: &[u8; 12], text: &mut [u8])
    requires { length text.old ≤ 2 ^ 36 }
    ensures { (key : List ℕ) → length key ≡ 32 → w.now ≡ words key 52
        → text.new ≡ spec.ciphered key nonce.now text.old }
{
    let mut block = first_counter(nonce);
    let mut kept = first_rounds(w, &block);
    for n in 0..text.len().div_ceil(BLOCK_LEN) {
        let next = next_counter(&block);
        block = next;
        // The last byte has come round, so another byte has changed too.
        if next[15] == 0 {
            kept = first_rounds(w, &next);
        }
        add_block(text, BLOCK_LEN * n, &encipher_last(w, &kept, next[15]));
    }
}

/// Block n of a text that is filled with zeros to whole blocks.
pub(crate) fn whole_block(text: &[u8], n: usize) -> [u8; 16]
    requires { 16 * n < length text.now }
    ensures { result ≡ slice_range (spec.whole_blocks text.now) (16 * n) (16 * n + 16) }
{
    let at = BLOCK_LEN * n;
    let left = text.len() - at;
    let count = left.min(BLOCK_LEN);
    let mut block = [0; 16];
    block[..count].copy_from_slice(&text[at..at + count]);
    block
}

// GHASH of the blocks that `before` is the hash of, and of those of a text, filled with zeros.
fn hash_text<L: Ledger>(
    multiples: &ByteMultiples,
    before: u128,
    text: &[u8],
    turns: &mut Turns<L>,
) -> u128
    requires { length text.now < 2 ^ 61 }
    ensures hashed { (bs : List ℕ) → before ≡ ghash multiples.now bs
        → result ≡ ghash multiples.now (bs
        ++ blocks (spec.blocks_begun (length text.now)) (spec.whole_blocks text.now)) }
    ensures turns { turns.new ≤ turns.old + 15 * spec.blocks_begun (length text.now) }
{
    let mut sum = before;
    for n in 0..text.len().div_ceil(BLOCK_LEN) {
        let next = multiples.hash_block(sum, &whole_block(text, n), turns);
        sum = next;
    }
    sum
}

/// The block of both lengths, in bits.
pub(crate) fn length_block(aad: usize, text: usize) -> [u8; 16]
    requires { (aad < 2 ^ 61) × (text < 2 ^ 61) }
    ensures { result ≡ to_be_bytes w64 (aad * 8) ++ to_be_bytes w64 (text * 8) }
{
    let [a, b, c, d, e, f, g, h] = (aad as u64 * 8).to_be_bytes();
    let [i, j, k, l, m, n, o, p] = (text as u64 * 8).to_be_bytes();
    [a, b, c, d, e, f, g, h, i, j, k, l, m, n, o, p]
}

// GHASH of the two texts and their lengths.
fn hash_of<L: Ledger>(
    multiples: &ByteMultiples,
    aad: &[u8],
    ciphertext: &[u8],
    turns: &mut Turns<L>,
) -> u128
    requires { spec.IsSealable aad.now ciphertext.now }
    ensures hashed { result
        ≡ ghash multiples.now (blocks_of (spec.hashed aad.now ciphertext.now)) }
    ensures turns { turns.new ≤ turns.old + 15 * (spec.blocks_begun (length aad.now)
        + spec.blocks_begun (length ciphertext.now) + 1) }
{
    let sum = hash_text(multiples, 0, aad, turns);
    let sum = hash_text(multiples, sum, ciphertext, turns);
    multiples.hash_block(sum, &length_block(aad.len(), ciphertext.len()), turns)
}

// The tag of a ciphertext: w is the schedule of the key.
fn tag_of<L: Ledger>(
    w: &[u8; 240],
    nonce: &[u8; 12],
    aad: &[u8],
    ciphertext: &[u8],
    turns: &mut Turns<L>,
) -> [u8; 16]
    requires { spec.IsSealable aad.now ciphertext.now }
    ensures tag { (key : List ℕ) → w.now ≡ words key 52
        → result ≡ spec.tag key nonce.now aad.now ciphertext.now }
    ensures turns { turns.new ≤ turns.old + spec.turns_of aad.now ciphertext.now }
{
    let multiples = ByteMultiples::new(&encipher(w, [0; 16]), turns);
    let hash = hash_of(&multiples, aad, ciphertext, turns);
    xor_block(encipher(w, first_counter(nonce)), &hash.to_be_bytes())
}

// Whether this is the tag of the ciphertext.
fn has_tag<L: Ledger>(
    w: &[u8; 240],
    nonce: &[u8; 12],
    aad: &[u8],
    ciphertext: &[u8],
    tag: &[u8; 16],
    turns: &mut Turns<L>,
) -> bool
    requires { spec.IsSealable aad.now ciphertext.now }
    ensures is { (key : List ℕ) → w.now ≡ words key 52
        → (IsTrue result ↔ (tag.now ≡ spec.tag key nonce.now aad.now ciphertext.now)) }
    ensures turns { turns.new ≤ turns.old + spec.turns_of aad.now ciphertext.now }
{
    let right = tag_of(w, nonce, aad, ciphertext, turns);
    equal_bytes(&right, tag)
}

/// Seals `text` in place under AES-256-GCM, and returns its tag (SP 800-38D, section 7.1), by tables at places that key
/// and text decide: [`seal_in_registers`](crate::seal_in_registers) has none.
///
/// `aad`, the additional data, is covered by the tag and stays as it is. A nonce serves for one
/// text under a key: that is the caller's care.
///
/// # Errors
///
/// `TooLong` where `text` has over 2^36 - 32 bytes or `aad` 2^61 bytes or more. `text` is then as
/// it was.
pub fn seal(
    key: &[u8; 32],
    nonce: &[u8; 12],
    aad: &[u8],
    text: &mut [u8],
) -> Result<[u8; 16], SealError>
    ensures ok { IfOk result (λ tag. spec.Sealed key.now nonce.now aad.now text.old text.new tag) }
    ensures err { OnErr result (text.new ≡ text.old) }
    ensures accepted { IsOk result ↔ spec.IsSealable aad.now text.old }
    ensures too_long { IsErrOf result TooLong ↔ (¬ spec.IsSealable aad.now text.old) }
{
    seal_from::<Brand>(key, nonce, aad, text, Blank::new(1))
}

// The same with a count that is let go.
fn seal_from<L: Ledger>(
    key: &[u8; 32],
    nonce: &[u8; 12],
    aad: &[u8],
    text: &mut [u8],
    blank: Blank,
) -> Result<[u8; 16], SealError>
    requires name { blank.name ≡ L.name }
    requires parts { blank.parts ≡ L.parts }
    requires some { 0 < L.parts }
    ensures ok { IfOk result (λ tag. spec.Sealed key.now nonce.now aad.now text.old text.new tag) }
    ensures err { OnErr result (text.new ≡ text.old) }
    ensures accepted { IsOk result ↔ spec.IsSealable aad.now text.old }
    ensures too_long { IsErrOf result TooLong ↔ (¬ spec.IsSealable aad.now text.old) }
{
    let mut turns = Turns::<L>::new(blank);
    seal_counted(key, nonce, aad, text, &mut turns)
}

/// [`seal`], with its turns counted: at most 3 + 32 * (u + t + 1) for u blocks of `aad` and t of
/// `text`, a begun block counted as one.
///
/// # Errors
///
/// Those of [`seal`].
pub fn seal_counted<L: Ledger>(
    key: &[u8; 32],
    nonce: &[u8; 12],
    aad: &[u8],
    text: &mut [u8],
    turns: &mut Turns<L>,
) -> Result<[u8; 16], SealError>
    ensures ok { IfOk result (λ tag. spec.Sealed key.now nonce.now aad.now text.old text.new tag) }
    ensures err { OnErr result (text.new ≡ text.old) }
    ensures accepted { IsOk result ↔ spec.IsSealable aad.now text.old }
    ensures too_long { IsErrOf result TooLong ↔ (¬ spec.IsSealable aad.now text.old) }
    ensures turns { turns.new ≤ turns.old + spec.turns_of aad.now text.old }
{
    if !is_sealable(aad, text) {
        return Err(SealError::TooLong);
    }
    let w = schedule(key);
    cipher(&w, nonce, text);
    Ok(tag_of(&w, nonce, aad, text, turns))
}

/// Opens a sealed `text` in place, where `tag` is its tag (SP 800-38D, section 7.2).
///
/// # Errors
///
/// `TooLong` past the limits of [`seal`], else `Refused` where the tag isn't that of `text` and
/// `aad` under `key` and `nonce`. `text` is then as it was, byte for byte.
pub fn open(
    key: &[u8; 32],
    nonce: &[u8; 12],
    aad: &[u8],
    text: &mut [u8],
    tag: &[u8; 16],
) -> Result<(), SealError>
    ensures ok { OnOk result (spec.Opens key.now nonce.now aad.now text.old tag.now text.new) }
    ensures err { OnErr result (text.new ≡ text.old) }
    ensures accepted { IsOk result
        ↔ ((plain : List ℕ) × spec.Opens key.now nonce.now aad.now text.old tag.now plain) }
    ensures too_long { IsErrOf result TooLong ↔ (¬ spec.IsSealable aad.now text.old) }
    ensures refused { IsErrOf result Refused ↔ (spec.IsSealable aad.now text.old
        × ((plain : List ℕ) → ¬ spec.Opens key.now nonce.now aad.now text.old tag.now plain)) }
{
    open_from::<Brand>(key, nonce, aad, text, tag, Blank::new(1))
}

// The same with a count that is let go.
fn open_from<L: Ledger>(
    key: &[u8; 32],
    nonce: &[u8; 12],
    aad: &[u8],
    text: &mut [u8],
    tag: &[u8; 16],
    blank: Blank,
) -> Result<(), SealError>
    requires name { blank.name ≡ L.name }
    requires parts { blank.parts ≡ L.parts }
    requires some { 0 < L.parts }
    ensures ok { OnOk result (spec.Opens key.now nonce.now aad.now text.old tag.now text.new) }
    ensures err { OnErr result (text.new ≡ text.old) }
    ensures accepted { IsOk result
        ↔ ((plain : List ℕ) × spec.Opens key.now nonce.now aad.now text.old tag.now plain) }
    ensures too_long { IsErrOf result TooLong ↔ (¬ spec.IsSealable aad.now text.old) }
    ensures refused { IsErrOf result Refused ↔ (spec.IsSealable aad.now text.old
        × ((plain : List ℕ) → ¬ spec.Opens key.now nonce.now aad.now text.old tag.now plain)) }
{
    let mut turns = Turns::<L>::new(blank);
    open_counted(key, nonce, aad, text, tag, &mut turns)
}

/// [`open`], with its turns counted: at most 3 + 32 * (u + t + 1) for u blocks of `aad` and t of
/// `text`, a begun block counted as one.
///
/// # Errors
///
/// Those of [`open`].
pub fn open_counted<L: Ledger>(
    key: &[u8; 32],
    nonce: &[u8; 12],
    aad: &[u8],
    text: &mut [u8],
    tag: &[u8; 16],
    turns: &mut Turns<L>,
) -> Result<(), SealError>
    ensures ok { OnOk result (spec.Opens key.now nonce.now aad.now text.old tag.now text.new) }
    ensures err { OnErr result (text.new ≡ text.old) }
    ensures accepted { IsOk result
        ↔ ((plain : List ℕ) × spec.Opens key.now nonce.now aad.now text.old tag.now plain) }
    ensures too_long { IsErrOf result TooLong ↔ (¬ spec.IsSealable aad.now text.old) }
    ensures refused { IsErrOf result Refused ↔ (spec.IsSealable aad.now text.old
        × ((plain : List ℕ) → ¬ spec.Opens key.now nonce.now aad.now text.old tag.now plain)) }
    ensures turns { turns.new ≤ turns.old + spec.turns_of aad.now text.old }
{
    if !is_sealable(aad, text) {
        return Err(SealError::TooLong);
    }
    let w = schedule(key);
    if !has_tag(&w, nonce, aad, text, tag, turns) {
        return Err(SealError::Refused);
    }
    cipher(&w, nonce, text);
    Ok(())
}
