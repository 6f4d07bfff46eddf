//! AES-256-GCM (SP 800-38D) by look-ups within registers: no address and no branch hangs on the key,
//! on the text or on what is made of them, but for the answer of an opening.

ghost use Rattle.std.specs.Prelude.{◌≡◌, ◌≤◌, ◌<◌, ◌↔◌, ℕ, List, length, IfOk, OnOk, OnErr, IsErrOf, IsOk, IsTrue};
ghost use Rattle.std.specs.Prelude.{◌++◌, ◌^◌};
ghost use Rattle.seal.specs.Ghash.{ghash, blocks, blocks_of};
ghost use Rattle.seal.specs.Aes.{schedule as words};
ghost use Rattle.seal.specs.Gcm as spec;
ghost use Rattle.seal.specs.declared.error.SealError.TheVariants.{TooLong, Refused};

use crate::equal::equal_bytes;
use crate::error::SealError;
use crate::gcm::{
    BLOCK_LEN, add_block, first_counter, is_sealable, length_block, next_counter, whole_block,
};
use crate::hash_subkey::HashSubkey;
use crate::register_aes::{encipher, schedule, sum_of_blocks};

// Adds the key stream to `text`: w is the schedule of the key.
fn cipher(w: &[u8; 240], nonce: &[u8; 12], text: &mut [u8])
    requires { length text.old ≤ 2 ^ 36 }
    ensures { (key : List ℕ) → length key ≡ 32 → w.now ≡ words key 52
        → text.new ≡ spec.ciphered key nonce.now text.old }
{
    let mut block = first_counter(nonce);
    for n in 0..text.len().div_ceil(BLOCK_LEN) {
        let next = next_counter(&block);
        block = next;
        add_block(text, BLOCK_LEN * n, &encipher(w, &next));
    }
}

// GHASH of the blocks that `before` is the hash of, and of those of a text, filled with zeros.
fn hash_text(subkey: &HashSubkey, before: u128, text: &[u8]) -> u128
    requires { length text.now < 2 ^ 61 }
    ensures { (bs : List ℕ) → before ≡ ghash subkey.now bs
        → result ≡ ghash subkey.now (bs
        ++ blocks (spec.blocks_begun (length text.now)) (spec.whole_blocks text.now)) }
{
    let mut sum = before;
    for n in 0..text.len().div_ceil(BLOCK_LEN) {
        let next = subkey.hash_block(sum, &whole_block(text, n));
        sum = next;
    }
    sum
}

// GHASH of the two texts and their lengths.
fn hash_of(subkey: &HashSubkey, aad: &[u8], ciphertext: &[u8]) -> u128
    requires { spec.IsSealable aad.now ciphertext.now }
    ensures { result ≡ ghash subkey.now (blocks_of (spec.hashed aad.now ciphertext.now)) }
{
    let sum = hash_text(subkey, 0, aad);
    let sum = hash_text(subkey, sum, ciphertext);
    subkey.hash_block(sum, &length_block(aad.len(), ciphertext.len()))
}

// The tag of a ciphertext: w is the schedule of the key.
fn tag_of(w: &[u8; 240], nonce: &[u8; 12], aad: &[u8], ciphertext: &[u8]) -> [u8; 16]
    requires { spec.IsSealable aad.now ciphertext.now }
    ensures { (key : List ℕ) → w.now ≡ words key 52
        → result ≡ spec.tag key nonce.now aad.now ciphertext.now }
{
    let subkey = HashSubkey::new(&encipher(w, &[0; 16]));
    let hash = hash_of(&subkey, aad, ciphertext);
    sum_of_blocks(&encipher(w, &first_counter(nonce)), &hash.to_be_bytes())
}

// Whether this is the tag of the ciphertext.
fn has_tag(w: &[u8; 240], nonce: &[u8; 12], aad: &[u8], ciphertext: &[u8], tag: &[u8; 16]) -> bool
    requires { spec.IsSealable aad.now ciphertext.now }
    ensures { (key : List ℕ) → w.now ≡ words key 52
        → (IsTrue result ↔ (tag.now ≡ spec.tag key nonce.now aad.now ciphertext.now)) }
{
    let right = tag_of(w, nonce, aad, ciphertext);
    equal_bytes(&right, tag)
}

/// [`seal`](crate::seal), by look-ups within registers alone.
///
/// # Errors
///
/// Those of [`seal`](crate::seal).
pub fn seal_in_registers(
    key: &[u8; 32],
    nonce: &[u8; 12],
    aad: &[u8],
    text: &mut [u8],
) -> Result<[u8; 16], SealError>
    ensures ok { IfOk result (λ tag. spec.Sealed key.now nonce.now aad.now text.old text.new tag) }
    ensures err { OnErr result (text.new ≡ text.old) }
    ensures accepted { IsOk result ↔ spec.IsSealable aad.now text.old }
    ensures too_long { IsErrOf result TooLong ↔ (¬ spec.IsSealable aad.now text.old) }
{
    if !is_sealable(aad, text) {
        return Err(SealError::TooLong);
    }
    let w = schedule(key);
    cipher(&w, nonce, text);
    Ok(tag_of(&w, nonce, aad, text))
}

/// [`open`](crate::open), by look-ups within registers alone. The tag is compared whole, and nothing
/// is deciphered before.
///
/// # Errors
///
/// Those of [`open`](crate::open).
pub fn open_in_registers(
    key: &[u8; 32],
    nonce: &[u8; 12],
    aad: &[u8],
    text: &mut [u8],
    tag: &[u8; 16],
) -> Result<(), SealError>
    ensures ok { OnOk result (spec.Opens key.now nonce.now aad.now text.old tag.now text.new) }
    ensures err { OnErr result (text.new ≡ text.old) }
    ensures accepted { IsOk result
        ↔ ((plain : List ℕ) × spec.Opens key.now nonce.now aad.now text.old tag.now plain) }
    ensures too_long { IsErrOf result TooLong ↔ (¬ spec.IsSealable aad.now text.old) }
    ensures refused { IsErrOf result Refused ↔ (spec.IsSealable aad.now text.old
        × ((plain : List ℕ) → ¬ spec.Opens key.now nonce.now aad.now text.old tag.now plain)) }
{
    if !is_sealable(aad, text) {
        return Err(SealError::TooLong);
    }
    let w = schedule(key);
    if !has_tag(&w, nonce, aad, text, tag) {
        return Err(SealError::Refused);
    }
    cipher(&w, nonce, text);
    Ok(())
}

/// Whether [`open_in_registers`] opens the text: whether `tag` is its tag. The tag is compared whole, and nothing is
/// deciphered.
pub fn is_opened_in_registers(
    key: &[u8; 32],
    nonce: &[u8; 12],
    aad: &[u8],
    text: &[u8],
    tag: &[u8; 16],
) -> bool
    ensures { IsTrue result
        ↔ ((plain : List ℕ) × spec.Opens key.now nonce.now aad.now text.now tag.now plain) }
{
    if !is_sealable(aad, text) {
        return false;
    }
    has_tag(&schedule(key), nonce, aad, text, tag)
}
