//! The key of the signed and the private jars.

ghost use Rattle.std.specs.Prelude.{◌≡◌, ◌≤◌, ◌<◌, ◌↔◌, ℕ, List, length, take, codes, Some, IfOk, IfErr, IsOk};
ghost use Rattle.std.specs.Prelude.{MatchOption, bytes_eq};
ghost use Rattle.std.specs.Cmp.{partial_equiv_from_equiv};
ghost use Rattle.std.specs.Cmp.Lexicographic.{nat_list_eq_equiv};
ghost use Rattle.rand_core.specs.Stream.{fill_bytes};
ghost use Rattle.seal.specs.Hmac.{hmac};
ghost use Rattle.seal.specs.Kept.{KeepsPads};
ghost use Rattle.cookie.specs.Key as spec;

use rand_core::{Rng, TryRng};
use seal::{MacKey, equal_bytes};
use std::fmt::{self, Debug, Formatter, Write};
use std::marker::Model;
use thiserror::Error;

const SIGNING_LEN: usize = 32;

const ENCRYPTION_LEN: usize = 32;

const KEY_LEN: usize = SIGNING_LEN + ENCRYPTION_LEN;

// What can be derived from has a digest's length at least.
const MIN_SEED_LEN: usize = 32;

const INFO: &[u8] = b"COOKIE;SIGNED:HMAC-SHA256;PRIVATE:AEAD-AES-256-GCM";

/// Why bytes are no key.
#[derive(Clone, Copy, Debug, PartialEq, Eq, Error)]
pub enum KeyError {
    /// There are too few of them: this many.
    #[error("TooShort({0})")]
    TooShort(usize),
}

/// A key of 64 bytes: the first 32 sign, the others encrypt.
#[derive(Clone, Drop)]
pub struct Key {
    bytes: [u8; KEY_LEN],
    // The half that signs, with its pads hashed once for all codes.
    mac: MacKey,
}

impl Model for Key {
    ghost Value = { List ℕ };

    ghost view = { λ k. k.bytes };

    ghost invariant = { λ k. KeepsPads k.mac (spec.signing_half k.bytes) };
}

impl PartialEq for Key {
    ghost eq = { bytes_eq };

    ghost laws = { partial_equiv_from_equiv nat_list_eq_equiv };

    fn eq(&self, other: &Key) -> bool {
        equal_bytes(&self.bytes, &other.bytes)
    }
}

impl Eq for Key {
    ghost laws = { nat_list_eq_equiv };
}

impl Key {
    // The key of all these bytes.
    fn of(bytes: [u8; KEY_LEN]) -> Key
        ensures { result ≡ bytes }
    {
        let mac = MacKey::new(&bytes[..SIGNING_LEN]);
        Key { bytes, mac }
    }

    /// The key of the first 64 bytes, of which there have to be 64 at least: a caller that doesn't
    /// know takes [`Key::try_from`].
    pub fn from(bytes: &[u8]) -> Key
        requires { 64 ≤ length bytes.now }
        ensures { result ≡ take 64 bytes.now }
    {
        let mut first = [0; KEY_LEN];
        first.copy_from_slice(&bytes[..KEY_LEN]);
        Key::of(first)
    }

    /// The key of the first 64 bytes.
    ///
    /// # Errors
    ///
    /// `TooShort` with the number of bytes where there are under 64.
    pub fn try_from(bytes: &[u8]) -> Result<Key, KeyError>
        ensures accepted { IsOk result ↔ (64 ≤ length bytes.now) }
        ensures key { IfOk result (λ key. key ≡ take 64 bytes.now) }
        ensures too_short { IfErr result (λ e. e ≡ KeyError.TooShort (length bytes.now)) }
    {
        if bytes.len() < KEY_LEN {
            return Err(KeyError::TooShort(bytes.len()));
        }
        Ok(Key::from(bytes))
    }

    /// The key that is derived from `master_key`: its expansion by HKDF with SHA-256 (RFC 5869,
    /// section 2.3). It has to have 32 bytes at least: a caller that doesn't know takes
    /// [`Key::try_derive_from`].
    pub fn derive_from(master_key: &[u8]) -> Key
        requires { 32 ≤ length master_key.now }
        ensures { result ≡ spec.derived master_key.now }
    {
        let mut bytes = [0; KEY_LEN];
        seal::expand(master_key, INFO, &mut bytes).unwrap();
        Key::of(bytes)
    }

    /// The key that is derived from `master_key`, as [`Key::derive_from`] gives it.
    ///
    /// # Errors
    ///
    /// `TooShort` with the number of bytes where there are under 32.
    pub fn try_derive_from(master_key: &[u8]) -> Result<Key, KeyError>
        ensures accepted { IsOk result ↔ (32 ≤ length master_key.now) }
        ensures key { IfOk result (λ key. key ≡ spec.derived master_key.now) }
        ensures too_short { IfErr result (λ e. e ≡ KeyError.TooShort (length master_key.now)) }
    {
        if master_key.len() < MIN_SEED_LEN {
            return Err(KeyError::TooShort(master_key.len()));
        }
        Ok(Key::derive_from(master_key))
    }

    /// A key of 64 bytes that the generator gives at one fill, or none where the fill fails: a
    /// generator whose error type has no value gives a key each time.
    pub fn try_generate<R: TryRng>(rng: &mut R) -> Option<Key>
        ensures { MatchOption result R.Error
            (λ key. (length key ≡ 64) × R.may_fill rng.old key rng.new) }
    {
        let mut bytes = [0; KEY_LEN];
        match rng.try_fill_bytes(&mut bytes) {
            Ok(()) => Some(Key::of(bytes)),
            Err(_) => None,
        }
    }

    /// A key of 64 bytes that the generator gives at one fill.
    pub fn generate<R: Rng>(rng: &mut R) -> Key
        ensures { (result, R.stream rng.new) ≡ fill_bytes 64 (R.stream rng.old) }
    {
        let mut bytes = [0; KEY_LEN];
        rng.fill_bytes(&mut bytes);
        Key::of(bytes)
    }

    // The same key, for a child jar to keep.
    pub(crate) fn copied(&self) -> Key
        ensures { result ≡ self.now }
    {
        Key {
            bytes: self.bytes,
            mac: self.mac.clone().unwrap(),
        }
    }

    // The code of a value under the half that signs.
    pub(crate) fn code(&self, value: &[u8]) -> [u8; 32]
        ensures { result ≡ hmac (spec.signing_half self.now) value.now }
    {
        self.mac.code(value)
    }

    /// The 32 bytes that sign.
    pub fn signing(&self) -> &[u8; 32]
        ensures half { result.now ≡ spec.signing_half self.now }
        ensures len { length result.now ≡ 32 }
    {
        self.bytes.first_chunk::<SIGNING_LEN>().unwrap()
    }

    /// The 32 bytes that encrypt.
    pub fn encryption(&self) -> &[u8; 32]
        ensures half { result.now ≡ spec.encryption_half self.now }
        ensures len { length result.now ≡ 32 }
    {
        self.bytes.last_chunk::<ENCRYPTION_LEN>().unwrap()
    }

    /// All 64 bytes.
    pub fn master(&self) -> &[u8; 64]
        ensures bytes { result.now ≡ self.now }
        ensures len { length result.now ≡ 64 }
    {
        &self.bytes
    }
}

/// Prints the word `Key`, and none of its bytes.
impl Debug for Key {
    ghost debug_output = { λ _. Some (codes "Key") };

    fn fmt<W: Write>(&self, f: &mut Formatter<W>) -> fmt::Result {
        f.write_str("Key")
    }
}
