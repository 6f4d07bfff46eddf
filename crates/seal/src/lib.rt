//! Ciphers over plain bytes: HMAC with SHA-256 (RFC 2104), HKDF's expansion (RFC 5869), and
//! AES-256-GCM (FIPS 197, SP 800-38D), in registers and by tables. No call takes memory.
//!
//! ```
//! let mut text = *b"attack at dawn";
//! let tag = seal::seal_in_registers(&key, &nonce, b"aad", &mut text)?;
//! seal::open_in_registers(&key, &nonce, b"aad", &mut text, &tag)?;
//! ```
#![tactic(auto)]

mod aes;
mod derive;
mod equal;
mod error;
mod field;
mod gcm;
mod ghash;
mod hash_subkey;
pub mod laws;
mod mac;
mod powers;
mod register_aes;
mod register_gcm;
mod registers;
mod tables;

pub use derive::expand;
pub use equal::equal_bytes;
pub use error::SealError;
pub use gcm::{is_sealable, open, open_counted, seal, seal_counted};
pub use ghash::Multiples;
pub use hash_subkey::HashSubkey;
pub use mac::{MacKey, hmac};
pub use powers::Turns;
pub use register_gcm::{is_opened_in_registers, open_in_registers, seal_in_registers};
