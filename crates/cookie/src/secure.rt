//! Keys, and what the signed and the private jars write.

mod encoding;
mod key;
mod key_ring;
mod placed;
mod printing;
mod private_error;
mod private_jar;
mod private_ring_jar;
mod ring_sealing;
mod ring_signing;
mod sealing;
mod signed_jar;
mod signed_ring_jar;
mod signing;
mod trials;

pub use key::{Key, KeyError};
pub use key_ring::{EarlierKey, KeyRing, KeyRingError};
pub use private_error::PrivateError;
pub use private_jar::{PrivateJar, PrivateJarMut};
pub use private_ring_jar::{PrivateRingJar, PrivateRingJarMut};
pub use ring_sealing::opened_by_ring;
pub use ring_signing::verified_by_ring;
pub use sealing::{is_sealable, nonce, opened_value, sealed_by, sealed_text};
pub use signed_jar::{SignedJar, SignedJarMut};
pub use signed_ring_jar::{SignedRingJar, SignedRingJarMut};
pub use signing::{signed_text, verified_value};
