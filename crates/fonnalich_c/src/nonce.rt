//! The nonce of one sealing, handed in by the caller.
ghost use Rattle.std.specs.Prelude.{◌≡◌, length};

use rand_core::TryRng;
use std::convert::Infallible;

/// A generator whose fills of the nonce's length give the nonce.
#[derive(Drop)]
pub(crate) struct Once<'n> {
    pub nonce: &'n [u8],
}

impl TryRng for Once<'_> {
    type Error = Infallible;

    ghost may_fill = { λ old bytes new. length bytes ≡ length old.nonce.now → bytes ≡ old.nonce.now };

    fn try_next_u32(&mut self) -> Result<u32, Infallible> {
        Ok(0)
    }

    fn try_next_u64(&mut self) -> Result<u64, Infallible> {
        Ok(0)
    }

    fn try_fill_bytes(&mut self, dst: &mut [u8]) -> Result<(), Infallible> {
        if dst.len() == self.nonce.len() {
            dst.copy_from_slice(self.nonce);
        }
        Ok(())
    }
}
