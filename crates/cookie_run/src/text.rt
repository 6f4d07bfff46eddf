//! Texts, and the bytes of lines.
ghost use Rattle.std.specs.Prelude.{◌≡◌, map, IfOk, string_bytes};

pub use cookie_client::Text;
use std::alloc::{AllocError, Global};

// The lines, borrowed.
pub(crate) fn views_of(alloc: Global, lines: &[Vec<u8>]) -> Result<Vec<&[u8]>, AllocError>
    ensures { IfOk result (λ v. map (λ x. x.now) v.items ≡ map (λ line. line.items) lines.now) }
{
    let mut views = Vec::new(alloc);
    for line in lines {
        views.push(line.as_slice())?;
    }
    Ok(views)
}

// The bytes of the lines, borrowed.
pub(crate) fn bytes_of(alloc: Global, lines: &[String]) -> Result<Vec<&[u8]>, AllocError>
    ensures { IfOk result (λ v. map (λ x. x.now) v.items ≡ map string_bytes lines.now) }
{
    let mut views = Vec::new(alloc);
    for line in lines {
        views.push(line.as_bytes())?;
    }
    Ok(views)
}
