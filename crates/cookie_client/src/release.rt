//! The version of the programs and libraries.
ghost use Rattle.std.specs.Prelude.{◌≡◌, IfOk, string_bytes};
ghost use Rattle.cookie_client.specs.Version as spec;

use std::alloc::{AllocError, Global};

const VERSION: &str = "0.9.0";

/// The version of the repository's programs and libraries: three numbers, parted by dots.
pub fn version() -> &'static str
    ensures { result.now ≡ spec.version }
{
    VERSION
}

/// What a program of this name prints of its version: its name, a space, the version and a line feed.
///
/// # Errors
///
/// `AllocError` where there is no memory for the text.
pub fn version_line(alloc: Global, name: &str) -> Result<String, AllocError>
    ensures { IfOk result (λ line. string_bytes line ≡ spec.version_line name.now) }
{
    let mut line = String::from_str(alloc, name)?;
    line.push_str(" ")?;
    line.push_str(version())?;
    line.push_str("\n")?;
    Ok(line)
}
