//! What the words behind the program's name ask for.
ghost use Rattle.std.specs.Prelude.{map, string_bytes};
ghost use Rattle.cookie_run.specs.Program as spec;
ghost use Rattle.cookie_run.specs.ProgramRead.{ReadsWords};

use crate::program::failure::Failure;
use crate::script::moment::{Moment, moment_of};
use crate::script::seed::seed_of;

/// What four words ask for: `SUFFIXFILE SEED STOREFILE MOMENT`.
#[derive(Clone, Copy)]
pub struct Asked<'a> {
    pub suffix_file: &'a str,
    pub seed: [u8; 32],
    pub store_file: &'a str,
    pub at: Moment,
}

/// What the words ask for.
///
/// # Errors
///
/// `Arguments` where there aren't four, else `Seed` where the second isn't 64 hexadecimal digits, of
/// either case, else `Moment` where the fourth is no moment of a script.
pub fn read(words: &[String]) -> Result<Asked<'_>, Failure>
    ensures { ReadsWords result (spec.asked_of (map (λ word. string_bytes word) words.now)) }
{
    let [suffix_file, seed, store_file, moment] = words else {
        return Err(Failure::Arguments);
    };
    let Some(seed) = seed_of(seed.as_str()) else {
        return Err(Failure::Seed);
    };
    let Some(at) = moment_of(moment.as_str()) else {
        return Err(Failure::Moment);
    };
    Ok(Asked {
        suffix_file: suffix_file.as_str(),
        seed,
        store_file: store_file.as_str(),
        at,
    })
}
