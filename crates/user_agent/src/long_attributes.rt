//! Lines without their long attributes (the draft that follows RFC 6265, section 5.6).
ghost use Rattle.std.specs.Prelude.{◌≡◌, ◌∷◌, [], IfOk, OnOk, filter, string_bytes};
ghost use Rattle.user_agent.specs.KnownDates.{joined_behind};
ghost use Rattle.user_agent.specs.LongAttributes as spec;

use cookie_text::laws::one_outcome;
use std::alloc::{AllocError, Global};

/// The line without each attribute whose value has over 1,024 bytes (the draft that follows RFC 6265, section 5.6, step
/// 6 for an attribute). The value is without the white space round it. All else stands as it did.
///
/// # Errors
///
/// `AllocError` where there is no memory for it.
pub fn without_long_attributes(alloc: Global, line: &str) -> Result<String, AllocError>
    ensures { IfOk result (λ short. spec.IsShortLine line.now (string_bytes short)) }
{
    let mut short = String::with_capacity(alloc, line.len())?;
    match line.split_once(';') {
        Some((first, rest)) => {
            short.push_str(first)?;
            push_short_pieces(&mut short, rest)?;
            Ok(short)
        }
        None => {
            short.push_str(line)?;
            Ok(short)
        }
    }
}

// Puts each short piece of the text behind a semicolon.
fn push_short_pieces(short: &mut String, text: &str) -> Result<(), AllocError>
    ensures { OnOk result (spec.PutsShort text.now (string_bytes short.old) (string_bytes short.new)) }
{
    for piece in text.split(';') {
        push_short(short, piece)?;
    }
    Ok(())
}

// Puts a piece behind a semicolon, where it is short.
fn push_short(short: &mut String, piece: &str) -> Result<(), AllocError>
    ensures { OnOk result (string_bytes short.new
        ≡ joined_behind (string_bytes short.old) (filter spec.is_short (piece.now ∷ []))) }
{
    if is_short(piece) {
        short.push_str(";")?;
        short.push_str(piece)?;
    }
    Ok(())
}

// Whether the value of the piece has at most 1,024 bytes.
#[tactic(auto, unfolding(cookie_text::specs::Pieces::text_after))]
fn is_short(piece: &str) -> bool
    ensures { result ≡ spec.is_short piece.now }
{
    match piece.split_once('=') {
        Some((_, value)) => value.trim().len() <= 1024,
        None => true,
    }
}

/// What a line without its long attributes reads as: its pair, with the attributes that are left.
pub fn short_lines_read_the_rest()
    ensures { spec.ShortLinesRead }
{
    one_outcome();
}
