//! The lines of a text.
ghost use Rattle.std.specs.Prelude.{◌≡◌, ◌∷◌, ◌+◌, ◌<◌, ◌^◌, [], length, MatchOption};
ghost use Rattle.response_heads.specs.Lines.{cut_end, whole_lines};

use text_lines::{line_end, without_return};

/// What is left of a text, and how many of its whole lines were taken.
#[derive(Drop)]
pub(crate) struct Lines<'a> {
    pub rest: &'a [u8],
    pub taken: usize,
    ghost room: { taken + length rest.now < 2 ^ 64 },
}

impl<'a> Lines<'a> {
    pub(crate) fn of(text: &'a [u8]) -> Lines<'a>
        ensures rest { result.rest.now ≡ text.now }
        ensures taken { result.taken ≡ 0 }
    {
        Lines {
            rest: text,
            taken: 0,
        }
    }

    /// Takes the next whole line, without its end: a line feed, and a carriage return before that. What lacks it stays.
    pub(crate) fn next(&mut self) -> Option<&'a [u8]>
        ensures line { MatchOption result ((whole_lines self.old.rest.now ≡ [])
            × (cut_end self.old.rest.now ≡ self.old.rest.now) × (self.new ≡ self.old))
            (λ line. (whole_lines self.old.rest.now ≡ line.now ∷ whole_lines self.new.rest.now)
            × (cut_end self.new.rest.now ≡ cut_end self.old.rest.now)
            × (self.new.taken ≡ self.old.taken + 1)
            × (length self.new.rest.now < length self.old.rest.now)) }
    {
        let (line, rest) = first_line(self.rest)?;
        self.rest = rest;
        self.taken += 1;
        Some(line)
    }
}

// The first whole line of a text, and what follows it.
fn first_line(text: &[u8]) -> Option<(&[u8], &[u8])>
    ensures { MatchOption result ((whole_lines text.now ≡ []) × (cut_end text.now ≡ text.now))
        (λ cut. (whole_lines text.now ≡ cut.0.now ∷ whole_lines cut.1.now) × (cut_end cut.1.now ≡ cut_end text.now)
        × (length cut.1.now < length text.now)) }
{
    let end = line_end(text)?;
    Some((without_return(&text[..end]), &text[end + 1..]))
}
