//! Where a line ends, and what of its end is no part of it.
ghost use Rattle.std.specs.Prelude.{◌≡◌, ◌∷◌, ◌<◌, ◌==◌, [], length, position, MatchOption, None};
ghost use Rattle.std.specs.Str.Lines.{lines, strip_carriage_return};

/// The first line of a text, without its end, and what stands behind it; none of an empty text. A line ends at a line
/// feed, and a carriage return before that is no part of it; the last may lack its end.
pub fn first_line(text: &[u8]) -> Option<(&[u8], &[u8])>
    ensures { MatchOption result (lines text.now ≡ [])
        (λ cut. (lines text.now ≡ cut.0.now ∷ lines cut.1.now) × (length cut.1.now < length text.now)) }
{
    match line_end(text) {
        Some(end) => Some((without_return(&text[..end]), &text[end + 1..])),
        None => only_line(text),
    }
}

/// Where the first line feed stands.
pub fn line_end(text: &[u8]) -> Option<usize>
    ensures { result ≡ position (λ b. b == 10) text.now }
{
    text.iter().position(|b| *b == b'\n')
}

/// The line without the carriage return at its end, where it has one.
pub fn without_return(line: &[u8]) -> &[u8]
    ensures { result.now ≡ strip_carriage_return line.now }
{
    match line {
        [front @ .., b'\r'] => front,
        _ => line,
    }
}

// A text without a line feed as a line, unless it is empty.
fn only_line(text: &[u8]) -> Option<(&[u8], &[u8])>
    requires { position (λ b. b == 10) text.now ≡ None }
    ensures { MatchOption result (lines text.now ≡ [])
        (λ cut. (lines text.now ≡ cut.0.now ∷ lines cut.1.now) × (length cut.1.now < length text.now)) }
{
    if text.is_empty() {
        return None;
    }
    Some(text.split_at(text.len()))
}
