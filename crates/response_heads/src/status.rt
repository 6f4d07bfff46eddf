//! Status lines (RFC 9112, section 4).
ghost use Rattle.std.specs.Prelude.{◌≡◌, ◌<◌, ◌-◌, ◌∷◌, ◌==◌, [], IsTrue, MatchOption, position};
ghost use Rattle.std.specs.Char.{is_ascii_digit};
ghost use Rattle.response_heads.specs.Lines as spec;

/// What a status line begins with.
const MARK: &[u8] = b"HTTP/";

/// Whether the line begins a head, where none has begun: with the mark in any case of its letters.
pub(crate) fn begins_head(line: &[u8]) -> bool
    ensures { result ≡ spec.begins_head line.now }
{
    match line.get(..MARK.len()) {
        Some(front) => front.eq_ignore_ascii_case(MARK),
        None => false,
    }
}

/// The status of a status line, or `None` for any other line.
#[tactic(auto, unfolding(crate::specs::Lines::status_of))]
pub(crate) fn status_of(line: &[u8]) -> Option<u16>
    ensures { result ≡ spec.status_of line.now }
{
    let (version, rest) = cut(line)?;
    let code = match cut(rest) {
        Some((code, _)) => code,
        None => rest,
    };
    if is_version(version) {
        code_of(code)
    } else {
        None
    }
}

// The first word of a text, and what follows its space.
fn cut(text: &[u8]) -> Option<(&[u8], &[u8])>
    ensures { MatchOption result (spec.words text.now ≡ text.now ∷ [])
        (λ cut. spec.words text.now ≡ cut.0.now ∷ spec.words cut.1.now) }
{
    let at = space_in(text)?;
    Some((&text[..at], &text[at + 1..]))
}

// Where the first space stands.
fn space_in(text: &[u8]) -> Option<usize>
    ensures { result ≡ position (λ b. b == 32) text.now }
{
    text.iter().position(|b| *b == b' ')
}

// Whether the word is `HTTP/` and a version's number.
fn is_version(word: &[u8]) -> bool
    ensures { result ≡ spec.is_version word.now }
{
    word.starts_with(MARK) && is_number_of_version(&word[MARK.len()..])
}

fn is_number_of_version(text: &[u8]) -> bool
    ensures { result ≡ spec.is_number_of_version text.now }
{
    match text {
        [digit] => digit.is_ascii_digit(),
        [major, stop, minor] => {
            major.is_ascii_digit() && *stop == b'.' && minor.is_ascii_digit()
        }
        _ => false,
    }
}

// The number of three digits.
fn code_of(word: &[u8]) -> Option<u16>
    ensures { result ≡ spec.code_in word.now }
{
    match word {
        [a, b, c] if a.is_ascii_digit() && b.is_ascii_digit() && c.is_ascii_digit() => {
            Some(100 * digit_of(*a) + 10 * digit_of(*b) + digit_of(*c))
        }
        _ => None,
    }
}

fn digit_of(b: u8) -> u16
    requires { IsTrue (is_ascii_digit b) }
    ensures value { result ≡ b - 48 }
    ensures bound { result < 10 }
{
    u16::from(b - b'0')
}
