//! The items of a list of RON, each as it stands.
ghost use Rattle.std.specs.Prelude.{◌≡◌, ◌<◌, ◌^◌, ◌-◌, [], IfOk, map, option_map};
ghost use Rattle.saved_text.specs.Letters.{is_space};
ghost use Rattle.cookie_jar.specs.RonItems as spec;

use std::alloc::{AllocError, Global};

/// Where a scan stands in a list.
#[derive(Clone, Copy)]
pub(crate) struct At {
    /// Within a string.
    pub(crate) is_string: bool,
    /// Within one, behind a backslash.
    pub(crate) is_escape: bool,
    /// How deep further brackets nest.
    pub(crate) depth: usize,
}

impl At {
    // Outside of strings and of further brackets.
    fn start() -> At
        ensures { result ≡ spec.start }
    {
        At {
            is_string: false,
            is_escape: false,
            depth: 0,
        }
    }

    fn is_free(self) -> bool
        ensures { result ≡ spec.is_free self }
    {
        !self.is_string && self.depth == 0
    }

    // Behind one byte more.
    fn behind(self, b: u8) -> At
        requires { self.depth < 2 ^ 64 - 1 }
        ensures { result ≡ spec.behind self b }
    {
        if self.is_string {
            return self.behind_letter(b);
        }
        match b {
            b'"' => At {
                is_string: true,
                ..self
            },
            b'(' | b'[' | b'{' => At {
                depth: self.depth + 1,
                ..self
            },
            b')' | b']' | b'}' => At {
                depth: self.depth.saturating_sub(1),
                ..self
            },
            _ => self,
        }
    }

    // So within a string.
    fn behind_letter(self, b: u8) -> At
        ensures { result ≡ spec.behind_letter self b }
    {
        At {
            is_string: self.is_escape || b != b'"',
            is_escape: !self.is_escape && b == b'\\',
            depth: self.depth,
        }
    }
}

/// The items of a list of RON, each as it stands: what commas part between its square brackets, but for those within
/// strings and within further brackets. The last is none where it is white space alone. None where the text is no list:
/// it begins with no such bracket behind white space, or more than white space stands behind the one that closes it; or
/// where a comment stands in it, within which commas part nothing.
///
/// # Errors
///
/// `AllocError`, for want of memory.
#[tactic(auto, unfolding(crate::specs::RonItems::items_of))]
pub(crate) fn items_of<'a>(
    alloc: Global,
    text: &'a [u8],
) -> Result<Option<Vec<&'a [u8]>>, AllocError>
    ensures { IfOk result (λ found.
        option_map (λ items. map (λ item. item.now) items.items) found ≡ spec.items_of text.now) }
{
    match unspaced(text) {
        [b'[', behind @ ..] => items_in(alloc, behind),
        _ => Ok(None),
    }
}

// Those behind the bracket that opens the list.
#[tactic(auto, unfolding(crate::specs::RonItems::items_from))]
fn items_in<'a>(alloc: Global, text: &'a [u8]) -> Result<Option<Vec<&'a [u8]>>, AllocError>
    ensures { IfOk result (λ found.
        option_map (λ items. map (λ item. item.now) items.items) found ≡ spec.items_from spec.start [] text.now) }
{
    let mut items = Vec::new(alloc);
    let mut at = At::start();
    let mut rest = text;
    let mut len = 0;
    while len < rest.len() {
        let b = rest[len];
        if !at.is_string && b == b'/' {
            return Ok(None);
        }
        if at.is_free() && b == b',' {
            items.push(&rest[..len])?;
            rest = &rest[len + 1..];
            len = 0;
            at = At::start();
        } else if at.is_free() && b == b']' {
            return with_last(items, &rest[..len], &rest[len + 1..]);
        } else {
            at = at.behind(b);
            len += 1;
        }
    }
    Ok(None)
}

// The items, and the last one before the bracket that closes the list, where nothing but white space stands behind.
fn with_last<'a>(
    items: Vec<&'a [u8]>,
    last: &'a [u8],
    behind: &[u8],
) -> Result<Option<Vec<&'a [u8]>>, AllocError>
    ensures { IfOk result (λ found. option_map (λ items. map (λ item. item.now) items.items) found
        ≡ spec.with_last (map (λ item. item.now) items.entry.items) last.entry.now behind.now) }
{
    if !is_blank(behind) {
        return Ok(None);
    }
    let mut items = items;
    if !is_blank(last) {
        items.push(last)?;
    }
    Ok(Some(items))
}

// The text without the white space in front.
fn unspaced(text: &[u8]) -> &[u8]
    ensures { result.now ≡ spec.unspaced text.now }
{
    let mut rest = text;
    while let [first, more @ ..] = rest
        && is_space(*first)
    {
        rest = more;
    }
    rest
}

// Whether the text is white space alone.
fn is_blank(text: &[u8]) -> bool
    ensures { result ≡ spec.is_blank text.now }
{
    text.iter().all(|b| is_space(*b))
}

fn is_space(b: u8) -> bool
    ensures { result ≡ is_space b }
{
    matches!(b, b' ' | b'\t' | b'\n' | b'\r')
}
