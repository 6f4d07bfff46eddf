//! The texts that a cookie holds.
ghost use Rattle.std.specs.Prelude.{◌≡◌, IfOk, None, option_copied, option_map, option_and_then};
ghost use Rattle.cookie_text.specs.PartText.{part_text, raw_text};

use std::alloc::{AllocError, Global};

/// A slice of the source that was read, a text given since, or an owned text.
#[derive(Debug, Drop)]
pub enum Part<'c> {
    Source(&'c str),
    Given(&'c str),
    Own(String),
}

impl<'c> Part<'c> {
    /// The text.
    pub fn as_str(&self) -> &str
        ensures { result.now ≡ part_text self.now }
    {
        match self {
            Part::Source(text) => text,
            Part::Given(text) => text,
            Part::Own(text) => text.as_str(),
        }
    }

    /// The slice of the source.
    pub fn raw(&self) -> Option<&'c str>
        ensures { option_copied result ≡ raw_text self.now }
    {
        match self {
            Part::Source(text) => Some(text),
            _ => None,
        }
    }

    /// The same text, owned: it is no slice of the source.
    ///
    /// # Errors
    ///
    /// Want of memory.
    pub fn into_owned(self, alloc: Global) -> Result<Part<'static>, AllocError>
        ensures text { IfOk result (λ part. part_text part ≡ part_text self.entry) }
        ensures raw { IfOk result (λ part. raw_text part ≡ None) }
    {
        match self {
            Part::Source(text) => Ok(Part::Own(String::from_str(alloc, text)?)),
            Part::Given(text) => Ok(Part::Own(String::from_str(alloc, text)?)),
            Part::Own(text) => Ok(Part::Own(text)),
        }
    }

    /// A copy: a borrowed text is borrowed again, an owned one is copied.
    ///
    /// # Errors
    ///
    /// Want of memory.
    pub fn clone(&self, alloc: Global) -> Result<Part<'c>, AllocError>
        ensures text { IfOk result (λ part. part_text part ≡ part_text self.now) }
        ensures raw { IfOk result (λ part. raw_text part ≡ raw_text self.now) }
    {
        match self {
            Part::Source(text) => Ok(Part::Source(text)),
            Part::Given(text) => Ok(Part::Given(text)),
            Part::Own(text) => Ok(Part::Own(String::from_str(alloc, text.as_str())?)),
        }
    }
}

/// The part, where there is one, owned.
///
/// # Errors
///
/// Want of memory.
pub fn owned<'c>(alloc: Global, part: Option<Part<'c>>) -> Result<Option<Part<'static>>, AllocError>
    ensures text { IfOk result (λ p. option_map part_text p ≡ option_map part_text part.entry) }
    ensures raw { IfOk result (λ p. option_and_then raw_text p ≡ None) }
{
    match part {
        Some(part) => Ok(Some(part.into_owned(alloc)?)),
        None => Ok(None),
    }
}

/// A copy of the part, where there is one.
///
/// # Errors
///
/// Want of memory.
pub fn cloned<'c>(alloc: Global, part: &Option<Part<'c>>) -> Result<Option<Part<'c>>, AllocError>
    ensures text { IfOk result (λ p. option_map part_text p ≡ option_map part_text part.now) }
    ensures raw { IfOk result
        (λ p. option_and_then raw_text p ≡ option_and_then raw_text part.now) }
{
    match part {
        Some(part) => Ok(Some(part.clone(alloc)?)),
        None => Ok(None),
    }
}
