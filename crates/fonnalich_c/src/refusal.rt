//! The numbers by which outcomes and refusals cross to C.
ghost use Rattle.std.specs.Prelude.{◌≡◌};
ghost use Rattle.fonnalich_c.specs.Numbers as spec;

use cookie_client::{LineEnd, SessionError};
use cookie_store::{CookieError, StoreAction};
use std::alloc::AllocError;

/// A line of so many or more is told as this one.
const LAST_LINE: usize = 1 << 40;

/// Why a call answers no text.
#[derive(Clone, Copy, Debug, PartialEq, Eq)]
pub enum Refusal {
    /// Memory was refused. What the handle holds is as it was.
    Memory,
    /// The word is none of the table.
    Word,
    /// The handle has no client yet: the first word is `List` or `Load`.
    NoClient,
    /// The text is no public suffix list.
    List,
    /// The second is before the year -9999 or after 9999.
    Moment,
    /// The text is no URL.
    Url,
    /// The text is no saved client.
    Saved,
    /// A cookie that is to be saved ends in a year below 0.
    Year,
    /// The saved text wasn't read to its end. Its bytes lie in memory, and no run was seen to answer this.
    Read,
    /// The key has under 64 bytes.
    Key,
    /// A line is no command.
    Command,
    /// The name of a cookie is empty.
    EmptyName,
    /// The expiry of a cookie is of a year below 100.
    Expiry,
    /// The value or the name of a cookie is too long to be sealed.
    TooLong,
    /// A cookie is to be sealed, and fewer than twelve bytes of nonces are left.
    Nonces,
    /// The host has no byte or an empty label, or the URL has none.
    Host,
    /// A text isn't UTF-8, as it stands or percent-decoded.
    Text,
    /// The text before the first `;` has no `=`.
    Pair,
    /// The number is none of an attribute `SameSite`.
    Site,
    /// The number is none of flags of rules.
    Rules,
    /// The header has a control character, as a line break.
    Line,
    /// The suffix list has no rule.
    NoRule,
    /// The handle keeps no list.
    NoList,
    /// There are over 16 earlier keys.
    ManyKeys,
    /// The keys haven't 64 bytes each, or aren't one more than the ends.
    Keys,
    /// The end of a key is before the year -9999 or after 9999, and isn't that of none.
    KeyEnd,
    /// Memory was refused at this line, counted from 1: those before it are applied, and no later one
    /// was looked at. At 0 none was.
    Stopped(usize),
}

impl Refusal {
    /// Its number in the table.
    pub fn number(self) -> isize
        ensures { result ≡ spec.refusal_number self }
    {
        match self {
            Refusal::Memory => -1,
            Refusal::Word => -2,
            Refusal::NoClient => -3,
            Refusal::List => -4,
            Refusal::Moment => -5,
            Refusal::Url => -6,
            Refusal::Saved => -7,
            Refusal::Year => -8,
            Refusal::Read => -9,
            Refusal::Key => -10,
            Refusal::Command => -11,
            Refusal::EmptyName => -12,
            Refusal::Expiry => -13,
            Refusal::TooLong => -14,
            Refusal::Nonces => -15,
            Refusal::Host => -16,
            Refusal::Text => -17,
            Refusal::Pair => -18,
            Refusal::Site => -19,
            Refusal::Rules => -20,
            Refusal::Line => -21,
            Refusal::NoRule => -24,
            Refusal::NoList => -25,
            Refusal::ManyKeys => -26,
            Refusal::Keys => -27,
            Refusal::KeyEnd => -28,
            Refusal::Stopped(line) => stopped_number(line),
        }
    }
}

impl From<AllocError> for Refusal {
    ghost use Rattle.fonnalich_c.specs.declared.refusal.Refusal.TheVariants.{Memory};

    ghost from_gives = { λ _ e. e ≡ Memory };

    fn from(_: AllocError) -> Refusal {
        Refusal::Memory
    }
}

/// What a session's refusal is told as. A nonce that was handed in never fails, so no call answers `Rng`.
pub fn refused(error: SessionError) -> Refusal
    ensures { result ≡ spec.told_as error }
{
    match error {
        SessionError::EmptyName => Refusal::EmptyName,
        SessionError::Year => Refusal::Expiry,
        SessionError::TooLong => Refusal::TooLong,
        SessionError::Rng => Refusal::Nonces,
        SessionError::OutOfMemory => Refusal::Memory,
    }
}

// The number of a stop at this line.
fn stopped_number(line: usize) -> isize
    ensures { result ≡ spec.stopped_number line }
{
    -100 - (line.min(LAST_LINE) as isize)
}

/// The number of what became of a line.
pub fn end_number(end: LineEnd) -> u8
    ensures { result ≡ spec.end_number end }
{
    match end {
        LineEnd::Stored(action) => action_number(action),
        LineEnd::NotText => 3,
        LineEnd::HostPrefix => 4,
        LineEnd::Refused(cause) => error_number(cause),
    }
}

fn action_number(action: StoreAction) -> u8
    ensures { result ≡ spec.action_number action }
{
    match action {
        StoreAction::Inserted => 0,
        StoreAction::ExpiredExisting => 1,
        StoreAction::UpdatedExisting => 2,
    }
}

fn error_number(cause: CookieError) -> u8
    ensures { result ≡ spec.error_number cause }
{
    match cause {
        CookieError::NonHttpScheme => 10,
        CookieError::NonRelativeScheme => 11,
        CookieError::DomainMismatch => 12,
        CookieError::Expired => 13,
        CookieError::Parse => 14,
        CookieError::PublicSuffix => 15,
        CookieError::UnspecifiedDomain => 16,
        CookieError::OutOfMemory => 17,
    }
}
