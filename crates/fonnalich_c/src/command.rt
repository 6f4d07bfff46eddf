//! The commands of a site's exchange, a line each.
ghost use Rattle.std.specs.Prelude.{◌≡◌, ◌⊎◌, IfOk, IfErr};
ghost use Rattle.cookie_text.specs.Record.{domain_of};
ghost use Rattle.fonnalich_c.specs.Commands as spec;

use crate::refusal::Refusal;
use cookie::{Cookie, ParseError};
use cookie_client::{Command, EndingWay, Text, Way};
use jiff::civil::DateTime;
use percent_encoding::percent_decode;
use std::alloc::Global;

/// What a command does.
#[derive(Clone, Copy, Debug, PartialEq, Eq)]
pub enum Verb {
    /// Sets a cookie.
    Set,
    /// Removes the cookie of a name.
    Remove,
    /// Reads the value of a name.
    Get,
}

/// What a site tells its session on a ring of keys.
#[derive(Drop, Debug)]
pub enum RingCommand {
    /// What it tells one with a single key.
    Kept(Command),
    /// Sets a cookie whose value ends at a moment.
    SetUntil(EndingWay, Cookie<'static>, DateTime),
    /// Reads the value of a name that was set so.
    GetUntil(EndingWay, Text),
}

/// The command of a line, on a ring of keys or with a single key.
pub(crate) fn command_by(alloc: Global, on_ring: bool, line: &[u8]) -> Result<RingCommand, Refusal>
    ensures ok { IfOk result (spec.IsCommandBy on_ring line.now) }
    ensures err { IfErr result (λ refused. (refused ≡ Refusal.Memory)
        ⊎ ((refused ≡ Refusal.Command) × spec.IsNoCommandBy on_ring line.now)) }
{
    if on_ring {
        ring_command(alloc, line)
    } else {
        Ok(RingCommand::Kept(command(alloc, line)?))
    }
}

// The command of a line: a letter for what it does, a digit for the way, and a text.
//
// By `S` the text is a `Set-Cookie` line, whose name and value are percent-decoded. It has no Domain, and no other Path
// than `/`, since a session's cookie goes to its host alone. By `R` and `G` it is a name, which is percent-decoded too.
fn command(alloc: Global, line: &[u8]) -> Result<Command, Refusal>
    ensures ok { IfOk result (spec.IsCommand line.now) }
    ensures err { IfErr result (λ refused. (refused ≡ Refusal.Memory)
        ⊎ ((refused ≡ Refusal.Command) × spec.IsNoCommand line.now)) }
{
    let [verb, way, text @ ..] = line else {
        return Err(Refusal::Command);
    };
    let Some(verb) = verb_of(*verb) else {
        return Err(Refusal::Command);
    };
    let Some(way) = way_of(*way) else {
        return Err(Refusal::Command);
    };
    match verb {
        Verb::Set => Ok(Command::Set(way, cookie(alloc, text)?)),
        Verb::Remove => Ok(Command::Remove(way, name(alloc, text)?)),
        Verb::Get => Ok(Command::Get(way, name(alloc, text)?)),
    }
}

// The same on a ring of keys, where a digit may stand for a way of values that end. By `S` such a value ends when the
// cookie expires, so it has to have an expiry.
fn ring_command(alloc: Global, line: &[u8]) -> Result<RingCommand, Refusal>
    ensures ok { IfOk result (spec.IsRingCommand line.now) }
    ensures err { IfErr result (λ refused. (refused ≡ Refusal.Memory)
        ⊎ ((refused ≡ Refusal.Command) × spec.IsNoRingCommand line.now)) }
{
    let [verb, digit, text @ ..] = line else {
        return Err(Refusal::Command);
    };
    match ending_way_of(*digit) {
        Some(way) => ending_command(alloc, *verb, way, text),
        None => Ok(RingCommand::Kept(command(alloc, line)?)),
    }
}

fn ending_way_of(digit: u8) -> Option<EndingWay>
    ensures { result ≡ spec.ending_way_of digit }
{
    match digit {
        b'5' => Some(EndingWay::Signed),
        b'6' => Some(EndingWay::Sealed),
        _ => None,
    }
}

// What a letter and a text ask for of a value that ends.
fn ending_command(
    alloc: Global,
    verb: u8,
    way: EndingWay,
    text: &[u8],
) -> Result<RingCommand, Refusal>
    ensures ok { IfOk result (spec.AsksEnding (spec.verb_of verb) way text.now) }
    ensures err { IfErr result (λ refused. (refused ≡ Refusal.Memory)
        ⊎ ((refused ≡ Refusal.Command) × spec.AsksNoEnding (spec.verb_of verb) text.now)) }
{
    let Some(verb) = verb_of(verb) else {
        return Err(Refusal::Command);
    };
    match verb {
        Verb::Set => until_expiry(way, cookie(alloc, text)?),
        Verb::Remove => Ok(RingCommand::Kept(Command::Remove(kept_way(way), name(alloc, text)?))),
        Verb::Get => Ok(RingCommand::GetUntil(way, name(alloc, text)?)),
    }
}

// A set of the cookie until its expiry.
fn until_expiry(way: EndingWay, cookie: Cookie<'static>) -> Result<RingCommand, Refusal>
    ensures ok { IfOk result (spec.SetsToExpiry way cookie.entry) }
    ensures err { IfErr result (λ refused. (refused ≡ Refusal.Command) × spec.HasNoExpiry cookie.entry) }
{
    match cookie.expires_datetime() {
        Some(until) => Ok(RingCommand::SetUntil(way, cookie, until)),
        None => Err(Refusal::Command),
    }
}

// The way in which the cookie of such a value is removed.
fn kept_way(way: EndingWay) -> Way
    ensures { result ≡ spec.kept_way way }
{
    match way {
        EndingWay::Signed => Way::Signed,
        EndingWay::Sealed => Way::Sealed,
    }
}

fn verb_of(letter: u8) -> Option<Verb>
    ensures { result ≡ spec.verb_of letter }
{
    match letter {
        b'S' => Some(Verb::Set),
        b'R' => Some(Verb::Remove),
        b'G' => Some(Verb::Get),
        _ => None,
    }
}

fn way_of(digit: u8) -> Option<Way>
    ensures { result ≡ spec.way_of digit }
{
    match digit {
        b'0' => Some(Way::Plain),
        b'1' => Some(Way::Host),
        b'2' => Some(Way::Secure),
        b'3' => Some(Way::Signed),
        b'4' => Some(Way::Sealed),
        _ => None,
    }
}

// The cookie of a `Set-Cookie` line.
fn cookie(alloc: Global, text: &[u8]) -> Result<Cookie<'static>, Refusal>
    ensures ok { IfOk result (λ cookie. spec.IsCookieOf text.now cookie) }
    ensures err { IfErr result (λ refused. (refused ≡ Refusal.Memory)
        ⊎ ((refused ≡ Refusal.Command) × spec.IsNoCookie text.now)) }
{
    let Ok(text) = str::from_utf8(text) else {
        return Err(Refusal::Command);
    };
    match Cookie::parse_encoded(alloc, text) {
        Ok(cookie) => {
            if !is_of_host(&cookie) {
                return Err(Refusal::Command);
            }
            Ok(cookie.into_owned(alloc)?)
        }
        Err(ParseError::OutOfMemory) => Err(Refusal::Memory),
        Err(_) => Err(Refusal::Command),
    }
}

// Whether it has no Domain, and no other Path than `/`.
fn is_of_host(cookie: &Cookie<'_>) -> bool
    ensures { result ≡ spec.is_of_host (domain_of cookie.now.cookie) cookie.now.cookie.path }
{
    match (cookie.domain(), cookie.path()) {
        (None, None) => true,
        (None, Some(path)) => path == "/",
        (Some(_), _) => false,
    }
}

// The name that a text stands for.
fn name(alloc: Global, text: &[u8]) -> Result<Text, Refusal>
    ensures ok { IfOk result (spec.IsNamed text.now) }
    ensures err { IfErr result (λ refused. (refused ≡ Refusal.Memory)
        ⊎ ((refused ≡ Refusal.Command) × spec.IsNoName text.now)) }
{
    let mut decoded = Vec::new(alloc);
    percent_decode(text).append_to(&mut decoded)?;
    match str::from_utf8(&decoded) {
        Ok(name) => Ok(Text::from_str(alloc, name)?),
        Err(_) => Err(Refusal::Command),
    }
}
