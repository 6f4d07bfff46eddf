//! One exchange of a site: a request's header and commands in, what is read and the lines of the response out.
ghost use Rattle.std.specs.Prelude.{◌≡◌, ◌≢◌, ◌⊎◌, ◌++◌, ℕ, List, [], map, drop, string_bytes, Option, Some, None};
ghost use Rattle.std.specs.Prelude.{IfOk, IfErr, OnOk};
ghost use Rattle.std.specs.List.{flat_map};
ghost use Rattle.cookie_client.specs.Ending.{placed};
ghost use Rattle.cookie_client.specs.Jar.{TakesOut};
ghost use Rattle.cookie_client.specs.RingSession.{IsOpenedOnShown, KeepsRing, ReadsEnding, RingReadsIn, Ringed, keyed};
ghost use Rattle.fonnalich_c.specs.Exchange as spec;
ghost use Rattle.fonnalich_c.specs.Given.{lines_of};
ghost use Rattle.fonnalich_c.specs.Items.{item};
ghost use Rattle.fonnalich_c.specs.declared.command.RingCommand.TheVariants.{Kept};

use crate::command::{RingCommand, command_by};
use crate::given::{lines, moment};
use crate::item::{push_item, push_none};
use crate::nonce::Once;
use crate::refusal::{Refusal, refused};
use crate::ring::ring_of;
use cookie::{Cookie, Key, KeyRing};
use cookie_client::{Command, EndingWay, RingSession, Text, Way};
use jiff::civil::DateTime;
use std::alloc::{AllocError, Global};

/// How many bytes a sealing's nonce has.
const NONCE_LEN: usize = 12;

/// What a session with this key on this header answers to the commands: the item of each value that is read, and
/// behind them that of each line that it closes with.
pub(crate) fn exchange(
    alloc: Global,
    key: &[u8],
    header: &[u8],
    second: i64,
    commands: &[u8],
    nonces: &[u8],
) -> Result<Vec<u8>, Refusal>
    ensures ok { IfOk result (λ answer.
        spec.IsExchange key.now header.now second commands.now nonces.now answer.items) }
    ensures err { IfErr result (spec.IsNoExchange key.now header.now second commands.now nonces.now) }
{
    let now = moment(second)?;
    let Ok(key) = Key::try_from(key) else {
        return Err(Refusal::Key);
    };
    let ring = KeyRing::new(alloc, key);
    converse_on(alloc, ring, false, header, now, commands, nonces)
}

/// The same on a ring of keys: beside the item of each value stands that of the place of its key.
pub(crate) fn ring_exchange(
    alloc: Global,
    keys: &[u8],
    ends: &[i64],
    header: &[u8],
    second: i64,
    commands: &[u8],
    nonces: &[u8],
) -> Result<Vec<u8>, Refusal>
    ensures ok { IfOk result (λ answer.
        spec.IsRingExchange keys.now ends.now header.now second commands.now nonces.now answer.items) }
    ensures err { IfErr result
        (spec.IsNoRingExchange keys.now ends.now header.now second commands.now nonces.now) }
{
    let now = moment(second)?;
    let ring = ring_of(alloc, keys, ends)?;
    converse_on(alloc, ring, true, header, now, commands, nonces)
}

// What a session with these keys on this header answers.
fn converse_on(
    alloc: Global,
    ring: KeyRing,
    on_ring: bool,
    header: &[u8],
    now: DateTime,
    commands: &[u8],
    nonces: &[u8],
) -> Result<Vec<u8>, Refusal>
    ensures ok { IfOk result (λ answer. (opened : Ringed) × IsOpenedOnShown ring now header.now opened
        × spec.Answers on_ring opened now (lines_of commands.now) nonces.now answer.items) }
    ensures err { IfErr result (λ refused. (refused ≡ Refusal.Memory)
        ⊎ ((opened : Ringed) × IsOpenedOnShown ring now header.now opened
        × spec.StopsAt on_ring opened now (lines_of commands.now) nonces.now refused)) }
{
    let lines = lines(alloc, commands)?;
    let mut session = RingSession::open_shown(alloc, header, ring, now)?;
    converse(alloc, &mut session, on_ring, now, &lines, nonces)
}

// What an open session answers to the lines of its commands.
fn converse(
    alloc: Global,
    session: &mut RingSession,
    on_ring: bool,
    now: DateTime,
    lines: &[&[u8]],
    nonces: &[u8],
) -> Result<Vec<u8>, Refusal>
    ensures ok { IfOk result (λ answer.
        spec.Answers on_ring session.old now (map (λ line. line.now) lines.now) nonces.now answer.items) }
    ensures err { IfErr result (λ refused. (refused ≡ Refusal.Memory)
        ⊎ spec.StopsAt on_ring session.old now (map (λ line. line.now) lines.now) nonces.now refused) }
{
    let mut answer = obey_all(alloc, session, on_ring, now, lines, nonces)?;
    let Ok(closing) = session.close() else {
        return Err(Refusal::Memory);
    };
    push_lines(&mut answer, &closing)?;
    Ok(answer)
}

// What the commands read, one after another.
fn obey_all(
    alloc: Global,
    session: &mut RingSession,
    on_ring: bool,
    now: DateTime,
    lines: &[&[u8]],
    nonces: &[u8],
) -> Result<Vec<u8>, Refusal>
    ensures ok { IfOk result (λ told. (left : List ℕ) × spec.AllTell on_ring session.old now nonces.now
        (map (λ line. line.now) lines.now) told.items session.new left) }
    ensures err { IfErr result (λ refused. (refused ≡ Refusal.Memory)
        ⊎ spec.StopsAt on_ring session.old now (map (λ line. line.now) lines.now) nonces.now refused) }
{
    let mut told = Vec::new(alloc);
    let mut left = nonces;
    for line in lines {
        left = tell(alloc, session, on_ring, now, line, left, &mut told)?;
    }
    Ok(told)
}

// Does the command of a line, puts what it reads behind what was read, and gives the nonces that it leaves.
fn tell<'n>(
    alloc: Global,
    session: &mut RingSession,
    on_ring: bool,
    now: DateTime,
    line: &[u8],
    nonces: &'n [u8],
    told: &mut Vec<u8>,
) -> Result<&'n [u8], Refusal>
    ensures ok { IfOk result (λ left. (text : List ℕ) × (told.new.items ≡ told.old.items ++ text)
        × spec.LineTells on_ring session.old now nonces.now line.now text session.new left.now) }
    ensures err { IfErr result (λ refused. (refused ≡ Refusal.Memory)
        ⊎ spec.RefusesLine on_ring now nonces.now line.now refused) }
{
    match command_by(alloc, on_ring, line)? {
        RingCommand::Kept(command) => obey(session, on_ring, now, command, nonces, told),
        RingCommand::SetUntil(way, cookie, until) => set_until(session, way, cookie, until, nonces),
        RingCommand::GetUntil(way, name) => {
            get_until(session, on_ring, way, &name, told)?;
            Ok(nonces)
        }
    }
}

// Does a command that a session with a single key has too.
fn obey<'n>(
    session: &mut RingSession,
    on_ring: bool,
    now: DateTime,
    command: Command,
    nonces: &'n [u8],
    told: &mut Vec<u8>,
) -> Result<&'n [u8], Refusal>
    ensures ok { IfOk result (λ left. (text : List ℕ) × (told.new.items ≡ told.old.items ++ text)
        × spec.Tells on_ring session.old now nonces.now (Kept command) text session.new left.now) }
    ensures err { IfErr result (λ refused. (refused ≡ Refusal.Memory)
        ⊎ spec.Refuses now nonces.now (Kept command) refused) }
{
    match command {
        Command::Set(way, cookie) => set(session, way, cookie, nonces),
        Command::Remove(way, name) => {
            remove(session, way, &name, now)?;
            Ok(nonces)
        }
        Command::Get(way, name) => {
            get(session, on_ring, way, &name, told)?;
            Ok(nonces)
        }
    }
}

// Sets a cookie by the current key, by the first of the nonces where it is sealed.
fn set<'n>(
    session: &mut RingSession,
    way: Way,
    cookie: Cookie<'static>,
    nonces: &'n [u8],
) -> Result<&'n [u8], Refusal>
    ensures ok { IfOk result (λ left. spec.SetsBy session.old way cookie.entry nonces.now session.new
        × (left.now ≡ drop (spec.nonce_length way) nonces.now)) }
    ensures err { IfErr result (λ refused. (refused ≡ Refusal.Memory)
        ⊎ spec.RefusesSet way cookie.entry nonces.now refused) }
{
    let Some((nonce, left)) = nonces.split_at_checked(nonce_len(way)) else {
        return Err(Refusal::Nonces);
    };
    match session.set(way, cookie, &mut Once { nonce }) {
        Ok(()) => Ok(left),
        Err(error) => Err(refused(error)),
    }
}

// How many bytes of nonce a set takes.
fn nonce_len(way: Way) -> usize
    ensures { result ≡ spec.nonce_length way }
{
    match way {
        Way::Plain | Way::Host | Way::Secure | Way::Signed => 0,
        Way::Sealed => NONCE_LEN,
    }
}

// Sets a cookie whose value ends at a moment, by the current key.
fn set_until<'n>(
    session: &mut RingSession,
    way: EndingWay,
    cookie: Cookie<'static>,
    until: DateTime,
    nonces: &'n [u8],
) -> Result<&'n [u8], Refusal>
    ensures ok { IfOk result (λ left. spec.SetsUntilBy session.old way cookie.entry until nonces.now session.new
        × (left.now ≡ drop (spec.ending_nonce_length way) nonces.now)) }
    ensures err { IfErr result (λ refused. (refused ≡ Refusal.Memory)
        ⊎ spec.RefusesSetUntil way cookie.entry until nonces.now refused) }
{
    let Some((nonce, left)) = nonces.split_at_checked(ending_nonce_len(way)) else {
        return Err(Refusal::Nonces);
    };
    match session.set_until(way, cookie, until, &mut Once { nonce }) {
        Ok(()) => Ok(left),
        Err(error) => Err(refused(error)),
    }
}

// How many bytes of nonce a set of a value that ends takes.
fn ending_nonce_len(way: EndingWay) -> usize
    ensures { result ≡ spec.ending_nonce_length way }
{
    match way {
        EndingWay::Signed => 0,
        EndingWay::Sealed => NONCE_LEN,
    }
}

// Removes the cookie of a name.
fn remove(session: &mut RingSession, way: Way, name: &Text, now: DateTime) -> Result<(), Refusal>
    ensures ok { OnOk result (TakesOut (keyed session.old) way name.now now (keyed session.new)
        × KeepsRing session.old session.new) }
    ensures err { IfErr result (λ refused. (refused ≡ Refusal.Memory)
        ⊎ spec.RefusesRemoval name.now now refused) }
{
    match session.remove(way, name.as_str(), now) {
        Ok(()) => Ok(()),
        Err(error) => Err(refused(error)),
    }
}

// Reads the value of a name, and the place of its key.
fn get(
    session: &RingSession,
    on_ring: bool,
    way: Way,
    name: &Text,
    told: &mut Vec<u8>,
) -> Result<(), Refusal>
    ensures ok { OnOk result ((read : Option (List ℕ × ℕ)) × (name.now ≢ [])
        × RingReadsIn session.now way name.now read
        × (told.new.items ≡ told.old.items ++ spec.read_text on_ring read)) }
    ensures err { IfErr result (λ refused. (refused ≡ Refusal.Memory)
        ⊎ ((refused ≡ Refusal.EmptyName) × (name.now ≡ []))) }
{
    match session.get_with_place(way, name.as_str()) {
        Ok(read) => Ok(push_placed(told, on_ring, &read)?),
        Err(error) => Err(refused(error)),
    }
}

// Reads the value of a name that was set until a moment, and the place of its key.
fn get_until(
    session: &RingSession,
    on_ring: bool,
    way: EndingWay,
    name: &Text,
    told: &mut Vec<u8>,
) -> Result<(), Refusal>
    ensures ok { OnOk result ((read : Option (List ℕ × ℕ)) × (name.now ≢ [])
        × ReadsEnding session.now way name.now read
        × (told.new.items ≡ told.old.items ++ spec.read_text on_ring read)) }
    ensures err { IfErr result (λ refused. (refused ≡ Refusal.Memory)
        ⊎ ((refused ≡ Refusal.EmptyName) × (name.now ≡ []))) }
{
    match session.get_until_with_place(way, name.as_str()) {
        Ok(read) => Ok(push_placed(told, on_ring, &read)?),
        Err(error) => Err(refused(error)),
    }
}

// Puts a value that was read, and on a ring the place of its key.
fn push_placed(
    told: &mut Vec<u8>,
    on_ring: bool,
    read: &Option<(String, usize)>,
) -> Result<(), AllocError>
    ensures { OnOk result (told.new.items ≡ told.old.items ++ spec.read_text on_ring (placed read.now)) }
{
    match read {
        Some((value, place)) => push_read(told, on_ring, value, *place),
        None => push_unread(told, on_ring),
    }
}

fn push_read(told: &mut Vec<u8>, on_ring: bool, value: &str, place: usize) -> Result<(), AllocError>
    ensures { OnOk result
        (told.new.items ≡ told.old.items ++ spec.read_text on_ring (Some (value.now, place))) }
{
    push_item(told, value.as_bytes())?;
    if on_ring {
        push_item(told, &(place as u64).to_le_bytes())?;
    }
    Ok(())
}

fn push_unread(told: &mut Vec<u8>, on_ring: bool) -> Result<(), AllocError>
    ensures { OnOk result (told.new.items ≡ told.old.items ++ spec.read_text on_ring None) }
{
    push_none(told)?;
    if on_ring {
        push_none(told)?;
    }
    Ok(())
}

fn push_lines(answer: &mut Vec<u8>, lines: &[String]) -> Result<(), AllocError>
    ensures { OnOk result
        (answer.new.items ≡ answer.old.items ++ flat_map item (map string_bytes lines.now)) }
{
    for line in lines {
        push_item(answer, line.as_bytes())?;
    }
    Ok(())
}
