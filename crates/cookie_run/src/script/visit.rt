//! The lines of a script, done one at a time.
//!
//! Each function answers what its line prints. A line with a fault is not done: the last moment
//! stays, and so do the rows, but for the lines of an answer before the one at which memory was
//! refused.
ghost use Rattle.std.specs.Prelude.{◌≡◌, length, ◌<◌, ℕ, ℤ, List, [], IfOk, IfErr, OnErr, string_bytes, map};
ghost use Rattle.jiff.specs.Words.{civil_nanos};
ghost use Rattle.publicsuffix.specs.Rules.{Rule};
ghost use Rattle.cookie_store.specs.Rows.{Row};
ghost use Rattle.cookie.specs.KeyRing.{Ring};
ghost use Rattle.cookie_run.specs.Drawn.{DrawsSo};
ghost use Rattle.cookie_client.specs.Jar.{ClosesWith};
ghost use Rattle.cookie_run.specs.RingPlay.{Set, SetUntil, Remove, Get, GetUntil};
ghost use Rattle.cookie_run.specs.ScriptLine as spec;
ghost use Rattle.cookie_run.specs.ScriptText.{after_line, cause_of};
ghost use Rattle.cookie_run.specs.Standing.{Goes, Halts, Obeys, Balks};
ghost use Rattle.cookie_run.specs.ScriptRead.{line_of};

use crate::script::cause::Cause;
use crate::script::line::{Line, read_line};
use crate::script::moment::Moment;
use crate::script::print::{ending_line, header_line, value_line};
use crate::step::{SessionError, Way};
use crate::text::{Text, bytes_of, views_of};
use cookie::{Cookie, Key, KeyRing, KeyRingError};
use cookie_client::ring_session::{RingSession, copy_of_ring};
use cookie_client::{Client, EndingWay};
use cookie_store::Error;
use jiff::civil::DateTime;
use rand_core::TryRng;
use std::alloc::Global;
use url::Url;

/// The session that is open, with the URL and the moment of its request.
#[derive(Drop)]
pub struct Visit {
    pub url: Url,
    pub at: Moment,
    pub session: RingSession,
}

/// Does a line of a script. An empty one is passed over.
pub fn follow<G: TryRng>(
    alloc: Global,
    ring: &mut KeyRing,
    line: &[u8],
    client: &mut Client,
    last: &mut DateTime,
    visit: &mut Option<Visit>,
    rng: &mut G,
) -> Result<String, Cause>
    ensures ok { IfOk result (λ text. DrawsSo G.may_fill G.Error rng.old (λ drawn. Goes drawn client.old.suffixes
        (λ r. after_line r line.now) ring.old client.old.rows (civil_nanos last.old) visit.old
        ring.new client.new.rows (civil_nanos last.new) visit.new (string_bytes text)) rng.new) }
    ensures err { IfErr result (λ cause. DrawsSo G.may_fill G.Error rng.old (λ drawn. Halts drawn client.old.suffixes
        (λ r. after_line r line.now) ring.old client.old.rows (civil_nanos last.old) visit.old cause client.new.rows)
        rng.new) }
    ensures list { client.new.suffixes ≡ client.old.suffixes }
    ensures last { OnErr result (last.new ≡ last.old) }
    ensures asks { OnErr result (0 < length line.now) }
{
    if line.is_empty() {
        return Ok(String::new(alloc));
    }
    let asked = match read_line(alloc, line) {
        Ok(asked) => asked,
        Err(cause) => return Err(cause),
    };
    if asked.goes_back(*last) {
        return Err(Cause::Back);
    }
    obey(alloc, ring, asked, client, last, visit, rng)
}

// Does what a line asks for, whose moment isn't before the last.
fn obey<G: TryRng>(
    alloc: Global,
    ring: &mut KeyRing,
    line: Line,
    client: &mut Client,
    last: &mut DateTime,
    visit: &mut Option<Visit>,
    rng: &mut G,
) -> Result<String, Cause>
    ensures ok { IfOk result (λ text. DrawsSo G.may_fill G.Error rng.old (λ drawn. Obeys drawn client.old.suffixes
        (line_of line) ring.old client.old.rows (civil_nanos last.old) visit.old
        ring.new client.new.rows (civil_nanos last.new) visit.new (string_bytes text)) rng.new) }
    ensures err { IfErr result (λ cause. DrawsSo G.may_fill G.Error rng.old (λ drawn. Balks drawn client.old.suffixes
        (line_of line) ring.old client.old.rows (civil_nanos last.old) visit.old cause client.new.rows) rng.new) }
    ensures list { client.new.suffixes ≡ client.old.suffixes }
    ensures last { OnErr result (last.new ≡ last.old) }
{
    match line {
        Line::Open { url, at } => begin(alloc, ring, url, at, client, last, visit),
        Line::Set { way, cookie } => set(alloc, way, cookie, visit, rng),
        Line::Remove { way, name } => remove(alloc, way, &name, visit),
        Line::Get { way, name } => get(alloc, way, &name, visit),
        Line::Deliver(at) => deliver(alloc, at.date, client, last, visit),
        Line::Lose => lose(alloc, visit),
        Line::Receive { url, lines, at } => {
            receive(alloc, &url, &lines, at.date, client, last, visit)
        }
        Line::Header { url, at } => header(alloc, &url, at.date, client, last, visit),
        Line::Restart(at) => restart(alloc, at, client, last, visit),
        Line::Rotate {
            key,
            at,
            keep_until,
        } => rotate(alloc, key, at, keep_until, ring, last, visit),
        Line::SetUntil { way, cookie, until } => set_until(alloc, way, cookie, until, visit, rng),
        Line::GetUntil { way, name } => get_until(alloc, way, &name, visit),
    }
}

// `open`: a session on the client's header.
fn begin(
    alloc: Global,
    ring: &KeyRing,
    url: Url,
    at: Moment,
    client: &Client,
    last: &mut DateTime,
    visit: &mut Option<Visit>,
) -> Result<String, Cause>
    ensures ok { IfOk result
        (λ text. Obeys [] client.now.suffixes (spec.Opens url at.date)
        ring.now client.now.rows (civil_nanos last.old) visit.old
        ring.now client.now.rows (civil_nanos last.new) visit.new (string_bytes text)) }
    ensures err { IfErr result
        (λ cause. Balks [] client.now.suffixes (spec.Opens url at.date)
        ring.now client.now.rows (civil_nanos last.old) visit.old cause client.now.rows) }
    ensures last { OnErr result (last.new ≡ last.old) }
{
    if visit.is_some() {
        return Err(Cause::Open);
    }
    let header = client.header(&url, at.date)?;
    let keys = copy_of_ring(alloc, ring)?;
    let session = RingSession::open(alloc, header.as_str().as_bytes(), keys, at.date)?;
    *last = at.date;
    *visit = Some(Visit { url, at, session });
    Ok(String::new(alloc))
}

// `set`.
fn set<G: TryRng>(
    alloc: Global,
    way: Way,
    cookie: Cookie<'static>,
    visit: &mut Option<Visit>,
    rng: &mut G,
) -> Result<String, Cause>
    ensures ok { IfOk result
        (λ text. DrawsSo G.may_fill G.Error rng.old (λ drawn. (list : List Rule) (ring : Ring) (rows : List Row)
        (last : ℤ) → Obeys drawn list (spec.Commands (Set way cookie.entry))
        ring rows last visit.old ring rows last visit.new (string_bytes text)) rng.new) }
    ensures err { IfErr result
        (λ cause. DrawsSo G.may_fill G.Error rng.old (λ drawn. (list : List Rule) (ring : Ring) (rows : List Row)
        (last : ℤ) → Balks drawn list (spec.Commands (Set way cookie.entry))
        ring rows last visit.old cause rows) rng.new) }
{
    let Some(
        Visit {
            url,
            at,
            mut session,
        },
    ) = visit.take()
    else {
        return Err(Cause::NoSession);
    };
    let end = session.set(way, cookie, rng);
    *visit = Some(Visit { url, at, session });
    match end {
        Ok(()) => Ok(String::new(alloc)),
        Err(error) => Err(refused(error)),
    }
}

// `remove`, at the moment at which the session was opened.
fn remove(alloc: Global, way: Way, name: &Text, visit: &mut Option<Visit>) -> Result<String, Cause>
    ensures ok { IfOk result
        (λ text. (list : List Rule) (ring : Ring) (rows : List Row) (last : ℤ)
        → Obeys [] list (spec.Commands (Remove way name.now))
        ring rows last visit.old ring rows last visit.new (string_bytes text)) }
    ensures err { IfErr result
        (λ cause. (list : List Rule) (ring : Ring) (rows : List Row) (last : ℤ)
        → Balks [] list (spec.Commands (Remove way name.now))
        ring rows last visit.old cause rows) }
{
    let Some(
        Visit {
            url,
            at,
            mut session,
        },
    ) = visit.take()
    else {
        return Err(Cause::NoSession);
    };
    let end = session.remove(way, name.as_str(), at.date);
    *visit = Some(Visit { url, at, session });
    match end {
        Ok(()) => Ok(String::new(alloc)),
        Err(error) => Err(refused(error)),
    }
}

// `get`.
fn get(alloc: Global, way: Way, name: &Text, visit: &Option<Visit>) -> Result<String, Cause>
    ensures ok { IfOk result
        (λ text. (list : List Rule) (ring : Ring) (rows : List Row) (last : ℤ)
        → Obeys [] list (spec.Commands (Get way name.now))
        ring rows last visit.now ring rows last visit.now (string_bytes text)) }
    ensures err { IfErr result
        (λ cause. (list : List Rule) (ring : Ring) (rows : List Row) (last : ℤ)
        → Balks [] list (spec.Commands (Get way name.now))
        ring rows last visit.now cause rows) }
{
    let Some(open) = visit else {
        return Err(Cause::NoSession);
    };
    match open.session.get_with_place(way, name.as_str()) {
        Ok(read) => Ok(value_line(alloc, way, name.as_str(), &read)?),
        Err(error) => Err(refused(error)),
    }
}

// `set-until`.
fn set_until<G: TryRng>(
    alloc: Global,
    way: EndingWay,
    cookie: Cookie<'static>,
    until: DateTime,
    visit: &mut Option<Visit>,
    rng: &mut G,
) -> Result<String, Cause>
    ensures ok { IfOk result
        (λ text. DrawsSo G.may_fill G.Error rng.old (λ drawn. (list : List Rule) (ring : Ring) (rows : List Row)
        (last : ℤ) → Obeys drawn list (spec.Commands (SetUntil way cookie.entry until))
        ring rows last visit.old ring rows last visit.new (string_bytes text)) rng.new) }
    ensures err { IfErr result
        (λ cause. DrawsSo G.may_fill G.Error rng.old (λ drawn. (list : List Rule) (ring : Ring) (rows : List Row)
        (last : ℤ) → Balks drawn list (spec.Commands (SetUntil way cookie.entry until))
        ring rows last visit.old cause rows) rng.new) }
{
    let Some(
        Visit {
            url,
            at,
            mut session,
        },
    ) = visit.take()
    else {
        return Err(Cause::NoSession);
    };
    let end = session.set_until(way, cookie, until, rng);
    *visit = Some(Visit { url, at, session });
    match end {
        Ok(()) => Ok(String::new(alloc)),
        Err(error) => Err(refused(error)),
    }
}

// `get-until`.
fn get_until(
    alloc: Global,
    way: EndingWay,
    name: &Text,
    visit: &Option<Visit>,
) -> Result<String, Cause>
    ensures ok { IfOk result
        (λ text. (list : List Rule) (ring : Ring) (rows : List Row) (last : ℤ)
        → Obeys [] list (spec.Commands (GetUntil way name.now))
        ring rows last visit.now ring rows last visit.now (string_bytes text)) }
    ensures err { IfErr result
        (λ cause. (list : List Rule) (ring : Ring) (rows : List Row) (last : ℤ)
        → Balks [] list (spec.Commands (GetUntil way name.now))
        ring rows last visit.now cause rows) }
{
    let Some(open) = visit else {
        return Err(Cause::NoSession);
    };
    match open.session.get_until_with_place(way, name.as_str()) {
        Ok(read) => Ok(ending_line(alloc, way, name.as_str(), &read)?),
        Err(error) => Err(refused(error)),
    }
}

// The fault of a command that the session refused.
fn refused(error: SessionError) -> Cause
    ensures { result ≡ cause_of error }
{
    match error {
        SessionError::EmptyName => Cause::EmptyName,
        SessionError::Year => Cause::Year,
        SessionError::TooLong => Cause::TooLong,
        SessionError::Rng => Cause::Rng,
        SessionError::OutOfMemory => Cause::Memory,
    }
}

// `deliver`: the lines that the session closes with come to the client.
fn deliver(
    alloc: Global,
    at: DateTime,
    client: &mut Client,
    last: &mut DateTime,
    visit: &mut Option<Visit>,
) -> Result<String, Cause>
    ensures ok { IfOk result
        (λ text. (ring : Ring) → Obeys [] client.old.suffixes (spec.Delivers (civil_nanos at))
        ring client.old.rows (civil_nanos last.old) visit.old
        ring client.new.rows (civil_nanos last.new) visit.new (string_bytes text)) }
    ensures err { IfErr result
        (λ cause. (ring : Ring) → Balks [] client.old.suffixes (spec.Delivers (civil_nanos at))
        ring client.old.rows (civil_nanos last.old) visit.old cause client.new.rows) }
    ensures list { client.new.suffixes ≡ client.old.suffixes }
    ensures last { OnErr result (last.new ≡ last.old) }
{
    let Some(open) = visit else {
        return Err(Cause::NoSession);
    };
    let lines = closed_lines(&open.session)?;
    let views = bytes_of(alloc, &lines)?;
    if client.receive(&open.url, &views, at).is_err() {
        return Err(Cause::Memory);
    }
    *visit = None;
    *last = at;
    Ok(String::new(alloc))
}

// `lose`: they don't.
fn lose(alloc: Global, visit: &mut Option<Visit>) -> Result<String, Cause>
    ensures ok { IfOk result
        (λ text. (list : List Rule) (ring : Ring) (rows : List Row) (last : ℤ) → Obeys [] list spec.Loses
        ring rows last visit.old ring rows last visit.new (string_bytes text)) }
    ensures err { IfErr result
        (λ cause. (list : List Rule) (ring : Ring) (rows : List Row) (last : ℤ) → Balks [] list spec.Loses
        ring rows last visit.old cause rows) }
{
    if visit.is_none() {
        return Err(Cause::NoSession);
    }
    *visit = None;
    Ok(String::new(alloc))
}

// `receive`: an answer that no session made.
fn receive(
    alloc: Global,
    url: &Url,
    lines: &[Vec<u8>],
    at: DateTime,
    client: &mut Client,
    last: &mut DateTime,
    visit: &Option<Visit>,
) -> Result<String, Cause>
    ensures ok { IfOk result
        (λ text. (ring : Ring)
        → Obeys [] client.old.suffixes (spec.Receives url.now (map (λ line. line.items) lines.now) (civil_nanos at))
        ring client.old.rows (civil_nanos last.old) visit.now
        ring client.new.rows (civil_nanos last.new) visit.now (string_bytes text)) }
    ensures err { IfErr result
        (λ cause. (ring : Ring)
        → Balks [] client.old.suffixes (spec.Receives url.now (map (λ line. line.items) lines.now) (civil_nanos at))
        ring client.old.rows (civil_nanos last.old) visit.now cause client.new.rows) }
    ensures list { client.new.suffixes ≡ client.old.suffixes }
    ensures last { OnErr result (last.new ≡ last.old) }
{
    if visit.is_some() {
        return Err(Cause::Open);
    }
    let views = views_of(alloc, lines)?;
    if client.receive(url, &views, at).is_err() {
        return Err(Cause::Memory);
    }
    *last = at;
    Ok(String::new(alloc))
}

// `header`: a look at the header of a request.
fn header(
    alloc: Global,
    url: &Url,
    at: DateTime,
    client: &Client,
    last: &mut DateTime,
    visit: &Option<Visit>,
) -> Result<String, Cause>
    ensures ok { IfOk result
        (λ text. (ring : Ring) → Obeys [] client.now.suffixes (spec.Heads url.now (civil_nanos at))
        ring client.now.rows (civil_nanos last.old) visit.now
        ring client.now.rows (civil_nanos last.new) visit.now (string_bytes text)) }
    ensures err { IfErr result
        (λ cause. (ring : Ring) → Balks [] client.now.suffixes (spec.Heads url.now (civil_nanos at))
        ring client.now.rows (civil_nanos last.old) visit.now cause client.now.rows) }
    ensures last { OnErr result (last.new ≡ last.old) }
{
    if visit.is_some() {
        return Err(Cause::Open);
    }
    let header = client.header(url, at)?;
    let line = header_line(alloc, header.as_str())?;
    *last = at;
    Ok(line)
}

// `restart`: the client's cookies are saved and loaded again. One that is kept ends after this moment, so
// in no year below 0.
fn restart(
    alloc: Global,
    at: Moment,
    client: &mut Client,
    last: &mut DateTime,
    visit: &Option<Visit>,
) -> Result<String, Cause>
    ensures ok { IfOk result
        (λ text. (ring : Ring) → Obeys [] client.old.suffixes (spec.Restarts (civil_nanos at.date))
        ring client.old.rows (civil_nanos last.old) visit.now
        ring client.new.rows (civil_nanos last.new) visit.now (string_bytes text)) }
    ensures err { IfErr result
        (λ cause. (ring : Ring) → Balks [] client.old.suffixes (spec.Restarts (civil_nanos at.date))
        ring client.old.rows (civil_nanos last.old) visit.now cause client.new.rows) }
    ensures list { client.new.suffixes ≡ client.old.suffixes }
    ensures last { OnErr result (last.new ≡ last.old) }
{
    if visit.is_some() {
        return Err(Cause::Open);
    }
    match client.restart(at.date) {
        Ok(()) => {
            *last = at.date;
            Ok(String::new(alloc))
        }
        Err(Error::OutOfMemory) => Err(Cause::Memory),
        Err(_) => Err(Cause::Restart),
    }
}

// `rotate`: a new key is the current one of the ring.
fn rotate(
    alloc: Global,
    key: Key,
    at: Moment,
    keep_until: Option<DateTime>,
    ring: &mut KeyRing,
    last: &mut DateTime,
    visit: &Option<Visit>,
) -> Result<String, Cause>
    ensures ok { IfOk result
        (λ text. (list : List Rule) (rows : List Row) → Obeys [] list (spec.Rotates key at.date keep_until)
        ring.old rows (civil_nanos last.old) visit.now
        ring.new rows (civil_nanos last.new) visit.now (string_bytes text)) }
    ensures err { IfErr result
        (λ cause. (list : List Rule) (rows : List Row) → Balks [] list (spec.Rotates key at.date keep_until)
        ring.old rows (civil_nanos last.old) visit.now cause rows) }
    ensures last { OnErr result (last.new ≡ last.old) }
{
    if visit.is_some() {
        return Err(Cause::Open);
    }
    match ring.rotate(key, at.date, keep_until) {
        Ok(()) => {
            *last = at.date;
            Ok(String::new(alloc))
        }
        Err(KeyRingError::OutOfMemory) => Err(Cause::Memory),
        Err(KeyRingError::TooMany(_)) => Err(Cause::Keys),
    }
}

// The lines that a session closes with.
fn closed_lines(session: &RingSession) -> Result<Vec<String>, Cause>
    ensures lines { IfOk result (λ lines. ClosesWith session.now.jar (map string_bytes lines.items)) }
    ensures err { IfErr result (λ cause. cause ≡ Cause.Memory) }
{
    match session.close() {
        Ok(lines) => Ok(lines),
        Err(_) => Err(Cause::Memory),
    }
}
