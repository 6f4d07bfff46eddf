//! What a line of a script asks for.
ghost use Rattle.std.specs.Prelude.{◌≡◌, ◌⊎◌, map, IfOk, IfErr, IfSome, OnErr, Some, None, option_map};
ghost use Rattle.jiff.specs.Words.{civil_nanos, signed_nanos};
ghost use Rattle.cookie_text.specs.Record.{unsliced};
ghost use Rattle.cookie_client.specs.Hosts.{url_of};
ghost use Rattle.cookie_run.specs.ScriptLine as spec;
ghost use Rattle.cookie_client.specs.Moment as dates;
ghost use Rattle.cookie_run.specs.ScriptText as text_spec;
ghost use Rattle.cookie_run.specs.ScriptRead.{ReadsLine, line_of};

use crate::script::cause::Cause;
use crate::script::field::{fields_of, text_of, texts_of};
use crate::script::moment::{Moment, date_of, timely};
use crate::script::seed::seed_of;
use crate::step::Way;
use crate::text::Text;
use cookie::{Cookie, Expiration, Key};
use cookie_client::EndingWay;
use jiff::SignedDuration;
use jiff::civil::DateTime;
use std::alloc::Global;
use url::{ParseError, Url};

/// What a line asks for.
#[derive(Drop)]
pub enum Line {
    /// `open`: a request comes to a session.
    Open {
        url: Url,
        at: Moment,
    },
    /// `set`: a cookie is set.
    Set {
        way: Way,
        cookie: Cookie<'static>,
    },
    /// `remove`: the cookie of a name is removed.
    Remove {
        way: Way,
        name: Text,
    },
    /// `get`: the value of a name is read.
    Get {
        way: Way,
        name: Text,
    },
    /// `deliver`: the session's answer comes.
    Deliver(Moment),
    /// `lose`: it doesn't.
    Lose,
    /// `receive`: an answer that no session made.
    Receive {
        url: Url,
        lines: Vec<Vec<u8>>,
        at: Moment,
    },
    /// `header`: a look at the header of a request.
    Header {
        url: Url,
        at: Moment,
    },
    /// `restart`: the client's cookies are saved and loaded again.
    Restart(Moment),
    /// `rotate`: a new key is the current one, and the one that was counts until a moment, or for ever.
    Rotate {
        key: Key,
        at: Moment,
        keep_until: Option<DateTime>,
    },
    /// `set-until`: a cookie is set whose value ends at a moment.
    SetUntil {
        way: EndingWay,
        cookie: Cookie<'static>,
        until: DateTime,
    },
    /// `get-until`: the value of a name is read, as it was set until a moment.
    GetUntil {
        way: EndingWay,
        name: Text,
    },
}

impl Line {
    /// Whether the line has a moment that is before the last.
    pub fn goes_back(&self, last: DateTime) -> bool
        ensures { result ≡ text_spec.goes_back (civil_nanos last) (line_of self.now) }
    {
        match self {
            Line::Open { at, .. }
            | Line::Receive { at, .. }
            | Line::Header { at, .. }
            | Line::Rotate { at, .. } => at.date < last,
            Line::Deliver(at) | Line::Restart(at) => at.date < last,
            Line::Set { .. }
            | Line::Remove { .. }
            | Line::Get { .. }
            | Line::Lose
            | Line::SetUntil { .. }
            | Line::GetUntil { .. } => false,
        }
    }
}

/// What a line asks for, or the first fault of its text in the order of [`Cause`].
#[tactic(auto, unfolding(crate::specs::ScriptLine::read_line))]
pub fn read_line(alloc: Global, line: &[u8]) -> Result<Line, Cause>
    ensures { ReadsLine result (spec.read_line line.now) }
{
    let fields = fields_of(alloc, line)?;
    let Some((word, fields)) = fields.split_first() else {
        return Err(Cause::Word);
    };
    read_word(alloc, word, fields)
}

fn read_word(alloc: Global, word: &[u8], fields: &[Vec<u8>]) -> Result<Line, Cause>
    ensures { ReadsLine result (spec.read_word word.now (map (λ field. field.items) fields.now)) }
{
    if word == b"open".as_slice() {
        read_open(alloc, &texts_of(alloc, fields)?)
    } else if word == b"set".as_slice() {
        read_set(alloc, &texts_of(alloc, fields)?)
    } else if word == b"remove".as_slice() {
        read_remove(alloc, &texts_of(alloc, fields)?)
    } else if word == b"get".as_slice() {
        read_get(alloc, &texts_of(alloc, fields)?)
    } else if word == b"deliver".as_slice() {
        read_deliver(&texts_of(alloc, fields)?)
    } else if word == b"lose".as_slice() {
        read_lose(&texts_of(alloc, fields)?)
    } else if word == b"receive".as_slice() {
        read_receive(alloc, fields)
    } else if word == b"header".as_slice() {
        read_header(alloc, &texts_of(alloc, fields)?)
    } else if word == b"restart".as_slice() {
        read_restart(&texts_of(alloc, fields)?)
    } else if word == b"rotate".as_slice() {
        read_rotate(&texts_of(alloc, fields)?)
    } else if word == b"set-until".as_slice() {
        read_set_until(alloc, &texts_of(alloc, fields)?)
    } else if word == b"get-until".as_slice() {
        read_get_until(alloc, &texts_of(alloc, fields)?)
    } else {
        Err(Cause::Word)
    }
}

fn read_open(alloc: Global, fields: &[&str]) -> Result<Line, Cause>
    ensures { ReadsLine result (spec.read_open (map (λ field. field.now) fields.now)) }
{
    let [url, at] = fields else {
        return Err(Cause::Fields);
    };
    let url = url_of(alloc, url)?;
    let at = timed(at)?;
    Ok(Line::Open { url, at })
}

fn read_header(alloc: Global, fields: &[&str]) -> Result<Line, Cause>
    ensures { ReadsLine result (spec.read_header (map (λ field. field.now) fields.now)) }
{
    let [url, at] = fields else {
        return Err(Cause::Fields);
    };
    let url = url_of(alloc, url)?;
    let at = timed(at)?;
    Ok(Line::Header { url, at })
}

fn read_set(alloc: Global, fields: &[&str]) -> Result<Line, Cause>
    ensures { ReadsLine result (spec.read_set (map (λ field. field.now) fields.now)) }
{
    let [way, name, value, max_age, expires] = fields else {
        return Err(Cause::Fields);
    };
    let Some(way) = way_of(way) else {
        return Err(Cause::Fields);
    };
    let max_age = age_of(max_age)?;
    let expires = end_of(expires)?;
    let name = Text::from_str(alloc, name)?;
    let value = Text::from_str(alloc, value)?;
    let cookie = dated(name, value, max_age, expires);
    Ok(Line::Set { way, cookie })
}

// How long a cookie lives, by its field, where `-` says nothing of it.
fn age_of(text: &str) -> Result<Option<SignedDuration>, Cause>
    ensures age { IfOk result (λ age.
        spec.unless_dash spec.age_of text.now ≡ Some (option_map signed_nanos age)) }
    ensures err { IfErr result (λ cause.
        (cause ≡ Cause.Fields) × (spec.unless_dash spec.age_of text.now ≡ None)) }
{
    if text == "-" {
        return Ok(None);
    }
    match seconds_of(text) {
        Some(seconds) => Ok(Some(SignedDuration::from_secs(seconds))),
        None => Err(Cause::Fields),
    }
}

// The seconds of a text: digits, and a `-` may stand before them.
fn seconds_of(text: &str) -> Option<i64>
    ensures { result ≡ spec.seconds_of text.now }
{
    if text.starts_with('+') {
        return None;
    }
    text.parse::<i64>().ok()
}

// When a cookie ends, by its field, where `-` says nothing of it.
fn end_of(text: &str) -> Result<Option<DateTime>, Cause>
    ensures end { IfOk result (λ end. spec.unless_dash dates.date_of text.now ≡ Some end) }
    ensures whole { IfOk result (λ end. IfSome end (λ date. date.time.subsec_nanosecond ≡ 0)) }
    ensures err { IfErr result (λ cause.
        (cause ≡ Cause.Fields) × (spec.unless_dash dates.date_of text.now ≡ None)) }
{
    if text == "-" {
        return Ok(None);
    }
    match date_of(text) {
        Some(date) => Ok(Some(date)),
        None => Err(Cause::Fields),
    }
}

// A cookie that lives so long and ends then.
fn dated(
    name: Text,
    value: Text,
    max_age: Option<SignedDuration>,
    expires: Option<DateTime>,
) -> Cookie<'static>
    requires whole { IfSome expires (λ date. date.time.subsec_nanosecond ≡ 0) }
    ensures { result ≡ unsliced (spec.dated name value (option_map signed_nanos max_age) expires) }
{
    let mut cookie = Cookie::new_owned(name.into_string(), value.into_string());
    cookie.set_max_age(max_age);
    if let Some(date) = expires {
        cookie.set_expires(Expiration::DateTime(date));
    }
    cookie
}

fn read_remove(alloc: Global, fields: &[&str]) -> Result<Line, Cause>
    ensures { ReadsLine result (spec.read_remove (map (λ field. field.now) fields.now)) }
{
    let [way, name] = fields else {
        return Err(Cause::Fields);
    };
    let Some(way) = way_of(way) else {
        return Err(Cause::Fields);
    };
    Ok(Line::Remove {
        way,
        name: Text::from_str(alloc, name)?,
    })
}

fn read_get(alloc: Global, fields: &[&str]) -> Result<Line, Cause>
    ensures { ReadsLine result (spec.read_get (map (λ field. field.now) fields.now)) }
{
    let [way, name] = fields else {
        return Err(Cause::Fields);
    };
    let Some(way) = way_of(way) else {
        return Err(Cause::Fields);
    };
    Ok(Line::Get {
        way,
        name: Text::from_str(alloc, name)?,
    })
}

// The way of a word.
fn way_of(word: &str) -> Option<Way>
    ensures { result ≡ spec.way_of word.now }
{
    match word {
        "plain" => Some(Way::Plain),
        "host" => Some(Way::Host),
        "secure" => Some(Way::Secure),
        "signed" => Some(Way::Signed),
        "sealed" => Some(Way::Sealed),
        _ => None,
    }
}

fn read_set_until(alloc: Global, fields: &[&str]) -> Result<Line, Cause>
    ensures { ReadsLine result (spec.read_set_until (map (λ field. field.now) fields.now)) }
{
    let [way, name, value, until] = fields else {
        return Err(Cause::Fields);
    };
    let Some(way) = ending_way_of(way) else {
        return Err(Cause::Fields);
    };
    let Some(until) = date_of(until) else {
        return Err(Cause::Fields);
    };
    let name = Text::from_str(alloc, name)?;
    let value = Text::from_str(alloc, value)?;
    let cookie = dated(name, value, None, None);
    Ok(Line::SetUntil { way, cookie, until })
}

fn read_get_until(alloc: Global, fields: &[&str]) -> Result<Line, Cause>
    ensures { ReadsLine result (spec.read_get_until (map (λ field. field.now) fields.now)) }
{
    let [way, name] = fields else {
        return Err(Cause::Fields);
    };
    let Some(way) = ending_way_of(way) else {
        return Err(Cause::Fields);
    };
    Ok(Line::GetUntil {
        way,
        name: Text::from_str(alloc, name)?,
    })
}

// The way of a word, for a value that ends.
fn ending_way_of(word: &str) -> Option<EndingWay>
    ensures { result ≡ spec.ending_way_of word.now }
{
    match word {
        "signed" => Some(EndingWay::Signed),
        "sealed" => Some(EndingWay::Sealed),
        _ => None,
    }
}

fn read_deliver(fields: &[&str]) -> Result<Line, Cause>
    ensures { ReadsLine result (spec.read_deliver (map (λ field. field.now) fields.now)) }
{
    let [at] = fields else {
        return Err(Cause::Fields);
    };
    Ok(Line::Deliver(timed(at)?))
}

fn read_restart(fields: &[&str]) -> Result<Line, Cause>
    ensures { ReadsLine result (spec.read_restart (map (λ field. field.now) fields.now)) }
{
    let [at] = fields else {
        return Err(Cause::Fields);
    };
    Ok(Line::Restart(timed(at)?))
}

fn read_rotate(fields: &[&str]) -> Result<Line, Cause>
    ensures { ReadsLine result (spec.read_rotate (map (λ field. field.now) fields.now)) }
{
    let [seed, at, keep] = fields else {
        return Err(Cause::Fields);
    };
    let Some(seed) = seed_of(seed) else {
        return Err(Cause::Fields);
    };
    let keep_until = end_of(keep)?;
    let at = timed(at)?;
    Ok(Line::Rotate {
        key: Key::derive_from(&seed),
        at,
        keep_until,
    })
}

fn read_lose(fields: &[&str]) -> Result<Line, Cause>
    ensures { ReadsLine result (spec.read_lose (map (λ field. field.now) fields.now)) }
{
    if fields.is_empty() {
        Ok(Line::Lose)
    } else {
        Err(Cause::Fields)
    }
}

fn read_receive(alloc: Global, fields: &[Vec<u8>]) -> Result<Line, Cause>
    ensures { ReadsLine result (spec.read_receive (map (λ field. field.items) fields.now)) }
{
    match fields {
        [] => Err(Cause::Fields),
        [url] => {
            text_of(url)?;
            Err(Cause::Fields)
        }
        [url, at, lines @ ..] => {
            let url = text_of(url)?;
            let at = text_of(at)?;
            let url = url_of(alloc, url)?;
            let at = timed(at)?;
            let lines = copies_of(alloc, lines)?;
            Ok(Line::Receive { url, lines, at })
        }
    }
}

// Copies of an answer's lines.
fn copies_of(alloc: Global, lines: &[Vec<u8>]) -> Result<Vec<Vec<u8>>, Cause>
    ensures lines { IfOk result (λ copies.
        map (λ line. line.items) copies.items ≡ map (λ line. line.items) lines.now) }
    ensures err { IfErr result (λ cause. cause ≡ Cause.Memory) }
{
    let mut copies = Vec::new(alloc);
    for line in lines {
        copies.push(Vec::from_slice(alloc, line)?)?;
    }
    Ok(copies)
}

// The URL of a text. A text that is too long for the parser is want of memory.
#[tactic(auto, unfolding(cookie_client::specs::Hosts::url_of))]
fn url_of(alloc: Global, text: &str) -> Result<Url, Cause>
    ensures url { IfOk result (λ url. url_of text.now ≡ Some url) }
    ensures err { IfErr result (λ cause.
        ((cause ≡ Cause.Url) × (url_of text.now ≡ None)) ⊎ (cause ≡ Cause.Memory)) }
{
    match Url::parse(alloc, text) {
        Ok(url) => Ok(url),
        Err(ParseError::OutOfMemory | ParseError::Overflow) => Err(Cause::Memory),
        Err(_) => Err(Cause::Url),
    }
}

// The moment of a text.
fn timed(text: &str) -> Result<Moment, Cause>
    ensures at { IfOk result (λ at. dates.moment_of text.now ≡ Some (civil_nanos at.date)) }
    ensures date { IfOk result (λ at. dates.moment_date text.now ≡ Some at.date) }
    ensures err { IfErr result (λ cause. (cause ≡ Cause.Moment) × (dates.moment_of text.now ≡ None)) }
    ensures undated { OnErr result (dates.moment_date text.now ≡ None) }
{
    match timely(text) {
        Some(at) => Ok(at),
        None => Err(Cause::Moment),
    }
}
