//! What a call is given: texts, a moment, a URL, a list, lines.
ghost use Rattle.std.specs.Prelude.{◌≡◌, ◌≢◌, ◌↔◌, ◌⊎◌, ◌∷◌, [], map, IfOk, IfErr, IsTrue, Some, None, false};
ghost use Rattle.std.specs.List.{list_any, slice_split};
ghost use Rattle.jiff.specs.Words.{civil_nanos};
ghost use Rattle.cookie_text.specs.Printing.{whole_seconds};
ghost use Rattle.store_parts.specs.Expiry.{epoch};
ghost use Rattle.cookie_client.specs.Hosts.{url_of};
ghost use Rattle.fonnalich_c.specs.Given as spec;

use crate::refusal::Refusal;
use jiff::SignedDuration;
use jiff::civil::{DateTime, datetime};
use publicsuffix::{List, ListError};
use std::alloc::{AllocError, Global};
use std::marker::Model;
use url::{ParseError, Url};

/// What a call by a handle is given.
#[derive(Drop)]
pub struct Given<'t> {
    /// A second since 1970, or the flags of rules.
    pub number: i64,
    /// A URL, a saved text or a host.
    pub subject: &'t [u8],
    /// The URL of the page that starts a request, as [`user_agent::Initiator`] has it.
    pub page: &'t [u8],
    /// Lines or a suffix list.
    pub text: &'t [u8],
}

impl<'t> Model for Given<'t> {
    ghost use Rattle.fonnalich_c.specs.Tasks.{Given};

    ghost Value = { Given };

    ghost view = { λ g. record {
      number = g.number;
      subject = g.subject.now;
      page = g.page.now;
      text = g.text.now;
    } };
}

/// The moment of this many seconds since 1970-01-01T00:00:00, read as UTC.
pub fn moment(second: i64) -> Result<DateTime, Refusal>
    ensures ok { IfOk result (λ at. civil_nanos at ≡ spec.nanos_of second) }
    ensures err { IfErr result (λ refusal. (refusal ≡ Refusal.Moment) × spec.IsNoMoment second) }
{
    match epoch().checked_add(SignedDuration::from_secs(second)) {
        Ok(at) => Ok(at),
        Err(_) => Err(Refusal::Moment),
    }
}

/// The whole seconds from 1970-01-01T00:00:00 to a moment.
pub fn second_of(at: DateTime) -> i64
    ensures { result ≡ whole_seconds (civil_nanos at) }
{
    at.duration_since(epoch()).as_secs()
}

fn epoch() -> DateTime
    ensures { civil_nanos result ≡ epoch }
{
    datetime(1970, 1, 1, 0, 0, 0, 0)
}

/// The URL of a text.
pub fn url(alloc: Global, text: &[u8]) -> Result<Url, Refusal>
    ensures ok { IfOk result (spec.IsUrl text.now) }
    ensures err { IfErr result (λ refusal.
        (refusal ≡ Refusal.Memory) ⊎ ((refusal ≡ Refusal.Url) × spec.IsNoUrl text.now)) }
{
    match str::from_utf8(text) {
        Ok(text) => url_of(alloc, text),
        Err(_) => Err(Refusal::Url),
    }
}

// The URL of a text. A text that is too long for the parser is want of memory.
#[tactic(auto, unfolding(cookie_client::specs::Hosts::url_of))]
fn url_of(alloc: Global, text: &str) -> Result<Url, Refusal>
    ensures ok { IfOk result (λ url. url_of text.now ≡ Some url) }
    ensures err { IfErr result (λ refusal.
        ((refusal ≡ Refusal.Url) × (url_of text.now ≡ None)) ⊎ (refusal ≡ Refusal.Memory)) }
{
    match Url::parse(alloc, text) {
        Ok(url) => Ok(url),
        Err(ParseError::OutOfMemory | ParseError::Overflow) => Err(Refusal::Memory),
        Err(_) => Err(Refusal::Url),
    }
}

/// The public suffix list of a text, which has a rule, the first of host names.
pub fn list(alloc: Global, text: &[u8]) -> Result<List, Refusal>
    ensures ok { IfOk result (spec.IsListOf text.now) }
    ensures err { IfErr result (spec.IsNoListOf text.now) }
{
    match List::parse_hosts(alloc, text) {
        Ok(list) => with_rule(list),
        Err(cause) => Err(unlisted(cause)),
    }
}

// The list, if it has a rule.
fn with_rule(list: List) -> Result<List, Refusal>
    ensures ok { IfOk result (λ given. (given ≡ list) × (given ≢ [])) }
    ensures err { IfErr result (λ refused. (refused ≡ Refusal.NoRule) × (list ≡ [])) }
{
    if list.has_rule() {
        Ok(list)
    } else {
        Err(Refusal::NoRule)
    }
}

// What a refusal to parse a list is told as.
fn unlisted(cause: ListError) -> Refusal
    ensures { spec.IsListToldAs cause result }
{
    match cause {
        ListError::OutOfMemory => Refusal::Memory,
        _ => Refusal::List,
    }
}

/// The lines of a text: those between its line feeds, and none where it is empty.
pub fn lines(alloc: Global, text: &[u8]) -> Result<Vec<&[u8]>, AllocError>
    ensures { IfOk result (λ lines. map (λ line. line.now) lines.items ≡ spec.lines_of text.now) }
{
    if text.is_empty() {
        return Ok(Vec::new(alloc));
    }
    parts(alloc, text)
}

// What stands between the line feeds.
fn parts(alloc: Global, text: &[u8]) -> Result<Vec<&[u8]>, AllocError>
    ensures { IfOk result (λ parts. map (λ part. part.now) parts.items ≡ slice_split spec.is_line_feed text.now) }
{
    if is_one_part(text) {
        return single(alloc, text);
    }
    text.split(|b| *b == b'\n').collect(alloc)
}

/// Whether a text is a line by itself: it has a byte, and none that is a line feed.
pub fn is_one_line(text: &[u8]) -> bool
    ensures value { IsTrue result ↔ ((text.now ≢ []) × (list_any spec.is_line_feed text.now ≡ false)) }
    ensures line { IsTrue result → spec.lines_of text.now ≡ text.now ∷ [] }
{
    !text.is_empty() && is_one_part(text)
}

// Whether a text is all that stands between its line feeds: it has none.
fn is_one_part(text: &[u8]) -> bool
    ensures value { IsTrue result ↔ (list_any spec.is_line_feed text.now ≡ false) }
    ensures part { IsTrue result → slice_split spec.is_line_feed text.now ≡ text.now ∷ [] }
{
    !text.contains(&b'\n')
}

// A text by itself.
fn single(alloc: Global, text: &[u8]) -> Result<Vec<&[u8]>, AllocError>
    ensures { IfOk result (λ parts. map (λ part. part.now) parts.items ≡ text.now ∷ []) }
{
    let mut parts = Vec::with_capacity(alloc, 1)?;
    parts.push_reserved(text);
    Ok(parts)
}
