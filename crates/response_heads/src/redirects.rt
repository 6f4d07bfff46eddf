//! Which URL answered each head.
ghost use Rattle.std.specs.Prelude.{◌≡◌, Ok, map, IfOk, IfErr, MatchOption, None, false};
ghost use Rattle.url.specs.Parts.{Parts};
ghost use Rattle.plain_url.specs.Plain.{IsPlainOf};
ghost use Rattle.response_heads.specs.Read.{field_text, head_text, is_interim, is_success, location_text};
ghost use Rattle.response_heads.specs.Visits as spec;

use crate::error::{LocationFault, ReadError, StopFault};
use crate::head::{Field, Found, Head, Location, heads, requires_proxy_authentication};
use plain_url::{is_plain_hop, is_plain_of};
use std::alloc::{AllocError, Global};
use url::{ParseError, Url};

/// A head, and the URL that answered it.
#[derive(Debug, Drop)]
pub struct Visit<'a> {
    /// The URL that answered.
    pub url: Url,
    /// What it answered.
    pub head: Head<'a>,
    /// Whether a proxy answered, and opened a tunnel to that URL (RFC 9110, section 9.3.6): a success that isn't the
    /// last head, or after which reading stopped, where the URL is one of `https`. After another success it is one
    /// only without `Content-Length` and `Transfer-Encoding`, since such an answer has no content.
    pub is_tunnel: bool,
}

impl<'a> Visit<'a> {
    /// Whether a proxy answered, and not the URL: it opened a tunnel, or wants to know who asks (407).
    pub fn is_proxys(&self) -> bool
        ensures { result ≡ spec.is_proxys (spec.visit_text self.now) }
    {
        self.is_tunnel || requires_proxy_authentication(self.head.status)
    }

    /// Whether another response follows (RFC 9110, section 15.2).
    pub fn is_interim(&self) -> bool
        ensures { result ≡ is_interim self.now.head.status }
    {
        self.head.status < 200
    }

    /// The `Set-Cookie` lines of the URL that answered, as [`Head::set_cookie_lines`] gives them. Where a proxy
    /// answered there are none, and none of an interim response (RFC 6265, section 3).
    ///
    /// # Errors
    ///
    /// `AllocError`, for want of memory.
    pub fn set_cookie_lines(&self, alloc: Global) -> Result<Vec<Vec<u8>>, AllocError>
        ensures { IfOk result (λ lines. map (λ line. line.items) lines.items
            ≡ spec.visit_lines (spec.visit_text self.now)) }
    {
        if self.is_proxys() || self.is_interim() {
            return Ok(Vec::new(alloc));
        }
        self.head.set_cookie_lines(alloc)
    }
}

/// Behind which line heads are left out: none can say which URL answered them.
#[derive(Clone, Copy, Debug, PartialEq, Eq)]
pub struct Lost {
    /// The number of the line, counted from 1: that of a `Location`, or one that some program may read as one.
    pub line: u128,
    /// Why it leads to no URL.
    pub fault: LocationFault,
}

/// The heads of a text, each with the URL that answered it.
#[derive(Debug, Drop)]
pub struct Visited<'a> {
    /// In their order.
    pub visits: Vec<Visit<'a>>,
    /// Behind which line of the last of these heads were left out, if they were.
    pub lost: Option<Lost>,
    /// Else from which line on they were, as [`Found::stop`] tells it.
    pub stop: Option<(usize, StopFault)>,
}

/// The heads of a text, each with the URL that answered it: the first is answered by the given one. Behind a
/// redirection the next is answered by the URL of its `Location`, which must be plain, or an absolute path that this
/// URL has as it stands, and after any other head by the same URL as that. Where a redirection has another `Location`,
/// or several, the heads after it are left out.
///
/// # Errors
///
/// `Line` of the first line and `Status` where this is no status line; `OutOfMemory`.
pub fn visits<'a>(alloc: Global, url: &Url, text: &'a [u8]) -> Result<Visited<'a>, ReadError>
    ensures ok { IfOk result (λ given. spec.GivesVisits url.now text.now (map spec.visit_text given.visits.items)
        given.lost given.stop) }
    ensures err { IfErr result (spec.IsVisitRefusal text.now) }
{
    let Found { heads, stop } = found(alloc, text)?;
    let (visits, lost) = walk(alloc, url, heads, stop)?;
    Ok(Visited {
        visits,
        lost,
        stop: stop_behind(lost, stop),
    })
}

/// The head of the answer of this URL, where it alone was asked and no `Location` was followed: the text's last, behind
/// interim responses, a proxy's answers, and those to earlier tries. Where reading stops there is none.
///
/// # Errors
///
/// As [`visits`].
pub fn answer<'a>(alloc: Global, url: &Url, text: &'a [u8]) -> Result<Visited<'a>, ReadError>
    ensures ok { IfOk result (λ given. (given.lost ≡ None)
        × spec.GivesAnswer url.now text.now (map spec.visit_text given.visits.items) given.stop) }
    ensures err { IfErr result (spec.IsVisitRefusal text.now) }
{
    let Found { heads, stop } = found(alloc, text)?;
    Ok(Visited {
        visits: last(alloc, url, heads, stop.is_some())?,
        lost: None,
        stop,
    })
}

// The visit of the last of some heads, or none where reading stopped behind them.
fn last<'a>(
    alloc: Global,
    url: &Url,
    mut heads: Vec<Head<'a>>,
    is_stopped: bool,
) -> Result<Vec<Visit<'a>>, AllocError>
    ensures { IfOk result (λ visits. map spec.visit_text visits.items
        ≡ spec.last_visits url.now (map head_text heads.entry.items) is_stopped) }
{
    let mut visits = Vec::new(alloc);
    if is_stopped {
        return Ok(visits);
    }
    let Some(head) = heads.pop() else {
        return Ok(visits);
    };
    let url = url.clone()?;
    visits.push(Visit {
        url,
        head,
        is_tunnel: false,
    })?;
    Ok(visits)
}

// The heads of a text whose first line is a status line.
fn found<'a>(alloc: Global, text: &'a [u8]) -> Result<Found<'a>, ReadError>
    ensures ok { IfOk result (λ found. spec.HasHeads text.now (map head_text found.heads.items) found.stop) }
    ensures err { IfErr result (spec.IsVisitRefusal text.now) }
{
    let found = heads(alloc, text)?;
    if has_begun(&found) {
        Ok(found)
    } else {
        Err(ReadError::Line(1, StopFault::Status))
    }
}

fn has_begun(found: &Found<'_>) -> bool
    ensures { result ≡ spec.has_begun (map head_text found.now.heads.items) found.now.stop }
{
    !found.heads.is_empty() || matches!(found.stop, Some((_, StopFault::Unended)))
}

// The visits of heads, the first of which this URL answered, and behind which reading stopped, if it did; and the line
// for which heads are left out.
fn walk<'a>(
    alloc: Global,
    url: &Url,
    heads: Vec<Head<'a>>,
    stop: Option<(usize, StopFault)>,
) -> Result<(Vec<Visit<'a>>, Option<Lost>), AllocError>
    ensures { IfOk result (λ given. spec.Walks (Ok url.now) false (map head_text heads.entry.items) stop
        (map spec.visit_text given.0.items) given.1) }
{
    let mut visits = Vec::new(alloc);
    let mut here = Ok(url.clone()?);
    let mut is_behind_success = false;
    let mut left = heads.len();
    for head in heads {
        left -= 1;
        let url = match here {
            Ok(url) => url,
            Err(by) => return Ok((visits, Some(by))),
        };
        here = leads_to(alloc, &url, &head)?;
        let is_tunnel = is_tunnel(&url, is_behind_success, &head, is_followed(left, stop));
        is_behind_success = is_success(head.status);
        visits.push(Visit {
            url,
            head,
            is_tunnel,
        })?;
    }
    Ok((visits, None))
}

// Where a head leads from the URL that answered it, or the line for which none can say.
fn leads_to(alloc: Global, url: &Url, head: &Head<'_>) -> Result<Result<Url, Lost>, AllocError>
    ensures { IfOk result (spec.LeadsTo url.now (head_text head.now)) }
{
    let locations = head.locations(alloc)?;
    match locations.as_slice() {
        [] => Ok(Ok(url.clone()?)),
        [one] => match plain_step(alloc, url, one.field.value)? {
            Some(next) => Ok(Ok(next)),
            None => Ok(Err(lost_by_one(one))),
        },
        [first, second, ..] => Ok(Err(lost_by_two(first, second))),
    }
}

// What is told of a line that leads nowhere plainly, where it alone may be a Location.
fn lost_by_one(one: &Location<'_>) -> Lost
    ensures { result ≡ record { line = one.now.line; fault = spec.fault_of_one (field_text one.now.field) } }
{
    let fault = if one.field.name.is_empty() {
        odd_fault(&one.field)
    } else if one.field.value.is_empty() {
        LocationFault::Empty
    } else {
        LocationFault::NotPlain
    };
    Lost {
        line: one.line,
        fault,
    }
}

// What is told of two lines, each of which may be a Location.
fn lost_by_two(first: &Location<'_>, second: &Location<'_>) -> Lost
    ensures { result ≡ spec.lost_by_two (location_text first.now) (location_text second.now) }
{
    if first.field.name.is_empty() {
        Lost {
            line: first.line,
            fault: odd_fault(&first.field),
        }
    } else {
        Lost {
            line: second.line,
            fault: fault_of_later(&second.field),
        }
    }
}

// What is wrong with the second of two lines, the first of which is a Location.
fn fault_of_later(field: &Field<'_>) -> LocationFault
    ensures { result ≡ spec.fault_of_later (field_text field.now) }
{
    if field.name.is_empty() {
        odd_fault(field)
    } else {
        LocationFault::Several
    }
}

// What is wrong with a line that is no field line.
fn odd_fault(field: &Field<'_>) -> LocationFault
    ensures { result ≡ spec.odd_fault (field_text field.now) }
{
    if field.is_fold() {
        LocationFault::Folded
    } else {
        LocationFault::NoField
    }
}

// The URL to which a Location leads, if it is plain.
fn plain_step(alloc: Global, url: &Url, text: &[u8]) -> Result<Option<Url>, AllocError>
    ensures { IfOk result (λ found. MatchOption found ((next : Parts) → ¬ (spec.LeadsPlainly url.now text.now next))
        (spec.LeadsPlainly url.now text.now)) }
{
    let Ok(text) = str::from_utf8(text) else {
        return Ok(None);
    };
    if let Some(next) = plain(alloc, text)? {
        return Ok(Some(next));
    }
    match url.join(text) {
        Ok(next) => Ok(if is_plain_hop(url, &next, text) {
            Some(next)
        } else {
            None
        }),
        Err(ParseError::OutOfMemory | ParseError::Overflow) => Err(AllocError),
        Err(_) => Ok(None),
    }
}

// The URL of which this is the plain text.
fn plain(alloc: Global, text: &str) -> Result<Option<Url>, AllocError>
    ensures { IfOk result (λ found. MatchOption found ((url : Parts) → ¬ (IsPlainOf text.now url))
        (IsPlainOf text.now)) }
{
    match Url::parse(alloc, text) {
        Ok(url) => Ok(if is_plain_of(&url, text) {
            Some(url)
        } else {
            None
        }),
        Err(ParseError::OutOfMemory | ParseError::Overflow) => Err(AllocError),
        Err(_) => Ok(None),
    }
}

// Whether another head follows one behind which so many are left, or a line that may be one's.
fn is_followed(left: usize, stop: Option<(usize, StopFault)>) -> bool
    ensures { result ≡ spec.is_followed left stop }
{
    left > 0 || stop.is_some()
}

// Where reading stopped, if no head was left out before that.
fn stop_behind(lost: Option<Lost>, stop: Option<(usize, StopFault)>) -> Option<(usize, StopFault)>
    ensures { result ≡ spec.stop_behind lost stop }
{
    if lost.is_some() { None } else { stop }
}

// Whether a head is that of a proxy's answer to CONNECT.
fn is_tunnel(url: &Url, is_behind_success: bool, head: &Head<'_>, is_followed: bool) -> bool
    ensures { result ≡ spec.is_tunnel url.now is_behind_success (head_text head.now) is_followed }
{
    is_success(head.status)
        && !(is_behind_success && head.announces_content())
        && url.scheme() == "https"
        && is_followed
}

fn is_success(status: u16) -> bool
    ensures { result ≡ is_success status }
{
    200 <= status && status < 300
}
