//! What an answer may set, by what started its request (the draft that follows RFC 6265, version 15, section 5.7).
ghost use Rattle.std.specs.Prelude.{◌≡◌, ◌↔◌, IfErr, IfOk, IsTrue, map};
ghost use Rattle.jiff.specs.Words.{civil_nanos};
ghost use Rattle.user_agent.specs.CrossAnswers as spec;
ghost use Rattle.user_agent.specs.SecurePlaces.{ArePlacesOf};

use crate::rules::{Outcome, Rules};
use crate::secure_places::SecurePlaces;
use crate::sites::{Initiator, is_cross_site};
use crate::taking::take;
use cookie::{Cookie as RawCookie, SameSite};
use cookie_client::{Client, Stopped};
use cookie_store::CookieStore;
use jiff::civil::DateTime;
use url::Url;

/// Why an answer may not set a cookie, by the cookie's `SameSite`.
#[derive(Clone, Copy, Debug, PartialEq, Eq)]
pub enum SiteRefusal {
    /// The request is cross-site and doesn't navigate the top level, and the cookie is `Strict` or `Lax`, or where the
    /// rule `lax_by_default` is on without the attribute.
    CrossSite,
    /// The cookie has `SameSite=None` and isn't `Secure`. Its rule is [`Rules::none_needs_secure`].
    NoneLacksSecure,
}

/// What became of a line of an answer to a request, where it is said what started that.
#[derive(Clone, Copy, Debug, PartialEq, Eq)]
pub enum OutcomeFor {
    /// The answer may set the cookie by its `SameSite`, and the rules judged the line so.
    Judged(Outcome),
    /// It may not, and nothing changed: a cookie that it would replace stays.
    KeptOut(SiteRefusal),
}

/// Takes the `Set-Cookie` lines of an answer at `now` to a request to this URL that was started so into a client behind
/// these rules, as [`crate::UserAgent::receive_for`] does: for a client whose rules another keeps.
///
/// # Errors
///
/// Those of [`crate::UserAgent::receive`].
pub fn receive_for(
    client: &mut Client,
    rules: &Rules,
    url: &Url,
    initiator: &Initiator<'_>,
    lines: &[&[u8]],
    now: DateTime,
) -> Result<Vec<OutcomeFor>, Stopped>
    ensures all { IfOk result (λ outcomes. spec.ReceivesFor rules.now client.old.suffixes client.old.rows url.now
        initiator.now (civil_nanos now) (map (λ line. line.now) lines.now) outcomes.items client.new.rows) }
    ensures stopped { IfErr result (λ stopped. spec.IsStoppedFor rules.now client.old.suffixes client.old.rows url.now
        initiator.now (civil_nanos now) (map (λ line. line.now) lines.now) stopped.0 client.new.rows) }
    ensures list { client.new.suffixes ≡ client.old.suffixes }
{
    let across = comes_across(client.store(), url, initiator);
    receive_from(client, rules, across, url, lines, now)
}

/// Whether an answer to the request comes across sites: that is cross-site, and doesn't navigate the top level.
pub fn comes_across(store: &CookieStore, url: &Url, initiator: &Initiator<'_>) -> bool
    ensures { IsTrue result ↔ spec.ComesAcross store.now.suffixes url.now initiator.now }
{
    is_cross_site(store, url, initiator) && !initiator.is_navigation
}

// Takes the lines of an answer that comes across sites, or doesn't.
fn receive_from(
    client: &mut Client,
    rules: &Rules,
    across: bool,
    url: &Url,
    lines: &[&[u8]],
    now: DateTime,
) -> Result<Vec<OutcomeFor>, Stopped>
    ensures all { IfOk result (λ outcomes. spec.TakesLinesFrom rules.now across client.old.suffixes client.old.rows
        url.now (civil_nanos now) (map (λ line. line.now) lines.now) outcomes.items client.new.rows) }
    ensures stopped { IfErr result (λ stopped. spec.IsStoppedFrom rules.now across client.old.suffixes client.old.rows
        url.now (civil_nanos now) (map (λ line. line.now) lines.now) stopped.0 client.new.rows) }
    ensures list { client.new.suffixes ≡ client.old.suffixes }
{
    let (alloc, store) = (client.alloc(), client.store());
    let Ok(secure) = SecurePlaces::of(alloc, store, rules, url, lines.len(), now) else {
        return Err(Stopped(0));
    };
    receive_beside(client, rules, across, &secure, url, lines, now)
}

// The same where the Secure rows stand at these places.
fn receive_beside(
    client: &mut Client,
    rules: &Rules,
    across: bool,
    secure: &SecurePlaces,
    url: &Url,
    lines: &[&[u8]],
    now: DateTime,
) -> Result<Vec<OutcomeFor>, Stopped>
    requires { ArePlacesOf secure.now rules.now url.now (civil_nanos now) client.old.rows }
    ensures all { IfOk result (λ outcomes. spec.TakesLinesFrom rules.now across client.old.suffixes client.old.rows
        url.now (civil_nanos now) (map (λ line. line.now) lines.now) outcomes.items client.new.rows) }
    ensures stopped { IfErr result (λ stopped. spec.IsStoppedFrom rules.now across client.old.suffixes client.old.rows
        url.now (civil_nanos now) (map (λ line. line.now) lines.now) stopped.0 client.new.rows) }
    ensures list { client.new.suffixes ≡ client.old.suffixes }
{
    let Ok(mut outcomes) = Vec::with_capacity(client.alloc(), lines.len()) else {
        return Err(Stopped(0));
    };
    for (i, line) in lines.iter().enumerate() {
        match take(client, rules, across, secure, url, line, now) {
            // There is room for one outcome a line, so this push is not refused.
            Ok((outcome, _)) => match outcomes.push(outcome) {
                Ok(()) => {}
                Err(_) => return Err(Stopped(0)),
            },
            Err(_) => return Err(Stopped(i + 1)),
        }
    }
    Ok(outcomes)
}

// Why the answer may not set the cookie, if so.
pub(crate) fn site_refusal(
    rules: &Rules,
    across: bool,
    cookie: &RawCookie<'_>,
) -> Option<SiteRefusal>
    ensures { result ≡ spec.site_refusal rules.now across cookie.now.cookie }
{
    if across && is_bound(rules.lax_by_default, cookie.same_site()) {
        Some(SiteRefusal::CrossSite)
    } else if rules.none_needs_secure && is_unrestricted_without_secure(cookie) {
        Some(SiteRefusal::NoneLacksSecure)
    } else {
        None
    }
}

// Whether a cookie of this SameSite is bound to its site.
fn is_bound(by_default: bool, same_site: Option<SameSite>) -> bool
    ensures { result ≡ spec.is_bound by_default same_site }
{
    match same_site {
        Some(SameSite::Strict | SameSite::Lax) => true,
        Some(SameSite::None) => false,
        None => by_default,
    }
}

// Whether the cookie has `SameSite=None` and isn't Secure.
fn is_unrestricted_without_secure(cookie: &RawCookie<'_>) -> bool
    ensures { result ≡ spec.is_unrestricted_without_secure cookie.now.cookie }
{
    matches!(cookie.same_site(), Some(SameSite::None)) && !cookie.secure().unwrap_or(false)
}

/// Whatever started a request, the rows are those after [`crate::UserAgent::receive`] took the lines of its answer that
/// aren't kept out, in their order. So what is proved of that holds here.
///
/// Where the request isn't cross-site, or navigates the top level, and the rule `none_needs_secure` is off, these are
/// all lines; and what `receive` does is what is done for such a request.
pub fn judged_lines_are_received()
    ensures judged { spec.JudgedLinesAreReceived }
    ensures own { spec.OwnAnswersAreReceived }
    ensures received { spec.ReceivedLinesAreOwn }
{}

/// Whatever lines come across sites, but for navigations of the top level: each row after them that is `Strict` or
/// `Lax` was there before, or was there and was ended; with `lax_by_default` on, so each without the attribute. Where
/// `none_needs_secure` is on, so each row of `SameSite=None` that isn't `Secure`, after any lines.
pub fn no_bound_row_comes()
    ensures bound { spec.NoBoundRowComes }
    ensures unrestricted { spec.UnrestrictedRowsAreSecure }
{}
