//! The cookies of a request that a page of another site starts (the draft that follows RFC 6265, version 15, section
//! 5.8.3).
ghost use Rattle.std.specs.Prelude.{◌≡◌, IfOk, map, string_bytes};
ghost use Rattle.jiff.specs.Words.{civil_nanos};
ghost use Rattle.cookie_store.specs.Given.{lent_row};
ghost use Rattle.cookie_store.specs.Longest.{AreGivenLongest};
ghost use Rattle.user_agent.specs.CrossSite as spec;
ghost use Rattle.user_agent.specs.Headers.{IsHeaderBehind};
ghost use Rattle.user_agent.specs.StrictRuns.{SessionsSetStrictly, StrictNamesAreReadAtHome};

use crate::UserAgent;
use crate::headers::{header_at, header_text};
use crate::rules::Rules;
use crate::sites::{Initiator, is_cross_site, is_safe_navigation};
use cookie::SameSite;
use cookie_client::Client;
use cookie_store::{Cookie, CookieStore};
use jiff::civil::DateTime;
use std::alloc::{AllocError, Global};
use url::Url;

impl UserAgent {
    /// The `Cookie` header of a request to this URL at `now` that is started so. It is [`UserAgent::header`] where the
    /// user starts it, or a page of the same site.
    ///
    /// To a page of another site it leaves out the cookies whose `SameSite` is `Strict`, and those whose is `Lax` but
    /// for a safe navigation of the top level; so those without the attribute where the rule `lax_by_default` is on.
    ///
    /// # Errors
    ///
    /// Those of [`UserAgent::header`].
    pub fn header_for(
        &self,
        url: &Url,
        initiator: &Initiator<'_>,
        now: DateTime,
    ) -> Result<String, AllocError>
        ensures { IfOk result (λ header. spec.IsHeaderFor self.now.rules self.now.store.suffixes self.now.store.rows
            url.now initiator.now (civil_nanos now) (string_bytes header)) }
    {
        header_for(self.client(), &self.rules(), url, initiator, now)
    }
}

/// The `Cookie` header of a request that is started so from a client behind these rules, as [`UserAgent::header_for`]
/// gives it: for a client whose rules another keeps. It is the one way to a header behind rules.
///
/// # Errors
///
/// Those of [`UserAgent::header`].
pub fn header_for(
    client: &Client,
    rules: &Rules,
    url: &Url,
    initiator: &Initiator<'_>,
    now: DateTime,
) -> Result<String, AllocError>
    ensures { IfOk result (λ header. spec.IsHeaderFor rules.now client.now.suffixes client.now.rows url.now
        initiator.now (civil_nanos now) (string_bytes header)) }
{
    let (alloc, store) = (client.alloc(), client.store());
    if is_cross_site(store, url, initiator) {
        header_across(alloc, store, rules, url, initiator, now)
    } else {
        header_at(alloc, store, rules, url, now)
    }
}

// The header of a cross-site request.
fn header_across(
    alloc: Global,
    store: &CookieStore,
    rules: &Rules,
    url: &Url,
    initiator: &Initiator<'_>,
    now: DateTime,
) -> Result<String, AllocError>
    ensures { IfOk result (λ header. IsHeaderBehind rules.now
        (spec.sent_across rules.now.lax_by_default initiator.now store.now.rows) url.now (civil_nanos now)
        (string_bytes header)) }
{
    // A URL that was parsed is valid, whatever is done with it.
    let _path = url.path();
    let given = given_across(alloc, store, rules, url, initiator, now)?;
    header_text(alloc, rules, given)
}

// The cookies that a cross-site request is given, longer paths first.
fn given_across<'c>(
    alloc: Global,
    store: &'c CookieStore,
    rules: &Rules,
    url: &Url,
    initiator: &Initiator<'_>,
    now: DateTime,
) -> Result<Vec<&'c Cookie<'static>>, AllocError>
    ensures { IfOk result (λ given. AreGivenLongest
        (spec.sent_across rules.now.lax_by_default initiator.now store.now.rows) url.now (civil_nanos now)
        (map lent_row given.items)) }
{
    let given = store.matches_longest(url, now)?;
    let is_let = is_safe_navigation(initiator);
    sent(alloc, rules.lax_by_default, is_let, given)
}

// The cookies that a cross-site request may carry, in their order.
fn sent<'c>(
    alloc: Global,
    by_default: bool,
    is_let: bool,
    cookies: Vec<&'c Cookie<'static>>,
) -> Result<Vec<&'c Cookie<'static>>, AllocError>
    ensures { IfOk result (λ left. map lent_row left.items
        ≡ spec.sent_rows by_default is_let (map lent_row cookies.entry.items)) }
{
    let mut left = Vec::new(alloc);
    for cookie in cookies {
        if !is_held_back(by_default, is_let, cookie.raw().same_site()) {
            left.push(cookie)?;
        }
    }
    Ok(left)
}

// Whether a cross-site request doesn't carry a cookie of this SameSite.
fn is_held_back(by_default: bool, is_let: bool, same_site: Option<SameSite>) -> bool
    ensures { result ≡ spec.is_held_back by_default is_let same_site }
{
    match same_site {
        Some(SameSite::Strict) => true,
        Some(SameSite::Lax) => !is_let,
        Some(SameSite::None) => false,
        None => by_default && !is_let,
    }
}

/// A request has one header: of one store, URL and moment, behind the same rules and started so, it is one text at
/// most. So a header that is what it would be otherwise is so byte for byte.
pub fn one_header()
    ensures started { spec.OneHeader }
    ensures behind { spec.OneHeaderBehind }
{
    cookie_store::laws();
}

/// The header of a cross-site request is byte for byte what it would be, had the user agent no `Strict` row, whatever
/// came from anyone; and where the request is no safe navigation of the top level, no `Lax` row either. A request that
/// the user starts has the header of [`UserAgent::header`].
pub fn no_strict_cookie_crosses()
    ensures strict { spec.NoStrictCrosses }
    ensures lax { spec.NoLaxCrosses }
    ensures own { spec.OwnRequestsStay }
{}

/// Each cookie that a session reads of the header of a cross-site request is of a row that such a request carries, so
/// of none that is `Strict`: where all rows of a name are, it reads nothing under that name.
pub fn carried_cookies_are_read()
    ensures { spec.CarriedCookiesAreRead }
{}

/// The law on the server's side. Whatever came to a user agent that began without a row, whatever started its requests,
/// with restarts between: where a session on the header of a request to a host at https reads a value by the way
/// `Host` under a name that this host's answers at https set `Strict` each time, no page of another site started that
/// request. Removals count for nothing, and other answers may be anyone's.
///
/// The lines with which a session closes from an https URL are such, where the cookie of the name in its delta, if
/// there is one, is within the bounds of [`crate::laws::sessions_pass`], and is `Strict` or removes. Of its other
/// cookies nothing is asked.
pub fn strict_names_are_read_at_home()
    ensures read { StrictNamesAreReadAtHome }
    ensures sessions { SessionsSetStrictly }
{}
