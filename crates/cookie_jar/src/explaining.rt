//! What a `Set-Cookie` line at a URL means.
ghost use Rattle.std.specs.Prelude.{IfOk};
ghost use Rattle.cookie_jar.specs.Terminal.{ArePlain, ShowsNoControl};

use crate::changing::push_changes;
use crate::expiry::push_until;
use crate::form::Form;
use crate::report::{push_pair, push_pieces};
use crate::taking::{End, take_line};
use crate::terminal::Shown;
use crate::told::end_text;
use cookie_client::{Client, LineEnd};
use cookie_store::{Cookie, CookieDomain, CookieError, CookieStore, StoreAction};
use jiff::civil::DateTime;
use std::alloc::{AllocError, Global};
use url::Url;
use user_agent::{Outcome, Refusal, Rules, SecurePlaces, SiteRefusal};

/// Which rules change the line, what it says then, what would become of it at `now` in a jar of this form with this
/// client behind these rules and by which rule, and which requests would get it.
///
/// # Errors
///
/// `AllocError`, for want of memory.
pub(crate) fn explain_line(
    client: &Client,
    form: Form,
    rules: &Rules,
    url: &Url,
    line: &[u8],
    now: DateTime,
) -> Result<Shown, AllocError>
    ensures { IfOk result ShowsNoControl }
{
    let alloc = client.alloc();
    let mut told = Shown::new(alloc);
    let handed = push_said(alloc, &mut told, rules, line, now)?;
    let mut rows = Client::of(alloc, client.store().clone()?);
    let secure = SecurePlaces::none();
    let end = take_line(&mut rows, form, rules, false, &secure, url, line, now)?;
    told.words(end_text(end))?;
    told.words(rule_text(end))?;
    push_sent(
        alloc,
        &mut told,
        rows.store(),
        url,
        handed.as_deref(),
        end,
        now,
    )?;
    Ok(told.finish())
}

// What the line says, where it is a text, and that as the rules hand it on.
fn push_said(
    alloc: Global,
    text: &mut Shown,
    rules: &Rules,
    line: &[u8],
    now: DateTime,
) -> Result<Option<String>, AllocError> {
    let Ok(line) = str::from_utf8(line) else {
        return Ok(None);
    };
    let handed = push_changes(alloc, text, rules, line, now)?;
    push_pair(text, handed.as_str())?;
    push_pieces(alloc, text, handed.as_str())?;
    Ok(Some(handed))
}

// By which rule a line has this end.
fn rule_text(end: End) -> &'static str
    ensures { ArePlain result.now }
{
    match end {
        End::Line(outcome, _) => outcome_rule(outcome),
        End::KeptOut(cause) => site_rule(cause),
        End::Control => " (draft-ietf-httpbis-rfc6265bis, section 5.6, step 1)\n",
        End::Tab => " (a rule of this jar: cookies.txt parts its fields by tabs)\n",
    }
}

fn outcome_rule(outcome: Outcome) -> &'static str
    ensures { ArePlain result.now }
{
    match outcome {
        Outcome::Taken(end) => line_end_rule(end),
        Outcome::Refused(rule) => refusal_rule(rule),
    }
}

fn site_rule(cause: SiteRefusal) -> &'static str
    ensures { ArePlain result.now }
{
    match cause {
        SiteRefusal::CrossSite => " (draft-ietf-httpbis-rfc6265bis, section 5.7, step 18)\n",
        SiteRefusal::NoneLacksSecure => " (draft-ietf-httpbis-rfc6265bis, section 5.7, step 19)\n",
    }
}

fn refusal_rule(rule: Refusal) -> &'static str
    ensures { ArePlain result.now }
{
    match rule {
        Refusal::Control => " (draft-ietf-httpbis-rfc6265bis, section 5.6, step 1)\n",
        Refusal::TooLong => " (draft-ietf-httpbis-rfc6265bis, section 5.6, step 5)\n",
        Refusal::SecurePrefix => {
            " (draft-ietf-httpbis-rfc6265bis, sections 4.1.3.1 and 5.7, step 20)\n"
        }
        Refusal::HostPrefix => {
            " (draft-ietf-httpbis-rfc6265bis, sections 4.1.3.2 and 5.7, step 21)\n"
        }
        Refusal::SecureFromHttp => " (draft-ietf-httpbis-rfc6265bis, section 5.7, step 13)\n",
        Refusal::SecureOverlay => " (draft-ietf-httpbis-rfc6265bis, section 5.7, step 16)\n",
        Refusal::LacksSecure => " (a rule of the crate user_agent: secure_wins)\n",
    }
}

fn line_end_rule(end: LineEnd) -> &'static str
    ensures { ArePlain result.now }
{
    match end {
        LineEnd::Stored(action) => action_rule(action),
        LineEnd::Refused(cause) => cause_rule(cause),
        LineEnd::NotText => " (a rule of this jar: a line is UTF-8)\n",
        LineEnd::HostPrefix => " (draft-ietf-httpbis-rfc6265bis, section 4.1.3.2)\n",
    }
}

fn action_rule(action: StoreAction) -> &'static str
    ensures { ArePlain result.now }
{
    match action {
        StoreAction::Inserted => " (RFC 6265, section 5.3, step 12)\n",
        StoreAction::UpdatedExisting => " (RFC 6265, section 5.3, steps 11 and 12)\n",
        StoreAction::ExpiredExisting => {
            " (RFC 6265, section 5.3, steps 11 and 12, and behind them: it is expired)\n"
        }
    }
}

fn cause_rule(cause: CookieError) -> &'static str
    ensures { ArePlain result.now }
{
    match cause {
        CookieError::NonHttpScheme => " (RFC 6265, section 5.3, steps 10 and 11)\n",
        CookieError::NonRelativeScheme => " (RFC 6265, section 5.1.2, and section 5.3, step 6)\n",
        CookieError::DomainMismatch => " (RFC 6265, section 5.3, step 6)\n",
        CookieError::Expired => " (RFC 6265, section 5.3, behind step 12)\n",
        CookieError::Parse => " (RFC 6265, section 5.2, and section 5.1.2 of a Domain)\n",
        CookieError::PublicSuffix => " (RFC 6265, section 5.3, step 5)\n",
        CookieError::UnspecifiedDomain | CookieError::OutOfMemory => "\n",
    }
}

// Which requests get the row of a line that was put among the rows. Such a line is a text.
fn push_sent(
    alloc: Global,
    text: &mut Shown,
    store: &CookieStore,
    url: &Url,
    line: Option<&str>,
    end: End,
    now: DateTime,
) -> Result<(), AllocError> {
    let End::Line(
        Outcome::Taken(LineEnd::Stored(StoreAction::Inserted | StoreAction::UpdatedExisting)),
        _,
    ) = end
    else {
        return Ok(());
    };
    let Some(line) = line else {
        return Ok(());
    };
    let Ok(made) = Cookie::parse(alloc, line, url, now) else {
        return Err(AllocError);
    };
    match sought(store, &made) {
        Some(row) => push_requests(alloc, text, row, now),
        None => Ok(()),
    }
}

// The row with the domain, the path and the name of the cookie.
fn sought<'s>(store: &'s CookieStore, made: &Cookie<'_>) -> Option<&'s Cookie<'static>> {
    let domain = made.domain.as_cow().unwrap_or("");
    store.get_any(domain, made.path.as_str(), made.raw().name())
}

// The hosts, the paths, the schemes and the end of a row.
fn push_requests(
    alloc: Global,
    text: &mut Shown,
    row: &Cookie<'static>,
    now: DateTime,
) -> Result<(), AllocError> {
    text.words("host: ")?;
    text.bytes(row.domain.as_cow().unwrap_or("").as_bytes())?;
    text.words(hosts_text(&row.domain))?;
    text.words("path: ")?;
    text.bytes(row.path.as_str().as_bytes())?;
    text.words(path_text(row.path.is_from_path_attr()))?;
    push_flags(text, row)?;
    push_until(alloc, text, row.expires, now)
}

fn push_flags(text: &mut Shown, row: &Cookie<'static>) -> Result<(), AllocError> {
    if row.raw().secure().unwrap_or(false) {
        text.words("Secure: by https alone, or to this computer\n")?;
    }
    if row.raw().http_only().unwrap_or(false) {
        text.words("HttpOnly: by http and https alone\n")?;
    }
    Ok(())
}

fn hosts_text(domain: &CookieDomain) -> &'static str
    ensures { ArePlain result.now }
{
    match domain {
        CookieDomain::Suffix(_) => " and the hosts below it\n",
        _ => " alone\n",
    }
}

fn path_text(from_attribute: bool) -> &'static str
    ensures { ArePlain result.now }
{
    if from_attribute {
        " and below\n"
    } else {
        " and below, the default-path (RFC 6265, section 5.1.4)\n"
    }
}
