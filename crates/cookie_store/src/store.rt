//! A store of cookies (RFC 6265, sections 5.3 and 5.4).

ghost use Rattle.std.specs.Prelude.{◌≡◌, ◌↔◌, ◌&&◌, ◌+◌, ◌<◌, ◌≤◌, [], length, map, is_some, unwrap_or, IsTrue, IfOk};
ghost use Rattle.std.specs.Prelude.{MatchOption, OnOk, OnErr, option_copied, option_map};
ghost use Rattle.std.specs.Iterator.{at_most, IsFinite};
ghost use Rattle.std.specs.List.{list_any};
ghost use Rattle.std.specs.Map.Iter.{TakesFirst};
ghost use Rattle.cookie_text.specs.Printing.{is_set};
ghost use Rattle.jiff.specs.Words.{civil_nanos};
ghost use Rattle.store_parts.specs.DomainMatch.{domain_of, host_only, text_of, IsListedIn};
ghost use Rattle.cookie_store.specs.Asking.{looks_at_url};
ghost use Rattle.cookie_store.specs.Given.{AreGiven, ShowsGiven, pair_of, received_of, lent_row};
ghost use Rattle.cookie_store.specs.Grouped.{AreGrouped, PartsStay};
ghost use Rattle.cookie_store.specs.Insertion as insertion;
ghost use Rattle.cookie_store.specs.Laws as law;
ghost use Rattle.cookie_store.specs.Longest.{AreGivenLongest};
ghost use Rattle.cookie_store.specs.Making.{IsBarred};
ghost use Rattle.cookie_store.specs.Rows as spec;
ghost use Rattle.cookie_store.specs.Steps.{InsertsOwned, Passes, MeetsWant, buried, host_alone};
ghost use Rattle.cookie_store.specs.StoredCookie.{stored_of};

use crate::action::{InsertResult, StoreAction};
use crate::longest::put_longest_first;
use crate::requests::{RequestCookies, RequestValues};
use crate::rows::{IterAny, Rows, domain_text};
use crate::stored_cookie::Cookie;
use crate::unexpired::IterUnexpired;
use cookie::Cookie as RawCookie;
use jiff::civil::DateTime;
use place_index::Looks;
use publicsuffix::List;
use std::alloc::{AllocError, Global};
use std::marker::{Brand, Model};
use std::sync::ledger::{Blank, Ledger};
use store_parts::utils::is_http_scheme;
use store_parts::{CookieDomain, CookieError};
use url::Url;

/// A store of cookies. A row is a cookie under the text of its domain, the text of its path and its
/// name, which is not decoded; no two rows have one such key.
///
/// A new row goes behind the last one of its domain and path, else behind the last one of its
/// domain, else last.
#[derive(Debug, Drop)]
pub struct CookieStore {
    alloc: Global,
    rows: Rows,
    public_suffix_list: Option<List>,
}

impl Model for CookieStore {
    ghost use Rattle.std.specs.Prelude.{[], unwrap_or};
    ghost use Rattle.cookie_store.specs.Rows.{Store};

    ghost Value = { Store };

    ghost view = { λ s. record { rows = s.rows; suffixes = unwrap_or s.public_suffix_list [] } };
}

impl CookieStore {
    /// The cookies, as they were received, that go with a request to the URL at `now`, in the order
    /// of the rows. Deprecated: of a cookie, name and value alone belong into a request, which
    /// `get_request_values` gives.
    ///
    /// # Errors
    ///
    /// `AllocError`, for want of memory.
    pub fn get_request_cookies(
        &self,
        request_url: &Url,
        now: DateTime,
    ) -> Result<RequestCookies<'_>, AllocError>
        ensures { IfOk result (λ cookies. ShowsGiven received_of self.now.rows request_url.now
            (civil_nanos now) cookies) }
    {
        Ok(RequestCookies::new(self.matches(request_url, now)?))
    }

    /// The names and the values of the cookies that go with a request to the URL at `now`, in the
    /// order of the rows.
    ///
    /// # Errors
    ///
    /// `AllocError`, for want of memory.
    pub fn get_request_values(
        &self,
        request_url: &Url,
        now: DateTime,
    ) -> Result<RequestValues<'_>, AllocError>
        ensures { IfOk result (λ pairs. ShowsGiven pair_of self.now.rows request_url.now
            (civil_nanos now) pairs) }
    {
        Ok(RequestValues::new(self.matches(request_url, now)?))
    }

    /// Puts the cookies that were received from the URL at `now` into the store, one after another,
    /// each as `insert_raw` does. One that is refused is passed over.
    ///
    /// # Errors
    ///
    /// `AllocError` at the first for which there is no memory. The rows are then as those before it
    /// left them, and none after it was taken from the iterator.
    pub fn store_response_cookies<I: Iterator<Item = RawCookie<'static>> + Drop>(
        &mut self,
        cookies: I,
        request_url: &Url,
        now: DateTime,
    ) -> Result<(), AllocError>
        requires { I.can_next cookies × IsFinite (I.remaining cookies) }
        ensures ok { OnOk result (insertion.StoresAll I.next_gives cookies self.old.suffixes
            self.old.rows request_url.now (civil_nanos now) self.new.rows) }
        ensures err { OnErr result (insertion.StopsWithin I.next_gives cookies self.old.suffixes
            self.old.rows request_url.now (civil_nanos now) self.new.rows) }
        ensures list { self.new.suffixes ≡ self.old.suffixes }
    {
        for cookie in cookies {
            self.receive(cookie, request_url, now)?;
        }
        Ok(())
    }

    // Puts the cookie that was received from the URL at `now` into the store, or passes it over
    // where it is refused. Tells want of memory alone.
    fn receive(
        &mut self,
        cookie: RawCookie<'static>,
        request_url: &Url,
        now: DateTime,
    ) -> Result<(), AllocError>
        ensures ok { OnOk result (Passes self.old.suffixes self.old.rows request_url.now
            (civil_nanos now) cookie.entry self.new.rows) }
        ensures err { OnErr result (MeetsWant self.old.suffixes self.old.rows request_url.now
            (civil_nanos now) cookie.entry self.new.rows) }
        ensures list { self.new.suffixes ≡ self.old.suffixes }
    {
        match self.insert_raw(&cookie, request_url, now) {
            Err(CookieError::OutOfMemory) => Err(AllocError),
            _ => Ok(()),
        }
    }

    /// The same rows, with this list of public suffixes. No row that is there is judged by it.
    pub fn with_suffix_list(self, public_suffix_list: List) -> CookieStore
        ensures { result ≡ record self { suffixes = public_suffix_list } }
    {
        CookieStore {
            alloc: self.alloc,
            rows: self.rows,
            public_suffix_list: Some(public_suffix_list),
        }
    }

    /// Its list of public suffixes, where it has one.
    pub fn public_suffix_list(&self) -> Option<&List>
        ensures { MatchOption result (self.now.suffixes ≡ []) (λ list. list.now ≡ self.now.suffixes) }
    {
        self.public_suffix_list.as_ref()
    }

    /// Whether `get` gives a cookie.
    pub fn contains(&self, domain: &str, path: &str, name: &str, now: DateTime) -> bool
        ensures { result ≡ is_some (spec.found_live (civil_nanos now)
            (spec.key domain.now path.now name.now) self.now.rows) }
    {
        self.get(domain, path, name, now).is_some()
    }

    /// Whether `get_any` gives a cookie.
    pub fn contains_any(&self, domain: &str, path: &str, name: &str) -> bool
        ensures { result
            ≡ is_some (spec.found (spec.key domain.now path.now name.now) self.now.rows) }
    {
        self.get_any(domain, path, name).is_some()
    }

    /// The cookie of the domain's text, the path's text and the name, unless it is expired at `now`.
    pub fn get(
        &self,
        domain: &str,
        path: &str,
        name: &str,
        now: DateTime,
    ) -> Option<&Cookie<'static>>
        ensures { option_map stored_of (option_copied result)
            ≡ spec.found_live (civil_nanos now) (spec.key domain.now path.now name.now)
            self.now.rows }
    {
        self.rows.get_live(domain, path, name, now)
    }

    /// The cookie of the domain's text, the path's text and the name, whether or not it is expired.
    pub fn get_any(&self, domain: &str, path: &str, name: &str) -> Option<&Cookie<'static>>
        ensures { option_map stored_of (option_copied result)
            ≡ spec.found (spec.key domain.now path.now name.now) self.now.rows }
    {
        self.rows.get(domain, path, name)
    }

    /// Takes the cookie of the domain's text, the path's text and the name out, whether or not it is
    /// expired, and answers it. The others keep their order.
    pub fn remove(&mut self, domain: &str, path: &str, name: &str) -> Option<Cookie<'static>>
        ensures cookie { option_map stored_of result
            ≡ spec.found (spec.key domain.now path.now name.now) self.old.rows }
        ensures rest { self.new ≡ record self.old {
          rows = spec.removed (spec.key domain.now path.now name.now) self.old.rows;
        } }
    {
        self.rows.remove(domain, path, name)
    }

    /// The cookies that go with a request to the URL at `now`, in the order of the rows (RFC 6265,
    /// section 5.4, step 1).
    ///
    /// # Errors
    ///
    /// `AllocError`, for want of memory.
    pub fn matches(
        &self,
        request_url: &Url,
        now: DateTime,
    ) -> Result<Vec<&Cookie<'static>>, AllocError>
        ensures { IfOk result (λ cookies. AreGiven self.now.rows request_url.now (civil_nanos now)
            (map lent_row cookies.items)) }
    {
        self.matches_from::<Brand>(request_url, now, Blank::new(1))
    }

    // The same with a count that is let go.
    fn matches_from<L: Ledger>(
        &self,
        request_url: &Url,
        now: DateTime,
        blank: Blank,
    ) -> Result<Vec<&Cookie<'static>>, AllocError>
        requires name { blank.name ≡ L.name }
        requires parts { blank.parts ≡ L.parts }
        requires some { 0 < L.parts }
        ensures { IfOk result (λ cookies. AreGiven self.now.rows request_url.now (civil_nanos now)
            (map lent_row cookies.items)) }
    {
        let mut looks = Looks::<L>::new(blank);
        self.matches_counted(request_url, now, &mut looks)
    }

    /// The same, counting the questions that are put to the index of the rows: at most one for the
    /// host and for each of its dots, and for each of these domains that has a row one for the path
    /// and two for each of its slashes. Without a host there are none.
    ///
    /// # Errors
    ///
    /// `AllocError`, for want of memory.
    pub fn matches_counted<L: Ledger>(
        &self,
        request_url: &Url,
        now: DateTime,
        looks: &mut Looks<L>,
    ) -> Result<Vec<&Cookie<'static>>, AllocError>
        ensures given { IfOk result (λ cookies. AreGiven self.now.rows request_url.now
            (civil_nanos now) (map lent_row cookies.items)) }
        ensures looks { looks.new ≤ looks.old + looks_at_url self.now.rows request_url.now }
    {
        self.rows.given(self.alloc, request_url, now, looks)
    }

    /// The cookies of `matches`, those with more bytes in the text of their path first (RFC 6265, section 5.4,
    /// step 2), and those of one length in the order of the rows, which keep no creation time.
    ///
    /// # Errors
    ///
    /// `AllocError`, for want of memory.
    pub fn matches_longest(
        &self,
        request_url: &Url,
        now: DateTime,
    ) -> Result<Vec<&Cookie<'static>>, AllocError>
        ensures { IfOk result (λ cookies. AreGivenLongest self.now.rows request_url.now
            (civil_nanos now) (map lent_row cookies.items)) }
    {
        let mut cookies = self.matches(request_url, now)?;
        put_longest_first(&mut cookies)?;
        Ok(cookies)
    }

    /// The same, counting the questions that are put to the index of the rows, as `matches_counted` does.
    ///
    /// # Errors
    ///
    /// `AllocError`, for want of memory.
    pub fn matches_longest_counted<L: Ledger>(
        &self,
        request_url: &Url,
        now: DateTime,
        looks: &mut Looks<L>,
    ) -> Result<Vec<&Cookie<'static>>, AllocError>
        ensures given { IfOk result (λ cookies. AreGivenLongest self.now.rows request_url.now
            (civil_nanos now) (map lent_row cookies.items)) }
        ensures looks { looks.new ≤ looks.old + looks_at_url self.now.rows request_url.now }
    {
        let mut cookies = self.matches_counted(request_url, now, looks)?;
        put_longest_first(&mut cookies)?;
        Ok(cookies)
    }

    /// Reads a cookie that was received from the URL at `now`, and puts it into the store.
    ///
    /// # Errors
    ///
    /// `Parse` where the text is no cookie, then those of `insert_raw`. The store is then as it was.
    pub fn parse(&mut self, cookie_str: &str, request_url: &Url, now: DateTime) -> InsertResult
        ensures rows { insertion.ReceivesText self.old.suffixes self.old.rows request_url.now
            (civil_nanos now) cookie_str.now (result, self.new.rows) }
        ensures err { OnErr result (self.new ≡ self.old) }
        ensures list { self.new.suffixes ≡ self.old.suffixes }
    {
        match RawCookie::parse(cookie_str) {
            Ok(cookie) => self.insert_raw(&cookie, request_url, now),
            Err(_) => Err(CookieError::Parse),
        }
    }

    /// Puts a copy of a cookie that was received from the URL at `now` into the store.
    ///
    /// # Errors
    ///
    /// Those of `Cookie::try_from_raw_cookie`, then those of `insert`. The store is then as it was.
    pub fn insert_raw(
        &mut self,
        cookie: &RawCookie<'_>,
        request_url: &Url,
        now: DateTime,
    ) -> InsertResult
        ensures rows { insertion.Receives self.old.suffixes self.old.rows request_url.now
            (civil_nanos now) (Ok cookie.now) (result, self.new.rows) }
        ensures err { OnErr result (self.new ≡ self.old) }
        ensures list { self.new.suffixes ≡ self.old.suffixes }
    {
        match Cookie::try_from_raw_cookie(self.alloc, cookie, request_url, now) {
            Ok(cookie) => self.insert_made(cookie, request_url, now),
            Err(cause) => Err(cause),
        }
    }

    // Puts a cookie that was made into the store, once it owns its texts.
    fn insert_made(&mut self, cookie: Cookie<'_>, request_url: &Url, now: DateTime) -> InsertResult
        ensures rows { InsertsOwned self.old.suffixes self.old.rows request_url.now
            (civil_nanos now) (stored_of cookie.entry) (result, self.new.rows) }
        ensures err { OnErr result (self.new ≡ self.old) }
        ensures list { self.new.suffixes ≡ self.old.suffixes }
    {
        match cookie.into_owned(self.alloc) {
            Ok(cookie) => self.insert(cookie, request_url, now),
            Err(_) => Err(CookieError::OutOfMemory),
        }
    }

    /// Puts a cookie that was received from the URL at `now` into the store (RFC 6265, section 5.3,
    /// steps 5, 6 and 10 to 12).
    ///
    /// A cookie whose domain is a public suffix is kept as that host's alone. One that is expired
    /// ends the row of its key that is not.
    ///
    /// # Errors
    ///
    /// In this order: `NonHttpScheme` where it is HttpOnly and the scheme is not one of HTTP,
    /// `PublicSuffix` where its domain is a public suffix and not the URL's host, `DomainMismatch`
    /// where that host does not domain-match it, `NonHttpScheme` where a row of its key that is not
    /// expired is HttpOnly and the scheme is not one of HTTP, `Expired` where it is expired and no
    /// row of its key is not; `OutOfMemory` where it would be put and there is no memory for it.
    /// The store is then as it was.
    pub fn insert(
        &mut self,
        cookie: Cookie<'static>,
        request_url: &Url,
        now: DateTime,
    ) -> InsertResult
        ensures rows { insertion.OrLacks (insertion.Inserts self.old.suffixes self.old.rows
            request_url.now (civil_nanos now) (stored_of cookie.entry)) self.old.rows
            (result, self.new.rows) }
        ensures err { OnErr result (self.new ≡ self.old) }
        ensures list { self.new.suffixes ≡ self.old.suffixes }
    {
        if is_barred(&cookie, request_url) {
            return Err(CookieError::NonHttpScheme);
        }
        if !is_listed(&self.public_suffix_list, &cookie.domain) {
            return enter(self.alloc, &mut self.rows, cookie, request_url, now);
        }
        if !cookie.domain.host_is_identical(request_url) {
            return Err(CookieError::PublicSuffix);
        }
        enter(self.alloc, &mut self.rows, alone(cookie), request_url, now)
    }

    /// Takes all rows out. The list of public suffixes stays.
    pub fn clear(&mut self)
        ensures { self.new ≡ record self.old { rows = [] } }
    {
        self.rows = Rows::new(self.alloc);
    }

    /// Puts all cookies of another store in the place of its own. The list of public suffixes stays.
    pub fn replace_rows(&mut self, other: CookieStore)
        ensures { self.new ≡ record self.old { rows = other.rows } }
    {
        self.rows = other.rows;
    }

    /// The cookies that are not expired at `now`, in the order of the rows.
    pub fn iter_unexpired(&self, now: DateTime) -> IterUnexpired<'_>
        ensures { result ≡ spec.live (civil_nanos now) self.now.rows }
    {
        IterUnexpired::new(self.rows.iter(), now)
    }

    /// All cookies, in the order of the rows.
    pub fn iter_any(&self) -> IterAny<'_>
        ensures rows { result ≡ self.now.rows }
        ensures grouped { AreGrouped self.now.rows }
    {
        self.rows.iter()
    }

    /// A store without a row and without a list of public suffixes.
    pub fn new(alloc: Global) -> CookieStore
        ensures { result ≡ record { rows = []; suffixes = [] } }
    {
        CookieStore::new_with_public_suffix(alloc, None)
    }

    /// A store without a row, with a list of public suffixes or without one.
    pub fn new_with_public_suffix(alloc: Global, public_suffix_list: Option<List>) -> CookieStore
        ensures { result ≡ record { rows = []; suffixes = unwrap_or public_suffix_list [] } }
    {
        CookieStore {
            alloc,
            rows: Rows::new(alloc),
            public_suffix_list,
        }
    }

    // A store of these rows, without a list of public suffixes.
    pub(crate) fn of_rows(alloc: Global, rows: Rows) -> CookieStore
        ensures { result ≡ record { rows = rows; suffixes = [] } }
    {
        CookieStore {
            alloc,
            rows,
            public_suffix_list: None,
        }
    }

    // What the store takes its memory by.
    pub(crate) fn alloc(&self) -> Global {
        self.alloc
    }

    /// A copy, with its rows in their order.
    ///
    /// # Errors
    ///
    /// `AllocError`, for want of memory.
    pub fn clone(&self) -> Result<CookieStore, AllocError>
        ensures { IfOk result (λ store. store ≡ self.now) }
    {
        let public_suffix_list = match &self.public_suffix_list {
            Some(list) => Some(list.clone()?),
            None => None,
        };
        Ok(CookieStore {
            alloc: self.alloc,
            rows: self.rows.clone(self.alloc)?,
            public_suffix_list,
        })
    }
}

// Whether the cookie is HttpOnly, and the URL's scheme is not one of HTTP.
fn is_barred(cookie: &Cookie<'static>, request_url: &Url) -> bool
    ensures { IsTrue result ↔ IsBarred (stored_of cookie.now).raw.cookie request_url.now }
{
    cookie.raw().http_only().unwrap_or(false) && !is_http_scheme(request_url)
}

// Whether the list lists the domain.
fn is_listed(public_suffix_list: &Option<List>, domain: &CookieDomain) -> bool
    ensures { IsTrue result
        ↔ IsListedIn (domain_of domain.now) (unwrap_or public_suffix_list.now []) }
{
    match public_suffix_list {
        Some(list) => domain.is_public_suffix(list),
        None => false,
    }
}

// The cookie with its domain's text as the one host that it is for.
fn alone(cookie: Cookie<'static>) -> Cookie<'static>
    ensures { stored_of result ≡ record (stored_of cookie.entry) {
      domain = host_alone (stored_of cookie.entry).domain;
    } }
{
    let mut cookie = cookie;
    cookie.domain = alone_domain(cookie.domain);
    cookie
}

// The domain's text as the one host that it is for, where it has one.
fn alone_domain(domain: CookieDomain) -> CookieDomain
    ensures { domain_of result ≡ host_alone (domain_of domain) }
{
    match domain {
        CookieDomain::Suffix(text) => CookieDomain::HostOnly(text),
        domain => domain,
    }
}

// Whether a live HttpOnly row of the cookie's key bars a URL whose scheme is not one of HTTP.
fn is_guarded(rows: &Rows, cookie: &Cookie<'static>, request_url: &Url, now: DateTime) -> bool
    ensures { IsTrue result ↔ insertion.IsGuarded rows.now request_url.now (civil_nanos now)
        (stored_of cookie.now) }
{
    !is_http_scheme(request_url) && is_http_only(rows, cookie, now)
}

// Whether the live row of the cookie's key is HttpOnly.
fn is_http_only(rows: &Rows, cookie: &Cookie<'static>, now: DateTime) -> bool
    ensures { result ≡ list_any (λ other. spec.is_live_of (civil_nanos now) (stored_of cookie.now) other
        && is_set other.raw.cookie.http_only) rows.now }
{
    match rows.get_live_of(cookie, now) {
        Some(old) => old.raw().http_only().unwrap_or(false),
        None => false,
    }
}

// Puts a cookie with the domain that it is to have among the rows.
fn enter(
    alloc: Global,
    rows: &mut Rows,
    cookie: Cookie<'static>,
    request_url: &Url,
    now: DateTime,
) -> InsertResult
    ensures rows { insertion.OrLacks (insertion.Fits rows.old request_url.now (civil_nanos now)
        (stored_of cookie.entry)) rows.old (result, rows.new) }
    ensures err { OnErr result (rows.new ≡ rows.old) }
{
    if !cookie.domain.matches(request_url) {
        return Err(CookieError::DomainMismatch);
    }
    if is_guarded(rows, &cookie, request_url, now) {
        return Err(CookieError::NonHttpScheme);
    }
    if cookie.is_expired(now) {
        bury(rows, &cookie, now)
    } else {
        match rows.put(alloc, cookie) {
            Ok(action) => Ok(action),
            Err(_) => Err(CookieError::OutOfMemory),
        }
    }
}

// Expires the live row of the cookie's key.
fn bury(rows: &mut Rows, cookie: &Cookie<'static>, now: DateTime) -> InsertResult
    ensures end { (result, rows.new) ≡ buried (civil_nanos now) (stored_of cookie.now) rows.old }
    ensures err { OnErr result (rows.new ≡ rows.old) }
{
    if rows.get_live_of(cookie, now).is_none() {
        return Err(CookieError::Expired);
    }
    rows.expire(
        domain_text(cookie),
        cookie.path.as_str(),
        cookie.raw().name(),
    );
    Ok(StoreAction::ExpiredExisting)
}

/// What holds of the rows of each store. Which of them a request is given, and how an insertion
/// ends, is determined. There is one order of rows with longer paths first, and one alone. An
/// insertion keeps the keys apart, puts what is then got, touches no other row, and none that the
/// URL's host may not; what is put after it was taken out is the last of its domain and path. A part
/// of rows that stand in groups, put row by row where there was none, stands as it did.
pub fn laws()
    ensures given { law.GivenOnce }
    ensures order { law.OneOrder }
    ensures ends { law.EndsOnce }
    ensures apart { law.StayApart }
    ensures got { law.InsertedIsGot }
    ensures local { law.PuttingIsLocal }
    ensures last { law.ComesLast }
    ensures confined { law.InsertionIsConfined }
    ensures parts { PartsStay }
{}
