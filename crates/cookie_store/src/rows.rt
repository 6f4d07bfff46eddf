//! The rows of a store: a vector with an index.

ghost use Rattle.std.specs.Prelude.{◌≡◌, ◌+◌, ◌<◌, ◌≤◌, [], length, map, false, IfOk, OnOk, OnErr, MatchOption};
ghost use Rattle.std.specs.Prelude.{option_copied, option_map};
ghost use Rattle.std.specs.List.{list_any};
ghost use Rattle.std.specs.Map.Iter.{TakesFirst};
ghost use Rattle.std.specs.Iterator.{at_most};
ghost use Rattle.jiff.specs.Words.{civil_nanos};
ghost use Rattle.cookie_store.specs.Asking.{looks_at_url};
ghost use Rattle.cookie_store.specs.Given.{AreGiven, lent_row};
ghost use Rattle.cookie_store.specs.Grouped.{AreGrouped};
ghost use Rattle.cookie_store.specs.Indexed.{StandsAt};
ghost use Rattle.cookie_store.specs.Insertion.{action_of};
ghost use Rattle.cookie_store.specs.Rows as spec;
ghost use Rattle.cookie_store.specs.StoredCookie.{stored_of};

use crate::action::StoreAction;
use crate::given::give_parts;
use crate::stored_cookie::Cookie;
use jiff::civil::DateTime;
use place_index::{Index, Looks};
use std::alloc::{AllocError, Global};
use std::marker::{Brand, Model};
use std::slice;
use std::sync::ledger::{Blank, Ledger};
use url::Url;

/// The rows of a store, which contracts see as one list: a vector in which those of one domain stand together, and of
/// these those of one path, with an index of where they stand.
#[derive(Debug, Drop)]
pub(crate) struct Rows {
    cookies: Vec<Box<Cookie<'static>>>,
    index: Index,
}

impl Model for Rows {
    ghost use Rattle.std.specs.Prelude.{List, map};
    ghost use Rattle.cookie_store.specs.Indexed.{IsIndexed};
    ghost use Rattle.cookie_store.specs.Rows.{Row};
    ghost use Rattle.cookie_store.specs.StoredCookie.{stored_in};

    ghost Value = { List Row };

    ghost view = { λ r. map stored_in r.cookies.items };

    ghost invariant = { λ r. IsIndexed (map stored_in r.cookies.items) r.index };
}

impl Rows {
    /// No row.
    pub(crate) fn new(alloc: Global) -> Rows
        ensures { result ≡ [] }
    {
        Rows {
            cookies: Vec::new(alloc),
            index: Index::new(alloc),
        }
    }

    // Where the row of the key stands.
    fn position(&self, domain: &str, path: &str, name: &str) -> Option<usize>
        ensures at { StandsAt (spec.key domain.now path.now name.now) self.now result }
        ensures apart { spec.HaveOwnKeys self.now }
    {
        self.position_from::<Brand>((domain, path, name), Blank::new(1))
    }

    // The same with a count that is let go.
    fn position_from<L: Ledger>(&self, key: (&str, &str, &str), blank: Blank) -> Option<usize>
        requires name { blank.name ≡ L.name }
        requires parts { blank.parts ≡ L.parts }
        requires some { 0 < L.parts }
        ensures at { StandsAt (spec.key key.entry.0.now key.entry.1.now key.entry.2.now) self.now result }
        ensures apart { spec.HaveOwnKeys self.now }
    {
        let mut looks = Looks::<L>::new(blank);
        self.index.position(key.0, key.1, key.2, &mut looks)
    }

    /// The cookie of the key.
    pub(crate) fn get(&self, domain: &str, path: &str, name: &str) -> Option<&Cookie<'static>>
        ensures row { option_map stored_of (option_copied result)
            ≡ spec.found (spec.key domain.now path.now name.now) self.now }
        ensures apart { spec.HaveOwnKeys self.now }
    {
        let at = self.position(domain, path, name)?;
        Some(&*self.cookies[at])
    }

    /// The cookie of the key, unless it is expired at `now`.
    pub(crate) fn get_live(
        &self,
        domain: &str,
        path: &str,
        name: &str,
        now: DateTime,
    ) -> Option<&Cookie<'static>>
        ensures row { option_map stored_of (option_copied result)
            ≡ spec.found_live (civil_nanos now) (spec.key domain.now path.now name.now) self.now }
        ensures apart { spec.HaveOwnKeys self.now }
    {
        let cookie = self.get(domain, path, name)?;
        if cookie.is_expired(now) {
            None
        } else {
            Some(cookie)
        }
    }

    /// The cookie of this cookie's key, unless it is expired at `now`.
    pub(crate) fn get_live_of(
        &self,
        cookie: &Cookie<'static>,
        now: DateTime,
    ) -> Option<&Cookie<'static>>
        ensures row { option_map stored_of (option_copied result)
            ≡ spec.found_live (civil_nanos now) (spec.key_of (stored_of cookie.now)) self.now }
        ensures apart { spec.HaveOwnKeys self.now }
    {
        self.get_live(
            domain_text(cookie),
            cookie.path.as_str(),
            cookie.raw().name(),
            now,
        )
    }

    /// Puts the cookie in the place of the one of its key, else after the last one of its domain
    /// and path, else after the last one of its domain, else at the end.
    pub(crate) fn put(
        &mut self,
        alloc: Global,
        cookie: Cookie<'static>,
    ) -> Result<StoreAction, AllocError>
        ensures ok { OnOk result (self.new ≡ spec.put (stored_of cookie.entry) self.old) }
        ensures action { IfOk result (λ action. action ≡ action_of (stored_of cookie.entry) self.old) }
        ensures err { OnErr result (self.new ≡ self.old) }
    {
        match self.position(
            domain_text(&cookie),
            cookie.path.as_str(),
            cookie.raw().name(),
        ) {
            Some(at) => {
                *self.cookies[at] = cookie;
                Ok(StoreAction::UpdatedExisting)
            }
            None => {
                self.insert(alloc, cookie)?;
                Ok(StoreAction::Inserted)
            }
        }
    }

    // Puts a cookie whose key no row has where a new one goes.
    fn insert(&mut self, alloc: Global, cookie: Cookie<'static>) -> Result<(), AllocError>
        requires { list_any (spec.has_key_of (stored_of cookie)) self.old ≡ false }
        ensures ok { OnOk result (self.new ≡ spec.inserted (stored_of cookie.entry) self.old) }
        ensures err { OnErr result (self.new ≡ self.old) }
    {
        self.cookies.reserve(1)?;
        let cookie = Box::new(alloc, cookie)?;
        let rows = self.cookies.len();
        let at = self.index.put(
            alloc,
            rows,
            domain_text(&*cookie),
            cookie.path.as_str(),
            cookie.raw().name(),
        )?;
        self.cookies.insert(at, cookie)?;
        Ok(())
    }

    /// Expires the cookie of the key, where there is one. It keeps its place.
    pub(crate) fn expire(&mut self, domain: &str, path: &str, name: &str)
        ensures { MatchOption (spec.found (spec.key domain.now path.now name.now) self.old)
            (self.new ≡ self.old) (λ row. self.new ≡ spec.put (spec.expired row) self.old) }
    {
        if let Some(at) = self.position(domain, path, name) {
            self.cookies[at].expire();
        }
    }

    /// The cookies in their order.
    pub(crate) fn iter(&self) -> IterAny<'_>
        ensures rows { result ≡ self.now }
        ensures grouped { AreGrouped self.now }
    {
        IterAny {
            cookies: self.cookies.iter(),
        }
    }

    /// A copy, with the cookies in their order.
    pub(crate) fn clone(&self, alloc: Global) -> Result<Rows, AllocError>
        ensures { IfOk result (λ rows. rows ≡ self.now) }
    {
        let mut rows = Rows::new(alloc);
        for cookie in self.iter() {
            let _ = rows.put(alloc, cookie.clone(alloc)?)?;
        }
        Ok(rows)
    }

    /// Takes the cookie of the key out.
    pub(crate) fn remove(&mut self, domain: &str, path: &str, name: &str) -> Option<Cookie<'static>>
        ensures cookie { option_map stored_of result
            ≡ spec.found (spec.key domain.now path.now name.now) self.old }
        ensures rest { self.new
            ≡ spec.removed (spec.key domain.now path.now name.now) self.old }
    {
        let at = self.position(domain, path, name)?;
        self.index.remove(at, domain, path);
        Some(Box::into_inner(self.cookies.remove(at)))
    }

    /// The cookies that go with a request to the URL at `now`, in their order.
    pub(crate) fn given<L: Ledger>(
        &self,
        alloc: Global,
        request_url: &Url,
        now: DateTime,
        looks: &mut Looks<L>,
    ) -> Result<Vec<&Cookie<'static>>, AllocError>
        ensures given { IfOk result (λ cookies. AreGiven self.now request_url.now (civil_nanos now)
            (map lent_row cookies.items)) }
        ensures looks { looks.new ≤ looks.old + looks_at_url self.now request_url.now }
    {
        let Some(host) = request_url.host_str() else {
            return Ok(Vec::new(alloc));
        };
        let parts = self.index.find(alloc, host, request_url.path(), looks)?;
        give_parts(
            alloc,
            self.cookies.as_slice(),
            parts.as_slice(),
            request_url,
            now,
        )
    }
}

// The text of the cookie's domain, which is empty where it has none.
pub(crate) fn domain_text<'c>(cookie: &'c Cookie<'static>) -> &'c str
    ensures { result.now ≡ spec.domain_text (stored_of cookie.now) }
{
    cookie.domain.as_cow().unwrap_or("")
}

/// The cookies of a store in the order of its rows.
#[derive(Drop)]
pub struct IterAny<'a> {
    cookies: slice::Iter<'a, Box<Cookie<'static>>>,
}

impl<'a> Model for IterAny<'a> {
    ghost use Rattle.std.specs.Prelude.{List, map};
    ghost use Rattle.std.specs.Slice.Iter.{iter_rest};
    ghost use Rattle.cookie_store.specs.Rows.{Row};
    ghost use Rattle.cookie_store.specs.StoredCookie.{stored_in};

    ghost Value = { List Row };

    ghost view = { λ i. map stored_in (iter_rest i.cookies) };
}

impl<'a> Iterator for IterAny<'a> {
    type Item = &'a Cookie<'static>;

    ghost next_gives = { TakesFirst lent_row };

    ghost remaining = { λ s. at_most (length s) };

    fn next(&mut self) -> Option<&'a Cookie<'static>> {
        match self.cookies.next() {
            Some(cookie) => Some(&**cookie),
            None => None,
        }
    }
}
