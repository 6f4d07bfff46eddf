//! A jar of cookies that keeps track of what was changed.

ghost use Rattle.std.specs.Prelude.{◌≡◌, ℕ, List, length, None, IsOk, IfOk, IfSome, OnOk, OnErr, option_copied};
ghost use Rattle.std.specs.Iterator.{at_most};
ghost use Rattle.std.specs.Map.Iter.{TakesFirst, deref};
ghost use Rattle.std.specs.FinMap as finmap;
ghost use Rattle.cookie.specs.ByName.{Lists};
ghost use Rattle.cookie.specs.Jar as spec;

use crate::delta::DeltaCookie;
use crate::name_map::NameMap;
use cookie_text::Cookie;
use indexmap::map;
use jiff::civil::DateTime;
use std::alloc::{AllocError, Global};
use std::marker::Model;

/// Cookies by name: originals, and a delta of what was added and removed since.
///
/// The cookies of a request are put in by `add_original`; `delta` then has what the answer has to
/// tell the client.
#[derive(Debug, Drop)]
pub struct CookieJar {
    alloc: Global,
    original_cookies: NameMap<Cookie<'static>>,
    delta_cookies: NameMap<DeltaCookie>,
}

impl Model for CookieJar {
    ghost use mir.Syntax.{erased};
    ghost use Rattle.std.specs.Prelude.{[], refl};
    ghost use Rattle.std.specs.FinMap as finmap;
    ghost use Rattle.std.specs.Coded.{code_by, coded×, coded_list, coded_ℕ};
    ghost use Rattle.cookie_text.specs.contracts.cookie.Cookie as held;
    ghost use Rattle.cookie.specs.contracts.delta.DeltaCookie as change;
    ghost use Rattle.cookie_text.specs.Record.{Seen};
    ghost use Rattle.cookie.specs.ByName.{ByName};
    ghost use Rattle.cookie.specs.Jar.{Jar, Change, AreUnderTheirNames, cookie_of};

    ghost Value = { Jar };

    ghost coded = { code_by (ByName Seen × ByName Change)
        (coded× (finmap.code (coded_list coded_ℕ) (held.the_row (record { mir = erased; lft = [] })).coded)
        (finmap.code (coded_list coded_ℕ) change.the_row.coded))
        (λ j. (j.originals, j.changes)) (λ p. record { originals = p.0; changes = p.1 }) (λ _. refl) };

    ghost view = { λ j. record { originals = j.original_cookies; changes = j.delta_cookies } };

    ghost invariant = { λ j. AreUnderTheirNames (λ c. c) j.original_cookies
        × AreUnderTheirNames cookie_of j.delta_cookies };
}

impl CookieJar {
    /// The jar with nothing in it.
    pub fn new(alloc: Global) -> CookieJar
        ensures { result ≡ spec.empty }
    {
        CookieJar {
            alloc,
            original_cookies: NameMap::new(alloc),
            delta_cookies: NameMap::new(alloc),
        }
    }

    // The allocator that the jar was made with.
    pub(crate) fn alloc(&self) -> Global {
        self.alloc
    }

    /// The cookie of a name: the one that was added last, else the original, and none where it was
    /// removed.
    pub fn get(&self, name: &str) -> Option<&Cookie<'static>>
        ensures cookie { option_copied result ≡ spec.view self.now name.now }
        ensures named { IfSome result (λ c. c.now.cookie.name ≡ name.now) }
    {
        match self.delta_cookies.get(name) {
            Some(change) => change.added(),
            None => self.original_cookies.get(name),
        }
    }

    /// Adds an original, in the place of the one of its name. The delta stays.
    ///
    /// # Errors
    ///
    /// Want of memory. The jar is unchanged then.
    pub fn add_original(&mut self, cookie: Cookie<'static>) -> Result<(), AllocError>
        ensures ok { OnOk result (self.new ≡ spec.with_original self.old cookie.entry) }
        ensures err { OnErr result (self.new ≡ self.old) }
        ensures delta { self.new.changes ≡ self.old.changes }
    {
        let name = String::from_str(self.alloc, cookie.name())?;
        self.original_cookies.insert(name, cookie)
    }

    /// Adds a cookie to the delta, in the place of the change of its name.
    ///
    /// # Errors
    ///
    /// Want of memory. The jar is unchanged then.
    pub fn add(&mut self, cookie: Cookie<'static>) -> Result<(), AllocError>
        ensures ok { OnOk result (self.new ≡ spec.with_added self.old cookie.entry) }
        ensures err { OnErr result (self.new ≡ self.old) }
    {
        let name = String::from_str(self.alloc, cookie.name())?;
        self.delta_cookies.insert(name, DeltaCookie::Added(cookie))
    }

    /// Removes the cookie of this cookie's name.
    ///
    /// Where an original has the name, this cookie becomes its removal in the delta
    /// (`Cookie::make_removal` at `now`); path and domain then have to be those under which a client
    /// holds it. Else no change of that name is left in the delta, and no memory is taken.
    ///
    /// # Errors
    ///
    /// Want of memory, and only where an original has the name. The jar is unchanged then.
    pub fn remove(&mut self, cookie: Cookie<'static>, now: DateTime) -> Result<(), AllocError>
        ensures ok { OnOk result (spec.Removes self.old cookie.entry now self.new) }
        ensures err { OnErr result (self.new ≡ self.old) }
        ensures succeeds { finmap.get self.old.originals cookie.entry.cookie.name ≡ None
            → IsOk result }
    {
        if !self.original_cookies.contains(cookie.name()) {
            self.delta_cookies.remove(cookie.name());
            return Ok(());
        }
        let mut cookie = cookie;
        cookie.make_removal(now);
        let name = String::from_str(self.alloc, cookie.name())?;
        self.delta_cookies
            .insert(name, DeltaCookie::Removed(cookie))
    }

    /// The cookie of each change, removals too, each name once, in no promised order.
    pub fn delta(&self) -> Delta<'_>
        ensures { Lists (spec.under_names result) (spec.delta self.now) }
    {
        Delta {
            changes: self.delta_cookies.iter(),
        }
    }

    /// The cookies that `get` gives, each name once, in no promised order.
    pub fn iter(&self) -> Iter<'_>
        ensures { Lists (spec.under_names result) (spec.view self.now) }
    {
        Iter {
            changes: self.delta_cookies.iter(),
            originals: self.original_cookies.iter(),
            delta_cookies: &self.delta_cookies,
        }
    }

    /// A copy: the same originals and the same delta.
    ///
    /// # Errors
    ///
    /// Want of memory.
    pub fn clone(&self) -> Result<CookieJar, AllocError>
        ensures { IfOk result (λ jar. jar ≡ self.now) }
    {
        let original_cookies = copied_originals(self.alloc, &self.original_cookies)?;
        let delta_cookies = copied_changes(self.alloc, &self.delta_cookies)?;
        Ok(CookieJar {
            alloc: self.alloc,
            original_cookies,
            delta_cookies,
        })
    }

    /// Takes a name out of the originals and out of the delta, with no removal left for a client.
    pub fn force_remove(&mut self, name: &str)
        ensures { self.new ≡ spec.without self.old name.now }
    {
        self.original_cookies.remove(name);
        self.delta_cookies.remove(name);
    }

    /// Empties the delta. The originals stay.
    pub fn reset_delta(&mut self)
        ensures jar { self.new ≡ spec.without_changes self.old }
        ensures empty { (name : List ℕ) → spec.delta self.new name ≡ None }
    {
        self.delta_cookies = NameMap::new(self.alloc);
    }
}

// A copy of the originals.
fn copied_originals(
    alloc: Global,
    originals: &NameMap<Cookie<'static>>,
) -> Result<NameMap<Cookie<'static>>, AllocError>
    ensures { IfOk result (λ copies. copies ≡ originals.now) }
{
    let mut copies = NameMap::new(alloc);
    for (name, cookie) in originals.iter() {
        let name = String::from_str(alloc, name.as_str())?;
        copies.insert(name, cookie.clone(alloc)?)?;
    }
    Ok(copies)
}

// A copy of the changes.
fn copied_changes(
    alloc: Global,
    changes: &NameMap<DeltaCookie>,
) -> Result<NameMap<DeltaCookie>, AllocError>
    ensures { IfOk result (λ copies. copies ≡ changes.now) }
{
    let mut copies = NameMap::new(alloc);
    for (name, change) in changes.iter() {
        let name = String::from_str(alloc, name.as_str())?;
        copies.insert(name, change.clone(alloc)?)?;
    }
    Ok(copies)
}

/// The cookies of a jar's changes.
#[derive(Drop)]
pub struct Delta<'a> {
    changes: map::Iter<'a, String, DeltaCookie>,
}

impl<'a> Model for Delta<'a> {
    ghost use Rattle.std.specs.Prelude.{List};
    ghost use Rattle.cookie_text.specs.Record.{Seen};
    ghost use Rattle.cookie.specs.Jar.{changed};

    ghost Value = { List Seen };

    ghost view = { λ d. changed d.changes };
}

impl<'a> Iterator for Delta<'a> {
    type Item = &'a Cookie<'static>;

    ghost next_gives = { TakesFirst deref };

    ghost remaining = { λ s. at_most (length s) };

    fn next(&mut self) -> Option<&'a Cookie<'static>> {
        let (_, change) = self.changes.next()?;
        Some(change.cookie())
    }
}

/// The cookies of a jar's view.
#[derive(Drop)]
pub struct Iter<'a> {
    changes: map::Iter<'a, String, DeltaCookie>,
    originals: map::Iter<'a, String, Cookie<'static>>,
    delta_cookies: &'a NameMap<DeltaCookie>,
}

impl<'a> Model for Iter<'a> {
    ghost use Rattle.std.specs.Prelude.{List, ◌++◌};
    ghost use Rattle.cookie_text.specs.Record.{Seen};
    ghost use Rattle.cookie.specs.Jar.{added, unchanged};

    ghost Value = { List Seen };

    ghost view = { λ i. added i.changes ++ unchanged i.delta_cookies.now i.originals };
}

impl<'a> Iterator for Iter<'a> {
    type Item = &'a Cookie<'static>;

    ghost next_gives = { TakesFirst deref };

    ghost remaining = { λ s. at_most (length s) };

    fn next(&mut self) -> Option<&'a Cookie<'static>> {
        match next_added(&mut self.changes) {
            Some(cookie) => Some(cookie),
            None => next_unchanged(&mut self.originals, self.delta_cookies),
        }
    }
}

// The first of the cookies that were added.
fn next_added<'a>(changes: &mut map::Iter<'a, String, DeltaCookie>) -> Option<&'a Cookie<'static>>
    ensures { TakesFirst deref (spec.added changes.old) result (spec.added changes.new) }
{
    while let Some((_, change)) = changes.next() {
        if let Some(cookie) = change.added() {
            return Some(cookie);
        }
    }
    None
}

// The first of the originals under a name that has no change.
fn next_unchanged<'a>(
    originals: &mut map::Iter<'a, String, Cookie<'static>>,
    changes: &NameMap<DeltaCookie>,
) -> Option<&'a Cookie<'static>>
    ensures { TakesFirst deref (spec.unchanged changes.now originals.old) result
        (spec.unchanged changes.now originals.new) }
{
    while let Some((name, cookie)) = originals.next() {
        if !changes.contains(name.as_str()) {
            return Some(cookie);
        }
    }
    None
}
