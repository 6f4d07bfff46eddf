//! From domain text to its part of a vector of rows, in it from path text to a part of that, and there from name to
//! row.

ghost use Rattle.std.specs.Prelude.{◌≡◌, ◌+◌, ◌≤◌, [], List, IfOk, OnErr, option_map, position};
ghost use Rattle.std.specs.Str.{bytes_eq};
ghost use Rattle.place_index.specs.Entries.{value_at};
ghost use Rattle.place_index.specs.Found.{Finds, looks_at, looks_up};
ghost use Rattle.place_index.specs.Index.{Agrees, IsIndex, StandsAt, part_at};
ghost use Rattle.place_index.specs.Places.{Place};
ghost use Rattle.place_index.specs.Putting.{IsReady, PutsAt};
ghost use Rattle.place_index.specs.PathParts.{path_at};
ghost use Rattle.place_index.specs.Starts.{AreInOrder, with_starts};
ghost use Rattle.place_index.specs.Taking.{HasRow, TakesAt};

use crate::find::ask_domains;
use crate::looks::Looks;
use crate::order::put_in_order;
use crate::part::{DomainRows, PathRows};
use crate::putting::put_row;
use crate::starts::Starts;
use crate::taking::take_row;
use crate::text_map::TextMap;
use std::alloc::{AllocError, Global};
use std::marker::Model;
use std::sync::ledger::Ledger;

/// Where the rows of a vector stand: for each domain's text its part of the vector, for each path's text in it a part
/// of that, and for each name in that a row. No two rows have the same three.
#[derive(Debug, Drop)]
pub struct Index {
    domains: Domains,
}

impl Model for Index {
    ghost Value = { Rattle.place_index.specs.Index.Index };

    ghost view = { λ s. s.domains };
}

impl Index {
    /// That of no row.
    pub fn new(alloc: Global) -> Index
        ensures { Agrees [] result }
    {
        Index {
            domains: Domains::new(alloc),
        }
    }

    /// Where the row of a domain, a path and a name stands, by three questions at most.
    pub fn position<L: Ledger>(
        &self,
        domain: &str,
        path: &str,
        name: &str,
        looks: &mut Looks<L>,
    ) -> Option<usize>
        requires { IsIndex self.now }
        ensures at { (places : List Place) → Agrees places self.now
            → StandsAt (record { domain = domain.now; path = path.now; name = name.now }) places result }
        ensures looks { (places : List Place) → Agrees places self.now → looks.new
            ≡ looks.old + looks_up (record { domain = domain.now; path = path.now; name = name.now }) places }
    {
        let (start, rows) = self.domains.ask(domain, looks)?;
        let (inner, rows) = rows.ask(path, looks)?;
        let place = rows.ask(name, looks)?;
        Some(start + inner + place)
    }

    /// Has one row more of the domain, the path and the name, which has none: behind the last of domain and path, else
    /// behind the domain's last, else last. Answers where.
    ///
    /// # Errors
    ///
    /// `AllocError`, for want of memory. The index is then as it was.
    pub fn put(
        &mut self,
        alloc: Global,
        rows: usize,
        domain: &str,
        path: &str,
        name: &str,
    ) -> Result<usize, AllocError>
        requires { IsReady (record { domain = domain.now; path = path.now; name = name.now }) rows self.old }
        ensures ok { IfOk result (λ at.
            PutsAt (record { domain = domain.now; path = path.now; name = name.now }) rows self.old self.new at) }
        ensures err { OnErr result (self.new ≡ self.old) }
    {
        put_row(alloc, &mut self.domains, rows, domain, path, name)
    }

    /// Has the row at `at`, which is of the domain and the path, no more.
    pub fn remove(&mut self, at: usize, domain: &str, path: &str)
        requires { HasRow domain.now path.now at self.old }
        ensures { TakesAt domain.now path.now at self.old self.new }
    {
        take_row(&mut self.domains, at, domain, path)
    }

    /// Where the parts begin and end that can have a row for a request to the host and the request-path, in the order
    /// of the vector.
    ///
    /// # Errors
    ///
    /// `AllocError`, for want of memory.
    pub fn find<L: Ledger>(
        &self,
        alloc: Global,
        host: &str,
        path: &str,
        looks: &mut Looks<L>,
    ) -> Result<Vec<(usize, usize)>, AllocError>
        requires { IsIndex self.now }
        ensures found { IfOk result (λ found. (places : List Place) → Agrees places self.now
            → Finds host.now path.now places found.items) }
        ensures looks { (places : List Place) → Agrees places self.now
            → looks.new ≤ looks.old + looks_at host.now path.now places }
    {
        let mut found = Vec::new(alloc);
        ask_domains(&self.domains, host, path, &mut found, looks)?;
        put_in_order(&mut found);
        Ok(found)
    }
}

/// The parts of the domains, in the order of the vector. Where they begin stands apart from their rows, for an
/// insertion or a removal goes over the later starts.
#[derive(Debug, Drop)]
pub(crate) struct Domains {
    pub(crate) starts: Starts,
    pub(crate) rows: TextMap<DomainRows>,
}

impl Model for Domains {
    ghost Value = { Rattle.place_index.specs.Index.Index };

    ghost view = { λ d. with_starts part_at d.starts d.rows };

    ghost invariant = { λ d. AreInOrder d.starts d.rows };
}

impl Domains {
    /// No part.
    pub(crate) fn new(alloc: Global) -> Domains
        ensures { result ≡ [] }
    {
        Domains {
            starts: Starts::new(alloc),
            rows: TextMap::new(alloc),
        }
    }

    // Where the domain begins, and its rows.
    fn get(&self, text: &str) -> Option<(usize, &DomainRows)>
        ensures { option_map (λ found. part_at found.0 found.1.now) result ≡ value_at text.now self.now }
    {
        let (place, rows) = self.rows.get_full(text)?;
        Some((self.starts.get(place), rows))
    }

    /// Asks for a domain: where it begins, and its rows.
    pub(crate) fn ask<L: Ledger>(
        &self,
        text: &str,
        looks: &mut Looks<L>,
    ) -> Option<(usize, &DomainRows)>
        ensures part { option_map (λ found. part_at found.0 found.1.now) result ≡ value_at text.now self.now }
        ensures look { looks.new ≡ looks.old + 1 }
    {
        looks.raise();
        self.get(text)
    }
}

impl DomainRows {
    /// Asks for a path: where it begins, and its rows.
    pub(crate) fn ask<L: Ledger>(
        &self,
        text: &str,
        looks: &mut Looks<L>,
    ) -> Option<(usize, &PathRows)>
        ensures part { option_map (λ found. path_at found.0 found.1.now) result ≡ value_at text.now self.now.paths }
        ensures look { looks.new ≡ looks.old + 1 }
    {
        looks.raise();
        self.paths.get(text)
    }
}

impl PathRows {
    /// Asks for a name: which of the path's rows has it.
    pub(crate) fn ask<L: Ledger>(&self, name: &str, looks: &mut Looks<L>) -> Option<usize>
        ensures place { result ≡ position (bytes_eq name.now) self.now.names }
        ensures look { looks.new ≡ looks.old + 1 }
    {
        looks.raise();
        self.names.place(name)
    }
}
