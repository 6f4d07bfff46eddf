//! The rows of a domain, and the parts of them that its paths' rows are.

ghost use Rattle.std.specs.Prelude.{◌≡◌, [], option_map};
ghost use Rattle.place_index.specs.Entries.{value_at, with_values};
ghost use Rattle.place_index.specs.Index.{last, moved_path};
ghost use Rattle.place_index.specs.PathParts.{BeginBefore, path_at};
ghost use Rattle.place_index.specs.Taking.{path_back};

use crate::names::Names;
use crate::starts::Starts;
use crate::text_list::TextList;
use std::alloc::Global;
use std::marker::Model;

/// How many rows a path has, and their names.
#[derive(Debug, Drop)]
pub(crate) struct PathRows {
    pub(crate) len: usize,
    pub(crate) names: Names,
}

/// The parts of a domain's paths, in their order, which count from where the domain begins. Where they begin stands
/// apart from their rows, for an insertion or a removal moves the later ones.
#[derive(Debug, Drop)]
pub(crate) struct Paths {
    pub(crate) starts: Starts,
    pub(crate) rows: TextList<PathRows>,
}

impl Model for Paths {
    ghost use Rattle.std.specs.Prelude.{List, ℕ};
    ghost use Rattle.std.specs.Coded.{coded×, coded_list, coded_ℕ};
    ghost use Rattle.place_index.specs.Parts.{Part, part_code};
    ghost use Rattle.place_index.specs.PathParts.{path_at};
    ghost use Rattle.place_index.specs.Starts.{AreInOrder, with_starts};

    ghost Value = { List (List ℕ × Part) };

    ghost coded = { coded_list (coded× (coded_list coded_ℕ) part_code) };

    ghost view = { λ p. with_starts path_at p.starts p.rows };

    ghost invariant = { λ p. AreInOrder p.starts p.rows };
}

/// How many rows a domain has, and its paths' parts.
#[derive(Debug, Drop)]
pub(crate) struct DomainRows {
    pub(crate) len: usize,
    pub(crate) paths: Paths,
}

impl Paths {
    /// No part.
    pub(crate) fn new(alloc: Global) -> Paths
        ensures { result ≡ [] }
    {
        Paths {
            starts: Starts::new(alloc),
            rows: TextList::new(alloc),
        }
    }

    /// Where the path begins, and its rows.
    pub(crate) fn get(&self, text: &str) -> Option<(usize, &PathRows)>
        ensures { option_map (λ found. path_at found.0 found.1.now) result ≡ value_at text.now self.now }
    {
        let (place, rows) = self.rows.get_full(text)?;
        Some((self.starts.get(place), rows))
    }

    /// Has each path that begins at `at` or later begin one later.
    pub(crate) fn move_from(&mut self, at: usize)
        requires { BeginBefore last self.old }
        ensures { self.new ≡ with_values (moved_path at) self.old }
    {
        self.starts.move_from(at);
    }

    /// Has each path that begins behind `at` begin one earlier.
    pub(crate) fn move_back(&mut self, at: usize)
        ensures { self.new ≡ with_values (path_back at) self.old }
    {
        self.starts.move_back(at);
    }
}
