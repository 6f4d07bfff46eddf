//! Where the parts of a vector begin.

ghost use Rattle.std.specs.Prelude.{◌≡◌, ◌<◌, ◌++◌, [], ◌∷◌, All, OnErr, OnOk, get_or, length, map};
ghost use Rattle.std.specs.List.{remove};
ghost use Rattle.std.specs.List.Sorted.{IsNonDecreasing};
ghost use Rattle.place_index.specs.Index.{last, moved};
ghost use Rattle.place_index.specs.Taking.{moved_back};

use crate::moving::{move_starts, move_starts_back};
use crate::room::make_room;
use std::alloc::{AllocError, Global};
use std::marker::Model;

/// Where parts begin, in their order.
#[derive(Debug, Drop)]
pub(crate) struct Starts {
    numbers: Vec<usize>,
}

impl Model for Starts {
    ghost use Rattle.std.specs.Prelude.{List, ℕ};
    ghost use Rattle.std.specs.Coded.{coded_list, coded_ℕ};

    ghost Value = { List ℕ };

    ghost coded = { coded_list coded_ℕ };

    ghost view = { λ s. s.numbers.items };
}

impl Starts {
    /// No start.
    pub(crate) fn new(alloc: Global) -> Starts
        ensures { result ≡ [] }
    {
        Starts {
            numbers: Vec::new(alloc),
        }
    }

    /// How many there are.
    pub(crate) fn len(&self) -> usize
        ensures { result ≡ length self.now }
    {
        self.numbers.len()
    }

    /// The start at a place.
    pub(crate) fn get(&self, place: usize) -> usize
        requires { place < length self.now }
        ensures { result ≡ get_or self.now place 0 }
    {
        self.numbers[place]
    }

    /// Has one more, the last.
    pub(crate) fn push(&mut self, start: usize) -> Result<(), AllocError>
        ensures ok { OnOk result (self.new ≡ self.old ++ start ∷ []) }
        ensures err { OnErr result (self.new ≡ self.old) }
    {
        make_room(&mut self.numbers)?;
        self.numbers.push_reserved(start);
        Ok(())
    }

    /// Has the one at the place no more.
    pub(crate) fn remove(&mut self, place: usize)
        requires { place < length self.old }
        ensures { self.new ≡ remove self.old place }
    {
        self.numbers.remove(place);
    }

    /// Has each start at `at` or later be one later.
    pub(crate) fn move_from(&mut self, at: usize)
        requires ascend { IsNonDecreasing self.old }
        requires low { All (λ start. start < last) self.old }
        ensures { self.new ≡ map (moved at) self.old }
    {
        move_starts(&mut self.numbers, at);
    }

    /// Has each start behind `at` be one earlier.
    pub(crate) fn move_back(&mut self, at: usize)
        requires { IsNonDecreasing self.old }
        ensures { self.new ≡ map (moved_back at) self.old }
    {
        move_starts_back(&mut self.numbers, at);
    }
}
