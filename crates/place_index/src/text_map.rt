//! Values by text, in the order in which their texts came.

ghost use Rattle.std.specs.Prelude.{◌≡◌, ◌<◌, [], IsTrue, IfOk, OnOk, OnErr, Some, None, length, map, slice_get};
ghost use Rattle.std.specs.Prelude.{string_bytes, option_map};
ghost use Rattle.std.specs.Borrow.{sem};
ghost use Rattle.place_index.specs.Entries.{place_of, value_at, with_value, without};
ghost use Rattle.place_index.specs.Lending.{LendsAt};

use crate::names::FEW;
use indexmap::IndexMap;
use std::alloc::{AllocError, Global};
use std::marker::Model;

/// Values by text, in the order in which their texts came, and how long a text can be that has one: so one that is
/// longer is told without its hash. A few have no room for more.
#[derive(Debug, Drop)]
pub(crate) struct TextMap<V> {
    pub(crate) entries: IndexMap<String, V>,
    longest: usize,
}

impl<V> Model for TextMap<V> {
    ghost use Rattle.std.specs.Prelude.{List, ℕ};
    ghost use Rattle.std.specs.Coded.{coded_list, coded×, coded_ℕ};
    ghost use Rattle.place_index.specs.Entries.{AreUpTo, by_bytes};

    ghost Value = { List (List ℕ × V) };

    ghost coded = { coded_list (coded× (coded_list coded_ℕ) V.code) };

    ghost view = { λ m. by_bytes m.entries.entries };

    ghost invariant = { λ m. AreUpTo m.longest (by_bytes m.entries.entries) };
}

impl<V> TextMap<V> {
    /// The map with nothing in it.
    pub(crate) fn new(alloc: Global) -> TextMap<V>
        ensures { result ≡ [] }
    {
        TextMap {
            entries: IndexMap::new(alloc),
            longest: 0,
        }
    }

    // Whether the text is longer than each that has a value.
    fn is_longer(&self, key: &str) -> bool
        ensures { IsTrue result → place_of key.now self.now ≡ None }
    {
        key.len() > self.longest
    }

    /// Which value is the text's, counted from 0.
    pub(crate) fn place(&self, key: &str) -> Option<usize>
        ensures { result ≡ place_of key.now self.now }
    {
        self.entries.get_index_of(key)
    }

    /// The value of a text, and which it is.
    pub(crate) fn get_full(&self, key: &str) -> Option<(usize, &V)>
        ensures place { option_map (λ found. found.0) result ≡ place_of key.now self.now }
        ensures value { option_map (λ found. found.1.now) result ≡ value_at key.now self.now }
    {
        if self.is_longer(key) {
            return None;
        }
        let (place, _, value) = self.entries.get_full(key)?;
        Some((place, value))
    }

    /// The value at a place, to be changed.
    pub(crate) fn value_mut(&mut self, place: usize) -> &mut V
        requires { place < length self.old }
        ensures* writes_back { sem 𝓛 (LendsAt V.row self.entry place result) }
        ensures value { slice_get (map (λ e. e.1) self.old) place ≡ Some result.now }
    {
        &mut self.entries[place]
    }
}

impl<V: Drop> TextMap<V> {
    /// Puts the value in the place of the one that the text has, else at the end.
    /// Answers that one.
    pub(crate) fn insert(&mut self, key: String, value: V) -> Result<Option<V>, AllocError>
        ensures ok { OnOk result (self.new ≡ with_value self.old (string_bytes key) value) }
        ensures before { IfOk result (λ before. before ≡ value_at (string_bytes key) self.old) }
        ensures err { OnErr result (self.new ≡ self.old) }
    {
        let longest = self.longest.max(key.len());
        match self.entries.insert(key, value) {
            Ok(before) => {
                self.longest = longest;
                trim(&mut self.entries);
                Ok(before)
            }
            Err(_) => Err(AllocError),
        }
    }

    /// Takes the value of the text out, where there is one.
    pub(crate) fn remove(&mut self, key: &str)
        ensures rest { self.new ≡ without key.now self.old }
        ensures gone { value_at key.now self.new ≡ None }
    {
        self.entries.shift_remove(key);
    }
}

// Gives back the room of a map of few entries.
fn trim<V>(entries: &mut IndexMap<String, V>)
    ensures { entries.new.entries ≡ entries.old.entries }
{
    if entries.len() <= FEW {
        entries.shrink_to_fit();
    }
}
