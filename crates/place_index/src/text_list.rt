//! Values by text, of which there are few in nearly all lists, in the order in which their texts came.

ghost use Rattle.std.specs.Prelude.{◌≡◌, ◌<◌, [], IsTrue, OnOk, OnErr, Some, None, length, map, slice_get};
ghost use Rattle.std.specs.Prelude.{option_map};
ghost use Rattle.std.specs.Borrow.{sem};
ghost use Rattle.std.specs.List.{remove};
ghost use Rattle.place_index.specs.Entries.{place_of, value_at, with_value};
ghost use Rattle.place_index.specs.Lending.{LendsIn};

use crate::names::Names;
use crate::room::make_room;
use std::alloc::{AllocError, Global};
use std::marker::Model;

/// Values by text, in the order in which their texts came, and how long a text can be that has one: so one that is
/// longer is told without its hash. A few have no table, and no room for more.
#[derive(Debug, Drop)]
pub(crate) struct TextList<V> {
    texts: Names,
    values: Vec<V>,
    longest: usize,
}

impl<V> Model for TextList<V> {
    ghost use Rattle.std.specs.Prelude.{List, ℕ};
    ghost use Rattle.std.specs.Coded.{coded_list, coded×, coded_ℕ};
    ghost use Rattle.std.specs.List.{zip};
    ghost use Rattle.place_index.specs.Entries.{AreSideBySide};

    ghost Value = { List (List ℕ × V) };

    ghost coded = { coded_list (coded× (coded_list coded_ℕ) V.code) };

    ghost view = { λ l. zip l.texts l.values.items };

    ghost invariant = { λ l. AreSideBySide l.longest l.texts l.values.items };
}

impl<V> TextList<V> {
    /// The list with nothing in it.
    pub(crate) fn new(alloc: Global) -> TextList<V>
        ensures { result ≡ [] }
    {
        TextList {
            texts: Names::new(alloc),
            values: Vec::new(alloc),
            longest: 0,
        }
    }

    // Whether the text is longer than each that has a value.
    fn is_longer(&self, text: &str) -> bool
        ensures { IsTrue result → place_of text.now self.now ≡ None }
    {
        text.len() > self.longest
    }

    /// Which value is the text's, counted from 0.
    pub(crate) fn place(&self, text: &str) -> Option<usize>
        ensures { result ≡ place_of text.now self.now }
    {
        if self.is_longer(text) {
            return None;
        }
        self.texts.place(text)
    }

    /// The value of a text, and which it is.
    pub(crate) fn get_full(&self, text: &str) -> Option<(usize, &V)>
        ensures place { option_map (λ found. found.0) result ≡ place_of text.now self.now }
        ensures value { option_map (λ found. found.1.now) result ≡ value_at text.now self.now }
    {
        let place = self.place(text)?;
        Some((place, &self.values[place]))
    }

    /// The value at a place, to be changed.
    pub(crate) fn value_mut(&mut self, place: usize) -> &mut V
        requires { place < length self.old }
        ensures* writes_back { sem 𝓛 (LendsIn V.row self.entry place result) }
        ensures value { slice_get (map (λ e. e.1) self.old) place ≡ Some result.now }
    {
        &mut self.values[place]
    }
}

impl<V: Drop> TextList<V> {
    /// Has the value of a text more that has none, the last.
    pub(crate) fn push(&mut self, alloc: Global, text: &str, value: V) -> Result<(), AllocError>
        requires { place_of text.now self.old ≡ None }
        ensures ok { OnOk result (self.new ≡ with_value self.old text.now value) }
        ensures err { OnErr result (self.new ≡ self.old) }
    {
        make_room(&mut self.values)?;
        self.texts.push(alloc, text)?;
        self.values.push_reserved(value);
        self.longest = self.longest.max(text.len());
        Ok(())
    }

    /// Has the value at the place, and its text, no more.
    pub(crate) fn remove(&mut self, place: usize)
        requires { place < length self.old }
        ensures { self.new ≡ remove self.old place }
    {
        self.texts.take(place);
        self.values.remove(place);
    }
}
