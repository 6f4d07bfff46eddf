//! Values by name.

ghost use Rattle.std.specs.Prelude.{◌≡◌, OnOk, OnErr, is_some, string_bytes, option_copied};
ghost use Rattle.std.specs.FinMap as finmap;
ghost use Rattle.cookie.specs.ByName.{Lists, by_bytes};

use indexmap::IndexMap;
use indexmap::map::Iter;
use std::alloc::{AllocError, Global};
use std::marker::Model;

/// Values by name, in the order in which their names came.
#[derive(Debug, Drop)]
pub struct NameMap<V> {
    entries: IndexMap<String, V>,
}

impl<V> Model for NameMap<V> {
    ghost use Rattle.std.specs.FinMap as finmap;
    ghost use Rattle.std.specs.Coded.{coded_list, coded_ℕ};
    ghost use Rattle.cookie.specs.ByName.{ByName, by_bytes};

    ghost Value = { ByName V };

    ghost coded = { finmap.code (coded_list coded_ℕ) V.code };

    ghost view = { λ m. finmap.from_entries (by_bytes m.entries.entries) };
}

impl<V> NameMap<V> {
    /// The map with nothing in it.
    pub fn new(alloc: Global) -> NameMap<V>
        ensures { result ≡ finmap.empty }
    {
        NameMap {
            entries: IndexMap::new(alloc),
        }
    }

    /// The value of a name.
    pub fn get(&self, name: &str) -> Option<&V>
        ensures { option_copied result ≡ finmap.get self.now name.now }
    {
        self.entries.get(name)
    }

    /// The entries, in no promised order.
    pub fn iter(&self) -> Iter<'_, String, V>
        ensures { Lists (by_bytes result) (finmap.get self.now) }
    {
        self.entries.iter()
    }

    /// Whether a name has a value.
    pub fn contains(&self, name: &str) -> bool
        ensures { result ≡ is_some (finmap.get self.now name.now) }
    {
        self.entries.contains_key(name)
    }
}

impl<V: Drop> NameMap<V> {
    /// Puts the value under the name, in the place of the one that it has.
    ///
    /// # Errors
    ///
    /// Want of memory. The map is unchanged then.
    pub fn insert(&mut self, name: String, value: V) -> Result<(), AllocError>
        ensures ok { OnOk result (self.new ≡ finmap.insert self.old (string_bytes name) value) }
        ensures err { OnErr result (self.new ≡ self.old) }
    {
        match self.entries.insert(name, value) {
            Ok(_) => Ok(()),
            Err(_) => Err(AllocError),
        }
    }

    /// Takes the value of the name out, where there is one.
    pub fn remove(&mut self, name: &str)
        ensures { self.new ≡ finmap.remove self.old name.now }
    {
        let _ = self.entries.shift_remove(name);
    }
}
