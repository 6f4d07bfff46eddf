//! Texts that are found one by one, or by their hashes.

ghost use Rattle.std.specs.Prelude.{◌≡◌, ◌++◌, ◌<◌, ◌^◌, [], ◌∷◌, false, map, IfOk, IfSome, OnOk, OnErr, position};
ghost use Rattle.std.specs.Prelude.{string_bytes};
ghost use Rattle.std.specs.List.{list_any, remove};
ghost use Rattle.std.specs.Str.{bytes_eq};

use indexmap::IndexSet;
use std::alloc::{AllocError, Global};
use std::marker::Model;

/// How many texts are looked through one by one.
pub(crate) const FEW: usize = 8;

/// Texts in their order, no two of which are one. The first few are looked through one by one; only those behind them
/// have a table, which goes with the last of them.
#[derive(Debug, Drop)]
pub(crate) struct Names {
    few: Vec<String>,
    more: Option<Box<IndexSet<String>>>,
}

impl Model for Names {
    ghost use Rattle.std.specs.Prelude.{◌++◌, List, ℕ, map, string_bytes};
    ghost use Rattle.std.specs.Coded.{coded_list, coded_ℕ};
    ghost use Rattle.place_index.specs.Texts.{texts_of};

    ghost Value = { List (List ℕ) };

    ghost coded = { coded_list (coded_list coded_ℕ) };

    ghost view = { λ n. map string_bytes n.few.items ++ texts_of (λ table. map string_bytes table.value.keys) n.more };
}

impl Names {
    /// No text.
    pub(crate) fn new(alloc: Global) -> Names
        ensures { result ≡ [] }
    {
        Names {
            few: Vec::new(alloc),
            more: None,
        }
    }

    /// Which text it is, counted from 0.
    pub(crate) fn place(&self, name: &str) -> Option<usize>
        ensures { result ≡ position (bytes_eq name.now) self.now }
    {
        if let Some(place) = find(self.few.as_slice(), name) {
            return Some(place);
        }
        match &self.more {
            Some(table) => {
                let later = find_by_hash(&**table, name)?;
                Some(self.few.len() + later)
            }
            None => None,
        }
    }

    /// Has a text more, the last.
    pub(crate) fn push(&mut self, alloc: Global, name: &str) -> Result<(), AllocError>
        requires { list_any (bytes_eq name.now) self.old ≡ false }
        ensures ok { OnOk result (self.new ≡ self.old ++ name.now ∷ []) }
        ensures err { OnErr result (self.new ≡ self.old) }
    {
        let text = String::from_str(alloc, name)?;
        if let Some(table) = &mut self.more {
            return put_in(&mut **table, text);
        }
        if self.few.len() < FEW {
            self.few.reserve_exact(1)?;
            self.few.push_reserved(text);
            return Ok(());
        }
        self.more = Some(table_of(alloc, text)?);
        Ok(())
    }

    /// Has the text at the place no more.
    pub(crate) fn take(&mut self, place: usize)
        ensures { self.new ≡ remove self.old place }
    {
        let few = self.few.len();
        if place < few {
            self.few.remove(place);
            return;
        }
        if let Some(table) = &mut self.more {
            table.shift_remove_index(place - few);
            if table.is_empty() {
                self.more = None;
            }
        }
    }
}

// Which of the texts it is, counted from 0.
fn find(texts: &[String], name: &str) -> Option<usize>
    ensures { result ≡ position (bytes_eq name.now) (map string_bytes texts.now) }
{
    for i in 0..texts.len() {
        if name == texts[i].as_str() {
            return Some(i);
        }
    }
    None
}

// Which of the table's texts it is, counted from 0.
fn find_by_hash(table: &IndexSet<String>, name: &str) -> Option<usize>
    ensures place { result ≡ position (bytes_eq name.now) (map string_bytes table.now.keys) }
    ensures small { IfSome result (λ place. place < 2 ^ 63) }
{
    let place = table.get_index_of(name)?;
    if place < table.len() {
        Some(place)
    } else {
        None
    }
}

// Puts a text behind those of the table.
fn put_in(table: &mut IndexSet<String>, text: String) -> Result<(), AllocError>
    requires { list_any (bytes_eq (string_bytes text)) (map string_bytes table.old.keys) ≡ false }
    ensures ok { OnOk result (map string_bytes table.new.keys
        ≡ map string_bytes table.old.keys ++ string_bytes text ∷ []) }
    ensures err { OnErr result (map string_bytes table.new.keys ≡ map string_bytes table.old.keys) }
{
    match table.insert(text) {
        Ok(_) => Ok(()),
        Err(_) => Err(AllocError),
    }
}

// The table of one text.
fn table_of(alloc: Global, text: String) -> Result<Box<IndexSet<String>>, AllocError>
    ensures { IfOk result (λ table. map string_bytes table.value.keys ≡ string_bytes text ∷ []) }
{
    let mut table = IndexSet::new(alloc);
    put_in(&mut table, text)?;
    Ok(Box::new(alloc, table)?)
}
