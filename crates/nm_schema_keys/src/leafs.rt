//! The key leafs of a list.

ghost use Rattle.std.specs.Prelude.{◌≡◌, ◌++◌, ◌∷◌, [], length, nat_eq, OnOk};
ghost use Rattle.nm_schema_keys.specs.Keys.{has_row, row_found};

use crate::found::Found;
use nm_base::NoMemory;
use std::alloc::Global;
use std::collections::BTreeSet;
use std::marker::Model;

/// The rows of the key leafs of a list, in the order of its `key`. They are seen as their list.
#[derive(Drop)]
pub struct Keys {
    all: Vec<usize>,
    set: BTreeSet<usize>,
}

impl Model for Keys {
    ghost use Rattle.std.specs.Prelude.{List, ℕ};
    ghost use Rattle.nm_schema_keys.specs.Leafs.{HasSame};

    ghost Value = { List ℕ };

    ghost view = { λ k. k.all.items };

    ghost invariant = { λ k. HasSame k.set k.all.items };
}

impl Keys {
    /// No leafs.
    pub(crate) fn new(alloc: Global) -> Keys
        ensures { result ≡ [] }
    {
        Keys {
            all: Vec::new(alloc),
            set: BTreeSet::new(alloc),
        }
    }

    // Adds a leaf at the end.
    fn push(&mut self, leaf: usize) -> Result<(), NoMemory>
        ensures { OnOk result (self.new ≡ self.old ++ leaf ∷ []) }
    {
        self.all.push(leaf)?;
        match self.set.insert(leaf) {
            Ok(_) => Ok(()),
            Err(_) => {
                self.all.pop();
                Err(NoMemory)
            }
        }
    }

    /// Adds the leaf that is found, if any, at the end.
    pub(crate) fn add(&mut self, found: Found) -> Result<(), NoMemory>
        ensures { OnOk result (self.new ≡ self.old ++ row_found found) }
    {
        match found {
            Found::Row(leaf) => self.push(leaf),
            Found::Missing => Ok(()),
            Found::Unknown => Ok(()),
        }
    }

    /// Whether a row is one of the key leafs. It takes time as the logarithm of how many these are.
    pub fn has(&self, row: usize) -> bool
        ensures { result ≡ has_row self.now row }
    {
        self.set.contains(&row)
    }

    /// How many key leafs there are.
    pub fn len(&self) -> usize
        ensures { result ≡ length self.now }
    {
        self.all.len()
    }

    /// Whether there are no key leafs.
    pub fn is_empty(&self) -> bool
        ensures { result ≡ nat_eq (length self.now) 0 }
    {
        self.all.is_empty()
    }

    /// The rows of the key leafs.
    pub fn as_slice(&self) -> &[usize]
        ensures { result.now ≡ self.now }
    {
        self.all.as_slice()
    }
}
