//! A map from numbers, which cells, marks and edits of flat contents share.

ghost use Rattle.std.specs.Prelude.{◌≡◌, ◌↔◌, ℕ, IsTrue, IfOk, OnOk, OnErr, None};
ghost use Rattle.std.specs.Ordering.{nat_cmp};
ghost use Rattle.std.specs.FinMap as map;
ghost use Rattle.std.specs.Map.Iter.{ShowsInOrder, deref_pair};

use nm_base::NoMemory;
use std::alloc::Global;
use std::collections::BTreeMap;
use std::collections::btree_map::Iter;
use std::marker::Model;

/// A finite map from numbers to small values. It keeps its allocator.
#[derive(Drop)]
pub struct NumberMap<V> {
    alloc: Global,
    tree: BTreeMap<u32, V>,
}

impl<V> Model for NumberMap<V> {
    ghost use Rattle.std.specs.Ordering.{nat_cmp};
    ghost use Rattle.std.specs.FinMap as map;
    ghost use Rattle.std.specs.Coded.{coded_ℕ};

    ghost Value = { map.FinMap nat_cmp V };

    ghost coded = { map.code coded_ℕ V.code };

    ghost view = { λ m. map.from_entries m.tree.entries };
}

impl<V: Copy> NumberMap<V> {
    /// The map without entries. It takes no memory.
    pub fn new(alloc: Global) -> NumberMap<V>
        ensures { result ≡ map.empty }
    {
        NumberMap {
            alloc,
            tree: BTreeMap::new(alloc),
        }
    }

    /// The value of a number.
    pub fn get(&self, number: u32) -> Option<V>
        ensures { result ≡ map.get self.now number }
    {
        self.tree.get(&number).copied()
    }

    /// Whether the number has a value.
    pub fn contains(&self, number: u32) -> bool
        ensures { result ≡ map.contains_key self.now number }
    {
        self.get(number).is_some()
    }

    /// How many numbers have a value.
    pub fn len(&self) -> usize
        ensures { result ≡ map.len self.now }
    {
        self.tree.len()
    }

    /// Whether no number has a value.
    pub fn is_empty(&self) -> bool
        ensures { IsTrue result ↔ (self.now ≡ map.empty) }
    {
        self.len() == 0
    }

    /// Gives the number this value, and answers the one before. Only a new number may find no memory.
    pub fn insert(&mut self, number: u32, value: V) -> Result<Option<V>, NoMemory>
        ensures before { IfOk result (λ before. before ≡ map.get self.old number) }
        ensures ok { OnOk result (self.new ≡ map.insert self.old number value) }
        ensures only_new { OnErr result (map.get self.old number ≡ None) }
        ensures err { OnErr result (self.new ≡ self.old) }
    {
        Ok(self.tree.insert(number, value)?)
    }

    /// Takes the value of a number away, and answers it.
    pub fn remove(&mut self, number: u32) -> Option<V>
        ensures before { result ≡ map.get self.old number }
        ensures removed { self.new ≡ map.remove self.old number }
    {
        self.tree.remove(&number)
    }

    /// The entries, in ascending order of the numbers.
    pub fn iter(&self) -> Iter<'_, u32, V>
        ensures entries { result ≡ map.entries self.now }
        ensures runs { ShowsInOrder (deref_pair {K = ℕ} {X = V}) }
    {
        self.tree.iter()
    }

    /// An equal map.
    pub fn copy(&self) -> Result<NumberMap<V>, NoMemory>
        ensures { IfOk result (λ copied. copied ≡ self.now) }
    {
        let mut copied = NumberMap::new(self.alloc);
        for (number, value) in self.iter() {
            copied.insert(*number, *value)?;
        }
        Ok(copied)
    }
}
