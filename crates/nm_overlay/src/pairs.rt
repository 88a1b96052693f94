//! Paths and what stands there, in path order: a sorted list, seen as a finite map.

ghost use Rattle.std.specs.Prelude.{◌≡◌, List, IfOk, OnOk, OnErr, Some, cond, filter, option_copied};
ghost use Rattle.std.specs.FinMap as map;
ghost use Rattle.nm_types.specs.Path.{PathStep, path_cmp};
ghost use Rattle.nm_config.specs.Under.{is_under as under_node};
ghost use Rattle.nm_overlay.specs.Places.{Ascends, is_after, said_below};

use crate::places::{after, copy_pairs, found, put, remove, replace_under};
use nm_base::NoMemory;
use nm_types::{Path, Value};
use std::alloc::Global;
use std::marker::Model;

/// Pairs of a path and what stands there, of which no two have one path.
#[derive(Drop)]
pub struct Pairs {
    sorted: Vec<(Path, Option<Value>)>,
}

impl Model for Pairs {
    ghost use Rattle.nm_overlay.specs.Differences.{Changes};
    ghost use Rattle.nm_overlay.specs.Places.{Ascends};
    ghost use Rattle.std.specs.Coded.{coded_option};
    ghost use Rattle.std.specs.FinMap as map;
    ghost use Rattle.nm_types.specs.contracts.path.Path as path;
    ghost use Rattle.nm_types.specs.contracts.value.Value as value;

    ghost Value = { Changes };

    ghost coded = { map.code path.the_row.coded (coded_option value.the_row.coded) };

    ghost view = { λ pairs. map.from_entries pairs.sorted.items };

    ghost invariant = { λ pairs. Ascends pairs.sorted.items };
}

impl Pairs {
    /// No pairs. It takes no memory.
    pub fn new(alloc: Global) -> Pairs
        ensures { result ≡ map.empty }
    {
        Pairs {
            sorted: Vec::new(alloc),
        }
    }

    /// All pairs, in path order, lent as they are kept.
    pub fn all(&self) -> &[(Path, Option<Value>)]
        ensures { result.now ≡ map.entries self.now }
    {
        &self.sorted
    }

    /// What stands at a path, where there is a pair for it: a search by halves.
    pub fn at(&self, path: &Path) -> Option<&Option<Value>>
        ensures { option_copied result ≡ map.get self.now path.now }
    {
        found(&self.sorted, path)
    }

    /// Says what is to stand at a path, whatever was said of it before.
    pub fn put(&mut self, path: Path, change: Option<Value>) -> Result<(), NoMemory>
        ensures ok { OnOk result (self.new ≡ map.insert self.old path change) }
        ensures err { OnErr result (self.new ≡ self.old) }
    {
        put(&mut self.sorted, path, change)
    }

    /// Takes away what is said of a path, if anything is. It takes no memory.
    pub fn remove(&mut self, path: &Path)
        ensures { self.new ≡ map.remove self.old path.now }
    {
        remove(&mut self.sorted, path);
    }

    /// Says that a value is to stand at a path, or nothing of it where the value stands there anyway.
    pub fn set(&mut self, path: Path, value: Value, kept: bool) -> Result<(), NoMemory>
        ensures ok { OnOk result (self.new ≡ cond kept (map.remove self.old path) (map.insert self.old path (Some value))) }
        ensures err { OnErr result (self.new ≡ self.old) }
    {
        if kept {
            self.remove(&path);
            return Ok(());
        }
        self.put(path, Some(value))
    }

    /// Puts these pairs at or below a node in the place of all that are there.
    pub fn replace_under(
        &mut self,
        node: &Path,
        others: Vec<(Path, Option<Value>)>,
    ) -> Result<(), NoMemory>
        requires ascends { Ascends others.items }
        requires below { filter (λ pair. under_node node.now pair.0) others.items ≡ others.items }
        ensures ok { (path : List PathStep) → OnOk result (map.get self.new path ≡ said_below node.now others.items path (map.get self.old path)) }
        ensures err { OnErr result (self.new ≡ self.old) }
    {
        replace_under(&mut self.sorted, node, others)
    }

    /// The pairs after a path, and all where there is none to stand after.
    pub fn after(&self, path: Option<&Path>) -> &[(Path, Option<Value>)]
        ensures { result.now ≡ filter (λ pair. is_after (option_copied path.entry) pair.0) (map.entries self.now) }
    {
        after(&self.sorted, path)
    }

    /// Equal pairs. It copies no bytes of names and texts.
    pub fn copy(&self, alloc: Global) -> Result<Pairs, NoMemory>
        ensures { IfOk result (λ copied. copied ≡ self.now) }
    {
        let sorted = copy_pairs(alloc, &self.sorted)?;
        Ok(Pairs { sorted })
    }
}
