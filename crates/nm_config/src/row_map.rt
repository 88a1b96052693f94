//! What a layer asks of rows, whether they are a configuration by itself or lie over another one.

ghost use Rattle.std.specs.Prelude.{◌≡◌, IfOk, OnOk, OnErr, map as each, option_copied};
ghost use Rattle.std.specs.FinMap as map;
ghost use Rattle.std.specs.Map.Iter.{deref_pair};
ghost use Rattle.nm_config.specs.Rows.{Rows, next_of, counted};
ghost use Rattle.nm_config.specs.Under.{has_under, without_under};

use crate::config::Config;
use nm_base::NoMemory;
use nm_types::{Path, Value};
use std::alloc::Global;

/// Rows by their paths. What is written over it holds of each kind of configuration.
pub trait RowMap {
    /// The rows that it has.
    ghost rows: { Self → Rows };

    /// What it lies over, which no call changes: nothing for a configuration by itself.
    ghost base: { Self → Rows };

    /// The value of the row at a path. It takes no memory.
    fn value(&self, path: &Path) -> Option<&Value>
        ensures { option_copied result ≡ map.get (rows self.now) path.now };

    /// Whether there is a row at or below a node. It takes no memory.
    fn any_under(&self, node: &Path) -> bool
        ensures { result ≡ has_under (rows self.now) node.now };

    /// The first path with a row after this path, and the first of all for None. It takes no memory.
    fn next_after(&self, path: Option<&Path>) -> Option<&Path>
        ensures { option_copied result ≡ next_of (rows self.now) (option_copied path.entry) };

    /// How many rows there are, and 4294967295 where there are more. It takes no memory.
    fn row_count(&self) -> u32
        ensures { result ≡ counted (map.len (rows self.now)) };

    /// Gives the row at a path this value.
    fn put(&mut self, path: Path, value: Value) -> Result<(), NoMemory>
        ensures ok { OnOk result (rows self.new ≡ map.insert (rows self.old) path value) }
        ensures err { OnErr result (rows self.new ≡ rows self.old) }
        ensures base { base self.new ≡ base self.old };

    /// Takes away the row at a node and each row below it.
    fn take_under(&mut self, node: &Path) -> Result<(), NoMemory>
        ensures ok { OnOk result (rows self.new ≡ without_under (rows self.old) node.now) }
        ensures err { OnErr result (rows self.new ≡ rows self.old) }
        ensures base { base self.new ≡ base self.old };

    /// All rows in path order, lent.
    fn listed(&self, alloc: Global) -> Result<Vec<(&Path, &Value)>, NoMemory>
        ensures { IfOk result (λ all. each deref_pair all.items ≡ map.entries (rows self.now)) };
}

impl RowMap for Config {
    ghost use Rattle.std.specs.FinMap.{empty};

    ghost rows = { λ config. config };

    ghost base = { λ config. empty };

    fn value(&self, path: &Path) -> Option<&Value> {
        self.value(path)
    }

    fn any_under(&self, node: &Path) -> bool {
        self.any_under(node)
    }

    fn next_after(&self, path: Option<&Path>) -> Option<&Path> {
        match path {
            Some(path) => self.next_after(path),
            None => self.first_path(),
        }
    }

    fn row_count(&self) -> u32 {
        u32::try_from(self.len()).unwrap_or(u32::MAX)
    }

    fn put(&mut self, path: Path, value: Value) -> Result<(), NoMemory> {
        self.put(path, value)?;
        Ok(())
    }

    fn take_under(&mut self, node: &Path) -> Result<(), NoMemory> {
        self.remove_under(node);
        Ok(())
    }

    fn listed(&self, alloc: Global) -> Result<Vec<(&Path, &Value)>, NoMemory> {
        let mut all = Vec::with_capacity(alloc, self.len())?;
        for row in self.iter() {
            all.push(row)?;
        }
        Ok(all)
    }
}
