//! A configuration over a base: the pairs at which it differs, each call a search or one merge.

ghost use Rattle.std.specs.Prelude.{◌≡◌, IfOk, option_copied, map as each};
ghost use Rattle.std.specs.FinMap as map;
ghost use Rattle.std.specs.Map.Iter.{deref_pair};
ghost use Rattle.nm_config.specs.Rows.{next_of, counted};
ghost use Rattle.nm_config.specs.Under.{has_under, without_under};
ghost use Rattle.nm_overlay.specs.Differences.{Overlaid, differences};

use crate::pairs::Pairs;
use crate::rows::{any_under, copies_of, count, gone_under, is_value, list, next_after, value_of};
use nm_base::NoMemory;
use nm_config::{Config, RowMap};
use nm_types::{Path, Value};
use std::alloc::Global;
use std::marker::Model;
use std::sync::Arc;

/// A configuration that shares a base with others, and keeps what it changes of it. It keeps its allocator.
#[derive(Drop)]
pub struct Overlay {
    alloc: Global,
    base: Arc<Config>,
    pairs: Pairs,
}

impl Model for Overlay {
    ghost use Rattle.std.specs.Prelude.{◌≡◌, List, true};
    ghost use Rattle.std.specs.FinMap as map;
    ghost use Rattle.nm_types.specs.Path.{PathStep};
    ghost use Rattle.nm_types.specs.contracts.path.Path as path;
    ghost use Rattle.nm_types.specs.contracts.value.Value as value;
    ghost use Rattle.nm_overlay.specs.Differences.{Overlaid, coded_overlaid, overridden, changes_at};

    ghost Value = { Overlaid };

    ghost coded = { coded_overlaid (map.code path.the_row.coded value.the_row.coded) };

    ghost view = { λ overlay. record { base = overlay.base.value; rows = overridden overlay.base.value overlay.pairs } };

    ghost invariant = { λ overlay. (path : List PathStep) → changes_at (map.get overlay.pairs path) (map.get overlay.base.value path) ≡ true };
}

impl Overlay {
    /// The rows of a base, of which nothing is changed. It takes no memory.
    pub fn new(alloc: Global, base: Arc<Config>) -> Overlay
        ensures base { result.base ≡ base.value }
        ensures rows { result.rows ≡ base.value }
    {
        Overlay {
            alloc,
            base,
            pairs: Pairs::new(alloc),
        }
    }

    /// The rows of a configuration, which becomes the base, and of which nothing is changed. It copies no row.
    pub fn over(alloc: Global, base: Config) -> Result<Overlay, NoMemory>
        ensures base { IfOk result (λ overlay. overlay.base ≡ base) }
        ensures rows { IfOk result (λ overlay. overlay.rows ≡ base) }
    {
        let shared = Arc::new(alloc, base)?;
        Ok(Overlay::new(alloc, shared))
    }

    /// What it lies over, which others may share. It takes no memory.
    pub fn base(&self) -> &Config
        ensures { result.now ≡ self.now.base }
    {
        &self.base
    }

    /// The paths at which its rows differ from the base, in path order, each with what stands there now. They are lent
    /// as they are kept: it takes no memory.
    pub fn pairs(&self) -> &[(Path, Option<Value>)]
        ensures { result.now ≡ map.entries (differences self.now.base self.now.rows) }
    {
        self.pairs.all()
    }

    /// An equal overlay over the same base. It copies the pairs, and nothing of the base.
    pub fn copy(&self) -> Result<Overlay, NoMemory>
        ensures { IfOk result (λ copied. copied ≡ self.now) }
    {
        let base = Arc::try_clone(&self.base)?;
        let pairs = self.pairs.copy(self.alloc)?;
        Ok(Overlay {
            alloc: self.alloc,
            base,
            pairs,
        })
    }

    /// A configuration by itself of the same rows. It copies each row, but no bytes of names and texts.
    pub fn flat(&self) -> Result<Config, NoMemory>
        ensures { IfOk result (λ flat. flat ≡ self.now.rows) }
    {
        let rows = list(self.alloc, &self.base, self.pairs.all())?;
        let copies = copies_of(self.alloc, &rows)?;
        Config::of_rows(self.alloc, copies)
    }
}

impl RowMap for Overlay {
    ghost rows = { λ overlay. overlay.rows };

    ghost base = { λ overlay. overlay.base };

    fn value(&self, path: &Path) -> Option<&Value> {
        value_of(&self.base, &self.pairs, path)
    }

    fn any_under(&self, node: &Path) -> bool {
        any_under(&self.base, &self.pairs, node)
    }

    fn next_after(&self, path: Option<&Path>) -> Option<&Path> {
        next_after(&self.base, &self.pairs, path)
    }

    fn row_count(&self) -> u32 {
        count(&self.base, self.pairs.all())
    }

    fn put(&mut self, path: Path, value: Value) -> Result<(), NoMemory> {
        let kept = is_value(self.base.value(&path), &value);
        self.pairs.set(path, value, kept)
    }

    fn take_under(&mut self, node: &Path) -> Result<(), NoMemory> {
        let gone = gone_under(self.alloc, &*self.base, node)?;
        self.pairs.replace_under(node, gone)
    }

    fn listed(&self, alloc: Global) -> Result<Vec<(&Path, &Value)>, NoMemory> {
        list(alloc, &self.base, self.pairs.all())
    }
}
