//! A configuration in memory: a map of its rows in path order, each of whose calls is that of a finite map.

ghost use Rattle.std.specs.Prelude.{◌≡◌, ◌↔◌, List, IsTrue, IfOk, OnOk, OnErr, None, option_copied, slice_get};
ghost use Rattle.std.specs.FinMap as map;
ghost use Rattle.std.specs.Map.Iter.{ShowsInOrder, deref_pair};
ghost use Rattle.std.specs.List.{list_any};
ghost use Rattle.std.specs.BTreeMap.{keys, IsOrdered};
ghost use Rattle.nm_types.specs.Path.{PathStep, path_cmp};
ghost use Rattle.nm_types.specs.declared.value.Value.{Value as LeafValue};
ghost use Rattle.nm_config.specs.Rows.{next_path, with_entries};
ghost use Rattle.nm_config.specs.Under.{is_under as under_node, rows_under, rows_outside, has_under, under, without_rows, without_under};

use crate::rough::of_row;
use crate::under::is_under;
use nm_base::NoMemory;
use nm_types::{Path, Value};
use std::alloc::Global;
use std::collections::BTreeMap;
use std::collections::btree_map::Iter;
use std::marker::Model;
use std::ops::Bound;

/// A configuration: a value for the path of each row. It keeps its allocator.
#[derive(Drop)]
pub struct Config {
    alloc: Global,
    tree: BTreeMap<Path, Value>,
}

impl Model for Config {
    ghost use Rattle.nm_config.specs.Rows.{Rows};
    ghost use Rattle.std.specs.FinMap as map;
    ghost use Rattle.nm_types.specs.contracts.path.Path as path;
    ghost use Rattle.nm_types.specs.contracts.value.Value as value;

    ghost Value = { Rows };

    ghost coded = { map.code path.the_row.coded value.the_row.coded };

    ghost view = { λ config. map.from_entries config.tree.entries };
}

impl Config {
    /// The configuration without rows. It takes no memory.
    pub fn new(alloc: Global) -> Config
        ensures { result ≡ map.empty }
    {
        Config {
            alloc,
            tree: BTreeMap::new(alloc),
        }
    }

    /// The configuration of some rows, in any order. Where rows have one path, the last of them stands.
    pub fn of_rows(alloc: Global, rows: Vec<(Path, Value)>) -> Result<Config, NoMemory>
        ensures { IfOk result (λ config. config ≡ with_entries map.empty rows.items) }
    {
        let near = in_rough_order(rows)?;
        let tree = BTreeMap::from_iter(alloc, near)?;
        Ok(Config { alloc, tree })
    }

    /// How many rows there are.
    pub fn len(&self) -> usize
        ensures { result ≡ map.len self.now }
    {
        self.tree.len()
    }

    /// Whether there is no row.
    pub fn is_empty(&self) -> bool
        ensures { IsTrue result ↔ (self.now ≡ map.empty) }
    {
        self.len() == 0
    }

    /// The value of the row at a path.
    pub fn value(&self, path: &Path) -> Option<&Value>
        ensures { option_copied result ≡ map.get self.now path.now }
    {
        self.tree.get(path)
    }

    /// Gives the row at a path this value, and answers the one before. Only a new row may find no memory.
    pub fn put(&mut self, path: Path, value: Value) -> Result<Option<Value>, NoMemory>
        ensures before { IfOk result (λ before. before ≡ map.get self.old path) }
        ensures ok { OnOk result (self.new ≡ map.insert self.old path value) }
        ensures only_new { OnErr result (map.get self.old path ≡ None) }
        ensures err { OnErr result (self.new ≡ self.old) }
    {
        Ok(self.tree.insert(path, value)?)
    }

    /// The rows, in path order.
    pub fn iter(&self) -> Iter<'_, Path, Value>
        ensures entries { result ≡ map.entries self.now }
        ensures runs { ShowsInOrder (deref_pair {K = List PathStep} {X = LeafValue}) }
    {
        self.tree.iter()
    }

    /// The first path with a row that stands after this path in path order.
    pub fn next_after(&self, path: &Path) -> Option<&Path>
        ensures { option_copied result ≡ next_path self.now path.now }
    {
        let after = (Bound::Excluded(path), Bound::Unbounded);
        match self.tree.range(after).next() {
            Some((next, _)) => Some(next),
            None => None,
        }
    }

    /// The path of the first row.
    pub fn first_path(&self) -> Option<&Path>
        ensures { option_copied result ≡ slice_get (map.keys self.now) 0 }
    {
        match self.iter().next() {
            Some((first, _)) => Some(first),
            None => None,
        }
    }

    /// Whether there is a row at or below a node.
    pub fn any_under(&self, node: &Path) -> bool
        ensures { result ≡ has_under self.now node.now }
    {
        begins_under(&self.tree, node)
    }

    /// Takes away the row at a node and each row below it. It needs no memory: without room for
    /// copies of the rows it asks each row of the configuration.
    pub fn remove_under(&mut self, node: &Path)
        ensures { self.new ≡ without_under self.old node.now }
    {
        match copies_under(self.alloc, &self.tree, node) {
            Ok(rows) => remove_rows(&mut self.tree, &rows),
            Err(_) => keep_outside(&mut self.tree, node),
        }
    }

    /// Takes the row at a node and each row below it out, and answers them in path order. NoMemory takes none out.
    pub fn take_under(&mut self, node: &Path) -> Result<Vec<(Path, Value)>, NoMemory>
        ensures taken { IfOk result (λ taken. taken.items ≡ map.entries (under self.old node.now)) }
        ensures ok { OnOk result (self.new ≡ without_under self.old node.now) }
        ensures err { OnErr result (self.new ≡ self.old) }
    {
        let rows = copies_under(self.alloc, &self.tree, node)?;
        remove_rows(&mut self.tree, &rows);
        Ok(rows)
    }

    /// An equal configuration. It copies no bytes of names and texts.
    pub fn copy(&self) -> Result<Config, NoMemory>
        ensures { IfOk result (λ copied. copied ≡ self.now) }
    {
        let mut copied = Config::new(self.alloc);
        for (path, value) in self.iter() {
            copied.put(path.copy(self.alloc)?, value.copy()?)?;
        }
        Ok(copied)
    }
}

// How many places are looked at for rows in disorder.
const LOOKS: usize = 64;

// Whether some rows are in disorder at one of a few places.
fn falls(rows: &[(Path, Value)]) -> bool {
    let step = rows.len() / LOOKS + 1;
    rows.iter()
        .zip(rows.iter().skip(1))
        .step_by(step)
        .any(|(before, after)| after.0 < before.0)
}

// Some rows near path order. Rows with one path keep their order.
fn in_rough_order(rows: Vec<(Path, Value)>) -> Result<Vec<(Path, Value)>, NoMemory>
    ensures { IfOk result (λ near. with_entries (map.empty {R = path_cmp}) near.items ≡ with_entries map.empty rows.items) }
{
    if !falls(&rows) {
        return Ok(rows);
    }
    let mut near = rows;
    near.sort_by_cached_key(of_row)?;
    Ok(near)
}

// Whether a row is at or below a node: the first at or after it would be.
fn begins_under(tree: &BTreeMap<Path, Value>, node: &Path) -> bool
    ensures found { result ≡ list_any (under_node node.now) (keys tree.now) }
    ensures ordered { IsOrdered path_cmp tree.now }
{
    match tree.range(node..).next() {
        Some((path, _)) => is_under(node, path),
        None => false,
    }
}

// Copies of the rows at or below a node.
fn copies_under(
    alloc: Global,
    tree: &BTreeMap<Path, Value>,
    node: &Path,
) -> Result<Vec<(Path, Value)>, NoMemory>
    ensures copies { IfOk result (λ copies. copies.items ≡ rows_under node.now tree.now.entries) }
    ensures ordered { IsOrdered path_cmp tree.now }
{
    let mut copies = Vec::new(alloc);
    for (path, value) in tree.range(node..) {
        if !is_under(node, path) {
            return Ok(copies);
        }
        copies.push((path.copy(alloc)?, value.copy()?))?;
    }
    Ok(copies)
}

// Takes away the row at the path of each of these rows.
fn remove_rows(tree: &mut BTreeMap<Path, Value>, rows: &[(Path, Value)])
    ensures { map.from_entries tree.new.entries ≡ without_rows (map.from_entries tree.old.entries) rows.now }
{
    for (path, _) in rows {
        let _ = tree.remove(path);
    }
}

// Takes away the rows at or below a node, and goes over all rows for it.
fn keep_outside(tree: &mut BTreeMap<Path, Value>, node: &Path)
    ensures { tree.new.entries ≡ rows_outside node.now tree.old.entries }
{
    tree.retain(|path, _| !is_under(node, path));
}
