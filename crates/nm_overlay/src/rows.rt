//! The rows of a base with changes.

ghost use Rattle.std.specs.Prelude.{◌≡◌, ◌↔◌, ◌≤◌, ◌++◌, ◌∷◌, ◌&&◌, [], List, Some, true, not, cond, is_some};
ghost use Rattle.std.specs.Prelude.{IfOk, OnOk, IsTrue, drop, filter, option_copied, map as each};
ghost use Rattle.std.specs.FinMap as map;
ghost use Rattle.std.specs.Map.Iter.{deref_pair};
ghost use Rattle.nm_types.specs.Path.{PathStep, path_cmp};
ghost use Rattle.nm_config.specs.Rows.{next_of, counted};
ghost use Rattle.nm_config.specs.Under.{has_under, is_under as under_node};
ghost use Rattle.nm_overlay.specs.Differences.{changes_at, differs as is_difference, overridden, with_changes};
ghost use Rattle.nm_overlay.specs.Places.{Ascends, front, is_before, present, rows_before, row_with, behind_row};
ghost use Rattle.nm_overlay.specs.Places.{gone_at, gone_in, added_in, comes_before as comes_first};

use crate::pairs::Pairs;
use nm_base::NoMemory;
use nm_config::{Config, RowMap, is_under};
use nm_types::{Path, Value};
use std::alloc::Global;

/// The value of the row at a path: what the pairs say of it, and the base's where they say nothing.
#[tactic(auto, using(crate::proofs::Changed::get_overridden))]
pub fn value_of<'a>(base: &'a Config, pairs: &'a Pairs, path: &Path) -> Option<&'a Value>
    ensures { option_copied result ≡ map.get (overridden base.now pairs.now) path.now }
{
    match pairs.at(path) {
        Some(Some(value)) => Some(value),
        Some(None) => None,
        None => base.value(path),
    }
}

/// Whether there is a row at or below a node: its own, or the next one after it.
pub fn any_under(base: &Config, pairs: &Pairs, node: &Path) -> bool
    ensures { result ≡ has_under (overridden base.now pairs.now) node.now }
{
    if value_of(base, pairs, node).is_some() {
        return true;
    }
    match next_after(base, pairs, Some(node)) {
        Some(next) => is_under(node, next),
        None => false,
    }
}

/// The first path with a row after a path, and the first of all for None. It passes the pairs of gone rows on its way.
pub fn next_after<'a>(base: &'a Config, pairs: &'a Pairs, path: Option<&Path>) -> Option<&'a Path>
    ensures { option_copied result ≡ next_of (overridden base.now pairs.now) (option_copied path.entry) }
{
    let later = pairs.after(path);
    let mut passed = path;
    for (changed, change) in later {
        let next = RowMap::next_after(base, passed);
        if comes_before(next, changed) {
            return next;
        }
        if change.is_some() {
            return Some(changed);
        }
        passed = Some(changed);
    }
    RowMap::next_after(base, passed)
}

// Whether there is a next row, and it stands before a path.
fn comes_before(next: Option<&Path>, path: &Path) -> bool
    ensures { result ≡ comes_first (option_copied next.entry) path.now }
{
    match next {
        Some(next) => next < path,
        None => false,
    }
}

/// The rows of a base at or below a node, each gone, in path order. It looks at no other row but the next one.
pub fn gone_under<M: RowMap>(
    alloc: Global,
    base: &M,
    node: &Path,
) -> Result<Vec<(Path, Option<Value>)>, NoMemory>
    ensures { IfOk result (λ gone. gone.items ≡ each gone_at (filter (under_node node.now) (map.keys (M.rows base.now)))) }
{
    let mut gone = own_gone(alloc, base, node)?;
    let mut passed = node;
    'rows: while let Some(next) = base.next_after(Some(passed)) {
        if !is_under(node, next) {
            return Ok(gone);
        }
        put_gone(alloc, next, &mut gone)?;
        passed = next;
    }
    Ok(gone)
}

// The row of a base at a node, gone.
fn own_gone<M: RowMap>(
    alloc: Global,
    base: &M,
    node: &Path,
) -> Result<Vec<(Path, Option<Value>)>, NoMemory>
    ensures { IfOk result (λ gone. gone.items ≡ cond (is_some (map.get (M.rows base.now) node.now)) (gone_at node.now ∷ []) []) }
{
    let mut gone = Vec::new(alloc);
    if base.value(node).is_none() {
        return Ok(gone);
    }
    put_gone(alloc, node, &mut gone)?;
    Ok(gone)
}

// Puts behind the others that the row at a path is gone.
fn put_gone(
    alloc: Global,
    path: &Path,
    gone: &mut Vec<(Path, Option<Value>)>,
) -> Result<(), NoMemory>
    ensures { OnOk result (gone.new.items ≡ gone.old.items ++ gone_at path.now ∷ []) }
{
    gone.push((path.copy(alloc)?, None))?;
    Ok(())
}

/// How many rows there are, and 4294967295 where there are more. It walks the pairs, not the rows.
pub fn count(base: &Config, pairs: &[(Path, Option<Value>)]) -> u32
    requires ascends { Ascends pairs.now }
    requires changes { (path : List PathStep) → changes_at (map.find path_cmp path pairs.now) (map.get base.now path) ≡ true }
    ensures { result ≡ counted (map.len (with_changes base.now pairs.now)) }
{
    told(count_with(base, base.len(), pairs))
}

/// How many rows a base has with changes of it, where there are so many without them. It walks the changes, not the rows.
pub fn count_with<M: RowMap>(base: &M, before: usize, pairs: &[(Path, Option<Value>)]) -> u128
    requires before { before ≡ map.len (M.rows base.now) }
    requires ascends { Ascends pairs.now }
    requires changes { (path : List PathStep) → changes_at (map.find path_cmp path pairs.now) (map.get (M.rows base.now) path) ≡ true }
    ensures { result ≡ map.len (with_changes (M.rows base.now) pairs.now) }
{
    let with_new = before as u128 + added_of(base, pairs) as u128;
    with_new - gone_of(pairs) as u128
}

fn told(rows: u128) -> u32
    ensures { result ≡ counted rows }
{
    u32::try_from(rows).unwrap_or(u32::MAX)
}

// How many pairs say that a row is gone.
fn gone_of(pairs: &[(Path, Option<Value>)]) -> usize
    ensures { result ≡ gone_in pairs.now }
{
    let mut gone = 0usize;
    let mut rest = pairs;
    'pairs: while let [pair, more @ ..] = rest {
        gone += one_if(pair.1.is_none());
        rest = more;
    }
    gone
}

// How many pairs say of a path without a row in the base that there is one.
fn added_of<M: RowMap>(base: &M, pairs: &[(Path, Option<Value>)]) -> usize
    ensures { result ≡ added_in (M.rows base.now) pairs.now }
{
    let mut added = 0usize;
    let mut rest = pairs;
    'pairs: while let [pair, more @ ..] = rest {
        added += one_if(is_new(base, &pair.0, &pair.1));
        rest = more;
    }
    added
}

// One for what holds, and else none.
fn one_if(holds: bool) -> usize
    ensures count { result ≡ cond holds 1 0 }
    ensures small { result ≤ 1 }
{
    if holds { 1 } else { 0 }
}

// Whether there is a value at a path where a base has no row.
fn is_new<M: RowMap>(base: &M, path: &Path, change: &Option<Value>) -> bool
    ensures { result ≡ (is_some change.now && not (is_some (map.get (M.rows base.now) path.now))) }
{
    if change.is_none() {
        return false;
    }
    base.value(path).is_none()
}

/// All rows in path order, lent: one merge.
pub fn list<'a>(
    alloc: Global,
    base: &'a Config,
    pairs: &'a [(Path, Option<Value>)],
) -> Result<Vec<(&'a Path, &'a Value)>, NoMemory>
    requires { Ascends pairs.now }
    ensures { IfOk result (λ all. each deref_pair all.items ≡ map.entries (with_changes base.now pairs.now)) }
{
    let mut all = Vec::with_capacity(alloc, base.len())?;
    let mut rest = pairs;
    for (path, value) in base.iter() {
        rest = list_turn(&mut all, path, value, rest)?;
    }
    list_all(&mut all, rest)?;
    Ok(all)
}

/// Copies of rows. It copies no bytes of names and texts.
pub fn copies_of(alloc: Global, rows: &[(&Path, &Value)]) -> Result<Vec<(Path, Value)>, NoMemory>
    ensures { IfOk result (λ copies. copies.items ≡ each deref_pair rows.now) }
{
    let mut copies = Vec::with_capacity(alloc, rows.len())?;
    for (path, value) in rows {
        put_copy(alloc, path, value, &mut copies)?;
    }
    Ok(copies)
}

// Puts a copy of a row behind the others.
fn put_copy(
    alloc: Global,
    path: &Path,
    value: &Value,
    copies: &mut Vec<(Path, Value)>,
) -> Result<(), NoMemory>
    ensures { OnOk result (copies.new.items ≡ copies.old.items ++ (path.now, value.now) ∷ []) }
{
    let value = value.copy()?;
    copies.push((path.copy(alloc)?, value))?;
    Ok(())
}

// Lists what stands at the pairs before a row of the base, and then that row or what the next pair says of it. It answers the
// pairs behind that.
fn list_turn<'a>(
    all: &mut Vec<(&'a Path, &'a Value)>,
    path: &'a Path,
    value: &'a Value,
    pairs: &'a [(Path, Option<Value>)],
) -> Result<&'a [(Path, Option<Value>)], NoMemory>
    ensures rest { IfOk result (λ rest. rest.now ≡ behind_row path.now (drop (front (is_before path.now) pairs.now) pairs.now)) }
    ensures items { OnOk result (each deref_pair all.new.items
        ≡ (each deref_pair all.old.items ++ rows_before path.now pairs.now)
        ++ row_with path.now value.now (drop (front (is_before path.now) pairs.now) pairs.now)) }
{
    let rest = list_before(all, path, pairs)?;
    list_row(all, path, value, rest)
}

// Lists what stands at the pairs before a path, and answers the pairs from it on.
fn list_before<'a>(
    all: &mut Vec<(&'a Path, &'a Value)>,
    path: &Path,
    pairs: &'a [(Path, Option<Value>)],
) -> Result<&'a [(Path, Option<Value>)], NoMemory>
    ensures rest { IfOk result (λ rest. rest.now ≡ drop (front (is_before path.now) pairs.now) pairs.now) }
    ensures items { OnOk result (each deref_pair all.new.items ≡ each deref_pair all.old.items ++ rows_before path.now pairs.now) }
{
    let (before, rest) = pairs.split_at(count_before(pairs, path));
    list_all(all, before)?;
    Ok(rest)
}

// How many pairs stand before a path, which few do.
fn count_before(pairs: &[(Path, Option<Value>)], path: &Path) -> usize
    ensures { result ≡ front (is_before path.now) pairs.now }
{
    let mut count = 0usize;
    let mut rest = pairs;
    'pairs: while let [pair, more @ ..] = rest {
        if !(pair.0 < *path) {
            return count;
        }
        count += 1;
        rest = more;
    }
    count
}

// Lists a row of the base, or what the first pair says of it, and answers the pairs behind that.
fn list_row<'a>(
    all: &mut Vec<(&'a Path, &'a Value)>,
    path: &'a Path,
    value: &'a Value,
    pairs: &'a [(Path, Option<Value>)],
) -> Result<&'a [(Path, Option<Value>)], NoMemory>
    ensures rest { IfOk result (λ rest. rest.now ≡ behind_row path.now pairs.now) }
    ensures items { OnOk result (each deref_pair all.new.items ≡ each deref_pair all.old.items ++ row_with path.now value.now pairs.now) }
{
    let [pair, more @ ..] = pairs else {
        list_own(all, path, value)?;
        return Ok(pairs);
    };
    if *path == pair.0 {
        list_pair(all, pair)?;
        return Ok(more);
    }
    list_own(all, path, value)?;
    Ok(pairs)
}

// Lists a row.
fn list_own<'a>(
    all: &mut Vec<(&'a Path, &'a Value)>,
    path: &'a Path,
    value: &'a Value,
) -> Result<(), NoMemory>
    ensures { OnOk result (each deref_pair all.new.items ≡ each deref_pair all.old.items ++ (path.now, value.now) ∷ []) }
{
    all.push((path, value))?;
    Ok(())
}

// Lists what stands at pairs.
fn list_all<'a>(
    all: &mut Vec<(&'a Path, &'a Value)>,
    pairs: &'a [(Path, Option<Value>)],
) -> Result<(), NoMemory>
    ensures { OnOk result (each deref_pair all.new.items ≡ each deref_pair all.old.items ++ present pairs.now) }
{
    let mut rest = pairs;
    'pairs: while let [pair, more @ ..] = rest {
        list_pair(all, pair)?;
        rest = more;
    }
    Ok(())
}

// Lists what stands at a pair, where a row does.
fn list_pair<'a>(
    all: &mut Vec<(&'a Path, &'a Value)>,
    pair: &'a (Path, Option<Value>),
) -> Result<(), NoMemory>
    ensures { OnOk result (each deref_pair all.new.items ≡ each deref_pair all.old.items ++ present (pair.now ∷ [])) }
{
    match &pair.1 {
        Some(value) => {
            all.push((&pair.0, value))?;
            Ok(())
        }
        None => Ok(()),
    }
}

/// Whether there is a value, and it is this one.
pub fn is_value(there: Option<&Value>, value: &Value) -> bool
    ensures { IsTrue result ↔ (option_copied there.entry ≡ Some value.now) }
{
    match there {
        Some(other) => other.same(value),
        None => false,
    }
}

/// Whether what stands at a path isn't what stood there.
pub fn differs(before: Option<&Value>, after: &Option<Value>) -> bool
    ensures { result ≡ is_difference (option_copied before.entry) after.now }
{
    match after {
        Some(value) => !is_value(before, value),
        None => before.is_some(),
    }
}
