//! The rows at which two configurations differ at or below touched paths, found by a walk there alone.

ghost use Rattle.std.specs.Prelude.{◌≡◌, ◌∷◌, ◌++◌, [], IfOk, OnOk, cond, filter, not};
ghost use Rattle.std.specs.FinMap.{contains_key, keys};
ghost use Rattle.nm_config.specs.Under as under;
ghost use Rattle.nm_validate_places.specs.Counts.{behind};
ghost use Rattle.nm_incremental.specs.Differing as spec;

use crate::candidates::alone;
use nm_base::NoMemory;
use nm_config::{RowMap, is_under};
use nm_types::Path;
use std::alloc::Global;

// Puts the paths of the rows at or below a path that stand behind it behind others.
fn put_behind<M: RowMap>(
    alloc: Global,
    config: &M,
    node: &Path,
    all: &mut Vec<Path>,
) -> Result<(), NoMemory>
    ensures { OnOk result (all.new.items ≡ all.old.items ++ filter (under.is_under node.now) (behind node.now (keys (M.rows config.now)))) }
{
    let mut at = config.next_after(Some(node));
    'rows: while let Some(path) = at {
        if !is_under(node, path) {
            return Ok(());
        }
        let copy = path.copy(alloc)?;
        all.push(copy)?;
        at = config.next_after(Some(path));
    }
    Ok(())
}

// The path alone where there is a row at it.
fn own_row<M: RowMap>(alloc: Global, config: &M, node: &Path) -> Result<Vec<Path>, NoMemory>
    ensures { IfOk result (λ own. own.items ≡ cond (contains_key (M.rows config.now) node.now) (node.now ∷ []) []) }
{
    if config.value(node).is_none() {
        return Ok(Vec::new(alloc));
    }
    alone(alloc, node)
}

// The paths of the rows at or below a path.
fn rows_at<M: RowMap>(alloc: Global, config: &M, node: &Path) -> Result<Vec<Path>, NoMemory>
    ensures { IfOk result (λ all. all.items ≡ spec.rows_at (M.rows config.now) node.now) }
{
    let mut all = own_row(alloc, config, node)?;
    put_behind(alloc, config, node, &mut all)?;
    Ok(all)
}

// Whether two configurations have other values at a path.
fn differs<B: RowMap, M: RowMap>(base: &B, next: &M, path: &Path) -> bool
    ensures { result ≡ spec.differs (B.rows base.now) (M.rows next.now) path.now }
{
    match (base.value(path), next.value(path)) {
        (None, None) => false,
        (Some(one), Some(other)) => !(*one == *other),
        _ => true,
    }
}

// Puts those of some rows whose values differ behind others.
fn put_changed<B: RowMap, M: RowMap>(
    base: &B,
    next: &M,
    rows: Vec<Path>,
    all: &mut Vec<Path>,
) -> Result<(), NoMemory>
    ensures { OnOk result (all.new.items ≡ all.old.items ++ filter (spec.differs (B.rows base.now) (M.rows next.now)) rows.items) }
{
    for row in rows {
        if differs(base, next, &row) {
            all.push(row)?;
        }
    }
    Ok(())
}

// Puts those of some rows that a configuration lacks behind others.
fn put_added<B: RowMap>(base: &B, rows: Vec<Path>, all: &mut Vec<Path>) -> Result<(), NoMemory>
    ensures { OnOk result (all.new.items ≡ all.old.items ++ filter (λ row. not (contains_key (B.rows base.now) row)) rows.items) }
{
    for row in rows {
        if base.value(&row).is_none() {
            all.push(row)?;
        }
    }
    Ok(())
}

// Puts the rows at which two configurations differ at or below a path behind others.
fn put_differing<B: RowMap, M: RowMap>(
    alloc: Global,
    base: &B,
    next: &M,
    node: &Path,
    all: &mut Vec<Path>,
) -> Result<(), NoMemory>
    ensures { OnOk result (all.new.items ≡ all.old.items ++ spec.differing_at (B.rows base.now) (M.rows next.now) node.now) }
{
    let before = rows_at(alloc, base, node)?;
    put_changed(base, next, before, all)?;
    let after = rows_at(alloc, next, node)?;
    put_added(base, after, all)?;
    Ok(())
}

/// The rows at which two configurations differ at or below some paths.
pub fn differing<B: RowMap, M: RowMap>(
    alloc: Global,
    base: &B,
    next: &M,
    touched: &[Path],
) -> Result<Vec<Path>, NoMemory>
    ensures { IfOk result (λ all. all.items ≡ spec.differing (B.rows base.now) (M.rows next.now) touched.now) }
{
    let mut all = Vec::new(alloc);
    for node in touched {
        put_differing(alloc, base, next, node, &mut all)?;
    }
    Ok(all)
}
