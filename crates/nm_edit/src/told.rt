//! What the moves of an edit say of paths.

ghost use Rattle.std.specs.Prelude.{◌≡◌, ◌++◌, IfOk, OnOk, map as each};
ghost use Rattle.std.specs.List.{flat_map};
ghost use Rattle.std.specs.FinMap as map;
ghost use Rattle.nm_edit.specs.Edited.{moved};
ghost use Rattle.nm_overlay.specs.Differences.{differences};
ghost use Rattle.nm_edit.specs.Said as spec;

use crate::moves::Moves;
use crate::sayings::Sayings;
use nm_base::NoMemory;
use nm_config::RowMap;
use nm_overlay::gone_under;
use nm_types::{Path, Value};
use std::alloc::Global;

// Says of each row at or below some nodes that it is gone, behind the others.
fn put_gone<M: RowMap>(
    alloc: Global,
    rows: &M,
    nodes: &[Path],
    pairs: &mut Vec<(Path, Option<Value>)>,
) -> Result<(), NoMemory>
    ensures { OnOk result (pairs.new.items ≡ pairs.old.items ++ flat_map (spec.gone_below (M.rows rows.now)) nodes.now) }
{
    for node in nodes {
        let mut gone = gone_under(alloc, rows, node)?;
        pairs.append(&mut gone)?;
    }
    Ok(())
}

// Says of some rows that they are there, behind the others.
fn put_there(
    alloc: Global,
    rows: &[(Path, Value)],
    pairs: &mut Vec<(Path, Option<Value>)>,
) -> Result<(), NoMemory>
    ensures { OnOk result (pairs.new.items ≡ pairs.old.items ++ each spec.there rows.now) }
{
    for (path, value) in rows {
        pairs.push((path.copy(alloc)?, Some(value.copy()?)))?;
    }
    Ok(())
}

// What moves say of paths, in their order.
fn pairs_of<M: RowMap>(
    alloc: Global,
    rows: &M,
    moves: &Moves,
) -> Result<Vec<(Path, Option<Value>)>, NoMemory>
    ensures { IfOk result (λ pairs. pairs.items ≡ spec.said (M.rows rows.now) moves.now) }
{
    let mut pairs = Vec::new(alloc);
    put_gone(alloc, rows, &moves.goes, &mut pairs)?;
    put_there(alloc, &moves.held, &mut pairs)?;
    put_there(alloc, &moves.comes, &mut pairs)?;
    Ok(pairs)
}

/// What moves change of some rows, in path order. It changes nothing.
pub fn changes_by<M: RowMap>(
    alloc: Global,
    rows: &M,
    moves: &Moves,
) -> Result<Vec<(Path, Option<Value>)>, NoMemory>
    ensures { IfOk result (λ changes. changes.items ≡ map.entries (differences (M.rows rows.now) (moved (M.rows rows.now) moves.now))) }
{
    let pairs = pairs_of(alloc, rows, moves)?;
    let sayings = Sayings::of_pairs(alloc, pairs)?;
    let changes = sayings.changes(alloc, rows)?;
    Ok(changes)
}
