//! What an edit does to rows, told by looking alone: some nodes go, and then some rows come.

ghost use Rattle.std.specs.Prelude.{◌≡◌, ◌++◌, IfOk, OnOk};
ghost use Rattle.nm_edit.specs.Edited as spec;

use crate::act::Act;
use crate::bring::{coming_of, put_rows};
use crate::clear::{gone_of, put_ousted};
use crate::hold::held_of;
use nm_base::NoMemory;
use nm_config::RowMap;
use nm_schema_tree::Schema;
use nm_types::{Path, Value};
use std::alloc::Global;
use std::marker::Model;

/// What an edit does to rows. It is seen as the lists of its parts.
#[derive(Drop)]
pub struct Moves {
    /// The nodes that go, with all rows at or below them.
    pub goes: Vec<Path>,
    /// The rows of list entries and containers with presence that stay above the rows that come.
    pub held: Vec<(Path, Value)>,
    /// The rows that come, after those that are held.
    pub comes: Vec<(Path, Value)>,
}

impl Model for Moves {
    ghost use Rattle.nm_edit.specs.Edited.{RowMoves};

    ghost Value = { RowMoves };

    ghost view = { λ moves. record { goes = moves.goes.items; held = moves.held.items; comes = moves.comes.items } };
}

/// What an edit that isn't refused does to rows. It changes nothing.
pub fn moves_of<M: RowMap>(
    alloc: Global,
    schema: &Schema,
    rows: &M,
    acts: Vec<Act>,
) -> Result<Moves, NoMemory>
    ensures { IfOk result (λ moves. moves ≡ spec.moves_by schema.now (M.rows rows.now) acts.items) }
{
    let goes = gone_of(alloc, &acts)?;
    let comes = coming_of(alloc, acts)?;
    moves_with(alloc, schema, rows, goes, comes)
}

// What some rows that come do to rows, besides the nodes that go anyway.
fn moves_with<M: RowMap>(
    alloc: Global,
    schema: &Schema,
    rows: &M,
    mut goes: Vec<Path>,
    comes: Vec<(Path, Value)>,
) -> Result<Moves, NoMemory>
    ensures { IfOk result (λ moves. moves ≡ record {
      goes = goes.items ++ spec.ousted schema.now comes.items;
      held = spec.held schema.now (M.rows rows.now) comes.items;
      comes = comes.items;
    }) }
{
    put_ousted(alloc, schema, &comes, &mut goes)?;
    let held = held_of(alloc, schema, rows, &comes)?;
    Ok(Moves { goes, held, comes })
}

// Takes away what is at or below some nodes.
fn take_all<M: RowMap>(rows: &mut M, nodes: &[Path]) -> Result<(), NoMemory>
    ensures taken { OnOk result (M.rows rows.new ≡ spec.all_without (M.rows rows.old) nodes.now) }
    ensures base { M.base rows.new ≡ M.base rows.old }
{
    for node in nodes {
        rows.take_under(node)?;
    }
    Ok(())
}

/// Takes away what goes, and puts what is held and what comes.
pub fn make_moves<M: RowMap>(rows: &mut M, moves: Moves) -> Result<(), NoMemory>
    ensures moved { OnOk result (M.rows rows.new ≡ spec.moved (M.rows rows.old) moves) }
    ensures base { M.base rows.new ≡ M.base rows.old }
{
    let Moves { goes, held, comes } = moves;
    take_all(rows, &goes)?;
    put_rows(rows, held)?;
    put_rows(rows, comes)?;
    Ok(())
}
