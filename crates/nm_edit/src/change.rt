//! What an edit changes, and an edit in place.

ghost use Rattle.std.specs.Prelude.{◌≡◌};
ghost use Rattle.nm_edit.specs.Edited.{edited_rows};
ghost use Rattle.nm_edit.specs.Changed as spec;

use crate::act::acts_of;
use crate::going::going_of;
use crate::limit::refuse_large;
use crate::moves::{Moves, make_moves, moves_of};
use crate::refuse::refuse_first;
use crate::told::changes_by;
use crate::{Edit, EditFault};
use nm_config::RowMap;
use nm_proto::DefaultOperation;
use nm_schema_tree::Schema;
use nm_types::{Path, Value};
use std::alloc::Global;

/// What an edit does to the rows that are there, and what that changes of them.
#[derive(Drop)]
pub struct Outcome {
    pub moves: Moves,
    pub changes: Vec<(Path, Option<Value>)>,
}

// What an edit does to the rows that are there, unless it is refused at a node.
fn judged<M: RowMap>(
    alloc: Global,
    schema: &Schema,
    rows: &M,
    edit: &Edit,
    default_operation: DefaultOperation,
) -> Result<Moves, EditFault>
    ensures { spec.Judges (M.rows rows.now) result (edited_rows schema.now (M.rows rows.now) edit.now default_operation) }
{
    let acts = acts_of(alloc, edit, default_operation)?;
    refuse_first(alloc, schema, rows, &acts)?;
    let moves = moves_of(alloc, schema, rows, acts)?;
    let Moves { goes, held, comes } = moves;
    let going = going_of(alloc, default_operation, goes)?;
    Ok(Moves {
        goes: going,
        held,
        comes,
    })
}

// What an edit does and changes, or its refusal. It changes nothing.
fn looked<M: RowMap>(
    alloc: Global,
    schema: &Schema,
    rows: &M,
    edit: &Edit,
    default_operation: DefaultOperation,
) -> Result<Outcome, EditFault>
    ensures { spec.Looks (M.rows rows.now) result (edited_rows schema.now (M.rows rows.now) edit.now default_operation) }
{
    let moves = judged(alloc, schema, rows, edit, default_operation)?;
    let changes = changes_by(alloc, rows, &moves)?;
    refuse_large(alloc, rows, &changes)?;
    Ok(Outcome { moves, changes })
}

/// What an edit changes, in path order: each path at which what it makes differs from what is there, with the value that
/// stands there then, or None where no row does. Or the least refused path with its tag, as `nm_edit`'s `apply` tells it.
pub fn changes_of<M: RowMap>(
    alloc: Global,
    schema: &Schema,
    rows: &M,
    edit: &Edit,
    default_operation: DefaultOperation,
) -> Result<Vec<(Path, Option<Value>)>, EditFault>
    ensures { spec.Tells (λ changes. changes.items) result (spec.changes_of schema.now (M.rows rows.now) edit.now default_operation) }
{
    let outcome = looked(alloc, schema, rows, edit, default_operation)?;
    Ok(outcome.changes)
}

/// Does an edit to rows in place (RFC 6241 section 7.2). They are then what `nm_edit`'s `apply` answers for them.
///
/// What is refused, with the least refused path and its tag, leaves the rows as they were. Where memory runs out they may
/// be half edited: the caller drops them. What they lie over stays in any case.
pub fn apply_rows<M: RowMap>(
    alloc: Global,
    schema: &Schema,
    rows: &mut M,
    edit: &Edit,
    default_operation: DefaultOperation,
) -> Result<(), EditFault>
    ensures applied { spec.Leaves (M.rows rows.old) (M.rows rows.new) result (edited_rows schema.now (M.rows rows.old) edit.now default_operation) }
    ensures base { M.base rows.new ≡ M.base rows.old }
{
    let outcome = looked(alloc, schema, rows, edit, default_operation)?;
    make_moves(rows, outcome.moves)?;
    Ok(())
}
