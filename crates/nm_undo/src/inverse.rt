//! The edit that takes an edit back.

ghost use Rattle.std.specs.Prelude.{◌≡◌, ◌++◌, ◌∷◌, [], IfOk, OnOk, map as each, option_copied};
ghost use Rattle.nm_undo.specs.Inverse as spec;

use crate::fault::{InverseFault, fault_of};
use crate::front::{put_all, put_all_fronts};
use crate::said::said_of;
use nm_base::NoMemory;
use nm_config::RowMap;
use nm_edit::{Edit, changes_of};
use nm_edit_json::NODE_LIMIT;
use nm_edit_json::nodes::{Nodes, Told};
use nm_proto::DefaultOperation;
use nm_schema_tree::Schema;
use nm_types::{Path, Value};
use std::alloc::Global;
use std::marker::Model;

/// What takes an edit back.
#[derive(Drop)]
pub struct Inverse {
    /// An edit for the default operation merge.
    pub edit: Edit,
    /// Each path at which the edit that is taken back changed something, in path order, with what stood there before it.
    pub rows: Vec<(Path, Option<Value>)>,
}

impl Model for Inverse {
    ghost use Rattle.nm_undo.specs.Inverse.{Undoing};

    ghost Value = { Undoing };

    ghost view = { λ inverse. record { nodes = inverse.edit; rows = inverse.rows.items } };
}

// The nodes of the edit that says this, by their paths.
fn nodes_of(alloc: Global, schema: &Schema, said: Vec<(Path, Told)>) -> Result<Nodes, NoMemory>
    ensures { IfOk result (λ nodes. nodes ≡ spec.mapped schema.now said.items) }
{
    let mut nodes = Nodes::new(alloc);
    put_all_fronts(alloc, schema, &said, &mut nodes)?;
    put_all(said, &mut nodes)?;
    Ok(nodes)
}

fn copied(value: Option<&Value>) -> Result<Option<Value>, NoMemory>
    ensures { IfOk result (λ copied. copied ≡ option_copied value.entry) }
{
    match value {
        None => Ok(None),
        Some(value) => Ok(Some(value.copy()?)),
    }
}

// Puts what a row was before it was changed behind the others.
fn put_back<M: RowMap>(
    alloc: Global,
    old: &M,
    change: &(Path, Option<Value>),
    rows: &mut Vec<(Path, Option<Value>)>,
) -> Result<(), NoMemory>
    ensures { OnOk result (rows.new.items ≡ rows.old.items ++ spec.row_back (M.rows old.now) change.now ∷ []) }
{
    let before = copied(old.value(&change.0))?;
    rows.push((change.0.copy(alloc)?, before))?;
    Ok(())
}

// What rows were before they were changed.
fn rows_back<M: RowMap>(
    alloc: Global,
    old: &M,
    changes: &[(Path, Option<Value>)],
) -> Result<Vec<(Path, Option<Value>)>, NoMemory>
    ensures { IfOk result (λ rows. rows.items ≡ each (spec.row_back (M.rows old.now)) changes.now) }
{
    let mut rows = Vec::new(alloc);
    for change in changes {
        put_back(alloc, old, change, &mut rows)?;
    }
    Ok(rows)
}

// What takes changes of rows back. `old` is what was there before these.
fn undone_by<M: RowMap>(
    alloc: Global,
    schema: &Schema,
    old: &M,
    changes: &[(Path, Option<Value>)],
) -> Result<Inverse, InverseFault>
    ensures { spec.Inverts result (spec.undone_by schema.now (M.rows old.now) changes.now) }
{
    let said = said_of(alloc, schema, old, changes)?;
    let nodes = nodes_of(alloc, schema, said)?;
    if nodes.len() > NODE_LIMIT {
        return Err(InverseFault::TooLarge);
    }
    let edit = nodes.to_edit(alloc)?;
    let rows = rows_back(alloc, old, changes)?;
    Ok(Inverse { edit, rows })
}

/// What takes an edit back, from what was there before it: it looks at the rows that the edit changes and at those above them.
///
/// Its edit is for the default operation merge, and says remove of some nodes and nothing of the others. It isn't there where the
/// edit itself is refused, nor where it would have more than 5,000 nodes. The arguments stay as they are, whatever is answered.
pub fn invert<M: RowMap>(
    alloc: Global,
    schema: &Schema,
    old: &M,
    edit: &Edit,
    default_operation: DefaultOperation,
) -> Result<Inverse, InverseFault>
    ensures { spec.Inverts result (spec.inverse_of schema.now (M.rows old.now) edit.now default_operation) }
{
    match changes_of(alloc, schema, old, edit, default_operation) {
        Ok(changes) => undone_by(alloc, schema, old, &changes),
        Err(fault) => Err(fault_of(fault)),
    }
}
