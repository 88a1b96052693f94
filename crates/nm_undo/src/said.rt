//! What the inverse of an edit says of the rows that the edit changed.

ghost use Rattle.std.specs.Prelude.{◌≡◌, ◌++◌, IfOk, OnOk, Some};
ghost use Rattle.std.specs.FinMap.{get};
ghost use Rattle.nm_path.specs.Sound as sound;
ghost use Rattle.nm_path.specs.Spelling.{node_of as found_at};
ghost use Rattle.nm_undo.specs.Inverse as spec;

use crate::front::{go_on, is_own, top};
use nm_base::NoMemory;
use nm_config::RowMap;
use nm_edit::Operation;
use nm_edit_json::nodes::Told;
use nm_path::node_of;
use nm_schema_tree::{NodeKind, Schema};
use nm_types::{Path, Value};
use std::alloc::Global;

// Whether a path is that of a list entry or of a container with presence that isn't there.
fn is_lacking<M: RowMap>(schema: &Schema, rows: &M, path: &Path) -> bool
    ensures { result ≡ spec.is_lacking schema.now (M.rows rows.now) path.now }
{
    if !is_own(schema, path) {
        return false;
    }
    match rows.value(path) {
        Some(_) => false,
        None => true,
    }
}

// Whether a list entry or a container with presence above a path isn't there.
fn lacks_above<M: RowMap>(
    alloc: Global,
    schema: &Schema,
    rows: &M,
    path: &Path,
) -> Result<bool, NoMemory>
    ensures { IfOk result (λ lacks. lacks ≡ spec.lacks_above schema.now (M.rows rows.now) path.now) }
{
    let mut above = top(alloc);
    let mut lacks = false;
    for step in &path.steps {
        lacks = lacks || is_lacking(schema, rows, &above);
        go_on(alloc, &mut above, step)?;
    }
    Ok(lacks)
}

fn is_leaf_kind(kind: &NodeKind) -> bool
    ensures { result ≡ sound.is_leaf kind.now }
{
    match kind {
        NodeKind::Leaf { .. } => true,
        _ => false,
    }
}

// Whether a path leads to a leaf.
fn is_leaf(schema: &Schema, path: &Path) -> bool
    ensures { result ≡ spec.is_leaf_at schema.now.nodes (found_at schema.now path.now) }
{
    let Some(at) = node_of(schema, path) else {
        return false;
    };
    match schema.node(at) {
        None => false,
        Some(node) => is_leaf_kind(&node.kind),
    }
}

// What is said of a node that is removed.
fn removal(schema: &Schema, path: &Path, value: &Value) -> Result<Told, NoMemory>
    ensures { IfOk result (λ told. told ≡ spec.removed schema.now path.now value.now) }
{
    if is_leaf(schema, path) {
        return Ok(Told {
            operation: Some(Operation::Remove),
            value: None,
        });
    }
    Ok(Told {
        operation: Some(Operation::Remove),
        value: Some(value.copy()?),
    })
}

// What is said of a row that has come.
fn said_of_new<M: RowMap>(
    alloc: Global,
    schema: &Schema,
    old: &M,
    path: &Path,
    value: &Value,
) -> Result<Option<Told>, NoMemory>
    ensures { IfOk result (λ told. told ≡ spec.removed_if schema.now path.now value.now (spec.lacks_above schema.now (M.rows old.now) path.now)) }
{
    if lacks_above(alloc, schema, old, path)? {
        return Ok(None);
    }
    Ok(Some(removal(schema, path, value)?))
}

// What is said of a row that was there.
fn said_of_old(value: &Value) -> Result<Told, NoMemory>
    ensures { IfOk result (λ told. told ≡ spec.merged (Some value.now)) }
{
    Ok(Told {
        operation: None,
        value: Some(value.copy()?),
    })
}

// What is said of a row that was changed.
fn said_by<M: RowMap>(
    alloc: Global,
    schema: &Schema,
    old: &M,
    path: &Path,
    after: &Option<Value>,
) -> Result<Option<Told>, NoMemory>
    ensures { IfOk result (λ told. told ≡ spec.said_by schema.now (M.rows old.now) path.now (get (M.rows old.now) path.now) after.now) }
{
    if let Some(before) = old.value(path) {
        return Ok(Some(said_of_old(before)?));
    }
    match after {
        Some(value) => said_of_new(alloc, schema, old, path, value),
        None => Ok(None),
    }
}

// Puts what is said of a row behind the others, where something is.
fn put_saying(
    alloc: Global,
    path: &Path,
    told: Option<Told>,
    said: &mut Vec<(Path, Told)>,
) -> Result<(), NoMemory>
    ensures { OnOk result (said.new.items ≡ said.old.items ++ spec.sayings path.now told) }
{
    let Some(told) = told else {
        return Ok(());
    };
    said.push((path.copy(alloc)?, told))?;
    Ok(())
}

// Puts what is said of the row of a change behind the others, where something is.
fn put_said<M: RowMap>(
    alloc: Global,
    schema: &Schema,
    old: &M,
    change: &(Path, Option<Value>),
    said: &mut Vec<(Path, Told)>,
) -> Result<(), NoMemory>
    ensures { OnOk result (said.new.items ≡ said.old.items ++ spec.said_at schema.now (M.rows old.now) change.now) }
{
    let told = said_by(alloc, schema, old, &change.0, &change.1)?;
    put_saying(alloc, &change.0, told, said)
}

/// What is said of the rows of changes, in their order. `old` is what was there before these.
pub fn said_of<M: RowMap>(
    alloc: Global,
    schema: &Schema,
    old: &M,
    changes: &[(Path, Option<Value>)],
) -> Result<Vec<(Path, Told)>, NoMemory>
    ensures { IfOk result (λ said. said.items ≡ spec.said schema.now (M.rows old.now) changes.now) }
{
    let mut said = Vec::new(alloc);
    for change in changes {
        put_said(alloc, schema, old, change, &mut said)?;
    }
    Ok(said)
}
