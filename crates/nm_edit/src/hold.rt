//! What an edit leaves in place above the rows that come.

ghost use Rattle.std.specs.Prelude.{◌≡◌, ◌++◌, ◌∷◌, [], IfOk, OnOk};
ghost use Rattle.nm_path.specs.Spelling.{node_of as found_at};
ghost use Rattle.nm_validate_rules.specs.Standing.{is_own_at};
ghost use Rattle.nm_edit.specs.Edited as spec;

use crate::front::{go_on, top};
use nm_base::NoMemory;
use nm_config::RowMap;
use nm_path::node_of;
use nm_schema_tree::Schema;
use nm_types::{Path, Value};
use std::alloc::Global;

// Whether a path leads to a list or a container with presence.
fn is_own(schema: &Schema, path: &Path) -> bool
    ensures { result ≡ is_own_at schema.now.nodes (found_at schema.now path.now) }
{
    match node_of(schema, path) {
        None => false,
        Some(at) => schema.is_guard(at),
    }
}

// Puts a copy of a row behind the others.
fn put_copy(
    alloc: Global,
    path: &Path,
    value: &Value,
    held: &mut Vec<(Path, Value)>,
) -> Result<(), NoMemory>
    ensures { OnOk result (held.new.items ≡ held.old.items ++ (path.now, value.now) ∷ []) }
{
    let value = value.copy()?;
    held.push((path.copy(alloc)?, value))?;
    Ok(())
}

// Puts the row of a list entry or a container with presence behind the others, where there is one.
fn put_held<M: RowMap>(
    alloc: Global,
    schema: &Schema,
    config: &M,
    path: &Path,
    held: &mut Vec<(Path, Value)>,
) -> Result<(), NoMemory>
    ensures { OnOk result (held.new.items ≡ held.old.items ++ spec.held_at schema.now (M.rows config.now) path.now) }
{
    if !is_own(schema, path) {
        return Ok(());
    }
    let Some(value) = config.value(path) else {
        return Ok(());
    };
    put_copy(alloc, path, value, held)
}

// Puts the rows of the list entries and containers with presence above a path behind the others.
fn put_held_above<M: RowMap>(
    alloc: Global,
    schema: &Schema,
    config: &M,
    path: &Path,
    held: &mut Vec<(Path, Value)>,
) -> Result<(), NoMemory>
    ensures { OnOk result (held.new.items ≡ held.old.items ++ spec.held_above schema.now (M.rows config.now) path.now) }
{
    let mut above = top(alloc);
    for step in &path.steps {
        put_held(alloc, schema, config, &above, held)?;
        go_on(alloc, &mut above, step)?;
    }
    Ok(())
}

/// The rows of the list entries and containers with presence above the rows that come.
pub fn held_of<M: RowMap>(
    alloc: Global,
    schema: &Schema,
    config: &M,
    rows: &[(Path, Value)],
) -> Result<Vec<(Path, Value)>, NoMemory>
    ensures { IfOk result (λ held. held.items ≡ spec.held schema.now (M.rows config.now) rows.now) }
{
    let mut held = Vec::new(alloc);
    for (path, _) in rows {
        put_held_above(alloc, schema, config, path, &mut held)?;
    }
    Ok(held)
}
