//! Paths that lead down from the top, a step at a time, and what the inverse of an edit says of the nodes on the way.

ghost use Rattle.std.specs.Prelude.{◌≡◌, ◌++◌, ◌∷◌, [], OnOk, if◌then◌else◌, Some, None};
ghost use Rattle.std.specs.List.{flat_map};
ghost use Rattle.nm_types.specs.declared.value.Value.TheVariants.{Present as IsPresent};
ghost use Rattle.nm_schema_tree.specs.Nodes.{is_guard_at};
ghost use Rattle.nm_path.specs.Spelling.{node_of as found_at};
ghost use Rattle.nm_config.specs.Rows.{with_entries};
ghost use Rattle.nm_validate_rules.specs.Standing.{is_own_at};
ghost use Rattle.nm_undo.specs.Inverse as spec;

use nm_base::NoMemory;
use nm_edit_json::nodes::{Nodes, Told};
use nm_path::node_of;
use nm_schema_tree::Schema;
use nm_types::{Path, Step, Value};
use std::alloc::Global;

/// The path to the top.
pub fn top(alloc: Global) -> Path
    ensures { result ≡ [] }
{
    Path {
        steps: Vec::new(alloc),
    }
}

/// Puts a step behind a path. It copies no bytes of names and texts.
pub fn go_on(alloc: Global, front: &mut Path, step: &Step) -> Result<(), NoMemory>
    ensures { OnOk result (front.new ≡ front.old ++ step.now ∷ []) }
{
    front.steps.push(step.copy(alloc)?)?;
    Ok(())
}

/// Whether a path leads to a list or a container with presence.
pub fn is_own(schema: &Schema, path: &Path) -> bool
    ensures { result ≡ is_own_at schema.now.nodes (found_at schema.now path.now) }
{
    match node_of(schema, path) {
        None => false,
        Some(at) => schema.is_guard(at),
    }
}

// The value of a row on the way: that of a list entry or a container with presence, and none of other nodes.
fn front_value(schema: &Schema, at: usize) -> Option<Value>
    ensures { result ≡ (if is_guard_at schema.now.nodes at then Some IsPresent else None) }
{
    if schema.is_guard(at) {
        return Some(Value::Present);
    }
    None
}

// Says that a node on the way is merged.
fn put_front(alloc: Global, schema: &Schema, path: &Path, nodes: &mut Nodes) -> Result<(), NoMemory>
    ensures { OnOk result (nodes.new ≡ with_entries nodes.old (spec.front_by schema.now path.now (found_at schema.now path.now))) }
{
    let Some(at) = node_of(schema, path) else {
        return Ok(());
    };
    let value = front_value(schema, at);
    nodes.put(
        path.copy(alloc)?,
        Told {
            operation: None,
            value,
        },
    )
}

// Says that the nodes above a path are merged.
fn put_fronts(
    alloc: Global,
    schema: &Schema,
    path: &Path,
    nodes: &mut Nodes,
) -> Result<(), NoMemory>
    ensures { OnOk result (nodes.new ≡ with_entries nodes.old (spec.fronts schema.now path.now)) }
{
    let mut above = top(alloc);
    for step in &path.steps {
        put_front(alloc, schema, &above, nodes)?;
        go_on(alloc, &mut above, step)?;
    }
    Ok(())
}

/// Says that the nodes above some others are merged.
pub fn put_all_fronts(
    alloc: Global,
    schema: &Schema,
    said: &[(Path, Told)],
    nodes: &mut Nodes,
) -> Result<(), NoMemory>
    ensures { OnOk result (nodes.new ≡ with_entries nodes.old (flat_map (spec.fronts_of schema.now) said.now)) }
{
    for (path, _) in said {
        put_fronts(alloc, schema, path, nodes)?;
    }
    Ok(())
}

/// Says what is said of some nodes themselves.
pub fn put_all(said: Vec<(Path, Told)>, nodes: &mut Nodes) -> Result<(), NoMemory>
    ensures { OnOk result (nodes.new ≡ with_entries nodes.old said.items) }
{
    for (path, told) in said {
        nodes.put(path, told)?;
    }
    Ok(())
}
