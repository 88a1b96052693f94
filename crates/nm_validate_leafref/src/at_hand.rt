//! Claims that one look-up answers: an entry whose one key has the value that is claimed, or a leaf, right where the way down
//! from the place leads. Where few rows claim, or each has its own place, this is far less than to keep all values of their target.

ghost use Rattle.std.specs.Prelude.{◌≡◌, ◌-◌, [], ◌∷◌, true, false, IfOk, length};
ghost use Rattle.nm_validate_rules.specs.Values as value_spec;
ghost use Rattle.nm_schema_tree.specs.Nodes.{same_parent};
ghost use Rattle.nm_validate_leafref.specs.Known as spec;
ghost use Rattle.nm_validate_places.specs.Groups.{IsGrouped};

use nm_base::NoMemory;
use nm_config::{RowMap, is_under};
use nm_path::node_of;
use nm_schema_tree::{NodeKind, Schema};
use nm_types::{Chosen, Path, Step, Value};
use nm_validate_places::areas::Grouped;
use nm_validate_places::cases::bare;
use nm_validate_places::front;
use nm_validate_places::values::{behind, chain, key_in_entry, path_in, row_or_default};
use std::alloc::Global;

/// How many steps are left of a path that goes up so many.
pub fn steps_left(path: &Path, up: usize) -> usize
    ensures { result ≡ length path.now - up }
{
    path.steps.len().saturating_sub(up)
}

// A value alone.
fn one_value(alloc: Global, value: &Value) -> Result<Vec<Value>, NoMemory>
    ensures { IfOk result (λ values. values.items ≡ value.now ∷ []) }
{
    let mut values = Vec::with_capacity(alloc, 1)?;
    values.push(value.copy()?)?;
    Ok(values)
}

// The step to the entry of a list whose one key has a value.
fn step_to(alloc: Global, schema: &Schema, list: usize, value: &Value) -> Result<Step, NoMemory>
    ensures { IfOk result (λ step. step ≡ spec.step_to schema.now list value.now) }
{
    let values = one_value(alloc, value)?;
    let whole = bare(alloc, schema, list)?;
    Ok(Step {
        module: whole.module,
        name: whole.name,
        chosen: Chosen::Keys(values),
    })
}

// The path of the entry of a list below a place whose one key has a value.
fn entry_by(
    alloc: Global,
    schema: &Schema,
    place: &Path,
    list: usize,
    value: &Value,
) -> Result<Path, NoMemory>
    ensures { IfOk result (λ path. path ≡ spec.entry_by schema.now place.now list value.now) }
{
    let whole = path_in(alloc, schema, place, list)?;
    let above = front(alloc, &whole)?;
    let step = step_to(alloc, schema, list, value)?;
    above.with_step(alloc, step)
}

// Whether two nodes stand in one node, or both at the top, by what they stand in.
fn is_same(one: Option<usize>, other: Option<usize>) -> bool
    ensures { result ≡ same_parent one other }
{
    match (one, other) {
        (None, None) => true,
        (Some(one), Some(other)) => one == other,
        _ => false,
    }
}

// Whether a value is the one that is there.
fn gives(value: &Value, found: &Option<Value>) -> bool
    ensures { result ≡ spec.gives value.now found.now }
{
    match found {
        None => false,
        Some(other) => value == other,
    }
}

// Whether the row at a path is an entry below a place that has a value by a key leaf.
fn is_entry_with<M: RowMap>(
    schema: &Schema,
    config: &M,
    place: &Path,
    at: usize,
    value: &Value,
    path: &Path,
) -> Result<bool, NoMemory>
    ensures { IfOk result (λ is. is ≡ spec.is_entry_with schema.now (M.rows config.now) place.now at value.now path.now) }
{
    if config.value(path).is_none() {
        return Ok(false);
    }
    if !schema.is_key(at) {
        return Ok(false);
    }
    if !is_same(schema.parent(at), node_of(schema, path)) {
        return Ok(false);
    }
    if !is_under(place, path) {
        return Ok(false);
    }
    let found = key_in_entry(schema, at, path)?;
    Ok(gives(value, &found))
}

// Whether an entry that has the value that is claimed is where one look-up finds it.
fn is_entry_at_hand<M: RowMap>(
    alloc: Global,
    schema: &Schema,
    config: &M,
    target: usize,
    place: &Path,
    value: &Value,
) -> Result<bool, NoMemory>
    ensures { IfOk result (λ is. is ≡ true → value_spec.is_reached schema.now (M.rows config.now) (spec.claim_to target place.now value.now) ≡ true) }
{
    let Some(list) = schema.parent(target) else {
        return Ok(false);
    };
    let entry = entry_by(alloc, schema, place, list, value)?;
    let there = is_entry_with(schema, config, place, target, value, &entry)?;
    Ok(there)
}

// Whether a node is a leaf-list.
fn is_leaf_list(schema: &Schema, at: usize) -> bool {
    match schema.node(at) {
        None => false,
        Some(node) => matches!(node.kind, NodeKind::LeafList { .. }),
    }
}

// The path where a leaf or an entry of a leaf-list has a value below a place, if any does there.
fn path_by(
    alloc: Global,
    schema: &Schema,
    place: &Path,
    at: usize,
    value: &Value,
) -> Result<Path, NoMemory> {
    let path = path_in(alloc, schema, place, at)?;
    if !is_leaf_list(schema, at) {
        return Ok(path);
    }
    let above = front(alloc, &path)?;
    let whole = bare(alloc, schema, at)?;
    let step = Step {
        module: whole.module,
        name: whole.name,
        chosen: Chosen::Entry(value.copy()?),
    };
    above.with_step(alloc, step)
}

// Whether a path leads to a node and is below a place.
fn is_below(schema: &Schema, place: &Path, at: usize, path: &Path) -> bool
    ensures { result ≡ spec.is_below schema.now place.now at path.now }
{
    match node_of(schema, path) {
        None => false,
        Some(node) => node == at && is_under(place, path),
    }
}

// Whether a path below a place leads to a leaf and has a value: that of its row, or the default in use.
fn is_leaf_with<M: RowMap>(
    alloc: Global,
    schema: &Schema,
    config: &M,
    grouped: &Grouped<'_>,
    place: &Path,
    at: usize,
    value: &Value,
    path: &Path,
) -> Result<bool, NoMemory>
    requires { IsGrouped schema.now (M.rows config.now) grouped.now }
    ensures { IfOk result (λ is. is ≡ spec.is_leaf_with schema.now (M.rows config.now) place.now at value.now path.now) }
{
    if !is_below(schema, place, at, path) {
        return Ok(false);
    }
    let found = row_or_default(alloc, schema, config, grouped, &[], path, at)?;
    Ok(gives(value, &found))
}

// Whether no list stands between a place and a node below it.
fn is_straight(alloc: Global, schema: &Schema, place: &Path, at: usize) -> Result<bool, NoMemory> {
    let nodes = chain(alloc, schema, schema.parent(at))?;
    for node in behind(&nodes, place.steps.len()) {
        if !schema.keys(*node).is_empty() {
            return Ok(false);
        }
    }
    Ok(true)
}

/// Whether one look-up tells that what is claimed of a target below a place is reached. Where it doesn't, that may be reached
/// all the same.
pub fn is_at_hand<M: RowMap>(
    alloc: Global,
    schema: &Schema,
    config: &M,
    grouped: &Grouped<'_>,
    target: usize,
    place: &Path,
    value: &Value,
) -> Result<bool, NoMemory>
    requires { IsGrouped schema.now (M.rows config.now) grouped.now }
    ensures { IfOk result (λ is. is ≡ true → value_spec.is_reached schema.now (M.rows config.now) (spec.claim_to target place.now value.now) ≡ true) }
{
    if schema.is_key(target) {
        return is_entry_at_hand(alloc, schema, config, target, place, value);
    }
    if !is_straight(alloc, schema, place, target)? {
        return Ok(false);
    }
    schema.laws();
    let path = path_by(alloc, schema, place, target, value)?;
    let there = is_leaf_with(alloc, schema, config, grouped, place, target, value, &path)?;
    Ok(there)
}
