//! What is known of the targets of leafrefs: their values are kept once for each number of steps that leads to them.

ghost use Rattle.std.specs.Prelude.{◌≡◌, OnOk, IfOk, MatchOption, None, Some, map, slice_get};
ghost use Rattle.std.specs.FinMap.{get, contains_key};
ghost use Rattle.nm_validate_rules.specs.Values as value_spec;
ghost use Rattle.nm_validate_places.specs.Groups as group;
ghost use Rattle.nm_validate_leafref.specs.Kept.{with_values};
ghost use Rattle.nm_validate_leafref.specs.Known as spec;

use crate::kept::{keep_value, kept_at, mark_of};
use nm_base::NoMemory;
use nm_config::{Config, RowMap};
use nm_schema_tree::Schema;
use nm_types::{Path, Value};
use nm_validate_places::areas::{Grouped, places};
use nm_validate_places::values::{default_in_use, key_in_entry};
use std::alloc::Global;

// The paths of the rows of a node, and None where there is no such node.
fn group_of<'g, 'r>(grouped: &'g Grouped<'r>, at: usize) -> Option<&'g Vec<&'r Path>>
    ensures { MatchOption result (slice_get grouped.now.groups.items at ≡ None) (λ paths. slice_get grouped.now.groups.items at ≡ Some paths.now) }
{
    grouped.groups.as_slice().get(at)
}

// Keeps the values of the rows at some paths.
fn keep_all_rows<M: RowMap>(
    alloc: Global,
    config: &M,
    paths: &[&Path],
    at: usize,
    depth: usize,
    kept: &mut Config,
) -> Result<(), NoMemory>
    ensures { OnOk result (kept.new ≡ with_values at depth (get (M.rows config.now)) kept.old (map (λ path. path.now) paths.now)) }
{
    for path in paths {
        keep_value(alloc, kept, path, at, depth, config.value(path))?;
    }
    Ok(())
}

// Keeps the values of the rows of a node.
fn keep_rows<M: RowMap>(
    alloc: Global,
    schema: &Schema,
    config: &M,
    grouped: &Grouped<'_>,
    at: usize,
    depth: usize,
    kept: &mut Config,
) -> Result<(), NoMemory>
    requires { group.IsGrouped schema.now (M.rows config.now) grouped.now }
    ensures { OnOk result (kept.new ≡ spec.with_rows schema.now (M.rows config.now) at depth kept.old) }
{
    let Some(paths) = group_of(grouped, at) else {
        return Ok(());
    };
    keep_all_rows(alloc, config, paths, at, depth, kept)?;
    Ok(())
}

// Keeps the values that a key leaf has in some entries.
fn keep_all_keys(
    alloc: Global,
    schema: &Schema,
    entries: &[&Path],
    at: usize,
    depth: usize,
    kept: &mut Config,
) -> Result<(), NoMemory>
    ensures { OnOk result (kept.new ≡ with_values at depth (value_spec.key_in_entry schema.now at) kept.old (map (λ entry. entry.now) entries.now)) }
{
    for entry in entries {
        let value = key_in_entry(schema, at, entry)?;
        keep_value(alloc, kept, entry, at, depth, value.as_ref())?;
    }
    Ok(())
}

// Keeps the values that a key leaf has in the entries of its list.
fn keep_keys<M: RowMap>(
    alloc: Global,
    schema: &Schema,
    config: &M,
    grouped: &Grouped<'_>,
    at: usize,
    depth: usize,
    kept: &mut Config,
) -> Result<(), NoMemory>
    requires { group.IsGrouped schema.now (M.rows config.now) grouped.now }
    ensures { OnOk result (kept.new ≡ spec.with_keys schema.now (M.rows config.now) at depth kept.old) }
{
    if !schema.is_key(at) {
        return Ok(());
    }
    let Some(list) = schema.parent(at) else {
        return Ok(());
    };
    let Some(entries) = group_of(grouped, list) else {
        return Ok(());
    };
    keep_all_keys(alloc, schema, entries, at, depth, kept)?;
    Ok(())
}

// Keeps the defaults of a leaf that are in use at some places.
fn keep_all_defaults<M: RowMap>(
    alloc: Global,
    schema: &Schema,
    config: &M,
    grouped: &Grouped<'_>,
    places: &[Path],
    at: usize,
    depth: usize,
    kept: &mut Config,
) -> Result<(), NoMemory>
    requires { group.IsGrouped schema.now (M.rows config.now) grouped.now }
    ensures { OnOk result (kept.new ≡ with_values at depth (λ path. value_spec.default_in_use schema.now (M.rows config.now) path at) kept.old places.now) }
{
    for path in places {
        let value = default_in_use(alloc, schema, config, grouped, path, at)?;
        keep_value(alloc, kept, path, at, depth, value.as_ref())?;
    }
    Ok(())
}

// Keeps the defaults of a leaf that are in use.
fn keep_defaults<M: RowMap>(
    alloc: Global,
    schema: &Schema,
    config: &M,
    grouped: &Grouped<'_>,
    at: usize,
    depth: usize,
    kept: &mut Config,
) -> Result<(), NoMemory>
    requires { group.IsGrouped schema.now (M.rows config.now) grouped.now }
    ensures { OnOk result (kept.new ≡ spec.with_defaults schema.now (M.rows config.now) at depth kept.old) }
{
    let Some(_default) = schema.default(at) else {
        return Ok(());
    };
    let paths = places(alloc, schema, config, grouped, at)?;
    keep_all_defaults(alloc, schema, config, grouped, &paths, at, depth, kept)?;
    Ok(())
}

// Keeps all values of a node for the places of so many steps.
fn keep_target<M: RowMap>(
    alloc: Global,
    schema: &Schema,
    config: &M,
    grouped: &Grouped<'_>,
    at: usize,
    depth: usize,
    kept: &mut Config,
) -> Result<(), NoMemory>
    requires { group.IsGrouped schema.now (M.rows config.now) grouped.now }
    ensures { OnOk result (kept.new ≡ spec.with_target schema.now (M.rows config.now) at depth kept.old) }
{
    keep_rows(alloc, schema, config, grouped, at, depth, kept)?;
    keep_keys(alloc, schema, config, grouped, at, depth, kept)?;
    keep_defaults(alloc, schema, config, grouped, at, depth, kept)?;
    Ok(())
}

// Keeps all values of a node for the places of so many steps, unless they are kept already.
fn know<M: RowMap>(
    alloc: Global,
    schema: &Schema,
    config: &M,
    grouped: &Grouped<'_>,
    at: usize,
    depth: usize,
    kept: &mut Config,
) -> Result<(), NoMemory>
    requires { group.IsGrouped schema.now (M.rows config.now) grouped.now }
    ensures { OnOk result (kept.new ≡ spec.with_known schema.now (M.rows config.now) at depth kept.old) }
{
    let mark = mark_of(alloc, at, depth)?;
    if kept.put(mark, Value::Present)?.is_some() {
        return Ok(());
    }
    keep_target(alloc, schema, config, grouped, at, depth, kept)?;
    Ok(())
}

// Whether something is kept by a path.
fn is_kept(kept: &Config, path: &Path) -> bool
    ensures { result ≡ contains_key kept.now path.now }
{
    kept.value(path).is_some()
}

/// Whether a value is among those of a target below a place.
#[tactic(auto, using(crate::proofs::Knowing::knows_more))]
pub fn is_reached<M: RowMap>(
    alloc: Global,
    schema: &Schema,
    config: &M,
    grouped: &Grouped<'_>,
    target: usize,
    context: &Path,
    value: &Value,
    kept: &mut Config,
) -> Result<bool, NoMemory>
    requires grouped { group.IsGrouped schema.now (M.rows config.now) grouped.now }
    requires knows { spec.Knows schema.now (M.rows config.now) kept.old }
    ensures told { IfOk result (λ is. is ≡ value_spec.is_reached schema.now (M.rows config.now) (spec.claim_to target context.now value.now)) }
    ensures knows { IfOk result (λ _. spec.Knows schema.now (M.rows config.now) kept.new) }
{
    let path = kept_at(alloc, context, target, value)?;
    if is_kept(kept, &path) {
        return Ok(true);
    }
    know(
        alloc,
        schema,
        config,
        grouped,
        target,
        context.steps.len(),
        kept,
    )?;
    Ok(is_kept(kept, &path))
}
