//! The rule of keys: each entry of a list has its keys, of their types.

ghost use Rattle.std.specs.Prelude.{◌≡◌, IfOk, slice_get};
ghost use Rattle.nm_types.specs.Chosen.{choice_of};
ghost use Rattle.nm_types.specs.Path.{choice_values};
ghost use Rattle.nm_validate_rules.specs.declared.rule.Rule.TheVariants as rule;
ghost use Rattle.nm_validate_rules.specs.Values.{chosen_values};
ghost use Rattle.nm_validate_rules.specs.Violated as spec;
ghost use Rattle.nm_validate_rules.specs.Violation.{least_at};
ghost use Rattle.nm_validate_places.specs.Groups.{IsGrouped};
ghost use Rattle.nm_validate_places.specs.Listed as row_spec;

use crate::areas::{Grouped, NodeRow};
use crate::fits::fits_at;
use nm_base::NoMemory;
use nm_config::RowMap;
use nm_schema_tree::{NodeKind, Schema};
use nm_types::{Chosen, Path, Value};
use std::alloc::Global;

// The values that are chosen by.
fn values_of(chosen: &Chosen) -> &[Value]
    ensures { result.now ≡ choice_values (choice_of chosen.now) }
{
    match chosen {
        Chosen::Whole => &[],
        Chosen::Keys(values) => values.as_slice(),
        Chosen::Entry(value) => std::slice::from_ref(value),
    }
}

/// The values by which the last step of a path chooses an entry.
pub fn values_in(path: &Path) -> &[Value]
    ensures { result.now ≡ chosen_values path.now }
{
    match path.steps.last() {
        None => &[],
        Some(step) => values_of(&step.chosen),
    }
}

// Whether there is a value for each key, of its type.
fn fit_keys(
    alloc: Global,
    schema: &Schema,
    keys: &[usize],
    values: &[Value],
) -> Result<bool, NoMemory>
    ensures { IfOk result (λ fit. fit ≡ spec.fit_keys schema.now.nodes keys.now values.now) }
{
    let mut keys_left = keys;
    let mut values_left = values;
    'keys: while let [key, more_keys @ ..] = keys_left {
        let [value, more_values @ ..] = values_left else {
            return Ok(false);
        };
        if !fits_at(alloc, schema, *key, value)? {
            return Ok(false);
        }
        keys_left = more_keys;
        values_left = more_values;
    }
    Ok(values_left.is_empty())
}

/// Whether a row has its keys, where it is an entry of a list.
pub fn has_keys(alloc: Global, schema: &Schema, row: &NodeRow<'_>) -> Result<bool, NoMemory>
    ensures { IfOk result (λ has. has ≡ spec.has_keys schema.now.nodes row.now.node row.now.path.now) }
{
    let Some(at) = row.node else {
        return Ok(true);
    };
    if !is_list(schema, at) {
        return Ok(true);
    }
    fit_keys(alloc, schema, schema.keys(at), values_in(row.path))
}

// Whether a node is a list.
fn is_list(schema: &Schema, at: usize) -> bool
    ensures { result ≡ spec.is_list (slice_get schema.now.nodes at) }
{
    match schema.node(at) {
        None => false,
        Some(node) => match &node.kind {
            NodeKind::List { .. } => true,
            _ => false,
        },
    }
}

// The path of the first entry that lacks a key or has a bad one.
fn first_bad_key(
    alloc: Global,
    schema: &Schema,
    rows: &[NodeRow<'_>],
) -> Result<Option<Path>, NoMemory>
    ensures { IfOk result (λ found. found ≡ row_spec.first_bad_key schema.now.nodes rows.now) }
{
    for row in rows {
        if !has_keys(alloc, schema, row)? {
            return Ok(Some(row.path.copy(alloc)?));
        }
    }
    Ok(None)
}

/// The least path of an entry of a configuration that lacks a key or has a bad one (RFC 7950 section 7.8.2).
#[tactic(auto, using(crate::proofs::Rows::bad_keys))]
pub fn least_bad_key<M: RowMap>(
    alloc: Global,
    schema: &Schema,
    config: &M,
    grouped: &Grouped<'_>,
) -> Result<Option<Path>, NoMemory>
    requires { IsGrouped schema.now (M.rows config.now) grouped.now }
    ensures { IfOk result (λ found. found ≡ least_at schema.now (M.rows config.now) rule.Key) }
{
    first_bad_key(alloc, schema, &grouped.rows)
}
