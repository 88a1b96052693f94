//! The rule of types: each row has a value of its type.

ghost use Rattle.std.specs.Prelude.{◌≡◌, IfOk, slice_get};
ghost use Rattle.nm_types.specs.Chosen.{choice_of};
ghost use Rattle.nm_schema_tree.specs.Nodes.{type_at};
ghost use Rattle.nm_validate_rules.specs.declared.rule.Rule.TheVariants as rule;
ghost use Rattle.nm_validate_rules.specs.Violated as spec;
ghost use Rattle.nm_validate_rules.specs.Violation.{least_at};
ghost use Rattle.nm_validate_places.specs.Groups.{IsGrouped};
ghost use Rattle.nm_validate_places.specs.Listed as row_spec;

use crate::areas::{Grouped, NodeRow};
use crate::fits::fits_at;
use nm_base::NoMemory;
use nm_config::RowMap;
use nm_schema_tree::{NodeKind, Schema};
use nm_types::{Chosen, Path, Value};
use std::alloc::Global;

// Whether a value is the one by which an entry is chosen.
fn is_entry(chosen: &Chosen, value: &Value) -> bool
    ensures { result ≡ spec.is_entry (choice_of chosen.now) value.now }
{
    match chosen {
        Chosen::Entry(own) => own == value,
        Chosen::Keys(_) => false,
        Chosen::Whole => false,
    }
}

// Whether a value is the one by which the last step of a path chooses an entry.
fn is_own_entry(path: &Path, value: &Value) -> bool
    ensures { result ≡ spec.is_entry (spec.last_chosen path.now) value.now }
{
    match path.steps.last() {
        None => false,
        Some(step) => is_entry(&step.chosen, value),
    }
}

// Whether the row of a node has a value that rows of it have.
fn fits_node(
    alloc: Global,
    schema: &Schema,
    at: usize,
    path: &Path,
    value: &Value,
) -> Result<bool, NoMemory>
    ensures { IfOk result (λ fits. fits ≡ spec.fits_node (type_at schema.now.nodes at) (slice_get schema.now.nodes at) (spec.last_chosen path.now) value.now) }
{
    let Some(node) = schema.node(at) else {
        return Ok(false);
    };
    match &node.kind {
        NodeKind::Container { .. } => Ok(Value::Present == *value),
        NodeKind::List { .. } => Ok(Value::Present == *value),
        NodeKind::Leaf { .. } => fits_at(alloc, schema, at, value),
        NodeKind::LeafList { .. } => {
            if !is_own_entry(path, value) {
                return Ok(false);
            }
            fits_at(alloc, schema, at, value)
        }
    }
}

/// Whether a row has a value of its type.
pub fn fits_row(alloc: Global, schema: &Schema, row: &NodeRow<'_>) -> Result<bool, NoMemory>
    ensures { IfOk result (λ fits. fits ≡ row_spec.has_its_type schema.now.nodes row.now) }
{
    match row.node {
        None => Ok(false),
        Some(at) => fits_node(alloc, schema, at, row.path, row.value),
    }
}

// The path of the first row whose value isn't of its type.
fn first_bad_value(
    alloc: Global,
    schema: &Schema,
    rows: &[NodeRow<'_>],
) -> Result<Option<Path>, NoMemory>
    ensures { IfOk result (λ found. found ≡ row_spec.first_bad_value schema.now.nodes rows.now) }
{
    for row in rows {
        if !fits_row(alloc, schema, row)? {
            return Ok(Some(row.path.copy(alloc)?));
        }
    }
    Ok(None)
}

/// The least path of a row of a configuration whose value isn't of its type (RFC 7950 sections 9.1, 7.6.3 and 7.7.3).
#[tactic(auto, using(crate::proofs::Rows::bad_values))]
pub fn least_bad_value<M: RowMap>(
    alloc: Global,
    schema: &Schema,
    config: &M,
    grouped: &Grouped<'_>,
) -> Result<Option<Path>, NoMemory>
    requires { IsGrouped schema.now (M.rows config.now) grouped.now }
    ensures { IfOk result (λ found. found ≡ least_at schema.now (M.rows config.now) rule.ValueType) }
{
    first_bad_value(alloc, schema, &grouped.rows)
}
