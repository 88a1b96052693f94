//! Rows of leafs that stand behind the row of their entry.

ghost use Rattle.std.specs.Prelude.{◌≡◌, ◌++◌, true, IfOk, IfSome, Some, map as each};
ghost use Rattle.std.specs.FinMap.{get};
ghost use Rattle.nm_types.specs.Path.{whole};
ghost use Rattle.nm_types.specs.Chosen.{choice_of};
ghost use Rattle.nm_validate_rules.specs.Cases as case_spec;
ghost use Rattle.nm_validate_rules.specs.Places.{chain};
ghost use Rattle.nm_validate_rules.specs.Values as spec;
ghost use Rattle.nm_config.specs.Rows.{Rows};
ghost use Rattle.nm_validate_places.specs.Listed.{AreRows};

use crate::ways::Way;
use nm_base::NoMemory;
use nm_schema_tree::Schema;
use nm_types::{Chosen, Path, Step, Value};
use nm_validate_places::areas::NodeRow;
use nm_validate_places::values::behind;

// How many rows are looked at.
const NEAR: usize = 64;

// The first of some rows that is of a node, if it is among the first few.
fn first_near<'s, 'r>(rows: &'s [NodeRow<'r>], node: usize) -> Option<&'s NodeRow<'r>>
    ensures { (m : Rows) → AreRows m rows.now → IfSome result (λ row. get m row.now.path.now ≡ Some row.now.value.now) }
{
    let mut rest = rows;
    let mut left = NEAR;
    'rows: while left > 0 {
        let [row, more @ ..] = rest else {
            return None;
        };
        if row.node == Some(node) {
            return Some(row);
        }
        rest = more;
        left -= 1;
    }
    None
}

// Whether no entry is chosen.
fn is_whole(chosen: &Chosen) -> bool
    ensures { result ≡ true → choice_of chosen.now ≡ whole }
{
    match chosen {
        Chosen::Whole => true,
        Chosen::Keys(_) => false,
        Chosen::Entry(_) => false,
    }
}

// Whether a step is the one to a node that chooses no entry.
fn is_bare(schema: &Schema, at: usize, step: &Step) -> bool
    ensures { result ≡ true → step.now ≡ case_spec.bare schema.now.nodes at }
{
    let Some(node) = schema.node(at) else {
        return false;
    };
    if !step.name.same(&node.name) {
        return false;
    }
    if !step.module.same(&node.module) {
        return false;
    }
    is_whole(&step.chosen)
}

// Whether some steps are those to these nodes without predicates.
fn are_bare(schema: &Schema, nodes: &[usize], steps: &[Step]) -> bool
    ensures { result ≡ true → steps.now ≡ each (case_spec.bare schema.now.nodes) nodes.now }
{
    let [at, more @ ..] = nodes else {
        return steps.is_empty();
    };
    let [step, rest @ ..] = steps else {
        return false;
    };
    if !is_bare(schema, *at, step) {
        return false;
    }
    are_bare(schema, more, rest)
}

// Whether some steps are those of an entry and then those to these nodes without predicates.
fn leads_on(schema: &Schema, entry: &[Step], nodes: &[usize], steps: &[Step]) -> bool
    ensures { result ≡ true → steps.now ≡ entry.now ++ each (case_spec.bare schema.now.nodes) nodes.now }
{
    let [own, more @ ..] = entry else {
        return are_bare(schema, nodes, steps);
    };
    let [step, rest @ ..] = steps else {
        return false;
    };
    if !step.same(own) {
        return false;
    }
    leads_on(schema, more, nodes, rest)
}

// The value of the row whose path goes on from an entry's by steps to these nodes without predicates. It is looked for
// among the first few of these rows alone.
fn value_behind(
    schema: &Schema,
    near: &[NodeRow<'_>],
    entry: &Path,
    nodes: &[usize],
    at: usize,
) -> Result<Option<Value>, NoMemory>
    ensures { (m : Rows) → AreRows m near.now
        → IfOk result (λ found. IfSome found (λ value. get m (entry.now ++ each (case_spec.bare schema.now.nodes) nodes.now) ≡ Some value)) }
{
    let Some(row) = first_near(near, at) else {
        return Ok(None);
    };
    let own = row.path;
    let leads = leads_on(schema, &entry.steps, nodes, &own.steps);
    if !leads {
        return Ok(None);
    }
    Ok(Some(row.value.copy()?))
}

/// The value of the row of a leaf in an entry above it, if it is among the first few of these rows.
pub fn near_value(
    schema: &Schema,
    near: &[NodeRow<'_>],
    entry: &Path,
    way: &Way,
) -> Result<Option<Value>, NoMemory>
    requires { way.now.nodes.items ≡ chain schema.now.nodes (Some way.now.leaf) }
    ensures { (m : Rows) → AreRows m near.now
        → IfOk result (λ found. IfSome found (λ value. get m (spec.path_in schema.now entry.now way.now.leaf) ≡ Some value)) }
{
    let below = behind(&way.nodes, entry.steps.len());
    value_behind(schema, near, entry, below, way.leaf)
}
