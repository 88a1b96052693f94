//! What predicates choose.

ghost use Rattle.std.specs.Prelude.{◌≡◌, codes, None, Some, IfOk, MatchOption, slice_get};
ghost use Rattle.nm_types.specs.Chosen.{choice_of};
ghost use Rattle.nm_path.specs.Spelling as spelling_spec;
ghost use Rattle.nm_path.specs.Reading as spec;

use crate::fault::PathFault;
use crate::form::{Predicate, Written};
use nm_base::{Label, NoMemory};
use nm_schema_tree::{NodeKind, Schema};
use nm_types::{Chosen, LeafType, Step, Value, ValueFault, read_value};
use std::alloc::Global;

// The first predicate of a key.
#[tactic(auto, unfolding(crate::specs::Spelling::predicate_of))]
fn predicate_of<'a>(predicates: &'a [Predicate], key: &str) -> Option<&'a Predicate>
    ensures { MatchOption result (spelling_spec.predicate_of predicates.now key.now ≡ None)
        (λ p. spelling_spec.predicate_of predicates.now key.now ≡ Some p.now) }
{
    let mut rest = predicates;
    'predicates: while let [first, more @ ..] = rest {
        if first.key.as_str() == key {
            return Some(first);
        }
        rest = more;
    }
    None
}

// The value of a type that a predicate gives.
fn value_by(alloc: Global, leaf_type: &LeafType, predicate: &Predicate) -> Result<Value, PathFault>
    ensures { spec.Gives (λ v. v) result (spec.value_by (Some leaf_type.now) (Some predicate.now)) }
{
    match read_value(alloc, leaf_type, predicate.value.as_str()) {
        Ok(value) => Ok(value),
        Err(ValueFault::BadText) => Err(PathFault::BadText),
        Err(ValueFault::OutOfRange) => Err(PathFault::BadText),
        Err(ValueFault::NoMemory) => Err(PathFault::NoMemory),
    }
}

// The value of a leaf or leaf-list that the predicate of a key gives.
fn value_of(
    alloc: Global,
    schema: &Schema,
    at: usize,
    key: &str,
    predicates: &[Predicate],
) -> Result<Value, PathFault>
    ensures { spec.Gives (λ v. v) result (spec.value_of schema.now.nodes at key.now predicates.now) }
{
    let Some(leaf_type) = schema.leaf_type(at) else {
        return Err(PathFault::BadText);
    };
    let Some(predicate) = predicate_of(predicates, key) else {
        return Err(PathFault::BadText);
    };
    value_by(alloc, leaf_type, predicate)
}

// The name of a node.
pub fn name_of(schema: &Schema, at: usize) -> &str
    ensures { result.now ≡ spelling_spec.name_at schema.now.nodes at }
{
    match schema.node(at) {
        None => "",
        Some(node) => node.name.as_str(),
    }
}

// The values of keys.
fn values_of(
    alloc: Global,
    schema: &Schema,
    keys: &[usize],
    predicates: &[Predicate],
) -> Result<Vec<Value>, PathFault>
    ensures { spec.Gives (λ v. v.items) result (spec.values_of schema.now.nodes keys.now predicates.now) }
{
    let mut values = Vec::new(alloc);
    let mut rest = keys;
    'keys: while let [key, more @ ..] = rest {
        match value_of(alloc, schema, *key, name_of(schema, *key), predicates) {
            Ok(value) => values.push(value)?,
            Err(error) => return Err(error),
        }
        rest = more;
    }
    Ok(values)
}

// The entry of a list.
fn keys_chosen(
    alloc: Global,
    schema: &Schema,
    keys: &[usize],
    predicates: &[Predicate],
) -> Result<Chosen, PathFault>
    ensures { spec.Gives choice_of result (spec.keys_chosen schema.now.nodes keys.now predicates.now) }
{
    if predicates.is_empty() {
        return Err(PathFault::BadText);
    }
    if predicates.len() != keys.len() {
        return Err(PathFault::BadText);
    }
    match values_of(alloc, schema, keys, predicates) {
        Ok(values) => Ok(Chosen::Keys(values)),
        Err(error) => Err(error),
    }
}

// The entry of a leaf-list.
fn entry_chosen(
    alloc: Global,
    schema: &Schema,
    at: usize,
    predicates: &[Predicate],
) -> Result<Chosen, PathFault>
    ensures { spec.Gives choice_of result (spec.entry_chosen schema.now.nodes at predicates.now) }
{
    if predicates.len() != 1 {
        return Err(PathFault::BadText);
    }
    match value_of(alloc, schema, at, ".", predicates) {
        Ok(value) => Ok(Chosen::Entry(value)),
        Err(error) => Err(error),
    }
}

// What has no entries.
fn whole_chosen(predicates: &[Predicate]) -> Result<Chosen, PathFault>
    ensures { spec.Gives choice_of result (spec.whole_chosen predicates.now) }
{
    if !predicates.is_empty() {
        return Err(PathFault::BadText);
    }
    Ok(Chosen::Whole)
}

// What predicates choose of a node.
fn chosen_of(
    alloc: Global,
    schema: &Schema,
    at: usize,
    kind: &NodeKind,
    predicates: &[Predicate],
) -> Result<Chosen, PathFault>
    ensures { spec.Gives choice_of result (spec.chosen_of schema.now.nodes at kind.now predicates.now) }
{
    match kind {
        NodeKind::Container { .. } => whole_chosen(predicates),
        NodeKind::Leaf { .. } => whole_chosen(predicates),
        NodeKind::LeafList { .. } => entry_chosen(alloc, schema, at, predicates),
        NodeKind::List { keys, .. } => keys_chosen(alloc, schema, keys.as_slice(), predicates),
    }
}

// A step to a node.
fn step_to(module: &Label, name: &Label, chosen: Chosen) -> Result<Step, NoMemory>
    ensures { IfOk result (λ step. step ≡ record { «module» = «module».now; name = name.now; chosen = choice_of chosen }) }
{
    Ok(Step {
        module: module.copy()?,
        name: name.copy()?,
        chosen,
    })
}

/// The step of a path that a written step is, which leads to the node of this number: `PathFault::BadText` where its predicates
/// choose nothing of that node (RFC 7950 section 9.13), or no memory.
pub fn step_of(alloc: Global, schema: &Schema, at: usize, step: &Written) -> Result<Step, PathFault>
    ensures { spec.Gives (λ s. s) result (spec.step_by schema.now.nodes at step.now (slice_get schema.now.nodes at)) }
{
    let Some(node) = schema.node(at) else {
        return Err(PathFault::BadText);
    };
    let chosen = match chosen_of(alloc, schema, at, &node.kind, &step.predicates) {
        Ok(chosen) => chosen,
        Err(error) => return Err(error),
    };
    Ok(step_to(&node.module, &step.name, chosen)?)
}
