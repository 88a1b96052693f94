//! The nodes that the steps of a path lead to, and the names of their members.

ghost use Rattle.std.specs.Prelude.{◌≡◌, Some, IfOk};
ghost use Rattle.nm_path.specs.Spelling.{found_of as found_at, below as place_below, name_at};
ghost use Rattle.nm_schema_tree.specs.Nodes.{keys_at};
ghost use Rattle.nm_json.specs.Writing as spec;

use nm_base::{Label, NoMemory};
use nm_json::gathered::with_module;
use nm_json::leafs::is_narrow;
use nm_json::names::is_owner;
use nm_path::place::Place;
use nm_schema_tree::Schema;
use nm_types::{LeafType, Step, TypeKind};
use std::alloc::Global;

/// The name of the member of a step.
pub fn member_name(alloc: Global, place: Place, step: &Step) -> Result<Label, NoMemory>
    ensures { IfOk result (λ name. name ≡ spec.member_name place step.now) }
{
    match place {
        Place::Top => with_module(alloc, &step.module, &step.name),
        _ => step.name.copy(),
    }
}

// The node of a step in a node.
fn child_of(schema: &Schema, around: usize, step: &Step) -> Option<usize>
    ensures { result ≡ found_at schema.now.nodes (Place.Within around) step.now.«module» step.now.name }
{
    let Some(at) = schema.child(around, step.name.as_str()) else {
        return None;
    };
    if !is_owner(schema, at, step.module.as_str()) {
        return None;
    }
    Some(at)
}

/// The node that a step leads to from a place.
pub fn node_of(schema: &Schema, place: Place, step: &Step) -> Option<usize>
    ensures { result ≡ found_at schema.now.nodes place step.now.«module» step.now.name }
{
    match place {
        Place::Top => schema.top(step.module.as_str(), step.name.as_str()),
        Place::Within(around) => child_of(schema, around, step),
        Place::Nowhere => None,
    }
}

/// Where the step after one is looked for.
pub fn below(at: Option<usize>) -> Place
    ensures { result ≡ place_below at }
{
    match at {
        None => Place::Nowhere,
        Some(at) => Place::Within(at),
    }
}

/// The name of a node.
pub fn name_of(schema: &Schema, at: usize) -> &str
    ensures { result.now ≡ name_at schema.now.nodes at }
{
    match schema.node(at) {
        None => "",
        Some(node) => node.name.as_str(),
    }
}

/// The keys of a node.
pub fn keys_of(schema: &Schema, at: Option<usize>) -> &[usize]
    ensures { result.now ≡ keys_at schema.now.nodes at }
{
    match at {
        None => &[],
        Some(at) => schema.keys(at),
    }
}

// Whether a type has integers of at most 32 bits.
fn narrow_type(leaf_type: &LeafType) -> bool
    ensures { result ≡ spec.narrow_type (Some leaf_type.now) }
{
    match &leaf_type.kind {
        TypeKind::Integer { high, .. } => is_narrow(*high),
        _ => false,
    }
}

/// Whether the type of a node has integers of at most 32 bits.
pub fn narrow_at(schema: &Schema, at: Option<usize>) -> bool
    ensures { result ≡ spec.narrow_at schema.now.nodes at }
{
    let Some(at) = at else {
        return false;
    };
    match schema.leaf_type(at) {
        None => false,
        Some(leaf_type) => narrow_type(leaf_type),
    }
}
