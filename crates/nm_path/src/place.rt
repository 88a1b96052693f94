//! The nodes that names lead to.

ghost use Rattle.std.specs.Prelude.{◌≡◌, slice_get, IsSome};
ghost use Rattle.nm_path.specs.Spelling as spec;

use crate::form::Written;
use nm_schema_tree::Schema;
use nm_types::Path;

/// Where the node of a name is looked for.
#[derive(Clone, Copy)]
pub enum Place {
    /// At the top, among the nodes of a module.
    Top,
    /// In the node of a number.
    Within(usize),
    /// Nowhere, since the step before leads to no node.
    Nowhere,
}

// Whether a node has a module.
fn is_of(schema: &Schema, at: usize, owner: &str) -> bool
    ensures { result ≡ spec.is_module owner.now (slice_get schema.now.nodes at) }
{
    match schema.node(at) {
        None => false,
        Some(node) => node.module.as_str() == owner,
    }
}

// The node of a module and a name in a node.
fn child_of(schema: &Schema, place: usize, owner: &str, name: &str) -> Option<usize>
    ensures { result ≡ spec.found_of schema.now.nodes (Place.Within place) owner.now name.now }
{
    let Some(at) = schema.child(place, name) else {
        return None;
    };
    if !is_of(schema, at, owner) {
        return None;
    }
    Some(at)
}

/// The node of a module and a name at a place.
pub(crate) fn found_of(schema: &Schema, place: Place, owner: &str, name: &str) -> Option<usize>
    ensures { result ≡ spec.found_of schema.now.nodes place owner.now name.now }
{
    match place {
        Place::Top => schema.top(owner, name),
        Place::Within(around) => child_of(schema, around, owner, name),
        Place::Nowhere => None,
    }
}

// The node of a name below the top.
fn found_bare(schema: &Schema, place: Place, name: &str) -> Option<usize>
    ensures { result ≡ spec.found_bare schema.now.nodes place name.now }
{
    match place {
        Place::Within(around) => schema.child(around, name),
        _ => None,
    }
}

/// The number of the node that a written step leads to from a place: with its module written, or, below the top, by its name
/// alone. None where nothing of this name is known there.
pub fn found(schema: &Schema, place: Place, step: &Written) -> Option<usize>
    ensures { result ≡ spec.found schema.now.nodes place step.now.owner step.now.name }
{
    match &step.owner {
        None => found_bare(schema, place, step.name.as_str()),
        Some(owner) => found_of(schema, place, owner.as_str(), step.name.as_str()),
    }
}

/// Where the step after one is looked for.
pub(crate) fn below(at: Option<usize>) -> Place
    ensures { result ≡ spec.below at }
{
    match at {
        None => Place::Nowhere,
        Some(at) => Place::Within(at),
    }
}

/// Whether the names of written steps lead through the schema from the top, whatever their predicates.
pub fn are_named(schema: &Schema, steps: &[Written]) -> bool
    ensures { result ≡ spec.are_named schema.now.nodes Place.Top steps.now }
{
    let mut place = Place::Top;
    let mut rest = steps;
    'steps: while let [step, more @ ..] = rest {
        let Some(at) = found(schema, place, step) else {
            return false;
        };
        place = Place::Within(at);
        rest = more;
    }
    true
}

// The node that a path leads to.
#[tactic(auto, unfolding(crate::specs::Spelling::node_of))]
fn last_of(schema: &Schema, path: &Path) -> Option<usize>
    ensures { result ≡ spec.node_of schema.now path.now }
{
    let mut place = Place::Top;
    let mut last = None;
    let mut rest = path.steps.as_slice();
    'steps: while let [step, more @ ..] = rest {
        last = found_of(schema, place, step.module.as_str(), step.name.as_str());
        place = below(last);
        rest = more;
    }
    last
}

/// The number of the node that a path leads to by the modules and names of its steps, whatever they choose. None of the
/// path without steps.
pub fn node_of(schema: &Schema, path: &Path) -> Option<usize>
    ensures value { result ≡ spec.node_of schema.now path.now }
    ensures led { spec.IsPath schema.now path.now → IsSome result }
{
    last_of(schema, path)
}
