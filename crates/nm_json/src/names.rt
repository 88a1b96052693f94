//! The nodes that the names of members lead to.

ghost use Rattle.std.specs.Prelude.{◌≡◌, ◌∷◌, ◌++◌, None, option_map, slice_get, MatchOption, true, false};
ghost use Rattle.std.specs.List.{before_first, after_first};
ghost use Rattle.serde_json.specs.View.{view, members_view};
ghost use Rattle.serde_json.specs.Find.{get_member};
ghost use Rattle.nm_path.specs.Spelling.{is_module};
ghost use Rattle.nm_json.specs.Findings as spec;

use nm_schema_tree::Schema;
use serde_json::{Map, Value as Json};

/// Whether a node has a module.
pub fn is_owner(schema: &Schema, at: usize, owner: &str) -> bool
    ensures { result ≡ is_module owner.now (slice_get schema.now.nodes at) }
{
    match schema.node(at) {
        None => false,
        Some(node) => node.module.as_str() == owner,
    }
}

// What stands before and behind the first colon of a name.
#[tactic(auto, unfolding(crate::specs::Findings::has_colon))]
fn parts(name: &str) -> Option<(&str, &str)>
    ensures { MatchOption result (spec.has_colon name.now ≡ false) (λ parts. (spec.has_colon name.now ≡ true)
        × (parts.0.now ≡ before_first spec.is_colon name.now) × (parts.1.now ≡ after_first spec.is_colon name.now)) }
{
    match name.split_once(':') {
        Some((owner, rest)) => Some((owner, rest)),
        None => None,
    }
}

// The node in a node that a name leads to, perhaps with the module's name before it.
#[tactic(auto, unfolding(crate::specs::Findings::named_in))]
fn named_in(schema: &Schema, at: usize, name: &str) -> Option<usize>
    ensures { result ≡ spec.named_in schema.now at name.now }
{
    match parts(name) {
        None => schema.child(at, name),
        Some((owner, rest)) => {
            if is_owner(schema, at, owner) {
                return schema.child(at, rest);
            }
            None
        }
    }
}

// The node at the top that a name with its module leads to.
#[tactic(auto, unfolding(crate::specs::Findings::named_top))]
fn named_top(schema: &Schema, name: &str) -> Option<usize>
    ensures { result ≡ spec.named_top schema.now name.now }
{
    match parts(name) {
        None => None,
        Some((owner, rest)) => schema.top(owner, rest),
    }
}

/// The node that the name of a member leads to, in an object of a node or at the top.
pub fn node_named(schema: &Schema, within: Option<usize>, name: &str) -> Option<usize>
    ensures { result ≡ spec.node_named schema.now within name.now }
{
    match within {
        None => named_top(schema, name),
        Some(at) => named_in(schema, at, name),
    }
}

/// Whether a member with the module's name stands beside the one without it.
#[tactic(auto, unfolding(crate::specs::Findings::is_twice))]
pub fn is_twice(within: Option<usize>, name: &str, all: &Map<String, Json>) -> bool
    ensures { result ≡ spec.is_twice within name.now (members_view all.now.entries) }
{
    if within.is_none() {
        return false;
    }
    match parts(name) {
        None => false,
        Some((_, rest)) => member(all, rest).is_some(),
    }
}

// Whether a text may be a name with its module's before it. No other text is that name.
fn may_be_long(text: &str, module: &str, name: &str) -> bool
    ensures { text.now ≡ «module».now ++ 58 ∷ name.now → result ≡ true }
{
    match text.as_bytes().strip_prefix(module.as_bytes()) {
        None => false,
        Some(rest) => rest.len() == name.len() + 1,
    }
}

/// Whether a member may be named with its module's name before its own. Where none may be, none is, and no text is made to
/// find that out.
pub fn may_have_long(all: &Map<String, Json>, module: &str, name: &str) -> bool
    ensures { result ≡ false → get_member («module».now ++ 58 ∷ name.now) (members_view all.now.entries) ≡ None }
{
    for (own, _) in all {
        if may_be_long(own.as_str(), module, name) {
            return true;
        }
    }
    false
}

/// The member of a name.
pub fn member<'v>(all: &'v Map<String, Json>, name: &str) -> Option<&'v Json>
    ensures { option_map (λ part. view part.now) result ≡ get_member name.now (members_view all.now.entries) }
{
    all.get(name)
}
