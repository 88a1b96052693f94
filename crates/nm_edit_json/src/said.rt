//! What annotations say.

ghost use Rattle.std.specs.Prelude.{◌≡◌, option_map};
ghost use Rattle.serde_json.specs.Find.{get_member};
ghost use Rattle.serde_json.specs.View.{view, members_view};
ghost use Rattle.nm_edit_json.specs.Annotations as spec;

use nm_edit::Operation;
use serde_json::{Map, Value as Json};

/// What an edit's JSON says of one node.
#[derive(Clone, Copy)]
pub enum Said {
    /// There is no annotation.
    Unsaid,
    Says(Operation),
    /// There is an annotation that says no operation.
    Misread,
}

// The operation of a word.
#[tactic(auto, unfolding(crate::specs::Annotations::operation_of))]
fn operation_of(word: &str) -> Option<Operation>
    ensures { result ≡ spec.operation_of word.now }
{
    if word == "merge" {
        Some(Operation::Merge)
    } else if word == "replace" {
        Some(Operation::Replace)
    } else if word == "create" {
        Some(Operation::Create)
    } else if word == "delete" {
        Some(Operation::Delete)
    } else if word == "remove" {
        Some(Operation::Remove)
    } else {
        None
    }
}

/// The member of a name.
pub fn member<'v>(all: &'v Map<String, Json>, name: &str) -> Option<&'v Json>
    ensures { option_map (λ part. view part.now) result ≡ get_member name.now (members_view all.now.entries) }
{
    all.get(name)
}

// The operation that the value of an annotation is.
fn operation_at(part: Option<&Json>) -> Option<Operation>
    ensures { result ≡ spec.operation_at (option_map (λ part. view part.now) part.entry) }
{
    match part {
        Some(Json::String(word)) => operation_of(word.as_str()),
        _ => None,
    }
}

// The operation that the members of an annotation say.
fn operation_in_members(members: &Map<String, Json>) -> Option<Operation>
    ensures { result ≡ spec.operation_among (members_view members.now.entries) }
{
    if members.len() != 1 {
        return None;
    }
    operation_at(member(members, "ietf-netconf:operation"))
}

/// The operation that a JSON value says of a node: `{"ietf-netconf:operation": OP}` (RFC 7952 section 5.2.1).
pub fn operation_in(part: &Json) -> Option<Operation>
    ensures { result ≡ spec.operation_in (view part.now) }
{
    match part.as_object() {
        None => None,
        Some(members) => operation_in_members(members),
    }
}

/// What an annotation says.
pub fn said_by(operation: Option<Operation>) -> Said
    ensures { result ≡ spec.said_by operation }
{
    match operation {
        None => Said::Misread,
        Some(operation) => Said::Says(operation),
    }
}

/// What is said where there may be an annotation.
pub fn said_in(part: Option<&Json>) -> Said
    ensures { result ≡ spec.said_in (option_map (λ part. view part.now) part.entry) }
{
    let Some(part) = part else {
        return Said::Unsaid;
    };
    said_by(operation_in(part))
}

/// What is said where there may be an annotation with and one without the module's name.
pub fn said_in_one(short: Option<&Json>, long: Option<&Json>) -> Said
    ensures { result ≡ spec.said_in_one (option_map (λ part. view part.now) short.entry) (option_map (λ part. view part.now) long.entry) }
{
    if short.is_none() {
        return said_in(long);
    }
    if long.is_none() {
        return said_in(short);
    }
    Said::Misread
}
