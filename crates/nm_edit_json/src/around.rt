//! Objects, and the annotations of what their members name (RFC 7952 section 5.2).

ghost use Rattle.std.specs.Prelude.{◌≡◌, ◌∷◌, ◌++◌, IfOk, OnOk, MatchOption, None, Some, option_map, string_bytes, length};
ghost use Rattle.serde_json.specs.View.{view, items_view, members_view};
ghost use Rattle.serde_json.specs.Find.{get_member};
ghost use Rattle.nm_edit_json.specs.Around.{around_of};
ghost use Rattle.nm_edit_json.specs.Findings as spec;

use crate::said::{Said, member, said_in, said_in_one};
use nm_base::NoMemory;
use nm_json::gathered::long_name;
use nm_schema_tree::Node;
use nm_types::Path;
use serde_json::{Map, Value as Json};
use std::alloc::Global;

/// An object of JSON: the path and the number of the container or entry that it is the value of, whether an operation other
/// than merge is said there or above, and all its members.
#[derive(Drop)]
pub struct Around<'a> {
    pub above: &'a Path,
    pub within: Option<usize>,
    pub held: bool,
    pub all: &'a Map<String, Json>,
}

/// What a member belongs to whose name begins with an at sign.
pub fn annotated(name: &str) -> Option<&str>
    ensures { MatchOption result (spec.annotated name.now ≡ None) (λ rest. spec.annotated name.now ≡ Some rest.now) }
{
    name.strip_prefix('@')
}

// Puts an at sign and a name.
fn put_marked(text: &mut String, name: &str) -> Result<(), NoMemory>
    ensures { OnOk result (string_bytes text.new ≡ string_bytes text.old ++ 64 ∷ name.now) }
{
    text.push('@')?;
    text.push_str(name)?;
    Ok(())
}

// The name of the annotation of a name.
fn marked(alloc: Global, name: &str) -> Result<String, NoMemory>
    ensures { IfOk result (λ text. string_bytes text ≡ 64 ∷ name.now) }
{
    let mut text = String::with_capacity(alloc, name.len())?;
    put_marked(&mut text, name)?;
    Ok(text)
}

/// The name of the annotation of a node's name without its module's.
pub fn short_note(alloc: Global, node: &Node) -> Result<String, NoMemory>
    ensures { IfOk result (λ text. string_bytes text ≡ 64 ∷ node.now.name) }
{
    marked(alloc, node.name.as_str())
}

/// The name of the annotation of a node's name with its module's.
pub fn long_note(alloc: Global, node: &Node) -> Result<String, NoMemory>
    ensures { IfOk result (λ text. string_bytes text ≡ 64 ∷ spec.long_name node.now) }
{
    let name = long_name(alloc, &node.module, &node.name)?;
    marked(alloc, name.as_str())
}

/// The member of a name without its module's, which none has at the top.
pub fn short_member<'v>(
    within: Option<usize>,
    name: &str,
    all: &'v Map<String, Json>,
) -> Option<&'v Json>
    ensures { option_map (λ part. view part.now) result ≡ spec.short_member within name.now (members_view all.now.entries) }
{
    if within.is_none() {
        return None;
    }
    member(all, name)
}

/// Whether a child has a member.
pub fn is_there(alloc: Global, around: &Around, node: &Node) -> Result<bool, NoMemory>
    ensures { IfOk result (λ there. there ≡ spec.is_there (around_of around.now) node.now) }
{
    if short_member(around.within, node.name.as_str(), around.all).is_some() {
        return Ok(true);
    }
    let long = long_name(alloc, &node.module, &node.name)?;
    Ok(member(around.all, long.as_str()).is_some())
}

// The annotation of a child without its module's name.
fn short_noted<'v>(
    alloc: Global,
    around: &Around<'v>,
    node: &Node,
) -> Result<Option<&'v Json>, NoMemory>
    ensures { IfOk result (λ part. option_map (λ part. view part.now) part
        ≡ spec.short_member around.now.within (64 ∷ node.now.name) (members_view around.now.all.now.entries)) }
{
    let name = short_note(alloc, node)?;
    Ok(short_member(around.within, name.as_str(), around.all))
}

// The annotation of a child with its module's name.
fn long_noted<'v>(
    alloc: Global,
    around: &Around<'v>,
    node: &Node,
) -> Result<Option<&'v Json>, NoMemory>
    ensures { IfOk result (λ part. option_map (λ part. view part.now) part
        ≡ get_member (64 ∷ spec.long_name node.now) (members_view around.now.all.now.entries)) }
{
    let name = long_note(alloc, node)?;
    Ok(member(around.all, name.as_str()))
}

/// What is said of a leaf.
pub fn said_of(alloc: Global, around: &Around, node: &Node) -> Result<Said, NoMemory>
    ensures { IfOk result (λ said. said ≡ spec.said_of (around_of around.now) node.now) }
{
    let short = short_noted(alloc, around, node)?;
    let long = long_noted(alloc, around, node)?;
    Ok(said_in_one(short, long))
}

/// What is said of the container or entry that an object is the value of.
pub fn own_said(all: &Map<String, Json>) -> Said
    ensures { result ≡ spec.own_said (members_view all.now.entries) }
{
    said_in(member(all, "@"))
}

// The annotations of a leaf-list's entries, if it is an array. `nothing` is the one without any.
fn notes_in<'v>(nothing: &'v [Json], part: Option<&'v Json>) -> Option<&'v [Json]>
    requires { length nothing.now ≡ 0 }
    ensures { option_map (λ notes. items_view notes.now) result ≡ spec.notes_in (option_map (λ part. view part.now) part.entry) }
{
    match part {
        None => Some(nothing),
        Some(Json::Array(notes)) => Some(notes.as_slice()),
        Some(_) => None,
    }
}

/// The annotations of a leaf-list's entries where there may be some with and some without the module's name.
pub fn notes_in_one<'v>(
    nothing: &'v [Json],
    short: Option<&'v Json>,
    long: Option<&'v Json>,
) -> Option<&'v [Json]>
    requires { length nothing.now ≡ 0 }
    ensures { option_map (λ notes. items_view notes.now) result
        ≡ spec.notes_in_one (option_map (λ part. view part.now) short.entry) (option_map (λ part. view part.now) long.entry) }
{
    if short.is_none() {
        return notes_in(nothing, long);
    }
    if long.is_none() {
        return notes_in(nothing, short);
    }
    None
}

/// The annotations of the entries of a leaf-list, if they are an array. `nothing` is the one without any.
pub(crate) fn notes_of<'v>(
    alloc: Global,
    nothing: &'v [Json],
    around: &Around<'v>,
    node: &Node,
) -> Result<Option<&'v [Json]>, NoMemory>
    requires { length nothing.now ≡ 0 }
    ensures { IfOk result (λ notes. option_map (λ notes. items_view notes.now) notes ≡ spec.notes_of (around_of around.now) node.now) }
{
    let short = short_noted(alloc, around, node)?;
    let long = long_noted(alloc, around, node)?;
    Ok(notes_in_one(nothing, short, long))
}

/// What is said of an entry of a leaf-list, if anything stands at its position.
pub fn said_item(part: Option<&Json>) -> Said
    ensures { result ≡ spec.said_next (option_map (λ part. view part.now) part.entry) }
{
    match part {
        None => Said::Unsaid,
        Some(Json::Null) => Said::Unsaid,
        Some(part) => said_in(Some(part)),
    }
}
