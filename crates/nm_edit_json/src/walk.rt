//! Going through the JSON of an edit by the schema.

ghost use Rattle.std.specs.Prelude.{◌≡◌, ◌++◌, Some, None, OnOk};
ghost use Rattle.serde_json.specs.View.{view, items_view, members_view};
ghost use Rattle.nm_schema_tree.specs.declared.node.NodeKind.TheVariants as kind;
ghost use Rattle.nm_json.specs.Spots.{spot_of};
ghost use Rattle.nm_json.specs.Values.{leaf_value as value_of_leaf};
ghost use Rattle.nm_edit_json.specs.Noted.{gathered as all_noted};
ghost use Rattle.nm_edit_json.specs.Around.{around_of};
ghost use Rattle.nm_edit_json.specs.Findings as spec;

use crate::absent::note_annotation;
use crate::around::{Around, annotated, notes_of, own_said, said_of};
use crate::fault::FaultKind;
use crate::gathered::Gathered;
use crate::keys::read_keys;
use crate::note::{held_by, note_below, note_child, note_misfit, note_step};
use crate::value::{read_leaf, read_leaf_list};
use nm_base::NoMemory;
use nm_json::names::{is_twice, node_named};
use nm_json::spot::Spot;
use nm_schema_tree::{Node, NodeKind, Schema};
use nm_types::{Chosen, LeafType, Value};
use serde_json::{Map, Value as Json};
use std::alloc::Global;

// Notes a second member for a node.
#[tactic(auto, unfolding(crate::specs::Noted::gathered))]
fn note_twice(
    alloc: Global,
    gathered: &mut Gathered,
    around: &Around,
    twice: bool,
    node: &Node,
) -> Result<(), NoMemory>
    ensures { OnOk result (gathered.new ≡ all_noted gathered.old (spec.twice_found (around_of around.now) twice (Some node.now))) }
{
    if !twice {
        return Ok(());
    }
    note_child(alloc, gathered, around.above, node, FaultKind::Invalid)
}

// Notes the fault of a member's name, which leads to a node or nowhere.
#[tactic(auto, unfolding(crate::specs::Noted::gathered))]
fn note_name(
    alloc: Global,
    schema: &Schema,
    gathered: &mut Gathered,
    around: &Around,
    name: &str,
    at: Option<usize>,
) -> Result<(), NoMemory>
    ensures { OnOk result (gathered.new ≡ all_noted gathered.old (spec.named_found schema.now (around_of around.now) name.now at)) }
{
    let Some(at) = at else {
        return note_below(alloc, gathered, around.above, name, FaultKind::Unknown);
    };
    match schema.node(at) {
        None => Ok(()),
        Some(node) => {
            let twice = is_twice(around.within, name, around.all);
            note_twice(alloc, gathered, around, twice, node)
        }
    }
}

// The leaf-list of a spot with its annotations.
fn read_entries_noted(
    alloc: Global,
    gathered: &mut Gathered,
    around: &Around,
    spot: &Spot,
    leaf_type: &LeafType,
    part: &Json,
) -> Result<(), NoMemory>
    ensures { OnOk result (gathered.new ≡ all_noted gathered.old
        (spec.leaf_list_found (spot_of spot.now) leaf_type.now around.now.held (spec.notes_of (around_of around.now) spot.now.node.now) (view part.now))) }
{
    let notes = notes_of(alloc, &[], around, spot.node)?;
    read_leaf_list(alloc, gathered, spot, leaf_type, around.held, notes, part)
}

// The leaf of a spot with its annotation.
fn read_leaf_noted(
    alloc: Global,
    gathered: &mut Gathered,
    around: &Around,
    spot: &Spot,
    leaf_type: &LeafType,
    part: &Json,
) -> Result<(), NoMemory>
    ensures { OnOk result (gathered.new ≡ all_noted gathered.old
        (spec.leaf_found (spot_of spot.now) around.now.held (spec.said_of (around_of around.now) spot.now.node.now)
        (value_of_leaf leaf_type.now (view part.now)))) }
{
    let said = said_of(alloc, around, spot.node)?;
    read_leaf(alloc, gathered, spot, leaf_type, around.held, said, part)
}

/// Members of an object.
#[cycle(walk)]
pub fn read_members(
    alloc: Global,
    schema: &Schema,
    gathered: &mut Gathered,
    around: &Around,
    members: &Map<String, Json>,
) -> Result<(), NoMemory>
    ensures { OnOk result (gathered.new ≡ all_noted gathered.old
        (spec.members_found schema.now (around_of around.now) (members_view members.now.entries))) }
{
    for (name, part) in members {
        read_member(alloc, schema, gathered, around, name.as_str(), part)?;
    }
    Ok(())
}

// A member: an annotation, or the value of a child.
#[cycle(walk)]
fn read_member(
    alloc: Global,
    schema: &Schema,
    gathered: &mut Gathered,
    around: &Around,
    name: &str,
    part: &Json,
) -> Result<(), NoMemory>
    ensures { OnOk result (gathered.new ≡ all_noted gathered.old
        (spec.name_found schema.now (around_of around.now) name.now (spec.annotated name.now)
        ++ spec.found schema.now (spec.wanted schema.now (around_of around.now) name.now (spec.annotated name.now)) (view part.now))) }
{
    match annotated(name) {
        Some(rest) => note_annotation(alloc, schema, gathered, around, rest),
        None => {
            let at = node_named(schema, around.within, name);
            note_name(alloc, schema, gathered, around, name, at)?;
            read_child(alloc, schema, gathered, around, at, part)
        }
    }
}

// The value of a member, if its name leads to a node that isn't a key.
#[cycle(walk)]
fn read_child(
    alloc: Global,
    schema: &Schema,
    gathered: &mut Gathered,
    around: &Around,
    at: Option<usize>,
    part: &Json,
) -> Result<(), NoMemory>
    ensures { OnOk result (gathered.new ≡ all_noted gathered.old
        (spec.found schema.now (spec.wanted_at schema.now (around_of around.now) at) (view part.now))) }
{
    let Some(number) = at else {
        return Ok(());
    };
    if schema.is_key(number) {
        return Ok(());
    }
    match schema.node(number) {
        None => Ok(()),
        Some(node) => {
            let spot = Spot {
                above: around.above,
                number,
                node,
            };
            read_node(alloc, schema, gathered, around, &spot, part)
        }
    }
}

// The value of a node.
#[cycle(walk)]
fn read_node(
    alloc: Global,
    schema: &Schema,
    gathered: &mut Gathered,
    around: &Around,
    spot: &Spot,
    part: &Json,
) -> Result<(), NoMemory>
    ensures { OnOk result (gathered.new ≡ all_noted gathered.old
        (spec.found schema.now (spec.wanted_as (around_of around.now) (spot_of spot.now) spot.now.node.now.kind) (view part.now))) }
{
    match &spot.node.kind {
        NodeKind::Container { presence } => {
            read_container(alloc, schema, gathered, spot, *presence, around.held, part)
        }
        NodeKind::Leaf { leaf_type, .. } => {
            read_leaf_noted(alloc, gathered, around, spot, leaf_type.get(), part)
        }
        NodeKind::LeafList { leaf_type, .. } => {
            read_entries_noted(alloc, gathered, around, spot, leaf_type.get(), part)
        }
        NodeKind::List { keys, .. } => {
            read_list(
                alloc,
                schema,
                gathered,
                spot,
                keys.as_slice(),
                around.held,
                part,
            )
        }
    }
}

// The object of a container.
#[cycle(walk)]
fn read_container(
    alloc: Global,
    schema: &Schema,
    gathered: &mut Gathered,
    spot: &Spot,
    presence: bool,
    held: bool,
    part: &Json,
) -> Result<(), NoMemory>
    ensures { OnOk result (gathered.new ≡ all_noted gathered.old
        (spec.found schema.now (spec.container (spot_of spot.now) presence held) (view part.now))) }
{
    match part {
        Json::Object(members) => {
            let said = own_said(members);
            let value = presence_value(presence);
            let path = note_step(alloc, gathered, spot, Chosen::Whole, held, said, value)?;
            let around = Around {
                above: &path,
                within: Some(spot.number),
                held: held_by(held, said),
                all: members,
            };
            let read = read_members(alloc, schema, gathered, &around, members);
            drop(path);
            read
        }
        _ => note_misfit(alloc, gathered, spot),
    }
}

// The array of a list.
#[cycle(walk)]
fn read_list(
    alloc: Global,
    schema: &Schema,
    gathered: &mut Gathered,
    spot: &Spot,
    keys: &[usize],
    held: bool,
    part: &Json,
) -> Result<(), NoMemory>
    ensures { OnOk result (gathered.new ≡ all_noted gathered.old
        (spec.found schema.now (spec.list (spot_of spot.now) keys.now held) (view part.now))) }
{
    match part {
        Json::Array(items) => {
            read_entries(alloc, schema, gathered, spot, keys, held, items.as_slice())
        }
        _ => note_misfit(alloc, gathered, spot),
    }
}

// The entries of a list.
#[cycle(walk)]
fn read_entries(
    alloc: Global,
    schema: &Schema,
    gathered: &mut Gathered,
    spot: &Spot,
    keys: &[usize],
    held: bool,
    items: &[Json],
) -> Result<(), NoMemory>
    ensures { OnOk result (gathered.new ≡ all_noted gathered.old
        (spec.items_found schema.now (spec.list_item (spot_of spot.now) keys.now held) (items_view items.now))) }
{
    for item in items {
        read_entry(alloc, schema, gathered, spot, keys, held, item)?;
    }
    Ok(())
}

// An entry of a list.
#[cycle(walk)]
fn read_entry(
    alloc: Global,
    schema: &Schema,
    gathered: &mut Gathered,
    spot: &Spot,
    keys: &[usize],
    held: bool,
    part: &Json,
) -> Result<(), NoMemory>
    ensures { OnOk result (gathered.new ≡ all_noted gathered.old
        (spec.found schema.now (spec.list_item (spot_of spot.now) keys.now held) (view part.now))) }
{
    match part {
        Json::Object(members) => {
            let values = read_keys(alloc, schema, gathered, spot, members, keys)?;
            if values.len() != keys.len() {
                drop(values);
                return Ok(());
            }
            let said = own_said(members);
            let chosen = Chosen::Keys(values);
            let present = Some(Value::Present);
            let path = note_step(alloc, gathered, spot, chosen, held, said, present)?;
            let around = Around {
                above: &path,
                within: Some(spot.number),
                held: held_by(held, said),
                all: members,
            };
            let read = read_members(alloc, schema, gathered, &around, members);
            drop(path);
            read
        }
        _ => note_misfit(alloc, gathered, spot),
    }
}

// The value of the row of a container.
fn presence_value(presence: bool) -> Option<Value>
    ensures { result ≡ spec.presence_value presence }
{
    if presence {
        return Some(Value::Present);
    }
    None
}
