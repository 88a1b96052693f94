//! Going through a JSON value by the schema.

ghost use Rattle.std.specs.Prelude.{◌≡◌, ◌∷◌, [], ◌++◌, Some, None, IfOk, OnOk, map, length};
ghost use Rattle.serde_json.specs.View.{view, items_view, members_view};
ghost use Rattle.serde_json.specs.Data.{object};
ghost use Rattle.nm_types.specs.Chosen.{choice_of};
ghost use Rattle.nm_types.specs.Path.{whole, keys as keys_chosen, entry};
ghost use Rattle.nm_types.specs.declared.value.Value.TheVariants.{Present};
ghost use Rattle.nm_schema_tree.specs.Nodes.{type_of};
ghost use Rattle.nm_schema_tree.specs.declared.node.NodeKind.TheVariants as kind;
ghost use Rattle.nm_json.specs.Noted.{noted, gathered as all_noted, GoesOn};
ghost use Rattle.nm_json.specs.Findings as spec;
ghost use Rattle.nm_json.specs.Spots.{spot_of};
ghost use Rattle.nm_json.specs.Values.{leaf_value as value_of_leaf};

use crate::fault::{Fault, JsonKind, Place, Refusal};
use crate::gathered::Gathered;
use crate::keys::read_keys;
use crate::leafs::leaf_value;
use crate::names::{is_twice, node_named};
use crate::spot::{Spot, step_below};
use nm_base::{Label, NoMemory};
use nm_schema_tree::{Node, NodeKind, Schema};
use nm_types::{Chosen, LeafType, Path, Value};
use serde_json::{Map, Value as Json};
use std::alloc::Global;

/// Notes a fault at a path.
pub fn note_at(
    alloc: Global,
    gathered: &mut Gathered,
    path: Path,
    kind: JsonKind,
) -> Result<(), NoMemory>
    ensures { OnOk result (gathered.new ≡ noted gathered.old (spec.bad (spec.fault_at path kind))) }
{
    let place = Place { path, below: None };
    gathered.note_fault(alloc, Fault { kind, place })
}

// Notes a fault at a name below a path.
fn note_below(
    alloc: Global,
    gathered: &mut Gathered,
    above: &Path,
    name: &str,
    kind: JsonKind,
) -> Result<(), NoMemory>
    ensures { OnOk result (gathered.new ≡ noted gathered.old (spec.bad (spec.fault_below above.now name.now kind))) }
{
    let place = Place {
        path: above.copy(alloc)?,
        below: Some(Label::new(alloc, name)?),
    };
    gathered.note_fault(alloc, Fault { kind, place })
}

// Notes a fault at a node.
fn note_bare(
    alloc: Global,
    gathered: &mut Gathered,
    spot: &Spot,
    kind: JsonKind,
) -> Result<(), NoMemory>
    ensures { OnOk result (gathered.new ≡ noted gathered.old (spec.bad (spec.fault_at (spec.bare (spot_of spot.now)) kind))) }
{
    let path = step_below(alloc, spot.above, spot.node, Chosen::Whole)?;
    note_at(alloc, gathered, path, kind)
}

// Notes that a JSON value is of another kind than a node wants.
#[tactic(auto, unfolding(crate::specs::Noted::gathered))]
fn note_misfit(alloc: Global, gathered: &mut Gathered, spot: &Spot) -> Result<(), NoMemory>
    ensures { OnOk result (gathered.new ≡ all_noted gathered.old (spec.misfit (spot_of spot.now))) }
{
    note_bare(alloc, gathered, spot, JsonKind::BadForm)
}

// The value of a leaf.
#[tactic(auto, unfolding(crate::specs::Noted::gathered))]
fn read_leaf(
    alloc: Global,
    gathered: &mut Gathered,
    spot: &Spot,
    leaf_type: &LeafType,
    part: &Json,
) -> Result<(), NoMemory>
    ensures { OnOk result
        (gathered.new ≡ all_noted gathered.old (spec.leaf_found (spec.bare (spot_of spot.now)) (value_of_leaf leaf_type.now (view part.now)))) }
{
    match leaf_value(alloc, leaf_type, part) {
        Ok(value) => match step_below(alloc, spot.above, spot.node, Chosen::Whole) {
            Ok(path) => gathered.note_row(path, value),
            Err(fault) => {
                drop(value);
                Err(fault)
            }
        },
        Err(Refusal::Bad(kind)) => note_bare(alloc, gathered, spot, kind),
        Err(Refusal::NoMemory) => Err(NoMemory),
    }
}

// The path of an item of a leaf-list.
fn item_path(alloc: Global, spot: &Spot, value: &Value) -> Result<Path, NoMemory>
    ensures { IfOk result (λ path. path ≡ spec.step_below spot.now.above.now spot.now.node.now (entry value.now)) }
{
    step_below(alloc, spot.above, spot.node, Chosen::Entry(value.copy()?))
}

// Notes the row of an item of a leaf-list.
fn note_item(
    alloc: Global,
    gathered: &mut Gathered,
    spot: &Spot,
    value: Value,
) -> Result<(), NoMemory>
    ensures { OnOk result (gathered.new ≡ noted gathered.old (spec.row (spec.step_below spot.now.above.now spot.now.node.now (entry value)) value)) }
{
    match item_path(alloc, spot, &value) {
        Ok(path) => gathered.note_row(path, value),
        Err(fault) => {
            drop(value);
            Err(fault)
        }
    }
}

// An item of a leaf-list.
#[tactic(auto, unfolding(crate::specs::Noted::gathered))]
fn read_item(
    alloc: Global,
    gathered: &mut Gathered,
    spot: &Spot,
    leaf_type: &LeafType,
    part: &Json,
) -> Result<(), NoMemory>
    ensures { OnOk result (gathered.new ≡ all_noted gathered.old (spec.value_found (spot_of spot.now) (value_of_leaf leaf_type.now (view part.now)))) }
{
    match leaf_value(alloc, leaf_type, part) {
        Ok(value) => note_item(alloc, gathered, spot, value),
        Err(Refusal::Bad(kind)) => note_bare(alloc, gathered, spot, kind),
        Err(Refusal::NoMemory) => Err(NoMemory),
    }
}

// The items of a leaf-list.
fn read_items(
    alloc: Global,
    schema: &Schema,
    gathered: &mut Gathered,
    spot: &Spot,
    leaf_type: &LeafType,
    items: &[Json],
) -> Result<(), NoMemory>
    ensures { OnOk result (gathered.new
        ≡ all_noted gathered.old (spec.items_found schema.now (spec.leaf_item (spot_of spot.now) leaf_type.now) (items_view items.now))) }
{
    for item in items {
        read_item(alloc, gathered, spot, leaf_type, item)?;
    }
    Ok(())
}

// The array of a leaf-list.
fn read_leaf_list(
    alloc: Global,
    schema: &Schema,
    gathered: &mut Gathered,
    spot: &Spot,
    leaf_type: &LeafType,
    part: &Json,
) -> Result<(), NoMemory>
    ensures { OnOk result (gathered.new ≡ all_noted gathered.old (spec.found schema.now (spec.leaf_list (spot_of spot.now) leaf_type.now) (view part.now))) }
{
    match part {
        Json::Array(items) => {
            read_items(alloc, schema, gathered, spot, leaf_type, items.as_slice())
        }
        _ => note_misfit(alloc, gathered, spot),
    }
}

// Notes a second member for a node.
#[tactic(auto, unfolding(crate::specs::Noted::gathered))]
fn note_twice(
    alloc: Global,
    gathered: &mut Gathered,
    above: &Path,
    twice: bool,
    node: &Node,
) -> Result<(), NoMemory>
    ensures { OnOk result (gathered.new ≡ all_noted gathered.old (spec.twice_found above.now twice (Some node.now))) }
{
    if !twice {
        return Ok(());
    }
    let path = step_below(alloc, above, node, Chosen::Whole)?;
    note_at(alloc, gathered, path, JsonKind::Repeated)
}

// Notes the fault of a member's name, which leads to a node or nowhere.
#[tactic(auto, unfolding(crate::specs::Noted::gathered))]
fn note_name(
    alloc: Global,
    schema: &Schema,
    gathered: &mut Gathered,
    above: &Path,
    twice: bool,
    name: &str,
    at: Option<usize>,
) -> Result<(), NoMemory>
    ensures { OnOk result (gathered.new ≡ all_noted gathered.old (spec.named_found schema.now above.now twice name.now at)) }
{
    let Some(at) = at else {
        return note_below(alloc, gathered, above, name, JsonKind::Unknown);
    };
    match schema.node(at) {
        None => Ok(()),
        Some(node) => note_twice(alloc, gathered, above, twice, node),
    }
}

// Notes the row of a container with presence.
#[tactic(auto, unfolding(crate::specs::Noted::gathered))]
fn note_presence(
    alloc: Global,
    gathered: &mut Gathered,
    spot: &Spot,
    presence: bool,
) -> Result<(), NoMemory>
    ensures { OnOk result (gathered.new ≡ all_noted gathered.old (spec.presence_found (spot_of spot.now) presence)) }
{
    if !presence {
        return Ok(());
    }
    let path = step_below(alloc, spot.above, spot.node, Chosen::Whole)?;
    gathered.note_row(path, Value::Present)
}

// Notes the row of an entry.
fn note_own_row(alloc: Global, gathered: &mut Gathered, path: &Path) -> Result<(), NoMemory>
    ensures { OnOk result (gathered.new ≡ noted gathered.old (spec.row path.now Present)) }
{
    gathered.note_row(path.copy(alloc)?, Value::Present)
}

// Notes the faults of an entry's keys, and its row where each key has a value. Then its members are left, at the path.
fn note_entry(
    alloc: Global,
    schema: &Schema,
    gathered: &mut Gathered,
    spot: &Spot,
    members: &Map<String, Json>,
    keys: &[usize],
) -> Result<Option<Path>, NoMemory>
    ensures { IfOk result (λ path. GoesOn schema.now (Some spot.now.number) (members_view members.now.entries) gathered.new path
        (all_noted gathered.old (spec.found schema.now (spec.list_item (spot_of spot.now) keys.now) (object (members_view members.now.entries))))) }
{
    let values = read_keys(alloc, schema, gathered, spot, members, keys)?;
    if values.len() != keys.len() {
        drop(values);
        return Ok(None);
    }
    let path = step_below(alloc, spot.above, spot.node, Chosen::Keys(values))?;
    match note_own_row(alloc, gathered, &path) {
        Ok(()) => Ok(Some(path)),
        Err(fault) => {
            drop(path);
            Err(fault)
        }
    }
}

/// The members of an object, of a node or at the top.
#[cycle(walk)]
pub fn read_members(
    alloc: Global,
    schema: &Schema,
    gathered: &mut Gathered,
    above: &Path,
    within: Option<usize>,
    all: &Map<String, Json>,
) -> Result<(), NoMemory>
    ensures { OnOk result (gathered.new
        ≡ all_noted gathered.old (spec.members_found schema.now above.now within (members_view all.now.entries) (members_view all.now.entries))) }
{
    for (name, part) in all {
        let name = name.as_str();
        let at = node_named(schema, within, name);
        let twice = is_twice(within, name, all);
        note_name(alloc, schema, gathered, above, twice, name, at)?;
        read_member(alloc, schema, gathered, above, at, part)?;
    }
    Ok(())
}

// The value of a member, if its name leads to a node that isn't a key.
#[cycle(walk)]
fn read_member(
    alloc: Global,
    schema: &Schema,
    gathered: &mut Gathered,
    above: &Path,
    at: Option<usize>,
    part: &Json,
) -> Result<(), NoMemory>
    ensures { OnOk result (gathered.new ≡ all_noted gathered.old (spec.found schema.now (spec.wanted schema.now above.now at) (view part.now))) }
{
    let Some(number) = at else {
        return Ok(());
    };
    if schema.is_key(number) {
        return Ok(());
    }
    match schema.node(number) {
        None => Ok(()),
        Some(node) => {
            let spot = Spot {
                above,
                number,
                node,
            };
            read_node(alloc, schema, gathered, &spot, part)
        }
    }
}

// The value of a node.
#[cycle(walk)]
fn read_node(
    alloc: Global,
    schema: &Schema,
    gathered: &mut Gathered,
    spot: &Spot,
    part: &Json,
) -> Result<(), NoMemory>
    ensures { OnOk result
        (gathered.new ≡ all_noted gathered.old (spec.found schema.now (spec.wanted_as (spot_of spot.now) spot.now.node.now.kind) (view part.now))) }
{
    match &spot.node.kind {
        NodeKind::Container { presence } => {
            read_container(alloc, schema, gathered, spot, *presence, part)
        }
        NodeKind::Leaf { leaf_type, .. } => {
            read_leaf(alloc, gathered, spot, leaf_type.get(), part)
        }
        NodeKind::LeafList { leaf_type, .. } => {
            read_leaf_list(alloc, schema, gathered, spot, leaf_type.get(), part)
        }
        NodeKind::List { keys, .. } => {
            read_list(alloc, schema, gathered, spot, keys.as_slice(), part)
        }
    }
}

// The object of a container.
#[cycle(walk)]
fn read_container(
    alloc: Global,
    schema: &Schema,
    gathered: &mut Gathered,
    spot: &Spot,
    presence: bool,
    part: &Json,
) -> Result<(), NoMemory>
    ensures { OnOk result (gathered.new ≡ all_noted gathered.old (spec.found schema.now (spec.container (spot_of spot.now) presence) (view part.now))) }
{
    match part {
        Json::Object(members) => {
            note_presence(alloc, gathered, spot, presence)?;
            let path = step_below(alloc, spot.above, spot.node, Chosen::Whole)?;
            let read = read_members(alloc, schema, gathered, &path, Some(spot.number), members);
            drop(path);
            read
        }
        _ => note_misfit(alloc, gathered, spot),
    }
}

// The array of a list.
#[cycle(walk)]
fn read_list(
    alloc: Global,
    schema: &Schema,
    gathered: &mut Gathered,
    spot: &Spot,
    keys: &[usize],
    part: &Json,
) -> Result<(), NoMemory>
    ensures { OnOk result (gathered.new ≡ all_noted gathered.old (spec.found schema.now (spec.list (spot_of spot.now) keys.now) (view part.now))) }
{
    match part {
        Json::Array(items) => read_entries(alloc, schema, gathered, spot, keys, items.as_slice()),
        _ => note_misfit(alloc, gathered, spot),
    }
}

// The entries of a list.
#[cycle(walk)]
fn read_entries(
    alloc: Global,
    schema: &Schema,
    gathered: &mut Gathered,
    spot: &Spot,
    keys: &[usize],
    items: &[Json],
) -> Result<(), NoMemory>
    ensures { OnOk result
        (gathered.new ≡ all_noted gathered.old (spec.items_found schema.now (spec.list_item (spot_of spot.now) keys.now) (items_view items.now))) }
{
    for item in items {
        read_entry(alloc, schema, gathered, spot, keys, item)?;
    }
    Ok(())
}

// An entry of a list.
#[cycle(walk)]
fn read_entry(
    alloc: Global,
    schema: &Schema,
    gathered: &mut Gathered,
    spot: &Spot,
    keys: &[usize],
    part: &Json,
) -> Result<(), NoMemory>
    ensures { OnOk result (gathered.new ≡ all_noted gathered.old (spec.found schema.now (spec.list_item (spot_of spot.now) keys.now) (view part.now))) }
{
    match part {
        Json::Object(members) => match note_entry(alloc, schema, gathered, spot, members, keys)? {
            None => Ok(()),
            Some(path) => {
                let read = read_members(alloc, schema, gathered, &path, Some(spot.number), members);
                drop(path);
                read
            }
        },
        _ => note_misfit(alloc, gathered, spot),
    }
}
