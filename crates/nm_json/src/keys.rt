//! The keys of list entries.

ghost use Rattle.std.specs.Prelude.{◌≡◌, [], ◌∷◌, ◌++◌, Option, Some, None, IfOk, OnOk, map, option_map, length};
ghost use Rattle.serde_json.specs.View.{view, members_view};
ghost use Rattle.serde_json.specs.Data.{Data};
ghost use Rattle.serde_json.specs.Find.{get_member};
ghost use Rattle.nm_schema_tree.specs.Nodes.{type_of};
ghost use Rattle.nm_json.specs.Values.{IsValue};
ghost use Rattle.nm_json.specs.Noted.{gathered as all_noted};
ghost use Rattle.nm_json.specs.Findings as spec;
ghost use Rattle.nm_json.specs.Spots.{spot_of};

use crate::fault::{Fault, JsonKind, Place, Refusal, Stop};
use crate::gathered::{Gathered, long_name};
use crate::leafs::leaf_value;
use crate::names::{may_have_long, member};
use crate::spot::{Spot, step_below};
use nm_base::{Label, NoMemory};
use nm_schema_tree::{Node, Schema};
use nm_types::{Chosen, Path, Value};
use serde_json::{Map, Value as Json};
use std::alloc::Global;

// The value of a key of a node's type.
fn typed_value(alloc: Global, node: &Node, part: &Json) -> Result<Value, Refusal>
    ensures { IsValue result (spec.typed_value (type_of node.now.kind) (view part.now)) }
{
    match node.leaf_type() {
        None => Err(Refusal::Bad(JsonKind::BadForm)),
        Some(leaf_type) => leaf_value(alloc, leaf_type, part),
    }
}

// The value of a key: of the one member that has it.
fn key_value(
    alloc: Global,
    node: &Node,
    short: Option<&Json>,
    long: Option<&Json>,
) -> Result<Value, Refusal>
    ensures { IsValue result
        (spec.key_value (type_of node.now.kind) (option_map (λ part. view part.now) short.entry) (option_map (λ part. view part.now) long.entry)) }
{
    match short {
        None => match long {
            None => Err(Refusal::Bad(JsonKind::MissingKey)),
            Some(part) => typed_value(alloc, node, part),
        },
        Some(part) => match long {
            None => typed_value(alloc, node, part),
            Some(_) => Err(Refusal::Bad(JsonKind::Repeated)),
        },
    }
}

// The path of a list without a choice of an entry.
fn bare(alloc: Global, list: &Spot) -> Result<Path, NoMemory>
    ensures { IfOk result (λ path. path ≡ spec.bare (spot_of list.now)) }
{
    step_below(alloc, list.above, list.node, Chosen::Whole)
}

// The fault of a key: where it lacks it is at the list, and else at the name of the key.
fn key_fault(alloc: Global, list: &Spot, name: &Label, kind: JsonKind) -> Result<Fault, NoMemory>
    ensures { IfOk result (λ fault. fault ≡ spec.key_fault (spec.bare (spot_of list.now)) name.now kind) }
{
    let path = bare(alloc, list)?;
    let below = match kind {
        JsonKind::MissingKey => None,
        _ => Some(name.copy()?),
    };
    Ok(Fault {
        kind,
        place: Place { path, below },
    })
}

// The member with a key's name, with or without the module's name.
fn named_value(alloc: Global, node: &Node, members: &Map<String, Json>) -> Result<Value, Refusal>
    ensures { IsValue result (spec.key_value (type_of node.now.kind) (get_member node.now.name (members_view members.now.entries))
        (get_member (node.now.«module» ++ 58 ∷ node.now.name) (members_view members.now.entries))) }
{
    let short = member(members, node.name.as_str());
    if !may_have_long(members, node.module.as_str(), node.name.as_str()) {
        return key_value(alloc, node, short, None);
    }
    let long = long_name(alloc, &node.module, &node.name)?;
    key_value(alloc, node, short, member(members, long.as_str()))
}

// The value of a key of a node, or its fault.
fn node_key(
    alloc: Global,
    list: &Spot,
    node: &Node,
    members: &Map<String, Json>,
) -> Result<Value, Stop>
    ensures { spec.IsKeyRead result (spec.key_from (spec.bare (spot_of list.now)) (members_view members.now.entries) (Some node.now)) }
{
    match named_value(alloc, node, members) {
        Ok(value) => Ok(value),
        Err(Refusal::Bad(kind)) => Err(Stop::Bad(key_fault(alloc, list, &node.name, kind)?)),
        Err(Refusal::NoMemory) => Err(Stop::NoMemory),
    }
}

/// The value of a key, or its fault: at the bare list where there is none, else at the key.
#[tactic(auto, unfolding(crate::specs::Findings::key_read))]
pub fn read_key(
    alloc: Global,
    schema: &Schema,
    list: &Spot,
    members: &Map<String, Json>,
    key: usize,
) -> Result<Value, Stop>
    ensures { spec.IsKeyRead result (spec.key_read schema.now (spec.bare (spot_of list.now)) (members_view members.now.entries) key) }
{
    match schema.node(key) {
        None => Err(Stop::Bad(Fault {
            kind: JsonKind::MissingKey,
            place: Place {
                path: bare(alloc, list)?,
                below: None,
            },
        })),
        Some(node) => node_key(alloc, list, node, members),
    }
}

// Puts the value of a key behind those before it, or notes its fault.
#[tactic(auto, unfolding(crate::specs::Noted::gathered))]
fn keep_key(
    alloc: Global,
    schema: &Schema,
    gathered: &mut Gathered,
    list: &Spot,
    members: &Map<String, Json>,
    key: usize,
    values: &mut Vec<Value>,
) -> Result<(), NoMemory>
    ensures values { OnOk result (values.new.items
        ≡ values.old.items ++ spec.values_of (spec.key_read schema.now (spec.bare (spot_of list.now)) (members_view members.now.entries) key ∷ [])) }
    ensures faults { OnOk result (gathered.new ≡ all_noted gathered.old
        (spec.faults_of (spec.key_read schema.now (spec.bare (spot_of list.now)) (members_view members.now.entries) key ∷ []))) }
{
    match read_key(alloc, schema, list, members, key) {
        Ok(value) => {
            values.push(value)?;
            Ok(())
        }
        Err(Stop::Bad(fault)) => gathered.note_fault(alloc, fault),
        Err(Stop::NoMemory) => Err(NoMemory),
    }
}

/// The values of the keys that have one, in order. The faults of the others are noted.
pub fn read_keys(
    alloc: Global,
    schema: &Schema,
    gathered: &mut Gathered,
    list: &Spot,
    members: &Map<String, Json>,
    keys: &[usize],
) -> Result<Vec<Value>, NoMemory>
    ensures values { IfOk result (λ values. values.items
        ≡ spec.values_of (map (spec.key_read schema.now (spec.bare (spot_of list.now)) (members_view members.now.entries)) keys.now)) }
    ensures faults { OnOk result (gathered.new ≡ all_noted gathered.old
        (spec.faults_of (map (spec.key_read schema.now (spec.bare (spot_of list.now)) (members_view members.now.entries)) keys.now))) }
{
    let mut values = Vec::with_capacity(alloc, keys.len())?;
    for key in keys {
        match keep_key(alloc, schema, gathered, list, members, *key, &mut values) {
            Ok(()) => {}
            Err(error) => {
                drop(values);
                return Err(error);
            }
        }
    }
    Ok(values)
}
