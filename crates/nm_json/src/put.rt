//! Putting rows into JSON objects.

ghost use Rattle.std.specs.Prelude.{◌≡◌, ◌∷◌, IfOk, OnOk, option_map};
ghost use Rattle.serde_json.specs.View.{view, items_view, members_view};
ghost use Rattle.serde_json.specs.Data.{null, array, object, no_members, put as with_member};
ghost use Rattle.serde_json.specs.Find.{get_member};
ghost use Rattle.nm_types.specs.Path.{whole, keys as keys_chosen};
ghost use Rattle.nm_schema_tree.specs.Nodes.{keys_at};
ghost use Rattle.nm_path.specs.Spelling.{found_of as found_at, below as place_below, name_at};
ghost use Rattle.nm_json.specs.Writing as spec;

use crate::gathered::with_module;
use crate::names::is_owner;
use crate::spelled::{narrow_at, value_data};
use nm_base::{Label, NoMemory};
use nm_path::place::Place;
use nm_schema_tree::{NodeKind, Schema};
use nm_types::{Chosen, Step, Value};
use serde_json::{Map, Value as Json};
use std::alloc::Global;

// The name of the member of a step.
fn member_name(alloc: Global, place: Place, step: &Step) -> Result<Label, NoMemory>
    ensures { IfOk result (λ name. name ≡ spec.member_name place step.now) }
{
    match place {
        Place::Top => with_module(alloc, &step.module, &step.name),
        _ => step.name.copy(),
    }
}

// The node of a step in a node.
fn child_of(schema: &Schema, around: usize, step: &Step) -> Option<usize>
    ensures { result ≡ found_at schema.now.nodes (Place.Within around) step.now.«module» step.now.name }
{
    let Some(at) = schema.child(around, step.name.as_str()) else {
        return None;
    };
    if !is_owner(schema, at, step.module.as_str()) {
        return None;
    }
    Some(at)
}

// The node that a step leads to from a place.
fn node_of(schema: &Schema, place: Place, step: &Step) -> Option<usize>
    ensures { result ≡ found_at schema.now.nodes place step.now.«module» step.now.name }
{
    match place {
        Place::Top => schema.top(step.module.as_str(), step.name.as_str()),
        Place::Within(around) => child_of(schema, around, step),
        Place::Nowhere => None,
    }
}

// Where the step after one is looked for.
fn below(at: Option<usize>) -> Place
    ensures { result ≡ place_below at }
{
    match at {
        None => Place::Nowhere,
        Some(at) => Place::Within(at),
    }
}

// Gives a member a value.
fn put_member(
    alloc: Global,
    members: &mut Map<String, Json>,
    name: &str,
    part: Json,
) -> Result<(), NoMemory>
    ensures { OnOk result (members_view members.new.entries ≡ with_member name.now (view part) (members_view members.old.entries)) }
{
    let key = match String::from_str(alloc, name) {
        Ok(key) => key,
        Err(_) => {
            drop(part);
            return Err(NoMemory);
        }
    };
    match members.insert(key, part) {
        Ok(before) => {
            drop(before);
            Ok(())
        }
        Err(error) => Err(NoMemory::from(error)),
    }
}

// Takes the value of a member, in whose place a null is left.
fn take_member(
    alloc: Global,
    members: &mut Map<String, Json>,
    name: &str,
) -> Result<Option<Json>, NoMemory>
    ensures before { IfOk result (λ before. option_map view before ≡ get_member name.now (members_view members.old.entries)) }
    ensures after { OnOk result (members_view members.new.entries ≡ with_member name.now null (members_view members.old.entries)) }
{
    let key = String::from_str(alloc, name)?;
    Ok(members.insert(key, Json::Null)?)
}

// The members of a JSON value that is an object.
fn members_in(alloc: Global, before: Option<Json>) -> Map<String, Json>
    ensures { members_view result.entries ≡ spec.members_in (option_map view before) }
{
    let Some(part) = before else {
        return Map::new(alloc);
    };
    match part {
        Json::Object(members) => members,
        _ => Map::new(alloc),
    }
}

// The items of a JSON value that is an array.
fn items_in(alloc: Global, before: Option<Json>) -> Vec<Json>
    ensures { items_view result.items ≡ spec.items_in (option_map view before) }
{
    let Some(part) = before else {
        return Vec::new(alloc);
    };
    match part {
        Json::Array(items) => items,
        _ => Vec::new(alloc),
    }
}

// The name of a node.
fn name_of(schema: &Schema, at: usize) -> &str
    ensures { result.now ≡ name_at schema.now.nodes at }
{
    match schema.node(at) {
        None => "",
        Some(node) => node.name.as_str(),
    }
}

// The keys of a node.
fn keys_of(schema: &Schema, at: Option<usize>) -> &[usize]
    ensures { result.now ≡ keys_at schema.now.nodes at }
{
    let Some(at) = at else {
        return &[];
    };
    let Some(node) = schema.node(at) else {
        return &[];
    };
    match &node.kind {
        NodeKind::List { keys, .. } => keys.as_slice(),
        _ => &[],
    }
}

// Puts the keys of an entry into its object.
fn put_keys(
    alloc: Global,
    schema: &Schema,
    keys: &[usize],
    values: &[Value],
    members: &mut Map<String, Json>,
) -> Result<(), NoMemory>
    ensures { OnOk result (members_view members.new.entries ≡ spec.key_members schema.now.nodes keys.now values.now (members_view members.old.entries)) }
{
    let mut keys_left = keys;
    let mut values_left = values;
    'keys: while let [key, more_keys @ ..] = keys_left {
        let [value, more_values @ ..] = values_left else {
            return Ok(());
        };
        let part = value_data(alloc, narrow_at(schema, Some(*key)), value)?;
        put_member(alloc, members, name_of(schema, *key), part)?;
        keys_left = more_keys;
        values_left = more_values;
    }
    Ok(())
}

// An array of items with one more at their end.
fn array_with(items: Vec<Json>, part: Json) -> Result<Json, NoMemory>
    ensures { IfOk result (λ all. view all ≡ array (spec.append (items_view items.items) (view part))) }
{
    let mut all = items;
    match all.push(part) {
        Ok(()) => Ok(Json::Array(all)),
        Err(failed) => {
            drop(all);
            Err(NoMemory::from(failed))
        }
    }
}

// An item more at the end of an array.
fn with_item(alloc: Global, before: Option<Json>, part: Json) -> Result<Json, NoMemory>
    ensures { IfOk result (λ all. view all ≡ array (spec.append (spec.items_in (option_map view before)) (view part))) }
{
    let items = items_in(alloc, before);
    array_with(items, part)
}

// The object of an entry with its keys.
fn entry_object(
    alloc: Global,
    schema: &Schema,
    at: Option<usize>,
    values: &[Value],
) -> Result<Json, NoMemory>
    ensures { IfOk result (λ part. view part ≡ object (spec.key_members schema.now.nodes (keys_at schema.now.nodes at) values.now no_members)) }
{
    let mut members = Map::new(alloc);
    match put_keys(alloc, schema, keys_of(schema, at), values, &mut members) {
        Ok(()) => Ok(Json::Object(members)),
        Err(fault) => {
            drop(members);
            Err(fault)
        }
    }
}

// The entries of a list once there is one more.
fn with_entry(
    alloc: Global,
    schema: &Schema,
    at: Option<usize>,
    values: &[Value],
    before: Option<Json>,
) -> Result<Json, NoMemory>
    ensures { IfOk result (λ all. view all ≡ array (spec.append (spec.items_in (option_map view before))
        (object (spec.key_members schema.now.nodes (keys_at schema.now.nodes at) values.now no_members)))) }
{
    match entry_object(alloc, schema, at, values) {
        Ok(part) => with_item(alloc, before, part),
        Err(fault) => {
            drop(before);
            Err(fault)
        }
    }
}

// The values of a leaf-list once there is one more.
fn with_value(
    alloc: Global,
    schema: &Schema,
    at: Option<usize>,
    value: &Value,
    before: Option<Json>,
) -> Result<Json, NoMemory>
    ensures { IfOk result (λ all. view all ≡ array (spec.append (spec.items_in (option_map view before))
        (spec.value_data (spec.narrow_at schema.now.nodes at) value.now))) }
{
    match value_data(alloc, narrow_at(schema, at), value) {
        Ok(part) => with_item(alloc, before, part),
        Err(fault) => {
            drop(before);
            Err(fault)
        }
    }
}

/// Puts a row into an object, at the steps that are left of its path.
#[cycle(put)]
pub fn put_steps(
    alloc: Global,
    schema: &Schema,
    place: Place,
    steps: &[Step],
    value: &Value,
    members: &mut Map<String, Json>,
) -> Result<(), NoMemory>
    ensures { OnOk result (members_view members.new.entries ≡ spec.put_steps schema.now place steps.now value.now (members_view members.old.entries)) }
{
    let [step, rest @ ..] = steps else {
        return Ok(());
    };
    let label = member_name(alloc, place, step)?;
    let name = label.as_str();
    let at = node_of(schema, place, step);
    let before = match take_member(alloc, members, name) {
        Ok(before) => before,
        Err(fault) => {
            drop(label);
            return Err(fault);
        }
    };
    let part = match step_data(alloc, schema, at, step, rest, value, before) {
        Ok(part) => part,
        Err(fault) => {
            drop(label);
            return Err(fault);
        }
    };
    let put = put_member(alloc, members, name, part);
    drop(label);
    put
}

// The JSON value of a step once a row is put there.
#[cycle(put)]
fn step_data(
    alloc: Global,
    schema: &Schema,
    at: Option<usize>,
    step: &Step,
    rest: &[Step],
    value: &Value,
    before: Option<Json>,
) -> Result<Json, NoMemory>
    ensures { IfOk result (λ part. view part ≡ spec.step_data schema.now.nodes at step.now.chosen rest.now value.now (option_map view before)
        (spec.put_steps schema.now (place_below at) rest.now value.now)) }
{
    match &step.chosen {
        Chosen::Whole => whole_data(alloc, schema, at, rest, value, before),
        Chosen::Keys(values) => keys_data(alloc, schema, at, values, rest, value, before),
        Chosen::Entry(chosen_value) => with_value(alloc, schema, at, chosen_value, before),
    }
}

// The value of a leaf, or a container once a row is put into it.
#[cycle(put)]
fn whole_data(
    alloc: Global,
    schema: &Schema,
    at: Option<usize>,
    rest: &[Step],
    value: &Value,
    before: Option<Json>,
) -> Result<Json, NoMemory>
    ensures { IfOk result (λ part. view part ≡ spec.step_data schema.now.nodes at whole rest.now value.now (option_map view before)
        (spec.put_steps schema.now (place_below at) rest.now value.now)) }
{
    if rest.is_empty() {
        drop(before);
        return value_data(alloc, narrow_at(schema, at), value);
    }
    object_after(alloc, schema, at, rest, value, before)
}

// The entries of a list once there is one more, or a row is put into the last of them.
#[cycle(put)]
fn keys_data(
    alloc: Global,
    schema: &Schema,
    at: Option<usize>,
    values: &[Value],
    rest: &[Step],
    value: &Value,
    before: Option<Json>,
) -> Result<Json, NoMemory>
    ensures { IfOk result (λ part. view part ≡ spec.step_data schema.now.nodes at (keys_chosen values.now) rest.now value.now (option_map view before)
        (spec.put_steps schema.now (place_below at) rest.now value.now)) }
{
    if rest.is_empty() {
        return with_entry(alloc, schema, at, values, before);
    }
    let mut items = items_in(alloc, before);
    let Some(last) = items.pop() else {
        return Ok(Json::Array(items));
    };
    match object_after(alloc, schema, at, rest, value, Some(last)) {
        Ok(part) => array_with(items, part),
        Err(fault) => {
            drop(items);
            Err(fault)
        }
    }
}

// An object once a row is put into it.
#[cycle(put)]
fn object_after(
    alloc: Global,
    schema: &Schema,
    at: Option<usize>,
    rest: &[Step],
    value: &Value,
    before: Option<Json>,
) -> Result<Json, NoMemory>
    ensures { IfOk result (λ part. view part ≡ spec.object_after (spec.put_steps schema.now (place_below at) rest.now value.now) (option_map view before)) }
{
    let mut inner = members_in(alloc, before);
    match put_steps(alloc, schema, below(at), rest, value, &mut inner) {
        Ok(()) => Ok(Json::Object(inner)),
        Err(fault) => {
            drop(inner);
            Err(fault)
        }
    }
}
