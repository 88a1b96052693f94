//! Leafs, and the entries of leaf-lists with their annotations.

ghost use Rattle.std.specs.Prelude.{◌≡◌, IfOk, OnOk, Some, None, MatchOption, option_map, slice_get};
ghost use Rattle.serde_json.specs.View.{view, items_view};
ghost use Rattle.nm_types.specs.Path.{entry};
ghost use Rattle.nm_json.specs.Spots.{spot_of};
ghost use Rattle.nm_json.specs.Findings.{step_below as path_below};
ghost use Rattle.nm_json.specs.Values.{leaf_value as value_of_leaf};
ghost use Rattle.nm_edit_json.specs.Noted.{gathered as all_noted};
ghost use Rattle.nm_edit_json.specs.Findings as spec;

use crate::around::said_item;
use crate::fault::kind_of;
use crate::gathered::Gathered;
use crate::note::{note_child, note_misfit, note_misplaced, note_node, note_node_below};
use crate::said::Said;
use nm_base::NoMemory;
use nm_json::fault::Refusal;
use nm_json::leafs::leaf_value;
use nm_json::spot::{Spot, step_below};
use nm_types::{Chosen, LeafType, Path, Value};
use serde_json::Value as Json;
use std::alloc::Global;

/// The value of a leaf.
pub fn read_leaf(
    alloc: Global,
    gathered: &mut Gathered,
    spot: &Spot,
    leaf_type: &LeafType,
    held: bool,
    said: Said,
    part: &Json,
) -> Result<(), NoMemory>
    ensures { OnOk result (gathered.new ≡ all_noted gathered.old
        (spec.leaf_found (spot_of spot.now) held said (value_of_leaf leaf_type.now (view part.now)))) }
{
    match leaf_value(alloc, leaf_type, part) {
        Ok(value) => {
            let value = Some(value);
            note_node_below(alloc, gathered, spot.above, spot.node, held, said, value)
        }
        Err(Refusal::Bad(kind)) => {
            note_child(alloc, gathered, spot.above, spot.node, kind_of(kind))
        }
        Err(Refusal::NoMemory) => Err(NoMemory),
    }
}

// The path of an entry of a leaf-list by its value.
fn entry_path(alloc: Global, spot: &Spot, value: &Value) -> Result<Path, NoMemory>
    ensures { IfOk result (λ path. path ≡ path_below spot.now.above.now spot.now.node.now (entry value.now)) }
{
    step_below(alloc, spot.above, spot.node, Chosen::Entry(value.copy()?))
}

// Notes an entry of a leaf-list by its value.
fn note_value(
    alloc: Global,
    gathered: &mut Gathered,
    spot: &Spot,
    held: bool,
    said: Said,
    value: Value,
) -> Result<(), NoMemory>
    ensures { OnOk result (gathered.new ≡ all_noted gathered.old
        (spec.node_found (path_below spot.now.above.now spot.now.node.now (entry value)) held said (Some value))) }
{
    match entry_path(alloc, spot, &value) {
        Ok(path) => note_node(alloc, gathered, path, held, said, Some(value)),
        Err(error) => {
            drop(value);
            Err(error)
        }
    }
}

// An entry of a leaf-list.
fn read_value(
    alloc: Global,
    gathered: &mut Gathered,
    spot: &Spot,
    leaf_type: &LeafType,
    held: bool,
    said: Said,
    part: &Json,
) -> Result<(), NoMemory>
    ensures { OnOk result (gathered.new ≡ all_noted gathered.old
        (spec.value_found (spot_of spot.now) held said (value_of_leaf leaf_type.now (view part.now)))) }
{
    match leaf_value(alloc, leaf_type, part) {
        Ok(value) => note_value(alloc, gathered, spot, held, said, value),
        Err(Refusal::Bad(kind)) => {
            note_child(alloc, gathered, spot.above, spot.node, kind_of(kind))
        }
        Err(Refusal::NoMemory) => Err(NoMemory),
    }
}

// The annotation at a position, if anything stands there.
fn noted_at(notes: &[Json], at: usize) -> Option<&Json>
    ensures { MatchOption result (slice_get notes.now at ≡ None) (λ note. slice_get notes.now at ≡ Some note.now) }
{
    notes.get(at)
}

// The entries of a leaf-list, with the annotations at the same positions.
fn read_values(
    alloc: Global,
    gathered: &mut Gathered,
    spot: &Spot,
    leaf_type: &LeafType,
    held: bool,
    notes: &[Json],
    items: &[Json],
) -> Result<(), NoMemory>
    ensures { OnOk result (gathered.new ≡ all_noted gathered.old
        (spec.values_found (spot_of spot.now) leaf_type.now held (items_view items.now) (items_view notes.now))) }
{
    for (at, item) in items.iter().enumerate() {
        let said = said_item(noted_at(notes, at));
        read_value(alloc, gathered, spot, leaf_type, held, said, item)?;
    }
    Ok(())
}

/// The entries of a leaf-list, where there may be no such annotations, or too many.
pub fn read_noted(
    alloc: Global,
    gathered: &mut Gathered,
    spot: &Spot,
    leaf_type: &LeafType,
    held: bool,
    notes: Option<&[Json]>,
    items: &[Json],
) -> Result<(), NoMemory>
    ensures { OnOk result (gathered.new ≡ all_noted gathered.old
        (spec.noted_found (spot_of spot.now) leaf_type.now held (option_map (λ notes. items_view notes.now) notes.entry) (items_view items.now))) }
{
    match notes {
        None => {
            note_misplaced(alloc, gathered, spot.above, spot.node, true)?;
            let none = Vec::new(alloc);
            let read = read_values(
                alloc,
                gathered,
                spot,
                leaf_type,
                held,
                none.as_slice(),
                items,
            );
            drop(none);
            read
        }
        Some(notes) => {
            let longer = notes.len() > items.len();
            note_misplaced(alloc, gathered, spot.above, spot.node, longer)?;
            read_values(alloc, gathered, spot, leaf_type, held, notes, items)
        }
    }
}

/// The array of a leaf-list.
pub fn read_leaf_list(
    alloc: Global,
    gathered: &mut Gathered,
    spot: &Spot,
    leaf_type: &LeafType,
    held: bool,
    notes: Option<&[Json]>,
    part: &Json,
) -> Result<(), NoMemory>
    ensures { OnOk result (gathered.new ≡ all_noted gathered.old
        (spec.leaf_list_found (spot_of spot.now) leaf_type.now held (option_map (λ notes. items_view notes.now) notes.entry) (view part.now))) }
{
    match part {
        Json::Array(items) => {
            read_noted(
                alloc,
                gathered,
                spot,
                leaf_type,
                held,
                notes,
                items.as_slice(),
            )
        }
        _ => note_misfit(alloc, gathered, spot),
    }
}
