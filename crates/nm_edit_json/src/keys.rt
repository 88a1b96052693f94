//! The keys of list entries.

ghost use Rattle.std.specs.Prelude.{◌≡◌, [], ◌∷◌, ◌++◌, IfOk, OnOk, map};
ghost use Rattle.serde_json.specs.View.{members_view};
ghost use Rattle.nm_json.specs.Findings.{bare, key_read, values_of};
ghost use Rattle.nm_json.specs.Spots.{spot_of};
ghost use Rattle.nm_edit_json.specs.Noted.{gathered as all_noted};
ghost use Rattle.nm_edit_json.specs.Findings as spec;

use crate::fault::fault_of;
use crate::gathered::Gathered;
use nm_base::NoMemory;
use nm_json::fault::Stop;
use nm_json::keys::read_key;
use nm_json::spot::Spot;
use nm_schema_tree::Schema;
use nm_types::Value;
use serde_json::{Map, Value as Json};
use std::alloc::Global;

// Puts the value of a key behind those before it, or notes its fault.
#[tactic(auto, unfolding(crate::specs::Noted::gathered))]
fn keep_key(
    alloc: Global,
    schema: &Schema,
    gathered: &mut Gathered,
    list: &Spot,
    members: &Map<String, Json>,
    key: usize,
    values: &mut Vec<Value>,
) -> Result<(), NoMemory>
    ensures values { OnOk result (values.new.items
        ≡ values.old.items ++ values_of (key_read schema.now (bare (spot_of list.now)) (members_view members.now.entries) key ∷ [])) }
    ensures faults { OnOk result (gathered.new ≡ all_noted gathered.old
        (spec.faults_of (key_read schema.now (bare (spot_of list.now)) (members_view members.now.entries) key ∷ []))) }
{
    match read_key(alloc, schema, list, members, key) {
        Ok(value) => {
            values.push(value)?;
            Ok(())
        }
        Err(Stop::Bad(fault)) => gathered.note_fault(alloc, fault_of(fault)),
        Err(Stop::NoMemory) => Err(NoMemory),
    }
}

/// The values of the keys that have one, in order. The faults of the others are noted.
pub fn read_keys(
    alloc: Global,
    schema: &Schema,
    gathered: &mut Gathered,
    list: &Spot,
    members: &Map<String, Json>,
    keys: &[usize],
) -> Result<Vec<Value>, NoMemory>
    ensures values { IfOk result (λ values. values.items
        ≡ values_of (map (key_read schema.now (bare (spot_of list.now)) (members_view members.now.entries)) keys.now)) }
    ensures faults { OnOk result (gathered.new ≡ all_noted gathered.old
        (spec.faults_of (map (key_read schema.now (bare (spot_of list.now)) (members_view members.now.entries)) keys.now))) }
{
    let mut values = Vec::with_capacity(alloc, keys.len())?;
    for key in keys {
        match keep_key(alloc, schema, gathered, list, members, *key, &mut values) {
            Ok(()) => {}
            Err(error) => {
                drop(values);
                return Err(error);
            }
        }
    }
    Ok(values)
}
