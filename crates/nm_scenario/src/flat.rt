//! Flat contents: their configurations and edits are objects of numbered cells.

ghost use Rattle.std.specs.Prelude.{◌≡◌, None, Some, string_bytes};
ghost use Rattle.std.specs.FinMap.{empty};
ghost use Rattle.serde_json.specs.View.{view, members_view};
ghost use Rattle.nm_flat.specs.Flat.{flat_violation};
ghost use Rattle.nm_scenario_form.specs.Reading.{Gives, natural_of};
ghost use Rattle.nm_scenario_form.specs.Read.{told};
ghost use Rattle.nm_scenario.specs.Flat.{cells_said, change_of, changes_said, edit_of, edit_read, entries_in, entries_read, entries_within, key_of, node_limit, or_unread, row_limit, state_of, state_read, valid_state};

use crate::causes::refusal_fault;
use crate::contents::Written;
use nm_base::read_decimal;
use nm_flat::{FlatConfig, FlatContent, FlatEdit, NumberMap};
use nm_proto::{CheckFault, Content};
use nm_scenario_form::places::fault_here;
use nm_scenario_form::{ReadError, ScenarioKind};
use serde_json::{Map, Value};
use std::alloc::Global;

/// How many rows a configuration may have: three copies of 32 devices of so many stay below 400 MB.
pub const ROW_LIMIT: usize = 20_000;

/// How many nodes an edit may name.
pub const NODE_LIMIT: usize = 5_000;

impl Written for FlatContent {
    type Config = FlatConfig;

    type Edit = FlatEdit;

    ghost config_said = { λ _. cells_said };

    ghost edit_said = { λ _. changes_said };

    #[tactic(auto, unfolding(crate::specs::Flat::cells_said))]
    fn read_config(&self, alloc: Global, part: &Value) -> Result<FlatConfig, ReadError> {
        match part.as_object() {
            None => fault_here(alloc, ScenarioKind::Content),
            Some(members) => state_in(alloc, members),
        }
    }

    #[tactic(auto, unfolding(crate::specs::Flat::changes_said))]
    fn read_edit(&self, alloc: Global, part: &Value) -> Result<FlatEdit, ReadError> {
        match part.as_object() {
            None => fault_here(alloc, ScenarioKind::Content),
            Some(members) => edit_in(alloc, members),
        }
    }
}

// ---- configurations

#[tactic(auto, using(crate::proofs::Entries::state_gives))]
fn state_in(alloc: Global, members: &Map<String, Value>) -> Result<FlatConfig, ReadError>
    ensures { Gives result (told (state_of (entries_in row_limit natural_of 0 (Some (members_view members.now.entries))))) }
{
    read_state(alloc, members)
}

fn read_state(alloc: Global, members: &Map<String, Value>) -> Result<FlatConfig, ReadError>
    ensures { Gives result (state_read (members_view members.now.entries)) }
{
    let cells = cells_within(alloc, members)?;
    only_valid(alloc, FlatConfig::new(alloc, cells))
}

// A configuration that is valid.
fn only_valid(alloc: Global, config: FlatConfig) -> Result<FlatConfig, ReadError>
    ensures { Gives result (told (valid_state config (flat_violation config))) }
{
    match FlatContent::new(alloc).check(&config) {
        Ok(()) => Ok(config),
        Err(CheckFault::Violation { tag, path }) => {
            refusal_fault(alloc, ScenarioKind::Invalid, tag, path)
        }
        Err(CheckFault::NoMemory) => Err(ReadError::NoMemory),
    }
}

#[tactic(auto, using(crate::proofs::Counts::counts))]
fn cells_within(alloc: Global, members: &Map<String, Value>) -> Result<NumberMap<u64>, ReadError>
    ensures { Gives result (entries_within row_limit natural_of (members_view members.now.entries)) }
{
    if members.len() > ROW_LIMIT {
        return fault_here(alloc, ScenarioKind::TooMany);
    }
    cells(alloc, members)
}

fn cells(alloc: Global, members: &Map<String, Value>) -> Result<NumberMap<u64>, ReadError>
    ensures { Gives result (entries_read natural_of empty (members_view members.now.entries)) }
{
    let mut found = NumberMap::new(alloc);
    for (name, part) in members {
        let key = read_key(alloc, name)?;
        let value = read_natural(alloc, part)?;
        found.insert(key, value)?;
    }
    Ok(found)
}

// A key: a decimal of at most 32 bits.
fn read_key(alloc: Global, name: &String) -> Result<u32, ReadError>
    ensures { Gives result (or_unread (key_of (string_bytes name.now))) }
{
    match read_decimal(name.as_bytes()) {
        Some(number) if number <= u64::from(u32::MAX) => Ok(number as u32),
        _ => fault_here(alloc, ScenarioKind::Content),
    }
}

fn read_natural(alloc: Global, part: &Value) -> Result<u64, ReadError>
    ensures { Gives result (or_unread (natural_of (view part.now))) }
{
    match part.as_u64() {
        Some(number) => Ok(number),
        None => fault_here(alloc, ScenarioKind::Content),
    }
}

// ---- edits

#[tactic(auto, using(crate::proofs::Entries::edit_gives))]
fn edit_in(alloc: Global, members: &Map<String, Value>) -> Result<FlatEdit, ReadError>
    ensures { Gives result (told (edit_of (entries_in node_limit change_of None (Some (members_view members.now.entries))))) }
{
    read_changes(alloc, members)
}

fn read_changes(alloc: Global, members: &Map<String, Value>) -> Result<FlatEdit, ReadError>
    ensures { Gives result (edit_read (members_view members.now.entries)) }
{
    let changes = changes_within(alloc, members)?;
    Ok(FlatEdit { changes })
}

#[tactic(auto, using(crate::proofs::Counts::counts))]
fn changes_within(
    alloc: Global,
    members: &Map<String, Value>,
) -> Result<NumberMap<Option<u64>>, ReadError>
    ensures { Gives result (entries_within node_limit change_of (members_view members.now.entries)) }
{
    if members.len() > NODE_LIMIT {
        return fault_here(alloc, ScenarioKind::TooMany);
    }
    changes(alloc, members)
}

fn changes(alloc: Global, members: &Map<String, Value>) -> Result<NumberMap<Option<u64>>, ReadError>
    ensures { Gives result (entries_read change_of empty (members_view members.now.entries)) }
{
    let mut found = NumberMap::new(alloc);
    for (name, part) in members {
        let key = read_key(alloc, name)?;
        let change = read_change(alloc, part)?;
        found.insert(key, change)?;
    }
    Ok(found)
}

fn read_change(alloc: Global, part: &Value) -> Result<Option<u64>, ReadError>
    ensures { Gives result (or_unread (change_of (view part.now))) }
{
    match part {
        Value::Null => Ok(None),
        Value::Number(number) => match number.as_u64() {
            Some(value) => Ok(Some(value)),
            None => fault_here(alloc, ScenarioKind::Content),
        },
        _ => fault_here(alloc, ScenarioKind::Content),
    }
}
