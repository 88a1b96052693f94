//! Reading the scenario of bytes.

ghost use Rattle.std.specs.Prelude.{◌≡◌, IfOk, Ok, Err};
ghost use Rattle.serde_json.specs.Data.{Data};
ghost use Rattle.serde_json.specs.View.{view};
ghost use Rattle.nm_scenario_form.specs.declared.fault.Fault.{Fault as Told};
ghost use Rattle.nm_scenario_form.specs.declared.fault.ReadError.TheVariants.{Bad};
ghost use Rattle.nm_scenario_form.specs.Reading.{Gives};
ghost use Rattle.nm_scenario_form.specs.Read.{told};
ghost use Rattle.nm_scenario.specs.declared.scenario.Body.TheVariants as body;
ghost use Rattle.nm_scenario.specs.Flat.{cells_said, changes_said};
ghost use Rattle.nm_scenario.specs.Scenario.{Reads, json_of, parsed, whole_of};
ghost use Rattle.nm_scenario.specs.Reading.{after_read, bytes_read, scenario_read, value_read};

use crate::head::{Head, read_head};
use crate::members::{Members, read_members};
use crate::numbering::{Numbered, number_all};
use crate::scenario::{Body, Scenario};
use crate::yang::read_yang;
use nm_flat::FlatContent;
use nm_scenario_form::places::fault_here;
use nm_scenario_form::{ReadError, ScenarioKind};
use serde_json::Value;
use std::alloc::Global;
use std::mem::forget;

/// The greatest length of a scenario, in bytes: what is read of it stays below a gigabyte of memory.
pub const BYTE_LIMIT: usize = 16_777_216;

/// The scenario of bytes, or their first fault with its kind and its place, and with what a reader of modules, configurations or
/// edits told of it.
///
/// The bytes are one JSON object (RFC 8259), nested at most 127 deep. Where an object has a name twice, its last
/// value stands. Of YANG contents all module texts are read (RFC 7950 section 6) before the modules give a schema tree, by
/// which the configurations of the devices and all edits are read (RFC 7951).
#[tactic(auto, using(crate::proofs::Whole::reads_bytes))]
pub fn read_scenario(alloc: Global, bytes: &[u8]) -> Result<Scenario, ReadError>
    ensures { Reads bytes.now result }
{
    read_bytes(alloc, bytes)
}

/// What `read_scenario` answers, for a process that ends when it has said what it reads.
///
/// The JSON value that is made of the bytes isn't freed: to free it member by member takes as long as making it does,
/// and the end of the process gives its memory back at once.
#[tactic(auto, using(crate::proofs::Whole::reads_bytes))]
pub fn read_last_scenario(alloc: Global, bytes: &[u8]) -> Result<Scenario, ReadError>
    ensures { Reads bytes.now result }
{
    read_at_last(alloc, bytes)
}

#[tactic(auto, unfolding(crate::specs::Reading::bytes_read))]
fn read_at_last(alloc: Global, bytes: &[u8]) -> Result<Scenario, ReadError>
    ensures { Gives result (bytes_read bytes.now) }
{
    let whole = parse(alloc, bytes)?;
    let read = read_value(alloc, &whole);
    forget(whole);
    read
}

#[tactic(auto, unfolding(crate::specs::Reading::bytes_read))]
fn read_bytes(alloc: Global, bytes: &[u8]) -> Result<Scenario, ReadError>
    ensures { Gives result (bytes_read bytes.now) }
{
    let whole = parse(alloc, bytes)?;
    read_value(alloc, &whole)
}

// The JSON value of bytes that may be a scenario.
#[tactic(auto, unfolding(crate::specs::Scenario::whole_of))]
fn parse(alloc: Global, bytes: &[u8]) -> Result<Value, ReadError>
    ensures whole { IfOk result (λ whole. whole_of bytes.now ≡ Ok (view whole)) }
    ensures fault { (fault : Told) → result ≡ Err (Bad fault) → told {A = Data} (whole_of bytes.now) ≡ Err fault }
{
    if bytes.len() > BYTE_LIMIT {
        return fault_here(alloc, ScenarioKind::TooLong);
    }
    parse_text(alloc, bytes)
}

// The JSON value of bytes.
fn parse_text(alloc: Global, bytes: &[u8]) -> Result<Value, ReadError>
    ensures whole { IfOk result (λ whole. parsed (json_of bytes.now) ≡ Ok (view whole)) }
    ensures fault { (fault : Told) → result ≡ Err (Bad fault) → told {A = Data} (parsed (json_of bytes.now)) ≡ Err fault }
{
    match Value::from_slice(alloc, bytes) {
        Ok(whole) => Ok(whole),
        Err(error) if error.is_memory() => Err(ReadError::NoMemory),
        Err(_) => fault_here(alloc, ScenarioKind::NotJson),
    }
}

// The scenario of a JSON value.
#[tactic(auto, unfolding(crate::specs::Reading::value_read))]
fn read_value(alloc: Global, whole: &Value) -> Result<Scenario, ReadError>
    ensures { Gives result (value_read (view whole.now)) }
{
    let head = read_head(alloc, whole)?;
    read_after(alloc, head, whole)
}

// The scenario after its head.
fn read_after(alloc: Global, head: Head, whole: &Value) -> Result<Scenario, ReadError>
    ensures { Gives result (after_read head (view whole.now)) }
{
    match head {
        Head::Flat => read_flat(alloc, whole),
        Head::Yang { modules } => read_yang(alloc, whole, modules),
    }
}

// The scenario of flat contents after its head.
fn read_flat(alloc: Global, whole: &Value) -> Result<Scenario, ReadError>
    ensures { Gives result (scenario_read cells_said changes_said body.Flat (view whole.now)) }
{
    let Members {
        devices,
        changes,
        rest,
    } = read_members(alloc, whole, &FlatContent::new(alloc))?;
    let Numbered {
        edits,
        changes,
        operators,
        events,
        selects,
        drain,
        trace,
        notices,
    } = number_all(alloc, changes, rest)?;
    Ok(Scenario {
        body: Body::Flat { devices, edits },
        changes,
        operators,
        events,
        selects,
        drain,
        trace,
        notices,
    })
}
