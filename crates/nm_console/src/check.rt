//! The command `check`.

ghost use Rattle.std.specs.Prelude.{◌≡◌, IfOk, IsTrue};
ghost use Rattle.nm_console.specs.Status.{is_whole};
ghost use Rattle.nm_console.specs.Console.{IsSoOf, Tells, checked, counts_told, holding, modules_told};

use crate::rows::{data_rows_of, rows_of};
use crate::said::{Said, say_fault};
use crate::status::Status;
use nm_base::{Label, NoMemory};
use nm_flat::FlatContent;
use nm_report::write_check;
use nm_scenario::{Body, ReadError, Scenario, read_last_scenario};
use std::alloc::Global;
use std::mem::forget;

/// The answer of `check` to the bytes of a scenario.
pub fn check_bytes(alloc: Global, bytes: &[u8]) -> Result<Said, NoMemory>
    ensures told { IfOk result (λ said. IsSoOf bytes.now (λ outcome. Tells (checked outcome) said.status said.text.items)) }
    ensures whole { IfOk result (λ said. IsTrue (is_whole said.status)) }
{
    match read_last_scenario(alloc, bytes) {
        Ok(scenario) => {
            let said = say_holding(alloc, &scenario);
            // Nothing but the writing of the answer follows in this process: the memory of all rows is the end's to give back.
            forget(scenario);
            said
        }
        Err(ReadError::Bad(fault)) => say_fault(alloc, &fault),
        Err(ReadError::NoMemory) => Err(NoMemory),
    }
}

// The answer to a scenario: what it holds.
fn say_holding(alloc: Global, scenario: &Scenario) -> Result<Said, NoMemory>
    ensures { IfOk result (λ said. Tells (holding scenario.now) said.status said.text.items) }
{
    let rows = counts_of(alloc, &scenario.body)?;
    let text = write_check(
        alloc,
        modules_of(&scenario.body),
        rows.as_slice(),
        scenario.changes.len(),
        scenario.operators.len(),
        scenario.events.len(),
    )?;
    Ok(Said {
        status: Status::Ok,
        text,
    })
}

// The names of the given modules.
fn modules_of(body: &Body) -> &[Label]
    ensures { result.now ≡ modules_told body.now }
{
    match body {
        Body::Flat { .. } => &[],
        Body::Yang { content, .. } => content.schema().modules(),
    }
}

// How many rows each device has.
fn counts_of(alloc: Global, body: &Body) -> Result<Vec<u32>, NoMemory>
    ensures { IfOk result (λ rows. rows.items ≡ counts_told body.now) }
{
    match body {
        Body::Flat { devices, .. } => {
            let content = FlatContent::new(alloc);
            rows_of(alloc, &content, devices.as_slice())
        }
        Body::Yang { devices, .. } => data_rows_of(alloc, devices.as_slice()),
    }
}
