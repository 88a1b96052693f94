//! The numbers of edits and selections.

ghost use Rattle.std.specs.Prelude.{◌≡◌, ◌++◌, ◌+◌, length, map, OnOk, IfOk};
ghost use Rattle.nm_scenario.specs.Changes.{planned_from, plans_from, edits_of};
ghost use Rattle.nm_scenario.specs.Numbered as spec;

use crate::members::Rest;
use crate::scenario::{ReadChange, ReadEdit};
use nm_base::{Label, NoMemory};
use nm_proto::{ChangePlan, Event, Listed, PlannedEdit};
use nm_scenario_events::{edit_number, with_event_numbers};
use std::alloc::Global;

/// A scenario but for its contents: what is numbered there, and the edits in the order of their numbers.
#[derive(Drop)]
pub struct Numbered<E> {
    pub edits: Listed<E>,
    pub changes: Listed<ChangePlan>,
    pub operators: Listed<Label>,
    pub events: Listed<Event>,
    pub selects: Listed<Listed<Label>>,
    pub drain: bool,
    pub trace: bool,
    pub notices: bool,
}

/// Gives the edits and the selections of what was read numbers. The edits of the events come after those of the change sets.
pub fn number_all<E: Drop>(
    alloc: Global,
    reads: Listed<ReadChange<E>>,
    rest: Rest<E>,
) -> Result<Numbered<E>, NoMemory>
    ensures { IfOk result (λ n. n ≡ spec.numbered reads rest) }
{
    let Plans { changes, mut edits } = with_numbers(alloc, reads)?;
    let Rest {
        operators,
        events,
        drain,
        trace,
        notices,
    } = rest;
    let mut selects = Listed::new(alloc);
    let events = with_event_numbers(alloc, &operators, events, &mut edits, &mut selects)?;
    Ok(Numbered {
        edits,
        changes,
        operators,
        events,
        selects,
        drain,
        trace,
        notices,
    })
}

// The change sets whose edits have numbers, and the edits in the order of their numbers.
#[derive(Drop)]
struct Plans<E> {
    changes: Listed<ChangePlan>,
    edits: Listed<E>,
}

// Gives the edits of the change sets numbers, one after another from 0.
fn with_numbers<E: Drop>(
    alloc: Global,
    mut reads: Listed<ReadChange<E>>,
) -> Result<Plans<E>, NoMemory>
    ensures changes { IfOk result (λ n. n.changes ≡ plans_from 0 reads) }
    ensures edits { IfOk result (λ n. n.edits ≡ edits_of reads) }
{
    let mut changes = Listed::new(alloc);
    let mut edits = Listed::new(alloc);
    while let Some(read) = reads.take_first() {
        let planned = planned(alloc, edits.len(), &read.edits)?;
        changes.push(ChangePlan {
            timeout: read.timeout,
            edits: planned,
        })?;
        append(&mut edits, read.edits)?;
    }
    Ok(Plans { changes, edits })
}

// Plans whose edits have the numbers from `first` on.
fn planned<E: Drop>(
    alloc: Global,
    first: usize,
    reads: &Listed<ReadEdit<E>>,
) -> Result<Listed<PlannedEdit>, NoMemory>
    ensures { IfOk result (λ plans. plans ≡ planned_from first reads.now) }
{
    let mut plans = Listed::new(alloc);
    for (place, read) in reads.as_slice().iter().enumerate() {
        let edit = edit_number(first, place)?;
        plans.push(PlannedEdit {
            device: read.device,
            edit,
            default_operation: read.default_operation,
        })?;
    }
    Ok(plans)
}

fn append<E: Drop>(edits: &mut Listed<E>, mut reads: Listed<ReadEdit<E>>) -> Result<(), NoMemory>
    ensures { OnOk result (edits.new ≡ edits.old ++ map (λ e. e.edit) reads) }
{
    while let Some(read) = reads.take_first() {
        edits.push(read.edit)?;
    }
    Ok(())
}
