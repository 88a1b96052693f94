//! Scripts in rows of tables, each played in a run of its own.

ghost use Rattle.std.specs.Prelude.{◌≡◌, ◌+◌, Some, ◌∷◌, [], length};
ghost use Rattle.std.specs.List.{All};
ghost use Rattle.nm_proto.specs.Fault.{IsPlan};
ghost use Rattle.nm_flat.specs.FlatContent.{flat_meaning};

use crate::begun::{Rest, World, begin, cell_of, changes_of, seven};
use crate::calls::calls;
use crate::cells::serves;
use crate::faults::plan_of;
use crate::histories::happens;
use crate::seen::are_so;
use nm_cells::DeviceCell;
use nm_flat::{FlatConfig, FlatContent, FlatEdit};
use nm_proto::{Listed, PlanEntry, Tables};
use nm_run_plan::RunName;
use std::alloc::Global;
use std::marker::Brand;
use std::process::Abort;
use std::sync::Wait;
use std::sync::ledger::Blank;
use std::thread::Threads;

// A row of a table, `FAULTS | STEPS => WANTED`, of which the faults may be left out, for a run whose change set has
// these devices and whose caller is its coordinator or an operator.
//
// A step is a call at device 1 (`lock`), something that happens at device 2 (`began`), a call on the board (`asked:2`),
// or what the caller was told last, with its place (`done=2`). What is wanted are numbers that are seen when all steps
// are done (`history=3`).
#[derive(Clone, Copy)]
pub(crate) struct Row<'a> {
    pub(crate) devices: &'a str,
    pub(crate) coordinates: bool,
    faults: &'a str,
    steps: &'a str,
    wanted: &'a str,
}

// What stands before and after a mark, and the whole text and an empty one where it isn't there.
pub(crate) fn halves<'a>(text: &'a str, mark: &str) -> (&'a str, &'a str) {
    text.split_once(mark).unwrap_or((text, ""))
}

pub(crate) fn is_number(number: u64, text: &str) -> bool {
    text.parse::<u64>() == Ok(number)
}

fn row_of<'a>(devices: &'a str, coordinates: bool, line: &'a str) -> Row<'a> {
    let (script, wanted) = halves(line, " => ");
    let (before, after) = halves(script, " | ");
    let (faults, steps) = if after.is_empty() {
        ("", before)
    } else {
        (before, after)
    };
    Row {
        devices,
        coordinates,
        faults,
        steps,
        wanted,
    }
}

// Whether a step can be done, or is what was told.
fn goes<
    N: RunName<FlatContent, FlatConfig, FlatEdit> + Send + Sync,
    R: Threads + Wait + Sync + Abort,
>(
    rt: &R,
    alloc: Global,
    world: &World,
    cell: &DeviceCell<FlatContent, N>,
    rest: &mut Rest<N>,
    step: &str,
) -> bool
    requires changes { N.changes ≡ world.now.changes.items }
    requires content { N.run.content ≡ Some world.now.content }
    requires tables { N.run.tables ≡ world.now.tables }
    requires edits_belong { All flat_meaning.edit_belongs world.now.tables.edits }
{
    let (word, place) = halves(step, "=");
    if !place.is_empty() {
        return rest.told.word == word && is_number(rest.told.place, place);
    }
    let (verb, of) = halves(step, ":");
    if !of.is_empty() {
        return calls(rt, rest, verb, of);
    }
    happens(rt, alloc, rest, step) || serves(rt, alloc, world, cell, rest, step)
}

// Whether all steps are.
fn go<
    N: RunName<FlatContent, FlatConfig, FlatEdit> + Send + Sync,
    R: Threads + Wait + Sync + Abort,
>(
    rt: &R,
    alloc: Global,
    world: &World,
    cell: &DeviceCell<FlatContent, N>,
    rest: &mut Rest<N>,
    steps: &str,
) -> bool
    requires changes { N.changes ≡ world.now.changes.items }
    requires content { N.run.content ≡ Some world.now.content }
    requires tables { N.run.tables ≡ world.now.tables }
    requires edits_belong { All flat_meaning.edit_belongs world.now.tables.edits }
{
    for step in steps.split(' ') {
        if !goes(rt, alloc, world, cell, rest, step) {
            return false;
        }
    }
    true
}

// Whether a row is so.
fn story<
    N: RunName<FlatContent, FlatConfig, FlatEdit> + Send + Sync,
    R: Threads + Wait + Sync + Abort,
>(
    rt: &R,
    alloc: Global,
    blank: Blank,
    world: &World,
    running: FlatConfig,
    plan: Vec<PlanEntry>,
    row: &Row<'_>,
) -> bool
    requires name { blank.name ≡ N.name }
    requires parts { blank.parts ≡ N.parts }
    requires one_each { blank.parts ≡ length world.now.changes.items + 3 + 1 }
    requires changes { N.changes ≡ world.now.changes.items }
    requires devices { 3 ≡ N.devices }
    requires content { N.run.content ≡ Some world.now.content }
    requires tables { N.run.tables ≡ world.now.tables }
    requires edits_belong { All flat_meaning.edit_belongs world.now.tables.edits }
    requires starts { N.run.starts ≡ running ∷ [] }
    requires faults { N.run.faults ≡ plan.items ∷ [] }
    requires plan { IsPlan plan.items }
{
    let (mut rest, share) = begin::<N>(rt, alloc, blank, world.changes.as_slice(), row);
    let cell = cell_of(rt, alloc, &world.content, running, plan, share);
    let gone = go(rt, alloc, world, &cell, &mut rest, row.steps);
    let cell = cell.into_state();
    gone && are_so(rt, &cell, &rest, row.wanted)
}

// The same in a run over three devices, of which device 1 runs `{"7":1}`.
fn is_row<R: Threads + Wait + Sync + Abort>(rt: &R, alloc: Global, row: &Row<'_>) -> bool {
    let world = World {
        content: FlatContent::new(alloc),
        tables: Tables::new(Listed::new(alloc), Listed::new(alloc)),
        changes: changes_of(rt, alloc, row),
    };
    story::<Brand, R>(
        rt,
        alloc,
        Blank::new(5),
        &world,
        seven(rt, alloc),
        plan_of(rt, alloc, row.faults),
        row,
    )
}

// Plays a table, whose rows begin in its second line.
pub(crate) fn play<R: Threads + Wait + Sync + Abort>(
    rt: &R,
    alloc: Global,
    devices: &str,
    coordinates: bool,
    rows: &str,
) {
    for line in rows.lines().skip(1) {
        if !is_row(rt, alloc, &row_of(devices, coordinates, line)) {
            panic!(rt; "{line}");
        }
    }
}
