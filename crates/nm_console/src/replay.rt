//! The command `replay`.

ghost use Rattle.std.specs.Prelude.{◌≡◌, ◌<◌, ◌^◌, ◌*◌, ℕ, [], length, map, Ok, Err, false, IfOk, IfSome, IsSome, IsErrOf};
ghost use Rattle.std.specs.List.{All};
ghost use Rattle.nm_base.specs.Count.{Rose};
ghost use Rattle.nm_disk.specs.Image.{AnyMoment, LeavesOnly};
ghost use Rattle.nm_disk.specs.Keeps.{KeepsDisk};
ghost use Rattle.nm_journal.specs.Fits.{ReadsAs};
ghost use Rattle.nm_journal.specs.declared.fault.JournalFault.TheVariants.{DiskFault};
ghost use Rattle.nm_manager.specs.declared.action.TurnFault.TheVariants as turn_fault;
ghost use Rattle.nm_world.specs.Runs.{HasTime, IsBetween, IsNumbered, IsReady, NoneStrange};
ghost use Rattle.nm_world.specs.World.{AreCalm, start, with_state};
ghost use Rattle.nm_content.specs.Meaning.{lifted};
ghost use Rattle.nm_notice_laws.specs.Replays.{TellAsReplayed};
ghost use Rattle.nm_scenario_laws.specs.Kept.{DataKeeps, ScenarioKeeps};
ghost use Rattle.nm_console.specs.Console.{CanRun, IsLedTo, IsSoOf, LeavesSoFar, LeavesSoFarBy, Tells, TellsLast, TellsReplay, TellsRun, TellsUnopened, led_to, not_empty, world_told};

use crate::journal::{JournalStop, say_damaged};
use crate::refusal::write_not_empty;
use crate::said::{Said, say_fault};
use crate::status::{Status, status_for};
use nm_base::{Label, NoMemory};
use nm_config::Config;
use nm_content::YangContent;
use nm_disk::Disk;
use nm_flat::FlatContent;
use nm_journal::{Journal, JournalFault};
use nm_manager::TurnFault;
use nm_overlay::Overlay;
use nm_proto::{ChangePlan, Event, Listed, Show, Tables};
use nm_report::{Details, write_world};
use nm_scenario::{Body, ReadError, Scenario, read_last_scenario};
use nm_world::{Setup, World};
use std::alloc::Global;
use std::mem::forget;

/// The answer of `replay` to the bytes of a scenario, over a journal that is to be empty.
#[tactic(auto, using(crate::proofs::Replays::read_keeps))]
pub fn replay_bytes<D: Disk>(alloc: Global, bytes: &[u8], disk: &mut D) -> Result<Said, JournalStop>
    ensures told { IfOk result (λ said. IsSoOf bytes.now
        (λ outcome. TellsReplay outcome (D.state disk.old).contents (D.state disk.new).contents said.status said.text.items)) }
    ensures disk_fault { IsErrOf result JournalStop.DiskFault → Rose (D.state disk.old).faults (D.state disk.new).faults }
    ensures keeps { KeepsDisk (D.state disk.old) (D.state disk.new) }
    // A crash at any moment leaves the entries so far.
    ensures any_moment { IsSome (D.state disk.old).contents → LeavesOnly [] (D.state disk.old)
        → AnyMoment (D.state disk.old) (D.state disk.new) (LeavesSoFarBy bytes.now) }
{
    match read_last_scenario(alloc, bytes) {
        Ok(scenario) => say_scenario(alloc, scenario, disk),
        Err(ReadError::Bad(fault)) => match say_fault(alloc, &fault) {
            Ok(said) => Ok(said),
            Err(_) => Err(JournalStop::NoMemory),
        },
        Err(ReadError::NoMemory) => Err(JournalStop::NoMemory),
    }
}

// The answer to a scenario by its contents.
fn say_scenario<D: Disk>(
    alloc: Global,
    scenario: Scenario,
    disk: &mut D,
) -> Result<Said, JournalStop>
    requires { ScenarioKeeps scenario }
    ensures told { IfOk result (λ said. TellsReplay (Ok scenario) (D.state disk.old).contents (D.state disk.new).contents said.status said.text.items) }
    ensures disk_fault { IsErrOf result JournalStop.DiskFault → Rose (D.state disk.old).faults (D.state disk.new).faults }
    ensures keeps { KeepsDisk (D.state disk.old) (D.state disk.new) }
    ensures any_moment { IsSome (D.state disk.old).contents → LeavesOnly [] (D.state disk.old)
        → AnyMoment (D.state disk.old) (D.state disk.new) (LeavesSoFar (Ok scenario)) }
{
    let Scenario {
        body,
        changes,
        operators,
        events,
        selects,
        drain,
        trace,
        notices,
    } = scenario;
    let details = Details { trace, notices };
    match body {
        Body::Flat { devices, edits } => say_contents(
            alloc,
            FlatContent::new(alloc),
            devices,
            Tables::new(edits, selects),
            changes,
            operators,
            events.as_slice(),
            drain,
            details,
            disk,
        ),
        Body::Yang {
            content,
            devices,
            edits,
            ..
        } => {
            let devices = lift_all(alloc, &content, devices)?;
            say_contents(
                alloc,
                content,
                devices,
                Tables::new(edits, selects),
                changes,
                operators,
                events.as_slice(),
                drain,
                details,
                disk,
            )
        }
    }
}

// What devices begin with, each lifted. No row is copied.
fn lift_all(
    alloc: Global,
    content: &YangContent,
    mut devices: Listed<Config>,
) -> Result<Listed<Overlay>, NoMemory>
    requires { All (DataKeeps content.now) devices }
    ensures { IfOk result (λ begun. begun ≡ map lifted devices) }
{
    let mut begun = Listed::new(alloc);
    while let Some(device) = devices.take_first() {
        begun.push(content.lift(device)?)?;
    }
    Ok(begun)
}

// The answer by the contents: where the journal is empty, that of their world.
fn say_contents<C: Show + Drop, D: Disk>(
    alloc: Global,
    content: C,
    devices: Listed<C::Config>,
    tables: Tables<C>,
    changes: Listed<ChangePlan>,
    users: Listed<Label>,
    events: &[Event],
    drain: bool,
    details: Details,
    disk: &mut D,
) -> Result<Said, JournalStop>
    requires { CanRun (C.Content.meaning content) (record { tables = tables; plans = changes; users = users }) devices events.now }
    ensures told { IfOk result (λ said. TellsRun (world_told (C.shown content) details (record { tables = tables; plans = changes; users = users }))
        (TellAsReplayed (C.Content.meaning content) (record { tables = tables; plans = changes; users = users }) devices)
        (led_to (C.Content.meaning content) (record { tables = tables; plans = changes; users = users }) events.now drain
        (start (record { tables = tables; plans = changes; users = users }) devices))
        events.now (D.state disk.old).contents (D.state disk.new).contents said.status said.text.items) }
    ensures disk_fault { IsErrOf result JournalStop.DiskFault → Rose (D.state disk.old).faults (D.state disk.new).faults }
    ensures keeps { KeepsDisk (D.state disk.old) (D.state disk.new) }
    ensures any_moment { IsSome (D.state disk.old).contents → LeavesOnly [] (D.state disk.old) → AnyMoment (D.state disk.old) (D.state disk.new)
        (IsBetween [] (led_to (C.Content.meaning content) (record { tables = tables; plans = changes; users = users }) events.now drain
        (start (record { tables = tables; plans = changes; users = users }) devices)).entries) }
{
    match Journal::fresh(alloc, disk) {
        Ok(journal) => {
            let setup = Setup::share(alloc, content, tables, changes, users, devices)?;
            let world = World::new(alloc, setup, journal)?;
            say_run(alloc, world, events, drain, details, disk)
        }
        Err(fault) => say_unopened(alloc, &fault),
    }
}

// The answer where the journal couldn't be opened, if there is one.
fn say_unopened(alloc: Global, fault: &JournalFault) -> Result<Said, JournalStop>
    ensures told { IfOk result (λ said. TellsUnopened fault.now said.status said.text.items) }
    ensures disk_fault { IsErrOf result JournalStop.DiskFault → fault.now ≡ DiskFault }
{
    match fault {
        JournalFault::NotEmpty { length } => say_not_empty(alloc, *length),
        JournalFault::DiskFault => Err(JournalStop::DiskFault),
        JournalFault::Damaged { .. } | JournalFault::Stopped | JournalFault::NoMemory => {
            Err(JournalStop::NoMemory)
        }
    }
}

fn say_not_empty(alloc: Global, size: u64) -> Result<Said, JournalStop>
    ensures told { IfOk result (λ said. Tells (not_empty size) said.status said.text.items) }
    ensures no_disk_fault { IsErrOf result JournalStop.DiskFault → ⊥ }
{
    let mut text = Vec::new(alloc);
    match write_not_empty(&mut text, size) {
        Ok(()) => Ok(Said {
            status: Status::Journal,
            text,
        }),
        Err(NoMemory) => Err(JournalStop::NoMemory),
    }
}

// The answer of a world with an empty journal, once its events have come.
fn say_run<C: Show + Drop, D: Disk>(
    alloc: Global,
    world: World<C>,
    events: &[Event],
    drain: bool,
    details: Details,
    disk: &mut D,
) -> Result<Said, JournalStop>
    requires given { All (IsNumbered (length world.setting.plans)) events.now }
    requires in_time { HasTime (2 ^ 32 * length events.now) world.state.devices }
    requires numbered { length world.state.operators < 2 ^ 32 }
    requires straight { world.state.has_diverged ≡ false }
    requires known { NoneStrange world.setting.plans world.state.entries }
    requires ready { IsReady world (D.state disk.old) }
    ensures told { IfOk result (λ said. TellsLast (world_told (C.shown world.content) details world.setting)
        (IsLedTo (C.Content.meaning world.content) world.setting events.now drain world.state)
        (led_to (C.Content.meaning world.content) world.setting events.now drain world.state)
        events.now (D.state disk.old).contents (D.state disk.new).contents said.status said.text.items) }
    ensures disk_fault { IsErrOf result JournalStop.DiskFault → Rose (D.state disk.old).faults (D.state disk.new).faults }
    ensures keeps { KeepsDisk (D.state disk.old) (D.state disk.new) }
    ensures any_moment { IsSome (D.state disk.old).contents → AnyMoment (D.state disk.old) (D.state disk.new)
        (IsBetween world.state.entries (led_to (C.Content.meaning world.content) world.setting events.now drain world.state).entries) }
{
    match lead(world, events, drain, disk) {
        Ok(last) => Ok(say_last(alloc, details, last)?),
        Err(TurnFault::DiskFault) => Err(JournalStop::DiskFault),
        Err(TurnFault::Damaged { offset }) => say_damaged(alloc, offset),
        Err(TurnFault::NoMemory) => Err(JournalStop::NoMemory),
    }
}

// The world that events lead to, brought to rest where that is asked for.
fn lead<C: Show + Drop, D: Disk>(
    world: World<C>,
    events: &[Event],
    drain: bool,
    disk: &mut D,
) -> Result<World<C>, TurnFault>
    requires given { All (IsNumbered (length world.setting.plans)) events.now }
    requires in_time { HasTime (2 ^ 32 * length events.now) world.state.devices }
    requires numbered { length world.state.operators < 2 ^ 32 }
    requires straight { world.state.has_diverged ≡ false }
    requires known { NoneStrange world.setting.plans world.state.entries }
    requires ready { IsReady world (D.state disk.old) }
    ensures done { IfOk result (λ last. last.state.has_diverged ≡ false
        → last ≡ with_state world (led_to (C.Content.meaning world.content) world.setting events.now drain world.state)) }
    ensures others { IfOk result (λ last. last ≡ with_state world last.state) }
    // Whatever crashes read, the last world is one that the events lead to.
    ensures reached { IfOk result (λ last. IsLedTo (C.Content.meaning world.content) world.setting events.now drain world.state last.state) }
    ensures straight { IsSome (D.state disk.old).contents → IfOk result (λ last. last.state.has_diverged ≡ false) }
    ensures calm { AreCalm events.now → IfOk result (λ last. last.state.has_diverged ≡ false) }
    ensures read { AreCalm events.now → (offset : ℕ) → result ≡ Err (turn_fault.Damaged offset) → ⊥ }
    ensures sound { IsSome (D.state disk.old).contents → (offset : ℕ) → result ≡ Err (turn_fault.Damaged offset) → ⊥ }
    ensures stored { IfOk result (λ last. IfSome (D.state disk.new).contents (ReadsAs last.state.entries)) }
    ensures disk_fault { result ≡ Err turn_fault.DiskFault → Rose (D.state disk.old).faults (D.state disk.new).faults }
    ensures keeps { KeepsDisk (D.state disk.old) (D.state disk.new) }
    ensures any_moment { IsSome (D.state disk.old).contents → AnyMoment (D.state disk.old) (D.state disk.new)
        (IsBetween world.state.entries (led_to (C.Content.meaning world.content) world.setting events.now drain world.state).entries) }
{
    let last = world.run(disk, events)?;
    if drain { last.drain(disk) } else { Ok(last) }
}

// The text and the status of a world after which nothing but the writing of the answer follows in this process: its memory is the
// end's to give back.
fn say_last<C: Show + Drop>(
    alloc: Global,
    details: Details,
    last: World<C>,
) -> Result<Said, NoMemory>
    ensures { IfOk result (λ said. Tells (world_told (C.shown last.content) details last.setting last.state) said.status said.text.items) }
{
    let said = say_world(alloc, details, &last);
    forget(last);
    said
}

// The text and the status of a world.
fn say_world<C: Show + Drop>(
    alloc: Global,
    details: Details,
    world: &World<C>,
) -> Result<Said, NoMemory>
    ensures { IfOk result (λ said. Tells (world_told (C.shown world.now.content) details world.now.setting world.now.state) said.status said.text.items) }
{
    let report = world.report()?;
    let status = status_for(report.unsettled.as_slice(), report.differ.as_slice());
    let text = write_world(alloc, details, world, &report)?;
    Ok(Said { status, text })
}
