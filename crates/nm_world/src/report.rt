//! What is reported of a world at its end.

ghost use Rattle.std.specs.Prelude.{◌≡◌, ◌≤◌, ◌++◌, ◌-◌, length, slice_get, option_copied, IfOk, OnOk};
ghost use Rattle.nm_base.specs.Token.{token_of};
ghost use Rattle.nm_recovery.specs.Recovery.{is_started, verdict_in};
ghost use Rattle.nm_manager.specs.Slot.{to_commit};
ghost use Rattle.nm_world.specs.Report.{differs, differs_at, differing, unsettles, unsettled_at, unsettling, report_from, pair_if, each_from};

use crate::places::place_of;
use crate::search::{change_in, device_in};
use crate::settled::is_settled;
use nm_base::token::token_of;
use nm_base::{ChangeNo, DeviceNo, Label, NoMemory};
use nm_history::{Recorded, Telling, tellings_of};
use nm_manager::Manager;
use nm_proto::{Content, Entry, Listed, Verdict};
use nm_recovery::{is_started, verdict_in};
use std::alloc::Global;

/// A change set and a device.
#[derive(Clone, Copy, PartialEq, Eq)]
pub struct Pair {
    pub change: ChangeNo,
    pub device: DeviceNo,
}

/// The devices that differ from a journalled verdict, and those of which it isn't known yet what becomes of a change set, both in
/// ascending order.
#[derive(Drop)]
pub struct Report {
    pub differ: Listed<Pair>,
    pub unsettled: Listed<Pair>,
}

// The device of a number, with what its history tells.
fn telling_of<'t, 'd, C: Content>(
    devices: &'t [Telling<'d, C>],
    number: DeviceNo,
) -> Option<&'t Telling<'d, C>>
    ensures { option_copied result ≡ slice_get devices.now (number - 1) }
{
    devices.get(place_of(number))
}

// Whether the commit of a change set that was to be committed was undone at a device.
fn differs<C: Content>(
    devices: &[Telling<C>],
    committed: bool,
    change: ChangeNo,
    token: &Label,
    number: DeviceNo,
) -> bool
    requires token { token.now ≡ token_of change }
    ensures { result ≡ differs committed change (slice_get devices.now (number - 1)) }
{
    match telling_of(devices, number) {
        Some(device) => committed && device.outcome(token).is_undone(),
        None => false,
    }
}

// Whether it isn't known yet what becomes of a change set at a device.
fn unsettles<C: Content>(
    devices: &[Telling<C>],
    manager: &Manager,
    started: bool,
    change: ChangeNo,
    token: &Label,
    number: DeviceNo,
) -> bool
    requires given { change ≤ length manager.now.plans }
    requires started { started ≡ is_started change manager.now.state.entries }
    requires token { token.now ≡ token_of change }
    ensures { result ≡ unsettles manager.now.state change number (slice_get devices.now (number - 1)) }
{
    match telling_of(devices, number) {
        Some(device) => {
            started
                && !is_settled(
                    device.recorded(),
                    manager,
                    change,
                    number,
                    device.outcome(token),
                )
        }
        None => false,
    }
}

// A pair comes to the others where a test is passed.
fn push_if(
    pairs: &mut Listed<Pair>,
    test: bool,
    change: ChangeNo,
    device: DeviceNo,
) -> Result<(), NoMemory>
    ensures { OnOk result (pairs.new ≡ pairs.old ++ pair_if test change device) }
{
    if test {
        pairs.push(Pair { change, device })?;
    }
    Ok(())
}

// Each device at which a change set differs comes to the others.
fn push_differing<C: Content>(
    pairs: &mut Listed<Pair>,
    devices: &[Telling<C>],
    committed: bool,
    change: ChangeNo,
    token: &Label,
) -> Result<(), NoMemory>
    requires few { length devices.now ≤ 32 }
    requires token { token.now ≡ token_of change }
    ensures { OnOk result (pairs.new ≡ pairs.old ++ each_from (differs_at devices.now committed change) 1 (length devices.now)) }
{
    for place in 0..devices.len() {
        let device = device_in(place);
        let test = differs(devices, committed, change, token, device);
        push_if(pairs, test, change, device)?;
    }
    Ok(())
}

// Each device at which a change set is unsettled comes to the others.
fn push_unsettled<C: Content>(
    pairs: &mut Listed<Pair>,
    devices: &[Telling<C>],
    manager: &Manager,
    started: bool,
    change: ChangeNo,
    token: &Label,
) -> Result<(), NoMemory>
    requires given { change ≤ length manager.now.plans }
    requires few { length devices.now ≤ 32 }
    requires started { started ≡ is_started change manager.now.state.entries }
    requires token { token.now ≡ token_of change }
    ensures { OnOk result (pairs.new ≡ pairs.old ++ each_from (unsettled_at devices.now manager.now.state change) 1 (length devices.now)) }
{
    for place in 0..devices.len() {
        let device = device_in(place);
        let test = unsettles(devices, manager, started, change, token, device);
        push_if(pairs, test, change, device)?;
    }
    Ok(())
}

// Whether a change set was to be committed.
fn is_committed(entries: &[Entry], change: ChangeNo) -> bool
    ensures { result ≡ to_commit (verdict_in change entries.now) }
{
    matches!(verdict_in(entries, change), Some(Verdict::Commit))
}

// What is reported of a change set comes to the rest.
fn push_change<C: Content>(
    alloc: Global,
    report: &mut Report,
    devices: &[Telling<C>],
    manager: &Manager,
    change: ChangeNo,
) -> Result<(), NoMemory>
    requires given { change ≤ length manager.now.plans }
    requires few { length devices.now ≤ 32 }
    ensures differ { OnOk result (report.new.differ ≡ report.old.differ ++ differing devices.now manager.now.state.entries change) }
    ensures unsettled { OnOk result (report.new.unsettled ≡ report.old.unsettled ++ unsettling devices.now manager.now.state change) }
{
    let token = token_of(alloc, change)?;
    let entries = manager.entries();
    let committed = is_committed(entries, change);
    let started = is_started(entries, change);
    push_differing(&mut report.differ, devices, committed, change, &token)?;
    push_unsettled(
        &mut report.unsettled,
        devices,
        manager,
        started,
        change,
        &token,
    )
}

// What is reported of devices, with what their histories tell, and of the manager's change sets.
fn report_by<C: Content>(
    alloc: Global,
    devices: &[Telling<C>],
    manager: &Manager,
) -> Result<Report, NoMemory>
    requires few { length devices.now ≤ 32 }
    ensures { IfOk result (λ report. report ≡ report_from devices.now manager.now.state (length manager.now.plans)) }
{
    let mut report = Report {
        differ: Listed::new(alloc),
        unsettled: Listed::new(alloc),
    };
    for place in 0..manager.plans().len() {
        push_change(alloc, &mut report, devices, manager, change_in(place))?;
    }
    Ok(report)
}

/// What is reported of devices and of the manager's change sets. It goes through each history once.
pub(crate) fn report_from<C: Content>(
    alloc: Global,
    devices: &[Recorded<C>],
    manager: &Manager,
) -> Result<Report, NoMemory>
    requires few { length devices.now ≤ 32 }
    ensures { IfOk result (λ report. report ≡ report_from devices.now manager.now.state (length manager.now.plans)) }
{
    let tellings = tellings_of(alloc, devices)?;
    report_by(alloc, tellings.as_slice(), manager)
}
