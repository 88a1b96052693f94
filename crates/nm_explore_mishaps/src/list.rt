//! All that may go wrong in a run, in the order in which it is tried.

ghost use Rattle.std.specs.Prelude.{◌≡◌, ◌≤◌, ◌<◌, ◌+◌, ◌++◌, length, IfOk, OnOk};
ghost use Rattle.nm_explore_mishaps.specs.Mishaps.{change_mishaps, device_mishaps, each_change, each_device, each_link, greater, link_mishaps, longest_timeout, mishaps_of};

use crate::mishap::Mishap;
use nm_base::{ChangeNo, DEFAULT_TIMEOUT, DeviceNo, NoMemory};
use nm_proto::{ChangePlan, Listed, PlannedEdit};
use std::alloc::Global;

/// All that may go wrong with so many devices and these change sets, in the order in which it is tried: each device restarts, or its
/// clock rises by the longest timeout of its change sets, 600 seconds without one; of each change set, to each of its devices, the
/// manager's side of the link ends, or the device's, and then what is known of it is lost; at the end the manager crashes.
pub fn mishaps_of(
    alloc: Global,
    devices: usize,
    plans: &[ChangePlan],
) -> Result<Listed<Mishap>, NoMemory>
    requires few_devices { devices ≤ 32 }
    requires few { length plans.now ≤ 64 }
    ensures { IfOk result (λ all. all ≡ mishaps_of devices plans.now) }
{
    let mut all = Listed::new(alloc);
    push_devices(&mut all, devices, plans)?;
    push_changes(&mut all, plans)?;
    all.push(Mishap::Crash)?;
    Ok(all)
}

// What may go wrong with each device.
fn push_devices(
    all: &mut Listed<Mishap>,
    devices: usize,
    plans: &[ChangePlan],
) -> Result<(), NoMemory>
    requires few { devices ≤ 32 }
    ensures { OnOk result (all.new ≡ all.old ++ each_device plans.now 1 devices) }
{
    for place in 0..devices {
        push_device(all, device_in(place), plans)?;
    }
    Ok(())
}

// The number of the device at a place.
fn device_in(place: usize) -> DeviceNo
    requires few { place < 32 }
    ensures { result ≡ place + 1 }
{
    DeviceNo::new(place as u8 + 1).unwrap()
}

// What may go wrong with a device.
fn push_device(
    all: &mut Listed<Mishap>,
    device: DeviceNo,
    plans: &[ChangePlan],
) -> Result<(), NoMemory>
    ensures { OnOk result (all.new ≡ all.old ++ device_mishaps plans.now device) }
{
    all.push(Mishap::Restart { device })?;
    all.push(Mishap::Advance {
        device,
        seconds: longest_timeout(device, plans),
    })
}

// The longest timeout of the change sets that are of a device, in seconds.
fn longest_timeout(device: DeviceNo, plans: &[ChangePlan]) -> u32
    ensures { result ≡ longest_timeout device plans.now }
{
    let mut longest = None;
    for plan in plans {
        if plan.devices().contains(device) {
            longest = Some(greater(longest, plan.timeout));
        }
    }
    longest.unwrap_or(DEFAULT_TIMEOUT)
}

// The greater of two timeouts, of which the first may not be there.
fn greater(most: Option<u32>, seconds: u32) -> u32
    ensures { greater most seconds ≡ Some result }
{
    match most {
        Some(most) if seconds < most => most,
        _ => seconds,
    }
}

// What may go wrong with each change set.
fn push_changes(all: &mut Listed<Mishap>, plans: &[ChangePlan]) -> Result<(), NoMemory>
    requires few { length plans.now ≤ 64 }
    ensures { OnOk result (all.new ≡ all.old ++ each_change 1 plans.now) }
{
    for (place, plan) in plans.iter().enumerate() {
        push_change(all, change_in(place), plan)?;
    }
    Ok(())
}

// The number of the change set at a place.
fn change_in(place: usize) -> ChangeNo
    requires few { place < 64 }
    ensures { result ≡ place + 1 }
{
    ChangeNo::new(place as u32 + 1).unwrap()
}

// What may go wrong with a change set.
fn push_change(
    all: &mut Listed<Mishap>,
    change: ChangeNo,
    plan: &ChangePlan,
) -> Result<(), NoMemory>
    ensures { OnOk result (all.new ≡ all.old ++ change_mishaps change plan.now) }
{
    push_links(all, change, plan.edits.as_slice())?;
    all.push(Mishap::Forget { change })
}

// What may go wrong between a change set and each of its devices.
fn push_links(
    all: &mut Listed<Mishap>,
    change: ChangeNo,
    edits: &[PlannedEdit],
) -> Result<(), NoMemory>
    ensures { OnOk result (all.new ≡ all.old ++ each_link change edits.now) }
{
    for edit in edits {
        push_link(all, change, edit.device)?;
    }
    Ok(())
}

// What may go wrong between a change set and a device.
fn push_link(all: &mut Listed<Mishap>, change: ChangeNo, device: DeviceNo) -> Result<(), NoMemory>
    ensures { OnOk result (all.new ≡ all.old ++ link_mishaps change device) }
{
    all.push(Mishap::Break { change, device })?;
    all.push(Mishap::Lose { change, device })
}
