//! The next step that brings a world to rest: what is looked for at all devices, operators and change sets.

ghost use Rattle.std.specs.Prelude.{◌≡◌, ◌≤◌, ◌<◌, ◌+◌, ◌-◌, ◌^◌, length, slice_get, option_copied, IfSome};
ghost use Rattle.nm_world.specs.World.{operator_at, session_by};
ghost use Rattle.nm_world.specs.declared.drain.Rule.TheVariants as rules;
ghost use Rattle.nm_world.specs.Drain.{at_pair, at_devices, leave_on, leave_of, leaves, ready_at, first_ready, loses_links, goes_on, goes_on_with, drain_of};

use crate::drain::{Rule, found_by};
use crate::operator::Operator;
use crate::places::{operator_at, place_of};
use nm_base::{ChangeNo, DeviceNo, SessionId};
use nm_history::Recorded;
use nm_manager::Manager;
use nm_proto::{Content, Event};

/// The number of the device at a place.
pub(crate) fn device_in(place: usize) -> DeviceNo
    requires few { place < 32 }
    ensures { result ≡ place + 1 }
{
    DeviceNo::new(place as u8 + 1).unwrap()
}

/// The number of the change set at a place.
pub(crate) fn change_in(place: usize) -> ChangeNo
    requires few { place < 64 }
    ensures { result ≡ place + 1 }
{
    ChangeNo::new(place as u32 + 1).unwrap()
}

/// The device of a number, with its history.
pub(crate) fn device_of<C: Content>(
    devices: &[Recorded<C>],
    number: DeviceNo,
) -> Option<&Recorded<C>>
    ensures { option_copied result ≡ slice_get devices.now (number - 1) }
{
    devices.get(place_of(number))
}

/// The session that an operator, by its number from 1, has on a device.
pub(crate) fn session_of<C: Content>(
    devices: &[Recorded<C>],
    operators: &[Operator],
    number: u32,
    device: DeviceNo,
) -> Option<SessionId>
    ensures { result ≡ session_by (device - 1) (operator_at operators.now number) (slice_get devices.now (device - 1)) }
{
    let operator = operator_at(operators, number as usize)?;
    let recorded = device_of(devices, device)?;
    operator.session(recorded, place_of(device))
}

// What a rule finds at a device.
#[tactic(auto, unfolding(crate::specs::Drain::at_pair))]
fn at_pair<C: Content>(
    rule: Rule,
    devices: &[Recorded<C>],
    manager: &Manager,
    change: ChangeNo,
    number: DeviceNo,
) -> Option<Event>
    requires given { change ≤ length manager.now.plans }
    ensures { result ≡ at_pair devices.now manager.now.state rule change number }
{
    match device_of(devices, number) {
        Some(device) => found_by(rule, device, manager, change, number),
        None => None,
    }
}

// What a rule finds at the first device at which it finds something.
#[tactic(auto, unfolding(crate::specs::Drain::at_devices))]
fn at_devices<C: Content>(
    rule: Rule,
    devices: &[Recorded<C>],
    manager: &Manager,
    change: ChangeNo,
) -> Option<Event>
    requires given { change ≤ length manager.now.plans }
    requires few { length devices.now ≤ 32 }
    ensures { result ≡ at_devices devices.now manager.now.state rule change }
{
    for place in 0..devices.len() {
        if let Some(event) = at_pair(rule, devices, manager, change, device_in(place)) {
            return Some(event);
        }
    }
    None
}

// The end of the session that an operator, by its number from 1, has on a device.
#[tactic(auto, unfolding(crate::specs::Drain::leave_on))]
fn leave_on<C: Content>(
    devices: &[Recorded<C>],
    operators: &[Operator],
    number: u32,
    device: DeviceNo,
) -> Option<Event>
    ensures { result ≡ leave_on devices.now operators.now number device }
{
    let place = place_of(device);
    let operator = operator_at(operators, number as usize)?;
    let recorded = device_of(devices, device)?;
    if operator.session(recorded, place).is_some() {
        Some(Event::Leave {
            operator: number,
            device,
        })
    } else {
        None
    }
}

// The end of the first session that an operator has.
#[tactic(auto, unfolding(crate::specs::Drain::leave_of))]
fn leave_of<C: Content>(
    devices: &[Recorded<C>],
    operators: &[Operator],
    number: u32,
) -> Option<Event>
    requires few { length devices.now ≤ 32 }
    ensures { result ≡ leave_of devices.now operators.now number }
{
    for place in 0..devices.len() {
        if let Some(event) = leave_on(devices, operators, number, device_in(place)) {
            return Some(event);
        }
    }
    None
}

// The end of the first session of the first operator that has one.
fn leaves<C: Content>(devices: &[Recorded<C>], operators: &[Operator]) -> Option<Event>
    requires few { length devices.now ≤ 32 }
    requires numbered { length operators.now < 2 ^ 32 }
    ensures { result ≡ leaves devices.now operators.now }
{
    for place in 0..operators.len() {
        if let Some(event) = leave_of(devices, operators, place as u32 + 1) {
            return Some(event);
        }
    }
    None
}

// The loss of the first link of a change set that isn't current and whose side at its device is open. It looks at no device
// where the manager knows that no such link is open.
fn loses_of<C: Content>(
    devices: &[Recorded<C>],
    manager: &Manager,
    change: ChangeNo,
) -> Option<Event>
    requires given { change ≤ length manager.now.plans }
    requires few { length devices.now ≤ 32 }
    ensures { result ≡ at_devices devices.now manager.now.state rules.Lose change }
{
    if !manager.has_left_open(change) {
        return None;
    }
    at_devices(Rule::Lose, devices, manager, change)
}

// The loss of the first link that isn't current and whose side at its device is open.
fn loses_links<C: Content>(devices: &[Recorded<C>], manager: &Manager) -> Option<Event>
    requires few { length devices.now ≤ 32 }
    ensures { result ≡ loses_links devices.now manager.now.state (length manager.now.plans) }
{
    for place in 0..manager.plans().len() {
        if let Some(event) = loses_of(devices, manager, change_in(place)) {
            return Some(event);
        }
    }
    None
}

// A change set, where it is ready.
#[tactic(auto, unfolding(crate::specs::Drain::ready_at))]
fn ready_at(manager: &Manager, change: ChangeNo) -> Option<ChangeNo>
    ensures value { result ≡ ready_at manager.now.state.entries change }
    ensures same { IfSome result (λ ready. ready ≡ change) }
{
    if manager.is_ready(change) {
        Some(change)
    } else {
        None
    }
}

// The first change set that is ready.
fn first_ready(manager: &Manager) -> Option<ChangeNo>
    ensures value { result ≡ first_ready (length manager.now.plans) manager.now.state.entries }
    ensures given { IfSome result (λ change. change ≤ length manager.now.plans) }
{
    for place in 0..manager.plans().len() {
        if let Some(change) = ready_at(manager, change_in(place)) {
            return Some(change);
        }
    }
    None
}

// How a change set goes on.
fn goes_on<C: Content>(
    devices: &[Recorded<C>],
    manager: &Manager,
    change: ChangeNo,
) -> Option<Event>
    requires given { change ≤ length manager.now.plans }
    requires few { length devices.now ≤ 32 }
    ensures { result ≡ goes_on devices.now manager.now.state change }
{
    if let Some(event) = at_devices(Rule::Break, devices, manager, change) {
        return Some(event);
    }
    if let Some(event) = at_devices(Rule::Deliver, devices, manager, change) {
        return Some(event);
    }
    if let Some(event) = at_devices(Rule::Answer, devices, manager, change) {
        return Some(event);
    }
    Some(Event::Turn { change })
}

/// The next step, and None exactly where the world is at rest.
pub(crate) fn next_step<C: Content>(
    devices: &[Recorded<C>],
    operators: &[Operator],
    manager: &Manager,
) -> Option<Event>
    requires few { length devices.now ≤ 32 }
    requires numbered { length operators.now < 2 ^ 32 }
    ensures { result ≡ drain_of devices.now manager.now.state (length manager.now.plans) operators.now }
{
    if let Some(event) = leaves(devices, operators) {
        return Some(event);
    }
    if let Some(event) = loses_links(devices, manager) {
        return Some(event);
    }
    let change = first_ready(manager)?;
    goes_on(devices, manager, change)
}
