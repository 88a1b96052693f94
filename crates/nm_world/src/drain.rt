//! How a world is brought to rest: what is looked for at one device.

ghost use Rattle.std.specs.Prelude.{◌≡◌, ◌≤◌, ℕ, length, None};
ghost use Rattle.nm_manager.specs.Manager.{wire_in};
ghost use Rattle.nm_world.specs.World.{is_side_open, undelivered};
ghost use Rattle.nm_world.specs.Drain.{first_from, event_if, lose_link, lose_first, is_awaited, is_stranded, is_stranded_on, break_on, deliver_by, deliver_on, answer_by, answer_on, found_by};

use crate::places::{is_session_open, is_side_open};
use nm_base::{ChangeNo, DeviceNo};
use nm_history::Recorded;
use nm_manager::Manager;
use nm_proto::{Content, Event};

/// What is looked for at the devices of a change set.
#[derive(Clone, Copy, PartialEq, Eq)]
pub(crate) enum Rule {
    /// A link that isn't current is lost.
    Lose,
    /// The current link breaks, where nothing more comes on it.
    Break,
    /// The request on the current link is delivered.
    Deliver,
    /// The last reply on the current link is answered.
    Answer,
}

// The loss of a link that isn't current and whose side at the device is open.
#[tactic(auto, unfolding(crate::specs::Drain::lose_link))]
fn lose_link<C: Content>(
    device: &Recorded<C>,
    manager: &Manager,
    change: ChangeNo,
    number: DeviceNo,
    link: u32,
) -> Option<Event>
    requires given { change ≤ length manager.now.plans }
    ensures { result ≡ lose_link device.now (wire_in manager.now.state change number) change number link }
{
    if is_side_open(device, manager, change, number, link)
        && manager.current(change, number) != Some(link)
    {
        Some(Event::Lose {
            change,
            device: number,
            link,
        })
    } else {
        None
    }
}

// The loss of the first such link, where there is none up to a number.
fn lose_behind<C: Content>(
    device: &Recorded<C>,
    manager: &Manager,
    change: ChangeNo,
    number: DeviceNo,
    passed: u32,
) -> Option<Event>
    requires given { change ≤ length manager.now.plans }
    requires none { (link : ℕ) → link ≤ passed → lose_link device.now (wire_in manager.now.state change number) change number link ≡ None }
    ensures { result ≡ lose_first device.now (wire_in manager.now.state change number) change number }
{
    for place in passed..manager.links(change, number) {
        if let Some(event) = lose_link(device, manager, change, number, place + 1) {
            return Some(event);
        }
    }
    None
}

// The loss of the first such link. It passes over those that have ended at their device, as the manager knows.
fn lose_first<C: Content>(
    device: &Recorded<C>,
    manager: &Manager,
    change: ChangeNo,
    number: DeviceNo,
) -> Option<Event>
    requires given { change ≤ length manager.now.plans }
    ensures { result ≡ lose_first device.now (wire_in manager.now.state change number) change number }
{
    match manager.first_left_open(change, number) {
        Some(first) => lose_behind(device, manager, change, number, first.saturating_sub(1)),
        None => None,
    }
}

// Whether a reply that was sent on a link isn't handled.
fn is_awaited(manager: &Manager, change: ChangeNo, number: DeviceNo, link: u32) -> bool
    requires given { change ≤ length manager.now.plans }
    ensures { result ≡ is_awaited (wire_in manager.now.state change number) link }
{
    let (sent, handled) = manager.replies(change, number, link);
    handled < sent
}

// The current link breaks, where its device's side has ended and every reply is handled.
fn break_on<C: Content>(
    device: &Recorded<C>,
    manager: &Manager,
    change: ChangeNo,
    number: DeviceNo,
) -> Option<Event>
    requires given { change ≤ length manager.now.plans }
    ensures { result ≡ break_on device.now (wire_in manager.now.state change number) change number }
{
    let Some(link) = manager.current(change, number) else {
        return None;
    };
    if is_side_open(device, manager, change, number, link) {
        return None;
    }
    if is_awaited(manager, change, number, link) {
        return None;
    }
    Some(Event::Break {
        change,
        device: number,
    })
}

// The request on the current link is delivered, where there is one.
fn deliver_on<C: Content>(
    device: &Recorded<C>,
    manager: &Manager,
    change: ChangeNo,
    number: DeviceNo,
) -> Option<Event>
    requires given { change ≤ length manager.now.plans }
    ensures { result ≡ deliver_on device.now (wire_in manager.now.state change number) change number }
{
    let Some(link) = manager.current(change, number) else {
        return None;
    };
    if !is_session_open(device, manager.session_of(change, number, link)) {
        return None;
    }
    if manager.outstanding(change, number, link).is_none() {
        return None;
    }
    Some(Event::Deliver {
        change,
        device: number,
        link,
    })
}

// The last reply on the current link is answered, where one isn't handled.
fn answer_on(manager: &Manager, change: ChangeNo, number: DeviceNo) -> Option<Event>
    requires given { change ≤ length manager.now.plans }
    ensures { result ≡ answer_on (wire_in manager.now.state change number) change number }
{
    let Some(link) = manager.current(change, number) else {
        return None;
    };
    if !is_awaited(manager, change, number, link) {
        return None;
    }
    Some(Event::Answer {
        change,
        device: number,
        link,
        number: manager.replies(change, number, link).0,
    })
}

/// What a rule finds of a device and of the links of a change set to it.
pub(crate) fn found_by<C: Content>(
    rule: Rule,
    device: &Recorded<C>,
    manager: &Manager,
    change: ChangeNo,
    number: DeviceNo,
) -> Option<Event>
    requires given { change ≤ length manager.now.plans }
    ensures { result ≡ found_by rule device.now (wire_in manager.now.state change number) change number }
{
    match rule {
        Rule::Lose => lose_first(device, manager, change, number),
        Rule::Break => break_on(device, manager, change, number),
        Rule::Deliver => deliver_on(device, manager, change, number),
        Rule::Answer => answer_on(manager, change, number),
    }
}
