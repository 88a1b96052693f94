//! Events at one device: with the manager's links to it, or with an operator that asks it. Devices and operators are numbered from 1.

ghost use Rattle.std.specs.Prelude.{◌≡◌, ◌≤◌, ◌+◌, ◌-◌, ◌&&◌, length, option_copied, Some, IfOk, OnErr};
ghost use Rattle.std.specs.List.{All};
ghost use Rattle.nm_device.specs.Device.{IsInTime, IsSound};
ghost use Rattle.nm_device.specs.Table.{is_opening};
ghost use Rattle.nm_manager.specs.Manager.{wire_in};
ghost use Rattle.nm_world.specs.World.{is_session_open, is_side_open, delivered_to, lost_from, loses, asks, asks_with, has_on, left_with, later_by, operator_at, restarted_with, IsMet, IsAsked, IsMoved};

use crate::happened::Happened;
use crate::operator::Operator;
use nm_base::{ChangeNo, DeviceNo, NoMemory, SessionId};
use nm_history::Recorded;
use nm_manager::Manager;
use nm_proto::{Content, Request, Tables};

/// The place of a device.
pub(crate) fn place_of(device: DeviceNo) -> usize
    ensures { result ≡ device - 1 }
{
    usize::from(device.get()) - 1
}

/// The operator of a number, from 1.
pub(crate) fn operator_at(operators: &[Operator], number: usize) -> Option<&Operator>
    ensures { option_copied result ≡ operator_at operators.now number }
{
    if number == 0 {
        return None;
    }
    operators.get(number - 1)
}

/// Whether a session is open at a device, where there is one.
pub(crate) fn is_session_open<C: Content>(device: &Recorded<C>, session: Option<SessionId>) -> bool
    ensures { result ≡ is_session_open device.now session }
{
    match session {
        Some(session) => device.device().has_session(session),
        None => true,
    }
}

/// Whether the device's side of a link is open.
pub(crate) fn is_side_open<C: Content>(
    device: &Recorded<C>,
    manager: &Manager,
    change: ChangeNo,
    number: DeviceNo,
    link: u32,
) -> bool
    requires given { change ≤ length manager.now.plans }
    ensures { result ≡ is_side_open device.now (wire_in manager.now.state change number) link }
{
    manager.is_open(change, number, link)
        && is_session_open(device, manager.session_of(change, number, link))
}

/// The device does the request that a link has outstanding, and replies.
pub(crate) fn deliver_to<C: Content>(
    content: &C,
    tables: &Tables<C>,
    device: &mut Recorded<C>,
    manager: &mut Manager,
    change: ChangeNo,
    number: DeviceNo,
    link: u32,
) -> Result<Happened, NoMemory>
    requires given { change ≤ length manager.old.plans }
    requires sound { IsSound (C.meaning content.now) device.old.device }
    requires in_time { IsInTime device.old.device.clock }
    requires edits_belong { All (C.meaning content.now).edit_belongs tables.now.edits }
    ensures met { IfOk result (λ what. IsMet what device.old device.new manager.old manager.new
        (delivered_to (C.meaning content.now) tables.now device.old manager.old.state change number link (wire_in manager.old.state change number))) }
    ensures unchanged { OnErr result (device.new ≡ device.old) }
    ensures manager_unchanged { OnErr result (manager.new ≡ manager.old) }
    ensures clock { device.new.device.clock ≡ device.old.device.clock }
    ensures sound { IsSound (C.meaning content.now) device.new.device }
{
    if !is_session_open(device, manager.session_of(change, number, link)) {
        return Ok(Happened::Idle);
    }
    let session = manager.session_of(change, number, link);
    let Some(request) = manager.outstanding(change, number, link) else {
        return Ok(Happened::Idle);
    };
    let Some(told) = device.serve(content, tables, session, request)? else {
        return Ok(Happened::Idle);
    };
    manager.delivered(change, number, link, told.reply);
    Ok(Happened::Replied {
        reply: told.again,
        undone: told.undone,
    })
}

/// The device's side of a link ends, where it is open: its session is lost, and its request dropped.
pub(crate) fn lose_on<C: Content>(
    content: &C,
    device: &mut Recorded<C>,
    manager: &mut Manager,
    change: ChangeNo,
    number: DeviceNo,
    link: u32,
) -> Result<Happened, NoMemory>
    requires given { change ≤ length manager.old.plans }
    requires sound { IsSound (C.meaning content.now) device.old.device }
    ensures met { IfOk result (λ what. IsMet what device.old device.new manager.old manager.new
        (lost_from (C.meaning content.now) device.old manager.old.state change number link (wire_in manager.old.state change number))) }
    ensures unchanged { OnErr result (device.new ≡ device.old) }
    ensures manager_unchanged { OnErr result (manager.new ≡ manager.old) }
    ensures clock { device.new.device.clock ≡ device.old.device.clock }
    ensures sound { IsSound (C.meaning content.now) device.new.device }
{
    if !is_side_open(device, manager, change, number, link) {
        return Ok(Happened::Idle);
    }
    let session = manager.session_of(change, number, link);
    lose_session(content, device, manager, change, number, link, session)
}

// The device's side of a link ends, and the session that it has.
fn lose_session<C: Content>(
    content: &C,
    device: &mut Recorded<C>,
    manager: &mut Manager,
    change: ChangeNo,
    number: DeviceNo,
    link: u32,
    session: Option<SessionId>,
) -> Result<Happened, NoMemory>
    requires given { change ≤ length manager.old.plans }
    requires sound { IsSound (C.meaning content.now) device.old.device }
    ensures met { IfOk result (λ what. IsMet what device.old device.new manager.old manager.new
        (loses (C.meaning content.now) device.old manager.old.state change number link session)) }
    ensures unchanged { OnErr result (device.new ≡ device.old) }
    ensures manager_unchanged { OnErr result (manager.new ≡ manager.old) }
    ensures clock { device.new.device.clock ≡ device.old.device.clock }
    ensures sound { IsSound (C.meaning content.now) device.new.device }
{
    let Some(session) = session else {
        manager.drop_link(change, number, link);
        return Ok(Happened::Lost { undone: false });
    };
    let Some(undone) = device.lose(content, session)? else {
        return Ok(Happened::Idle);
    };
    manager.drop_link(change, number, link);
    Ok(Happened::Lost { undone })
}

/// A device does a request of an operator, who has a session there exactly where it doesn't ask for one.
pub(crate) fn ask_of<C: Content>(
    content: &C,
    tables: &Tables<C>,
    device: &mut Recorded<C>,
    operator: &mut Operator,
    place: usize,
    request: &Request,
) -> Result<Happened, NoMemory>
    requires sound { IsSound (C.meaning content.now) device.old.device }
    requires in_time { IsInTime device.old.device.clock }
    requires edits_belong { All (C.meaning content.now).edit_belongs tables.now.edits }
    ensures asked { IfOk result (λ what. IsAsked what device.old device.new operator.old operator.new
        (asks (C.meaning content.now) tables.now device.old operator.old place request.now)) }
    ensures unchanged { OnErr result (device.new ≡ device.old) }
    ensures operator_unchanged { OnErr result (operator.new ≡ operator.old) }
    ensures clock { device.new.device.clock ≡ device.old.device.clock }
    ensures sound { IsSound (C.meaning content.now) device.new.device }
{
    let session = operator.session(device, place);
    reply_to(content, tables, device, operator, place, request, session)
}

// A device does a request of an operator on its session, or the request for one.
fn reply_to<C: Content>(
    content: &C,
    tables: &Tables<C>,
    device: &mut Recorded<C>,
    operator: &mut Operator,
    place: usize,
    request: &Request,
    session: Option<SessionId>,
) -> Result<Happened, NoMemory>
    requires sound { IsSound (C.meaning content.now) device.old.device }
    requires in_time { IsInTime device.old.device.clock }
    requires edits_belong { All (C.meaning content.now).edit_belongs tables.now.edits }
    ensures asked { IfOk result (λ what. IsAsked what device.old device.new operator.old operator.new
        (asks_with (C.meaning content.now) tables.now device.old operator.old place request.now session)) }
    ensures unchanged { OnErr result (device.new ≡ device.old) }
    ensures operator_unchanged { OnErr result (operator.new ≡ operator.old) }
    ensures clock { device.new.device.clock ≡ device.old.device.clock }
    ensures sound { IsSound (C.meaning content.now) device.new.device }
{
    if asks_again(request, session.is_some()) {
        return Ok(Happened::Idle);
    }
    let Some(told) = device.serve(content, tables, session, request)? else {
        return Ok(Happened::Idle);
    };
    operator.keep(place, &told.reply);
    Ok(Happened::Replied {
        reply: told.again,
        undone: told.undone,
    })
}

// Whether who has a session asks for one.
fn asks_again(request: &Request, has_session: bool) -> bool
    ensures { result ≡ (is_opening request.now && has_session) }
{
    matches!(request, Request::OpenSession { .. }) && has_session
}

/// The session that an operator has on a device is lost.
pub(crate) fn leave_from<C: Content>(
    content: &C,
    device: &mut Recorded<C>,
    operator: &Operator,
    place: usize,
) -> Result<Happened, NoMemory>
    requires sound { IsSound (C.meaning content.now) device.old.device }
    ensures left { IfOk result
        (λ what. IsMoved what device.old device.new (left_with (C.meaning content.now) device.old (has_on operator.now device.old place))) }
    ensures unchanged { OnErr result (device.new ≡ device.old) }
    ensures clock { device.new.device.clock ≡ device.old.device.clock }
    ensures sound { IsSound (C.meaning content.now) device.new.device }
{
    let Some(session) = operator.session(device, place) else {
        return Ok(Happened::Idle);
    };
    match device.lose(content, session)? {
        Some(undone) => Ok(Happened::Left { undone }),
        None => Ok(Happened::Idle),
    }
}

/// The clock of a device rises.
#[tactic(auto, unfolding(nm_device::specs::Device::IsInTime))]
pub(crate) fn advance_by<C: Content>(
    content: &C,
    device: &mut Recorded<C>,
    seconds: u32,
) -> Result<Happened, NoMemory>
    requires sound { IsSound (C.meaning content.now) device.old.device }
    requires in_time { IsInTime device.old.device.clock }
    ensures advanced { IfOk result (λ what. IsMoved what device.old device.new (Some (later_by (C.meaning content.now) seconds device.old))) }
    ensures unchanged { OnErr result (device.new ≡ device.old) }
    ensures clock { device.new.device.clock ≤ device.old.device.clock + seconds }
    ensures sound { IsSound (C.meaning content.now) device.new.device }
{
    let clock = device.device().clock() + u64::from(seconds);
    let undone = device.advance(content, seconds)?;
    Ok(Happened::Now { clock, undone })
}

/// A device restarts, and its sides of all links end.
pub(crate) fn restart_of<C: Content>(
    content: &C,
    device: &mut Recorded<C>,
    manager: &mut Manager,
    number: DeviceNo,
) -> Result<Happened, NoMemory>
    requires sound { IsSound (C.meaning content.now) device.old.device }
    ensures met { IfOk result (λ what. IsMet what device.old device.new manager.old manager.new
        (Some (restarted_with (C.meaning content.now) manager.old.state number device.old))) }
    ensures unchanged { OnErr result (device.new ≡ device.old) }
    ensures manager_unchanged { OnErr result (manager.new ≡ manager.old) }
    ensures clock { device.new.device.clock ≡ device.old.device.clock }
    ensures sound { IsSound (C.meaning content.now) device.new.device }
{
    let undone = device.restart(content)?;
    manager.restart(number);
    Ok(Happened::Restarted { undone })
}
