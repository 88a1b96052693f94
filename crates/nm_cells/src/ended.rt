//! What a caller finds whose session isn't open any more: the entry that ended it, where the caller may know of that.

ghost use Rattle.std.specs.Prelude.{◌≡◌, ◌<◌, ◌^◌, IfOk, OnErr, length, vec_capacity, slice_get, position, Some};
ghost use Rattle.nm_cells.specs.Kept.{opens};
ghost use Rattle.nm_cells.specs.Ended.{is_done, ends_by, ends, opened_by, end_of, is_entry, holds, is_opening_of, opened_in, by_request, coordinator_knows, is_kill, operator_knows, knows, lost_nowhere, found_if, found_at, with_found};

use crate::pass::{PassEntry, PassOwner};
use nm_base::{DeviceNo, NoMemory, SessionId};
use nm_history::{DeviceEvent, Noted};
use nm_proto::{Reply, Request};

/// The entry that ended a session, and its place in the history, from 1, or the loss of the session at the place 0.
#[derive(Drop)]
pub struct Found {
    pub position: u32,
    pub noted: Noted,
}

// ---- what ends a session

fn is_done(reply: &Option<Reply>) -> bool
    ensures { result ≡ is_done reply.now }
{
    matches!(reply, Some(Reply::Done))
}

// A request that is done ends the session.
fn ends_by(session: SessionId, asker: SessionId, request: &Request) -> bool
    ensures { result ≡ ends_by session asker request.now }
{
    match request {
        Request::CloseSession => asker == session,
        Request::Kill { session: other } => *other == session.get(),
        _ => false,
    }
}

// The entry ends the session, where it is open.
fn ends(session: SessionId, entry: &Noted) -> bool
    ensures { result ≡ ends session entry.now }
{
    match &entry.event {
        DeviceEvent::Asked {
            session: asker,
            request,
        } => ends_by(session, *asker, request) && is_done(&entry.reply),
        DeviceEvent::Lost { session: other } => *other == session,
        DeviceEvent::Restarted => true,
        _ => false,
    }
}

// The reply opened the session.
fn opens(session: SessionId, reply: &Option<Reply>) -> bool
    ensures { result ≡ opens session reply.now }
{
    match reply {
        Some(Reply::Opened(other)) => *other == session,
        _ => false,
    }
}

fn opened_by(session: SessionId, entry: &Noted) -> bool
    ensures { result ≡ opened_by session entry.now }
{
    opens(session, &entry.reply)
}

// The place of the entry that opened the session, from 0.
fn opening_of(session: SessionId, history: &[Noted]) -> Option<usize>
    ensures { result ≡ position (opened_by session) history.now }
{
    history.iter().position(|entry| opened_by(session, entry))
}

// The place of the first entry that ends it, from 0.
fn first_end(session: SessionId, entries: &[Noted]) -> Option<usize>
    ensures { result ≡ position (ends session) entries.now }
{
    entries.iter().position(|entry| ends(session, entry))
}

// How many entries stand before what ended the session.
fn end_of(session: SessionId, history: &[Noted]) -> Option<usize>
    ensures { result ≡ end_of session history.now }
{
    let Some(opening) = opening_of(session, history) else {
        return None;
    };
    if opening >= history.len() {
        return None;
    }
    let (_, later) = history.split_at(opening + 1);
    match first_end(session, later) {
        Some(place) => Some(opening + 1 + place),
        None => None,
    }
}

// ---- what a caller may know

fn is_entry(device: DeviceNo, place: u32, entry: &PassEntry) -> bool
    ensures { result ≡ is_entry device place entry.now }
{
    entry.device == device && entry.position == place
}

// The pass holds the entry at this place of this device.
fn holds(device: DeviceNo, place: u32, entries: &[PassEntry]) -> bool
    ensures { result ≡ holds device place entries.now }
{
    entries.iter().any(|entry| is_entry(device, place, entry))
}

fn is_opening_of(device: DeviceNo, session: SessionId, entry: &PassEntry) -> bool
    ensures { result ≡ is_opening_of device session entry.now }
{
    entry.device == device && opens(session, &entry.noted.reply)
}

// The caller opened the session.
fn opened_in(device: DeviceNo, session: SessionId, entries: &[PassEntry]) -> bool
    ensures { result ≡ opened_in device session entries.now }
{
    entries
        .iter()
        .any(|entry| is_opening_of(device, session, entry))
}

// A coordinator knows of another's kill, and of what it did itself.
fn by_request(
    device: DeviceNo,
    place: u32,
    entries: &[PassEntry],
    asker: SessionId,
    request: &Request,
) -> bool
    ensures { result ≡ by_request device place entries.now asker request.now }
{
    match request {
        Request::Kill { .. } => !opened_in(device, asker, entries),
        _ => holds(device, place, entries),
    }
}

fn coordinator_knows(
    device: DeviceNo,
    place: u32,
    entries: &[PassEntry],
    event: &DeviceEvent,
) -> bool
    ensures { result ≡ coordinator_knows device place entries.now event.now }
{
    match event {
        DeviceEvent::Asked { session, request } => {
            by_request(device, place, entries, *session, request)
        }
        DeviceEvent::Restarted => true,
        _ => holds(device, place, entries),
    }
}

// An operator knows of a restart and of a kill.
fn operator_knows(event: &DeviceEvent) -> bool
    ensures { result ≡ operator_knows event.now }
{
    match event {
        DeviceEvent::Asked { request, .. } => matches!(request, Request::Kill { .. }),
        DeviceEvent::Restarted => true,
        _ => false,
    }
}

// The caller may know of what ended its session.
fn knows(
    owner: &PassOwner,
    managers: bool,
    device: DeviceNo,
    place: u32,
    entries: &[PassEntry],
    event: &DeviceEvent,
) -> bool
    ensures { result ≡ knows owner.now managers device place entries.now event.now }
{
    match owner {
        PassOwner::Coordinator { .. } => coordinator_knows(device, place, entries, event),
        PassOwner::Operator { .. } => !managers && operator_knows(event),
    }
}

// ---- what it finds

fn lost_nowhere(session: SessionId) -> Found
    ensures { result ≡ lost_nowhere session }
{
    Found {
        position: 0,
        noted: Noted {
            event: DeviceEvent::Lost { session },
            reply: None,
            undone: false,
        },
    }
}

// What a caller finds of an entry that may have ended its session.
fn found_if(
    owner: &PassOwner,
    managers: bool,
    device: DeviceNo,
    session: SessionId,
    entries: &[PassEntry],
    place: u32,
    entry: &Noted,
) -> Result<Found, NoMemory>
    ensures { IfOk result (λ it. it ≡ found_if owner.now managers device session entries.now place (Some entry.now)) }
{
    if !knows(owner, managers, device, place, entries, &entry.event) {
        return Ok(lost_nowhere(session));
    }
    Ok(Found {
        position: place,
        noted: entry.copy()?,
    })
}

/// What a caller finds whose session isn't open, which is the manager's or not.
pub(crate) fn found_at(
    owner: &PassOwner,
    managers: bool,
    device: DeviceNo,
    session: SessionId,
    entries: &[PassEntry],
    history: &[Noted],
) -> Result<Found, NoMemory>
    requires few { length history.now < 2 ^ 32 }
    ensures { IfOk result (λ it. it ≡ found_at owner.now managers device session entries.now history.now (end_of session history.now)) }
{
    let Some(before) = end_of(session, history) else {
        return Ok(lost_nowhere(session));
    };
    match history.get(before) {
        Some(entry) => found_if(
            owner,
            managers,
            device,
            session,
            entries,
            before as u32 + 1,
            entry,
        ),
        None => Ok(lost_nowhere(session)),
    }
}

/// Keeps what was found in a pass that has room for it, unless the pass holds it.
pub(crate) fn keep_found(entries: &mut Vec<PassEntry>, device: DeviceNo, it: Found)
    requires room { length entries.old.items < vec_capacity entries.old }
    ensures { entries.new.items ≡ with_found device entries.old.items it }
{
    let Found { position, noted } = it;
    if holds(device, position, entries.as_slice()) && position != 0 {
        return;
    }
    entries.push_reserved(PassEntry {
        device,
        position,
        noted,
    });
}
