//! How far the requests of a coordinator have come at one device, read from its pass, and what it may ask next.

ghost use Rattle.std.specs.Prelude.{◌≡◌, ◌<◌};
ghost use Rattle.std.specs.Str.{bytes_eq};
ghost use Rattle.nm_base.specs.Words.{manager};
ghost use Rattle.nm_history.specs.History.{event_of};
ghost use Rattle.nm_history.specs.declared.event.DeviceEvent.TheVariants.{Entered, Asked};
ghost use Rattle.nm_slots.specs.Course.{is_later, answered_with, first_session, is_next_event, is_next, may_come, goes, goes_at, then_goes, reached, may_go, may_ask};

use crate::requests::{is_later_request, is_next_request, opened_in};
use nm_base::{ChangeNo, DeviceNo, Label, MANAGER, SessionId, Tag};
use nm_cells::PassEntry;
use nm_history::{DeviceEvent, Noted};
use nm_proto::{ChangePlan, Reply, Request};

/// How far a coordinator has come at a device.
#[derive(Clone, Copy)]
pub enum Reached {
    /// So many of the six requests that bring the change set were answered without an error, on this session once it is open.
    Six {
        done: u32,
        session: Option<SessionId>,
    },
    /// Something else came after so many of them: an error of this tag at the next, or what follows them.
    Over {
        done: u32,
        session: Option<SessionId>,
        refused: Option<Tag>,
    },
}

// ---- what may come

fn is_managers(user: &Label) -> bool
    ensures { result ≡ bytes_eq user.now manager }
{
    user.as_str() == MANAGER
}

// Whether this may follow the six.
fn is_later(change: ChangeNo, device: DeviceNo, before: &[PassEntry], event: &DeviceEvent) -> bool
    ensures { result ≡ is_later change device before.now event.now }
{
    match event {
        DeviceEvent::Entered { user } => is_managers(user),
        DeviceEvent::Asked { session, request } => {
            is_later_request(change, device, before, *session, request)
        }
        DeviceEvent::Lost { .. } => true,
        DeviceEvent::Advanced { .. } => false,
        DeviceEvent::Restarted => true,
    }
}

fn is_next_event(
    plan: &ChangePlan,
    change: ChangeNo,
    device: DeviceNo,
    done: u32,
    session: &Option<SessionId>,
    event: &DeviceEvent,
) -> bool
    ensures { result ≡ is_next_event plan.now change device done session.now event.now }
{
    match event {
        DeviceEvent::Entered { user } => done == 0 && is_managers(user),
        DeviceEvent::Asked {
            session: asker,
            request,
        } => is_next_request(plan, change, device, done, session, *asker, request),
        DeviceEvent::Lost { .. } => false,
        DeviceEvent::Advanced { .. } => false,
        DeviceEvent::Restarted => false,
    }
}

// Whether this is the next of the six.
fn is_next(
    plan: &ChangePlan,
    change: ChangeNo,
    device: DeviceNo,
    done: u32,
    session: &Option<SessionId>,
    event: &DeviceEvent,
) -> bool
    ensures { result ≡ is_next plan.now change device done session.now event.now }
{
    done < 6 && is_next_event(plan, change, device, done, session, event)
}

fn may_come(
    plan: &ChangePlan,
    change: ChangeNo,
    device: DeviceNo,
    before: &[PassEntry],
    at: &Reached,
    event: &DeviceEvent,
) -> bool
    ensures { result ≡ may_come plan.now change device before.now at.now event.now }
{
    match at {
        Reached::Six { done, session } => {
            is_next(plan, change, device, *done, session, event)
                || is_later(change, device, before, event)
        }
        Reached::Over { .. } => is_later(change, device, before, event),
    }
}

// ---- along a pass

// The session of the six is the first that was opened for them.
fn first_session(session: &Option<SessionId>, opened: SessionId) -> SessionId
    ensures { result ≡ first_session session.now opened }
{
    match session {
        Some(session) => *session,
        None => opened,
    }
}

// One of the six was answered.
fn answered_with(done: u32, session: &Option<SessionId>, reply: &Option<Reply>) -> Reached
    requires few { done < 6 }
    ensures { result ≡ answered_with done session.now reply.now }
{
    match reply {
        None => Reached::Over {
            done,
            session: *session,
            refused: None,
        },
        Some(Reply::Error { tag, .. }) => Reached::Over {
            done,
            session: *session,
            refused: Some(*tag),
        },
        Some(Reply::Opened(opened)) => Reached::Six {
            done: done + 1,
            session: Some(first_session(session, *opened)),
        },
        Some(_) => Reached::Six {
            done: done + 1,
            session: *session,
        },
    }
}

// How far the pass is after an entry.
#[tactic(auto, using(crate::proofs::Steps::next_few))]
fn goes(
    plan: &ChangePlan,
    change: ChangeNo,
    device: DeviceNo,
    at: &Reached,
    entry: &Noted,
) -> Reached
    ensures { result ≡ goes plan.now change device at.now entry.now }
{
    match at {
        Reached::Six { done, session } => {
            if is_next(plan, change, device, *done, session, &entry.event) {
                answered_with(*done, session, &entry.reply)
            } else {
                Reached::Over {
                    done: *done,
                    session: *session,
                    refused: None,
                }
            }
        }
        Reached::Over {
            done,
            session,
            refused,
        } => Reached::Over {
            done: *done,
            session: *session,
            refused: *refused,
        },
    }
}

// How far it is there after an entry of any device.
fn goes_at(
    plan: &ChangePlan,
    change: ChangeNo,
    device: DeviceNo,
    before: &[PassEntry],
    at: &Reached,
    entry: &PassEntry,
) -> Option<Reached>
    ensures { result ≡ goes_at plan.now change device before.now at.now entry.now }
{
    if entry.device != device {
        return Some(*at);
    }
    if !may_come(plan, change, device, before, at, &entry.noted.event) {
        return None;
    }
    Some(goes(plan, change, device, at, &entry.noted))
}

fn then_goes(
    plan: &ChangePlan,
    change: ChangeNo,
    device: DeviceNo,
    before: &[PassEntry],
    at: &Option<Reached>,
    entry: &PassEntry,
) -> Option<Reached>
    ensures { result ≡ then_goes plan.now change device before.now at.now entry.now }
{
    match at {
        Some(at) => goes_at(plan, change, device, before, at, entry),
        None => None,
    }
}

/// How far the pass of a change set's coordinator has come at a device, and None where it holds what may not come there. It
/// takes time as there are entries.
pub fn progress(
    plan: &ChangePlan,
    change: ChangeNo,
    device: DeviceNo,
    entries: &[PassEntry],
) -> Option<Reached>
    ensures { result ≡ reached plan.now change device entries.now }
{
    let mut at = Some(Reached::Six {
        done: 0,
        session: None,
    });
    for place in 0..entries.len() {
        at = then_goes(
            plan,
            change,
            device,
            &entries[..place],
            &at,
            &entries[place],
        );
    }
    at
}

// ---- what may be asked

// Whether the manager may ask for a session.
#[tactic(auto, using(crate::proofs::Steps::enters_as_manager))]
fn may_enter(
    _plan: &ChangePlan,
    _change: ChangeNo,
    _device: DeviceNo,
    _entries: &[PassEntry],
    at: &Option<Reached>,
    user: &Label,
) -> bool
    ensures { result ≡ may_go _plan.now _change _device _entries.now (Entered user.now) at.now }
{
    at.is_some() && is_managers(user)
}

// Whether a request may come on a session.
fn may_request(
    plan: &ChangePlan,
    change: ChangeNo,
    device: DeviceNo,
    entries: &[PassEntry],
    at: &Option<Reached>,
    session: SessionId,
    request: &Request,
) -> bool
    ensures { result ≡ may_go plan.now change device entries.now (Asked session request.now) at.now }
{
    match at {
        None => false,
        Some(Reached::Six { done, session: on }) => {
            (*done < 6 && is_next_request(plan, change, device, *done, on, session, request))
                || is_later_request(change, device, entries, session, request)
        }
        Some(Reached::Over { .. }) => is_later_request(change, device, entries, session, request),
    }
}

/// Whether the coordinator of a change set, whose pass this is, may ask this of a device next: on a session that it opened, as
/// the six requests go, or as what may follow them. It takes time as there are entries.
pub fn may_ask(
    plan: &ChangePlan,
    change: ChangeNo,
    device: DeviceNo,
    entries: &[PassEntry],
    session: &Option<SessionId>,
    request: &Request,
) -> bool
    ensures { result ≡ may_ask plan.now change device entries.now (event_of session.now request.now) }
{
    let at = progress(plan, change, device, entries);
    match request {
        Request::OpenSession { user } => may_enter(plan, change, device, entries, &at, user),
        _ => match session {
            Some(session) => {
                opened_in(device, session.get(), entries)
                    && may_request(plan, change, device, entries, &at, *session, request)
            }
            None => false,
        },
    }
}
