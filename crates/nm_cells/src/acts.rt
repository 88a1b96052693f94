//! What happens at a device, noted in its history, which has room for it. Nothing is left half done: where there is no
//! memory, neither the device nor the history has changed.

ghost use Rattle.std.specs.Prelude.{◌≡◌, ◌<◌, ◌+◌, true, false, Some, IfOk, OnOk, OnErr, length, vec_capacity};
ghost use Rattle.std.specs.List.{All};
ghost use Rattle.nm_proto.specs.Message.{holds_text};
ghost use Rattle.nm_sessions.specs.Sessions.{is_open};
ghost use Rattle.nm_device.specs.Device.{IsInTime, IsSound};
ghost use Rattle.nm_device.specs.Table.{asks_for_end, device_step, is_opening};
ghost use Rattle.nm_history.specs.History.{losing, advancing, restarting, entering, answered, served_as, Serves, Changes};
ghost use Rattle.nm_cells.specs.Kept.{beside};
ghost use Rattle.nm_cells.specs.Asking.{has_plain_tag};

use nm_base::{Label, NoMemory, SessionId};
use nm_device::Device;
use nm_history::{DeviceEvent, Noted, Told};
use nm_proto::{Content, Reply, Request, Tables};

// A user asks for a session.
pub(crate) fn enter<C: Content>(
    device: &mut Device<C>,
    history: &mut Vec<Noted>,
    user: Label,
) -> Result<Told, NoMemory>
    requires room { length history.old.items < vec_capacity history.old }
    ensures served { IfOk result (λ told. Serves (Some told) (beside device.old history.old.items)
        (beside device.new history.new.items) (served_as (beside device.old history.old.items) (DeviceEvent.Entered user)
        (Some (entering device.old user)))) }
    ensures device { OnErr result (device.new ≡ device.old) }
    ensures history { OnErr result (history.new.items ≡ history.old.items) }
    ensures capacity { vec_capacity history.new ≡ vec_capacity history.old }
    ensures clock { device.new.clock ≡ device.old.clock }
    ensures only_sessions { device.new ≡ record device.old { sessions = device.new.sessions } }
    ensures plain { IfOk result (λ told. has_plain_tag told.reply ≡ true) }
{
    let reply = device.open_session(user.copy()?)?;
    let Copies { kept, told } = copies_of(reply, false)?;
    history.push_reserved(Noted {
        event: DeviceEvent::Entered { user },
        reply: Some(kept),
        undone: false,
    });
    Ok(told)
}

// An open session asks something.
pub(crate) fn ask<C: Content>(
    device: &mut Device<C>,
    history: &mut Vec<Noted>,
    content: &C,
    tables: &Tables<C>,
    session: SessionId,
    request: &Request,
) -> Result<Told, NoMemory>
    requires room { length history.old.items < vec_capacity history.old }
    requires sound { IsSound (C.meaning content.now) device.old }
    requires in_time { IsInTime device.old.clock }
    requires edits_belong { All (C.meaning content.now).edit_belongs tables.now.edits }
    requires open { is_open device.old.sessions session ≡ true }
    requires asks { is_opening request.now ≡ false }
    ensures served { IfOk result (λ told. Serves (Some told) (beside device.old history.old.items)
        (beside device.new history.new.items) (served_as (beside device.old history.old.items)
        (DeviceEvent.Asked session request.now)
        (Some (answered device.old request.now (device_step (C.meaning content.now) tables.now device.old session request.now))))) }
    ensures device { OnErr result (device.new ≡ device.old) }
    ensures history { OnErr result (history.new.items ≡ history.old.items) }
    ensures capacity { vec_capacity history.new ≡ vec_capacity history.old }
    ensures clock { device.new.clock ≡ device.old.clock }
    ensures sound { IsSound (C.meaning content.now) device.new }
    ensures plain { IfOk result (λ told. has_plain_tag told.reply ≡ true) }
{
    let asked = request.copy()?;
    let was_pending = device.is_pending();
    let reply = device.step(content, tables, session, request)?;
    let undone = was_pending && !device.is_pending() && !asks_for_end(request);
    let Copies { kept, told } = copies_of(reply, undone)?;
    history.push_reserved(Noted {
        event: DeviceEvent::Asked {
            session,
            request: asked,
        },
        reply: Some(kept),
        undone,
    });
    Ok(told)
}

// An open session is lost.
pub(crate) fn lose<C: Content>(
    device: &mut Device<C>,
    history: &mut Vec<Noted>,
    content: &C,
    session: SessionId,
) -> bool
    requires room { length history.old.items < vec_capacity history.old }
    requires sound { IsSound (C.meaning content.now) device.old }
    requires open { is_open device.old.sessions session ≡ true }
    ensures lost { Changes result (beside device.old history.old.items) (beside device.new history.new.items)
        (DeviceEvent.Lost session) (losing (C.meaning content.now) device.old session) }
    ensures capacity { vec_capacity history.new ≡ vec_capacity history.old }
    ensures clock { device.new.clock ≡ device.old.clock }
    ensures sound { IsSound (C.meaning content.now) device.new }
{
    let undone = device.lose(content, session);
    history.push_reserved(Noted {
        event: DeviceEvent::Lost { session },
        reply: None,
        undone,
    });
    undone
}

// The clock rises.
#[tactic(auto, using(crate::proofs::Clock::clock_rises, crate::proofs::Clock::sessions_stay))]
pub(crate) fn advance<C: Content>(
    device: &mut Device<C>,
    history: &mut Vec<Noted>,
    content: &C,
    seconds: u32,
) -> bool
    requires room { length history.old.items < vec_capacity history.old }
    requires sound { IsSound (C.meaning content.now) device.old }
    requires in_time { IsInTime device.old.clock }
    ensures advanced { Changes result (beside device.old history.old.items) (beside device.new history.new.items)
        (DeviceEvent.Advanced seconds) (advancing (C.meaning content.now) device.old seconds) }
    ensures capacity { vec_capacity history.new ≡ vec_capacity history.old }
    ensures clock { device.new.clock ≡ device.old.clock + seconds }
    ensures sessions { device.new.sessions ≡ device.old.sessions }
    ensures sound { IsSound (C.meaning content.now) device.new }
{
    let undone = device.advance(content, seconds);
    history.push_reserved(Noted {
        event: DeviceEvent::Advanced { seconds },
        reply: None,
        undone,
    });
    undone
}

// The device restarts.
pub(crate) fn restart<C: Content>(
    device: &mut Device<C>,
    history: &mut Vec<Noted>,
    content: &C,
) -> bool
    requires room { length history.old.items < vec_capacity history.old }
    requires sound { IsSound (C.meaning content.now) device.old }
    ensures restarted { Changes result (beside device.old history.old.items) (beside device.new history.new.items)
        DeviceEvent.Restarted (restarting (C.meaning content.now) device.old) }
    ensures capacity { vec_capacity history.new ≡ vec_capacity history.old }
    ensures clock { device.new.clock ≡ device.old.clock }
    ensures sound { IsSound (C.meaning content.now) device.new }
{
    let undone = device.restart(content);
    history.push_reserved(Noted {
        event: DeviceEvent::Restarted,
        reply: None,
        undone,
    });
    undone
}

// Whether a request asks for the end of a pending commit.
fn asks_for_end(request: &Request) -> bool
    ensures { result ≡ asks_for_end request.now }
{
    matches!(
        request,
        Request::Commit { .. } | Request::CancelCommit { .. }
    )
}

// A reply, once for the history and twice for the asker.
#[derive(Drop)]
struct Copies {
    kept: Reply,
    told: Told,
}

// Copies a reply. Only an error may find no memory, since no other reply holds a text.
fn copies_of(reply: Reply, undone: bool) -> Result<Copies, NoMemory>
    ensures kept { IfOk result (λ copies. copies.kept ≡ reply) }
    ensures told { IfOk result (λ copies. copies.told ≡ record { reply = reply; again = reply; undone = undone }) }
    ensures only_errors { OnErr result (holds_text reply ≡ true) }
{
    let again = reply.copy()?;
    let kept = reply.copy()?;
    Ok(Copies {
        kept,
        told: Told {
            reply,
            again,
            undone,
        },
    })
}
