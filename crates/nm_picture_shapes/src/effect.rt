//! What an entry of a device's history does to what holds there: its locks, its candidate and its pending commit.

ghost use Rattle.std.specs.Prelude.{◌≡◌};
ghost use Rattle.nm_picture_shapes.specs.Effects as spec;

use nm_history::{DeviceEvent, Noted};
use nm_proto::{Reply, Request, Store};

/// How long a confirmed commit waits that gives no time, in seconds (RFC 6241 section 8.4.5).
pub const DEFAULT_TIMEOUT: u32 = 600;

/// What something does to what holds at a device.
#[derive(Clone, Copy)]
pub enum Effect {
    Nothing,
    /// A session owns a datastore.
    Locks { store: Store, session: u32 },
    Unlocks { store: Store },
    /// A session ends, by a close, a kill or a loss.
    Ends { session: u32 },
    /// The candidate is another than running.
    Edits,
    Discards,
    /// A confirmed commit, which waits so many seconds.
    Begins { timeout: u32 },
    /// A commit that isn't confirmed.
    Confirms,
    Cancels,
    /// The clock rises.
    Passes { seconds: u32 },
    Restarts,
}

fn is_done(reply: &Option<Reply>) -> bool
    ensures { result ≡ spec.is_done reply.now }
{
    matches!(reply, Some(Reply::Done))
}

fn is_error(reply: &Option<Reply>) -> bool
    ensures { result ≡ spec.is_error reply.now }
{
    matches!(reply, Some(Reply::Error { .. }))
}

fn seconds_of(timeout: Option<u32>) -> u32
    ensures { result ≡ spec.seconds_of timeout }
{
    match timeout {
        Some(timeout) => timeout,
        None => DEFAULT_TIMEOUT,
    }
}

fn effect_of_commit(confirmed: bool, timeout: Option<u32>) -> Effect
    ensures { result ≡ spec.effect_of_commit confirmed timeout }
{
    if confirmed {
        return Effect::Begins {
            timeout: seconds_of(timeout),
        };
    }
    Effect::Confirms
}

// What a request does that was done.
fn effect_of_request(session: u32, request: &Request) -> Effect
    ensures { result ≡ spec.effect_of_request session request.now }
{
    match request {
        Request::Lock { store } => Effect::Locks {
            store: *store,
            session,
        },
        Request::Unlock { store } => Effect::Unlocks { store: *store },
        Request::Edit { .. } => Effect::Edits,
        Request::Commit {
            confirmed,
            timeout,
            ..
        } => effect_of_commit(*confirmed, *timeout),
        Request::CancelCommit { .. } => Effect::Cancels,
        Request::Discard => Effect::Discards,
        Request::Kill { session } => Effect::Ends { session: *session },
        Request::CloseSession => Effect::Ends { session },
        _ => Effect::Nothing,
    }
}

/// What an entry of a history does.
pub fn effect_of(entry: &Noted) -> Effect
    ensures { result ≡ spec.effect_of entry.now }
{
    match &entry.event {
        DeviceEvent::Asked { session, request } => {
            if !is_done(&entry.reply) {
                return Effect::Nothing;
            }
            effect_of_request(session.get(), request)
        }
        DeviceEvent::Lost { session } => Effect::Ends {
            session: session.get(),
        },
        DeviceEvent::Restarted => Effect::Restarts,
        DeviceEvent::Entered { .. } => Effect::Nothing,
        DeviceEvent::Advanced { seconds } => Effect::Passes { seconds: *seconds },
    }
}

// Whether a request wants a pending commit.
fn wants_pending(request: &Request) -> bool
    ensures { result ≡ spec.wants_pending request.now }
{
    match request {
        Request::Commit { persist_id, .. } => persist_id.is_some(),
        Request::CancelCommit { .. } => true,
        _ => false,
    }
}

/// Whether an entry is the refusal of a request that wants a pending commit.
pub fn misses_pending(entry: &Noted) -> bool
    ensures { result ≡ spec.misses_pending entry.now }
{
    match &entry.event {
        DeviceEvent::Asked { request, .. } => is_error(&entry.reply) && wants_pending(request),
        _ => false,
    }
}
