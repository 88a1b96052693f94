//! What an entry of a device's history tells of confirmed commits.

ghost use Rattle.std.specs.Prelude.{◌≡◌, ◌&&◌, ◌++◌, None, OnErr, OnOk, Some, not, option_to_list, unwrap_or};
ghost use Rattle.nm_base.specs.Words.{default_timeout};
ghost use Rattle.nm_history.specs.declared.event.DeviceEvent.TheVariants.{Asked};
ghost use Rattle.nm_history.specs.Effect.{is_done_reply};
ghost use Rattle.nm_notify.specs.declared.notice.ConfirmEvent.TheVariants as told_event;
ghost use Rattle.nm_notify.specs.Notices.{committed, noticed, tells, told, told_if};

use nm_base::{DEFAULT_TIMEOUT, NoMemory};
use nm_history::{DeviceEvent, Noted};
use nm_proto::{Reply, Request};

/// What happened to a pending commit (RFC 6470 section 2.2, `confirm-event`).
#[derive(Clone, Copy)]
pub enum ConfirmEvent {
    /// A confirmed commit began.
    Start,
    /// It was undone by a cancel, by the end of its session, or by a restart of the device.
    Cancel,
    /// It was undone at its deadline.
    Timeout,
    /// A further confirmed commit set its deadline anew.
    Extend,
    /// A commit ended it, and running stays.
    Complete,
}

/// One notice of a confirmed commit (RFC 6470 section 2.2, `netconf-confirmed-commit`).
#[derive(Clone, Copy)]
pub struct Notice {
    /// The entry that it tells of, by its number in the device's history, from 1.
    pub position: u32,
    pub event: ConfirmEvent,
    /// The id of the session that asked for it, or whose end brought it; None where nobody did.
    pub session: Option<u32>,
    /// How long the commit waits, in seconds, where it began or went on.
    pub timeout: Option<u32>,
}

/// What an entry tells, by whether a commit was pending before it and is pending after it. Its position is its number in the
/// history, from 1.
pub(crate) fn notice_of(position: u32, entry: &Noted, before: bool, after: bool) -> Option<Notice>
    ensures { result ≡ noticed position entry.now before after }
{
    told(position, entry, before, is_undone(before, after))
}

// Whether a commit was pending, and none is any more.
fn is_undone(before: bool, after: bool) -> bool
    ensures { result ≡ (before && not after) }
{
    before && !after
}

// What happened, with whether a commit was pending before it and was undone.
fn told(position: u32, entry: &Noted, was: bool, undone: bool) -> Option<Notice>
    ensures { result ≡ told position entry.now.event (is_done_reply entry.now.reply) was undone }
{
    match &entry.event {
        DeviceEvent::Asked { session, request } => {
            told_asked(
                position,
                session.get(),
                request,
                is_done(&entry.reply),
                was,
                undone,
            )
        }
        DeviceEvent::Entered { .. } => None,
        DeviceEvent::Lost { session } => cancelled_if(position, Some(session.get()), undone),
        DeviceEvent::Advanced { .. } => timed_out_if(position, undone),
        DeviceEvent::Restarted => cancelled_if(position, None, undone),
    }
}

// What a request tells.
fn told_asked(
    position: u32,
    session: u32,
    request: &Request,
    done: bool,
    was: bool,
    undone: bool,
) -> Option<Notice>
    ensures { result ≡ told position (Asked session request.now) done was undone }
{
    match request {
        Request::Commit {
            confirmed,
            timeout,
            ..
        } => committed_if(position, session, *confirmed, *timeout, done, was),
        Request::CancelCommit { .. } => cancelled_if(position, Some(session), done),
        Request::Kill { session: other } => cancelled_if(position, Some(*other), undone),
        Request::CloseSession => cancelled_if(position, Some(session), undone),
        _ => None,
    }
}

// A commit, where it was done.
fn committed_if(
    position: u32,
    session: u32,
    confirmed: bool,
    timeout: Option<u32>,
    done: bool,
    was: bool,
) -> Option<Notice>
    ensures { result ≡ told_if done (committed position session timeout confirmed was) }
{
    if !done {
        return None;
    }
    match (confirmed, was) {
        (true, false) => waiting(position, ConfirmEvent::Start, session, timeout),
        (true, true) => waiting(position, ConfirmEvent::Extend, session, timeout),
        (false, true) => Some(Notice {
            position,
            event: ConfirmEvent::Complete,
            session: Some(session),
            timeout: None,
        }),
        (false, false) => None,
    }
}

// A confirmed commit waits for the time that it gives, or for the usual one (RFC 6241 section 8.4.5.1).
fn waiting(position: u32, event: ConfirmEvent, session: u32, timeout: Option<u32>) -> Option<Notice>
    ensures { result ≡ tells position event (Some session) (Some (unwrap_or timeout default_timeout)) }
{
    Some(Notice {
        position,
        event,
        session: Some(session),
        timeout: Some(timeout.unwrap_or(DEFAULT_TIMEOUT)),
    })
}

// A cancel, or what counts as one, where it undid what was pending.
fn cancelled_if(position: u32, session: Option<u32>, undone: bool) -> Option<Notice>
    ensures { result ≡ told_if undone (tells position told_event.Cancel session None) }
{
    if !undone {
        return None;
    }
    Some(Notice {
        position,
        event: ConfirmEvent::Cancel,
        session,
        timeout: None,
    })
}

// A deadline, where it undid what was pending.
fn timed_out_if(position: u32, undone: bool) -> Option<Notice>
    ensures { result ≡ told_if undone (tells position told_event.Timeout None None) }
{
    if !undone {
        return None;
    }
    Some(Notice {
        position,
        event: ConfirmEvent::Timeout,
        session: None,
        timeout: None,
    })
}

// Whether a reply is Done.
pub(crate) fn is_done(reply: &Option<Reply>) -> bool
    ensures { result ≡ is_done_reply reply.now }
{
    matches!(reply, Some(Reply::Done))
}

/// Puts a notice behind the others, where there is one.
pub(crate) fn push_if(notices: &mut Vec<Notice>, told: &Option<Notice>) -> Result<(), NoMemory>
    ensures pushed { OnOk result (notices.new.items ≡ notices.old.items ++ option_to_list told.now) }
    ensures unchanged { OnErr result (notices.new.items ≡ notices.old.items) }
{
    match told {
        Some(notice) => {
            notices.reserve(1)?;
            notices.push_reserved(*notice);
            Ok(())
        }
        None => Ok(()),
    }
}
