//! The notices of a whole history.

ghost use Rattle.std.specs.Prelude.{◌≡◌, ◌+◌, ◌++◌, ◌∷◌, [], ◌<◌, ◌^◌, ◌-◌, ℕ, List, Option, IfOk, OnOk, option_to_list};
ghost use Rattle.nm_history.specs.declared.outcome.Undoing.{Undoing};
ghost use Rattle.nm_history.specs.Effect.{effect_if, effect_of, effect_of_commit, noted_effect};
ghost use Rattle.nm_history.specs.Effect.Effect.{Undoes};
ghost use Rattle.nm_notify.specs.Notices.{is_standing, noticed, notices_in, pending_after};

use crate::notice::{Notice, is_done};
use crate::stream::Stream;
use nm_base::{NoMemory, SessionId};
use nm_device::PendingView;
use nm_history::{DeviceEvent, Noted};
use nm_proto::{Listed, Request};
use std::alloc::Global;

/// The notices of a device's history, oldest first: those of a stream whose one subscriber was there from the beginning, and takes
/// each as it comes. No history has more entries than positions can tell, 4294967295: one that has finds no memory.
pub fn notices_of(alloc: Global, history: &[Noted]) -> Result<Listed<Notice>, NoMemory>
    ensures { IfOk result (λ notices. notices ≡ notices_in history.now) }
{
    if history.len() > u32::MAX as usize {
        return Err(NoMemory);
    }
    let mut stream = Stream::new(alloc);
    let Ok(subscriber) = stream.subscribe() else {
        return Err(NoMemory);
    };
    let mut notices = Listed::new(alloc);
    let mut before = PendingView::None;
    for entry in history {
        let after = view_after(&before, entry);
        pass(
            &mut stream,
            subscriber,
            &before,
            &after,
            entry,
            &mut notices,
        )?;
        before = after;
    }
    Ok(notices)
}

// Puts an entry through a stream with one subscriber, who takes what it tells.
fn pass(
    stream: &mut Stream,
    subscriber: u32,
    before: &PendingView,
    after: &PendingView,
    entry: &Noted,
    notices: &mut Listed<Notice>,
) -> Result<(), NoMemory>
    requires room { stream.old.entries < 2 ^ 32 - 1 }
    requires alone { stream.old.left ≡ (subscriber, []) ∷ [] }
    ensures passed { OnOk result (stream.new ≡ record stream.old { entries = stream.old.entries + 1 }) }
    ensures told { OnOk result (notices.new
        ≡ notices.old ++ option_to_list (noticed (stream.old.entries + 1) entry.now (is_standing before.now) (is_standing after.now))) }
{
    stream.observe(*before, *after, entry)?;
    let taken = stream.take(subscriber);
    match &taken {
        Some(notice) => notices.push(*notice),
        None => Ok(()),
    }
}

// What is pending after an entry. Who began it stands in the entry.
fn view_after(before: &PendingView, entry: &Noted) -> PendingView
    ensures { is_standing result ≡ pending_after (is_standing before.now) (noted_effect entry.now) }
{
    match &entry.event {
        DeviceEvent::Asked { session, request } => {
            view_asked(
                before,
                *session,
                request,
                is_done(&entry.reply),
                entry.undone,
            )
        }
        DeviceEvent::Entered { .. } => *before,
        DeviceEvent::Lost { .. } => view_unless(before, entry.undone),
        DeviceEvent::Advanced { .. } => view_unless(before, entry.undone),
        DeviceEvent::Restarted => view_unless(before, entry.undone),
    }
}

// The same after a request, with whether it was done and whether it undid what was pending.
fn view_asked(
    before: &PendingView,
    session: SessionId,
    request: &Request,
    done: bool,
    undone: bool,
) -> PendingView
    ensures { is_standing result ≡ pending_after (is_standing before.now) (effect_of request.now done undone) }
{
    match request {
        Request::Commit { confirmed, .. } => view_committed(before, session, *confirmed, done),
        Request::CancelCommit { .. } => view_unless(before, done),
        Request::Kill { .. } => view_unless(before, undone),
        Request::CloseSession => view_unless(before, undone),
        _ => *before,
    }
}

// The same after a commit.
fn view_committed(
    before: &PendingView,
    session: SessionId,
    confirmed: bool,
    done: bool,
) -> PendingView
    ensures { (persist : Option (List ℕ)) → is_standing result ≡ pending_after (is_standing before.now) (effect_if done (effect_of_commit confirmed persist)) }
{
    if !done {
        return *before;
    }
    if !confirmed {
        return PendingView::None;
    }
    match before {
        PendingView::None => PendingView::Standing { issuer: session },
        PendingView::Standing { issuer } => PendingView::Standing { issuer: *issuer },
    }
}

// The same where what is pending ends if this says so.
fn view_unless(before: &PendingView, ends: bool) -> PendingView
    ensures { (by : Undoing) → is_standing result ≡ pending_after (is_standing before.now) (effect_if ends (Undoes by)) }
{
    if ends { PendingView::None } else { *before }
}
