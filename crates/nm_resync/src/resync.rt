//! The resynchronisation of one device: a small machine over the replies to what it asks.

ghost use Rattle.std.specs.Prelude.{◌≡◌};
ghost use Rattle.nm_resync.specs.Resync.{held_ask, learnt_opening, learnt_discard, learnt_lock, held_mark, learnt_held, learnt_confirming, learnt_checking, learnt_closing, resync_learnt};

use nm_proto::{Ask, Reply};
use std::marker::Model;

/// Where the resynchronisation of a device stands, by what is asked next.
#[derive(Clone, Copy, PartialEq, Eq)]
pub enum ResyncStage {
    /// A session.
    Opening,
    /// That candidate becomes as running, so that it may be locked (RFC 6241 section 8.3.4.2).
    Discarding,
    /// The candidate lock.
    Locking,
    /// Whether the mark is there, or where the change set isn't to be committed, that a pending commit is cancelled.
    Holding,
    /// That the pending commit is confirmed.
    Confirming,
    /// Whether the mark is there, now that the confirm was refused.
    Checking,
    /// That the session closes: to begin again where the outcome isn't known.
    Closing { kept: Option<bool> },
    /// Nothing: the outcome is known, and the session closed.
    Done { kept: bool },
}

/// The resynchronisation of one device for a change set. No call takes memory.
#[derive(Clone, Copy, PartialEq, Eq)]
pub struct Resync {
    // Whether the change set is to be committed.
    commit: bool,
    stage: ResyncStage,
}

impl Model for Resync {
    ghost use Rattle.nm_resync.specs.Resync.{ResyncState};

    ghost Value = { ResyncState };

    ghost view = { λ resync. record { commit = resync.commit; stage = resync.stage } };

    ghost inverse = { λ state. record { commit = state.commit; stage = state.stage } };
}

impl Resync {
    ghost use Rattle.nm_resync.specs.Resync.{fresh_resync, resync_ask, with_reply, settled_in};

    /// The beginning, by whether the change set is to be committed.
    pub fn new(commit: bool) -> Resync
        ensures { result ≡ fresh_resync commit }
    {
        Resync {
            commit,
            stage: ResyncStage::Opening,
        }
    }

    /// What is asked next. Once the outcome is known and the session closed, it is `Ask::Resync`, of which there is no request.
    pub fn next(&self) -> Ask
        ensures { result ≡ resync_ask self.now.commit self.now.stage }
    {
        match &self.stage {
            ResyncStage::Opening => Ask::OpenSession,
            ResyncStage::Discarding => Ask::Discard,
            ResyncStage::Locking => Ask::LockCandidate,
            ResyncStage::Holding => held_ask(self.commit),
            ResyncStage::Confirming => Ask::Confirm,
            ResyncStage::Checking => Ask::HasMark,
            ResyncStage::Closing { .. } => Ask::CloseSession,
            ResyncStage::Done { .. } => Ask::Resync,
        }
    }

    /// Whether the device keeps the change set, and None exactly where that isn't known or the session isn't closed.
    pub fn settled(&self) -> Option<bool>
        ensures { result ≡ settled_in self.now.stage }
    {
        match &self.stage {
            ResyncStage::Done { kept } => Some(*kept),
            _ => None,
        }
    }

    /// The reply to what was asked is handled.
    pub fn on_reply(&mut self, reply: &Reply)
        ensures { self.new ≡ with_reply self.old reply.now }
    {
        self.stage = learnt(self.commit, &self.stage, reply);
    }
}

// The stage after the reply to what was asked.
fn learnt(commit: bool, stage: &ResyncStage, reply: &Reply) -> ResyncStage
    ensures { result ≡ resync_learnt commit stage.now reply.now }
{
    match stage {
        ResyncStage::Opening => learnt_opening(reply),
        ResyncStage::Discarding => learnt_discard(reply),
        ResyncStage::Locking => learnt_lock(reply),
        ResyncStage::Holding => learnt_held(commit, reply),
        ResyncStage::Confirming => learnt_confirming(reply),
        ResyncStage::Checking => learnt_checking(reply),
        ResyncStage::Closing { kept } => learnt_closing(*kept),
        ResyncStage::Done { kept } => ResyncStage::Done { kept: *kept },
    }
}

fn held_ask(commit: bool) -> Ask
    ensures { result ≡ held_ask commit }
{
    if commit { Ask::HasMark } else { Ask::Cancel }
}

fn learnt_opening(reply: &Reply) -> ResyncStage
    ensures { result ≡ learnt_opening reply.now }
{
    match reply {
        Reply::Opened(_) => ResyncStage::Discarding,
        _ => ResyncStage::Opening,
    }
}

fn learnt_discard(reply: &Reply) -> ResyncStage
    ensures { result ≡ learnt_discard reply.now }
{
    match reply {
        Reply::Done => ResyncStage::Locking,
        _ => ResyncStage::Closing { kept: None },
    }
}

fn learnt_lock(reply: &Reply) -> ResyncStage
    ensures { result ≡ learnt_lock reply.now }
{
    match reply {
        Reply::Done => ResyncStage::Holding,
        _ => ResyncStage::Closing { kept: None },
    }
}

// The mark of a change set that is to be committed, or the cancel of one that isn't.
fn learnt_held(commit: bool, reply: &Reply) -> ResyncStage
    ensures { result ≡ learnt_held commit reply.now }
{
    if !commit {
        return ResyncStage::Closing { kept: Some(false) };
    }
    match reply {
        Reply::Mark(there) => held_mark(*there),
        _ => ResyncStage::Closing { kept: None },
    }
}

// With the mark, the commit is confirmed once more: it may be pending still.
fn held_mark(there: bool) -> ResyncStage
    ensures { result ≡ held_mark there }
{
    if there {
        ResyncStage::Confirming
    } else {
        ResyncStage::Closing { kept: Some(false) }
    }
}

// A refused confirm tells nothing: it was confirmed before, or a timer has undone it since the mark was seen.
fn learnt_confirming(reply: &Reply) -> ResyncStage
    ensures { result ≡ learnt_confirming reply.now }
{
    match reply {
        Reply::Done => ResyncStage::Closing { kept: Some(true) },
        _ => ResyncStage::Checking,
    }
}

fn learnt_checking(reply: &Reply) -> ResyncStage
    ensures { result ≡ learnt_checking reply.now }
{
    match reply {
        Reply::Mark(there) => ResyncStage::Closing { kept: Some(*there) },
        _ => ResyncStage::Closing { kept: None },
    }
}

fn learnt_closing(kept: Option<bool>) -> ResyncStage
    ensures { result ≡ learnt_closing kept }
{
    match kept {
        None => ResyncStage::Opening,
        Some(kept) => ResyncStage::Done { kept },
    }
}
