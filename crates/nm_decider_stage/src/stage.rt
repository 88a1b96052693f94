//! Where the course of one device stands: what is asked of it next, and what is learnt of its replies.

ghost use Rattle.std.specs.Prelude.{◌≡◌, ◌<◌, ◌≤◌, ℕ};
ghost use Rattle.nm_decider_stage.specs.Stages.{first_ask, verdict_ask, live_ask, failed_ask, mark_ask, once_decided, next_ask, fits, is_first, unopened, refused, learnt_first, learnt_confirm, learnt_other, learnt_live, learnt_failed, mark_told, learnt_mark, learnt_leaving, learnt, tag_in, is_error, trouble_in, is_acknowledged, is_settled, has_kept, aborted_stage, broken_stage};

use nm_base::{DeviceNo, Tag};
use nm_proto::{AbortCause, Ask, Reply, Verdict};

/// Where the course of a device stands.
#[derive(Clone, Copy, PartialEq, Eq)]
pub enum Stage {
    /// So many of the six requests that bring the change set are done, the session first.
    Live { done: u8 },
    /// Its session was refused, so there is no link.
    Refused,
    /// Another request was refused.
    Failed,
    /// Its confirm was refused, so its mark tells what became of the commit.
    NeedMark,
    /// What became of it is found out anew, over a new link.
    Resync,
    /// Whether it keeps the change set is known, and its session is to be closed.
    Leaving { kept: bool },
    /// Whether it keeps the change set is known, and nothing more is asked.
    Settled { kept: bool },
}

/// How many requests bring a change set to a device.
pub const ALL_DONE: u8 = 6;

impl Stage {
    /// What is asked of the device next, and None where nothing is.
    pub fn next_ask(&self, verdict: &Option<Verdict>) -> Option<Ask>
        ensures { result ≡ next_ask verdict.now self.now }
    {
        match self {
            Stage::Live { done } => live_ask(verdict, *done),
            Stage::Failed => failed_ask(verdict),
            Stage::NeedMark => mark_ask(verdict),
            Stage::Resync => once_decided(Ask::Resync, verdict),
            Stage::Leaving { .. } => once_decided(Ask::CloseSession, verdict),
            Stage::Refused | Stage::Settled { .. } => None,
        }
    }

    /// The stage after a reply to what was asked.
    pub fn learnt(&self, verdict: &Option<Verdict>, ask: Ask, reply: &Reply) -> Stage
        ensures { result ≡ learnt verdict.now self.now ask reply.now }
    {
        match self {
            Stage::Live { done } => learnt_live(verdict, *done, ask, reply),
            Stage::Refused => Stage::Refused,
            Stage::Failed => learnt_failed(verdict, ask),
            Stage::NeedMark => learnt_mark(verdict, ask, reply),
            Stage::Resync => Stage::Resync,
            Stage::Leaving { kept } => learnt_leaving(verdict, *kept, ask),
            Stage::Settled { kept } => Stage::Settled { kept: *kept },
        }
    }

    /// Whether the device has acknowledged: all that brings the change set is done.
    pub fn is_acknowledged(&self) -> bool
        ensures { result ≡ is_acknowledged self.now }
    {
        match self {
            Stage::Live { done } => *done == ALL_DONE,
            _ => false,
        }
    }

    /// Whether nothing more is asked of the device.
    pub fn is_settled(&self) -> bool
        ensures { result ≡ is_settled self.now }
    {
        matches!(self, Stage::Settled { .. })
    }

    /// Whether the device is settled and has kept the change set.
    pub fn has_kept(&self) -> bool
        ensures { result ≡ has_kept self.now }
    {
        match self {
            Stage::Settled { kept } => *kept,
            _ => false,
        }
    }

    /// The stage once an abort is decided, by whether a reply is awaited.
    pub fn aborted(&self, awaits: bool) -> Stage
        ensures { result ≡ aborted_stage awaits self.now }
    {
        match self {
            Stage::Live { done } if !awaits && *done == 0 => Stage::Settled { kept: false },
            Stage::Refused => Stage::Settled { kept: false },
            other => *other,
        }
    }

    /// The stage once the link broke.
    pub fn broken(&self) -> Stage
        ensures { result ≡ broken_stage self.now }
    {
        match self {
            Stage::Settled { kept } => Stage::Settled { kept: *kept },
            _ => Stage::Resync,
        }
    }
}

// What is asked where so many of the first requests are done.
fn first_ask(done: u8) -> Option<Ask>
    ensures { result ≡ first_ask done }
{
    match done {
        0 => Some(Ask::OpenSession),
        1 => Some(Ask::LockRunning),
        2 => Some(Ask::LockCandidate),
        3 => Some(Ask::Edit),
        4 => Some(Ask::Validate),
        5 => Some(Ask::CommitConfirmed),
        _ => None,
    }
}

fn live_ask(verdict: &Option<Verdict>, done: u8) -> Option<Ask>
    ensures { result ≡ live_ask verdict.now done }
{
    match verdict {
        None => first_ask(done),
        Some(_) if done == 0 => None,
        Some(Verdict::Commit) => Some(Ask::Confirm),
        Some(Verdict::Abort(_)) => Some(Ask::Cancel),
    }
}

fn failed_ask(verdict: &Option<Verdict>) -> Option<Ask>
    ensures { result ≡ failed_ask verdict.now }
{
    match verdict {
        Some(Verdict::Abort(_)) => Some(Ask::Cancel),
        _ => None,
    }
}

fn mark_ask(verdict: &Option<Verdict>) -> Option<Ask>
    ensures { result ≡ mark_ask verdict.now }
{
    match verdict {
        Some(Verdict::Commit) => Some(Ask::HasMark),
        _ => None,
    }
}

fn once_decided(ask: Ask, verdict: &Option<Verdict>) -> Option<Ask>
    ensures { result ≡ once_decided ask verdict.now }
{
    match verdict {
        Some(_) => Some(ask),
        None => None,
    }
}

// Whether the reply fits what was asked.
fn fits(ask: Ask, reply: &Reply) -> bool
    ensures { result ≡ fits ask reply.now }
{
    match ask {
        Ask::OpenSession => matches!(reply, Reply::Opened(_)),
        Ask::HasMark => matches!(reply, Reply::Mark(_)),
        _ => matches!(reply, Reply::Done),
    }
}

// Whether this was asked as the next of the first requests.
fn is_first(first: Option<Ask>, ask: Ask) -> bool
    ensures { result ≡ is_first first ask }
{
    match (first, ask) {
        (Some(Ask::OpenSession), Ask::OpenSession) => true,
        (Some(Ask::LockRunning), Ask::LockRunning) => true,
        (Some(Ask::LockCandidate), Ask::LockCandidate) => true,
        (Some(Ask::Edit), Ask::Edit) => true,
        (Some(Ask::Validate), Ask::Validate) => true,
        (Some(Ask::CommitConfirmed), Ask::CommitConfirmed) => true,
        _ => false,
    }
}

fn refused(verdict: &Option<Verdict>, ask: Ask) -> Stage
    ensures { result ≡ refused verdict.now ask }
{
    match ask {
        Ask::OpenSession => match verdict {
            None => Stage::Refused,
            Some(_) => Stage::Settled { kept: false },
        },
        _ => Stage::Failed,
    }
}

fn learnt_live(verdict: &Option<Verdict>, done: u8, ask: Ask, reply: &Reply) -> Stage
    ensures { result ≡ learnt_live verdict.now done ask reply.now }
{
    if is_first(first_ask(done), ask) {
        if fits(ask, reply) {
            Stage::Live { done: done + 1 }
        } else {
            refused(verdict, ask)
        }
    } else {
        learnt_other(verdict, done, ask, reply)
    }
}

fn learnt_other(verdict: &Option<Verdict>, done: u8, ask: Ask, reply: &Reply) -> Stage
    ensures { result ≡ learnt_other verdict.now done ask reply.now }
{
    match verdict {
        Some(Verdict::Commit) => match ask {
            Ask::Confirm => learnt_confirm(reply),
            _ => Stage::Live { done },
        },
        Some(Verdict::Abort(_)) => match ask {
            Ask::Cancel => Stage::Leaving { kept: false },
            _ => Stage::Live { done },
        },
        None => Stage::Live { done },
    }
}

// A confirm that is refused tells nothing of the commit: a timer may have undone it, or an earlier confirm may have been done.
fn learnt_confirm(reply: &Reply) -> Stage
    ensures { result ≡ learnt_confirm reply.now }
{
    match reply {
        Reply::Done => Stage::Leaving { kept: true },
        _ => Stage::NeedMark,
    }
}

fn learnt_failed(verdict: &Option<Verdict>, ask: Ask) -> Stage
    ensures { result ≡ learnt_failed verdict.now ask }
{
    match verdict {
        Some(Verdict::Abort(_)) => match ask {
            Ask::Cancel => Stage::Leaving { kept: false },
            _ => Stage::Failed,
        },
        _ => Stage::Failed,
    }
}

fn learnt_mark(verdict: &Option<Verdict>, ask: Ask, reply: &Reply) -> Stage
    ensures { result ≡ learnt_mark verdict.now ask reply.now }
{
    match verdict {
        Some(Verdict::Commit) => match ask {
            Ask::HasMark => mark_told(reply),
            _ => Stage::NeedMark,
        },
        _ => Stage::NeedMark,
    }
}

fn mark_told(reply: &Reply) -> Stage
    ensures { result ≡ mark_told reply.now }
{
    match reply {
        Reply::Mark(there) => Stage::Leaving { kept: *there },
        _ => Stage::NeedMark,
    }
}

fn learnt_leaving(verdict: &Option<Verdict>, kept: bool, ask: Ask) -> Stage
    ensures { result ≡ learnt_leaving verdict.now kept ask }
{
    match verdict {
        Some(_) => match ask {
            Ask::CloseSession => Stage::Settled { kept },
            _ => Stage::Leaving { kept },
        },
        None => Stage::Leaving { kept },
    }
}

// The tag of a refusal.
fn tag_in(reply: &Reply) -> Tag
    ensures { result ≡ tag_in reply.now }
{
    match reply {
        Reply::Error { tag, .. } => *tag,
        _ => Tag::OperationFailed,
    }
}

fn is_error(reply: &Reply) -> bool
    ensures { result ≡ is_error reply.now }
{
    matches!(reply, Reply::Error { .. })
}

/// Why the change set is to be aborted, by a device's reply to what was asked of it.
pub fn trouble_in(device: DeviceNo, ask: Ask, reply: &Reply) -> Option<AbortCause>
    ensures { result ≡ trouble_in device ask reply.now }
{
    match ask {
        Ask::Renew if is_error(reply) => Some(AbortCause::Lapsed { device }),
        Ask::OpenSession
        | Ask::LockRunning
        | Ask::LockCandidate
        | Ask::Edit
        | Ask::Validate
        | Ask::CommitConfirmed
            if !fits(ask, reply) => {
            Some(AbortCause::Refused {
                device,
                tag: tag_in(reply),
            })
        }
        _ => None,
    }
}
