//! What happens at device 2, of which a run has the phases alone.

use crate::begun::Rest;
use crate::requests::{commit, label};
use nm_base::{DeviceNo, SessionId, Tag};
use nm_history::{DeviceEvent, Noted};
use nm_proto::{Reply, Request};
use nm_run_plan::RunPlans;
use std::alloc::Global;
use std::process::Abort;
use std::slice;
use std::sync::Wait;

// What session 1 asks: change set 1's confirmed commit, which is refused in the second of these, done again, or
// somebody else's; a commit that isn't confirmed, or a cancel; or what ends a session.
fn request_of(rt: &impl Abort, alloc: Global, word: &str) -> Option<Request> {
    match word {
        "began" | "refused" => Some(commit(rt, alloc, "netm:1", "")),
        "renewed" => Some(commit(rt, alloc, "netm:1", "netm:1")),
        "another" => Some(commit(rt, alloc, "netm:01", "")),
        "confirmed" => Some(commit(rt, alloc, "", "netm:1")),
        "cancelled" => Some(Request::CancelCommit {
            persist_id: label(rt, alloc, "netm:1"),
        }),
        "killed" => Some(Request::Kill { session: 2 }),
        "closed" => Some(Request::CloseSession),
        _ => None,
    }
}

fn reply_of(word: &str) -> Reply {
    if word == "refused" {
        return Reply::Error {
            tag: Tag::ResourceDenied,
            session: None,
            path: None,
        };
    }
    Reply::Done
}

// What happens without a reply, and None where something is asked.
fn event_of(session: SessionId, word: &str) -> Option<DeviceEvent> {
    match word {
        "lost" => Some(DeviceEvent::Lost { session }),
        "expired" => Some(DeviceEvent::Advanced { seconds: 600 }),
        "waited" => Some(DeviceEvent::Advanced { seconds: 1 }),
        "restarted" => Some(DeviceEvent::Restarted),
        _ => None,
    }
}

// The entry of a history that a word stands for. The end of a session undoes what waits, and so does what happens
// without a reply, except that time passes.
fn entry_of(rt: &impl Abort, alloc: Global, word: &str) -> Option<Noted> {
    let session = SessionId::new(1).expect(rt, "1");
    if let Some(event) = event_of(session, word) {
        return Some(Noted {
            event,
            reply: None,
            undone: word != "waited",
        });
    }
    let request = request_of(rt, alloc, word)?;
    Some(Noted {
        event: DeviceEvent::Asked { session, request },
        reply: Some(reply_of(word)),
        undone: word == "killed" || word == "closed",
    })
}

// Whether a word is something that happens, which then does: the phases go on with it, and tell the board.
pub(crate) fn happens<N: RunPlans, R: Wait + Abort>(
    rt: &R,
    alloc: Global,
    rest: &mut Rest<N>,
    word: &str,
) -> bool {
    let Some(entry) = entry_of(rt, alloc, word) else {
        return false;
    };
    let device = DeviceNo::new(2).expect(rt, "2");
    let mut board = rest.chronicle.lock(rt);
    board.room().expect(rt, "memory");
    rest.phases
        .tell(&mut board, device, slice::from_ref(&entry));
    true
}
