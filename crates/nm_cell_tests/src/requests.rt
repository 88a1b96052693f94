//! What is asked of devices, by the words of scripts.

use nm_base::{EditNo, Label};
use nm_proto::{DefaultOperation, Request, Store};
use std::alloc::Global;
use std::process::Abort;

// The label of a text, and None for an empty one.
pub(crate) fn label(rt: &impl Abort, alloc: Global, text: &str) -> Option<Label> {
    if text.is_empty() {
        return None;
    }
    Some(Label::new(alloc, text).expect(rt, "memory"))
}

// A commit that begins one under a token, goes on with the one that waits under another, or confirms it where it begins
// none.
pub(crate) fn commit(rt: &impl Abort, alloc: Global, token: &str, waiting: &str) -> Request {
    let confirmed = !token.is_empty();
    Request::Commit {
        confirmed,
        timeout: if confirmed { Some(600) } else { None },
        persist: label(rt, alloc, token),
        persist_id: label(rt, alloc, waiting),
    }
}

// The request of a word: what opens a session of a user, and what a coordinator asks on it.
pub(crate) fn request_of(rt: &impl Abort, alloc: Global, word: &str) -> Option<Request> {
    match word {
        "alice" | "netm" => Some(Request::OpenSession {
            user: Label::new(alloc, word).expect(rt, "memory"),
        }),
        "lock" => Some(Request::Lock {
            store: Store::Running,
        }),
        "candidate" => Some(Request::Lock {
            store: Store::Candidate,
        }),
        "merge" => Some(Request::Edit {
            edit: EditNo(0),
            default_operation: DefaultOperation::Merge,
            marks: None,
        }),
        "validate" => Some(Request::Validate),
        "commit" => Some(commit(rt, alloc, "netm:1", "")),
        "discard" => Some(Request::Discard),
        _ => None,
    }
}
