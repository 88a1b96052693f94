//! What may be shared with a thread, sent to it and sent back.

use nm_base::{Label, SessionId};
use nm_flat::{FlatConfig, FlatEdit, FlatNode, NumberMap};
use nm_sessions::Sessions;
use std::alloc::Global;
use std::process::Abort;
use std::thread;

// A configuration, an edit, a node, and sessions with one that is open.
#[derive(Drop)]
struct Parts {
    config: FlatConfig,
    edit: FlatEdit,
    node: FlatNode,
    sessions: Sessions,
    open: SessionId,
}

fn config_of(rt: &impl Abort, alloc: Global) -> FlatConfig {
    let mut cells = NumberMap::new(alloc);
    cells.insert(7, 1u64).expect(rt, "memory");
    FlatConfig::new(alloc, cells)
}

fn edit_of(rt: &impl Abort, alloc: Global) -> FlatEdit {
    let mut changes = NumberMap::new(alloc);
    changes.insert(7, Some(2u64)).expect(rt, "memory");
    FlatEdit { changes }
}

fn parts_of(rt: &impl Abort, alloc: Global) -> Parts {
    let user = Label::new(alloc, "alice").expect(rt, "memory");
    let mut sessions = Sessions::new(alloc);
    let open = sessions.enter(user).expect(rt, "a session");
    Parts {
        config: config_of(rt, alloc),
        edit: edit_of(rt, alloc),
        node: FlatNode(7),
        sessions,
        open,
    }
}

// Whether the node is one of the configuration and of the edit, and the session is open.
fn is_whole(parts: &Parts) -> bool {
    let key = parts.node.0;
    parts.config.cells().contains(key)
        && parts.edit.changes.contains(key)
        && parts.sessions.is_open(parts.open)
}

#[test]
fn parts_cross_threads(rt: HostRuntime) {
    let parts = parts_of(&rt, rt.alloc());
    let (there, here) = thread::join(&rt, || is_whole(&parts), || is_whole(&parts));
    let (parts, ()) = thread::join(&rt, move || parts, || ());
    assert!(rt; there && here && is_whole(&parts));
}
