//! Contents of YANG data across threads.

use crate::content::{SIZED, SYSTEM, config_of, content_of, edit_of, holds};
use nm_base::Label;
use nm_content::{YangContent, YangNode, names_marks};
use nm_edit::Edit;
use nm_overlay::Overlay;
use nm_proto::Content;
use std::alloc::Global;
use std::test::Fail;
use std::thread::{self, Threads};

// What crosses threads.
#[derive(Drop)]
struct Parts {
    config: Overlay,
    edit: Edit,
    node: YangNode,
}

fn with_config(
    content: &YangContent,
    alloc: Global,
    edit: Edit,
    node: YangNode,
) -> Result<Parts, Fail> {
    let config = config_of(content, alloc, SYSTEM)?;
    Ok(Parts { config, edit, node })
}

fn with_edit(content: &YangContent, alloc: Global, node: YangNode) -> Result<Parts, Fail> {
    let edit = edit_of(content, alloc, SIZED)?;
    with_config(content, alloc, edit, node)
}

fn node_of(content: &YangContent, alloc: Global) -> Result<YangNode, Fail> {
    let label = Label::new(alloc, "/ex:sys")?;
    Ok(content.find(&label)?)
}

fn parts_of(content: &YangContent, alloc: Global) -> Result<Parts, Fail> {
    with_edit(content, alloc, node_of(content, alloc)?)
}

// Whether two threads see the same of them.
fn is_shared(rt: &impl Threads, content: &YangContent, parts: &Parts) -> bool {
    let (there, here) = thread::join(
        rt,
        || content.exists(&parts.config, &parts.node) && !names_marks(&parts.edit),
        || content.exists(&parts.config, &parts.node),
    );
    there && here
}

fn is_whole(content: &YangContent, parts: &Parts) -> bool {
    content.exists(&parts.config, &parts.node) && parts.edit.nodes.len() == 3
}

// Whether they come back from a thread.
fn is_sent(rt: &impl Threads, content: &YangContent, parts: Parts) -> bool {
    let (parts, ()) = thread::join(rt, move || parts, || ());
    is_whole(content, &parts)
}

fn crosses(rt: &impl Threads, content: &YangContent, parts: Parts) -> bool {
    let shared = is_shared(rt, content, &parts);
    let sent = is_sent(rt, content, parts);
    shared && sent
}

fn cross(rt: &impl Threads, content: &YangContent, alloc: Global) -> Result<(), Fail> {
    let parts = parts_of(content, alloc)?;
    holds(crosses(rt, content, parts), "a thread")
}

// A configuration, an edit and a node can be shared with a thread, sent to it and sent back.
#[test]
fn contents_cross_threads(rt: HostRuntime) -> Result<(), Fail> {
    cross(&rt, &content_of(rt.alloc())?, rt.alloc())
}
