//! The requests that lock parts of running and give them back (RFC 5717 section 2.4).

ghost use Rattle.std.specs.Prelude.{◌≡◌, IfOk, true, filter, slice_get};
ghost use Rattle.std.specs.Option.{option_map};

use crate::device::{Device, refuse};
use crate::sessions::deny;
use nm_base::{Label, NoMemory, SelectNo, SessionId, Tag};
use nm_partial::GrantFault;
use nm_pending::is_stranger;
use nm_proto::{Content, FindFault, Reply, Store, Tables};
use std::alloc::Global;

impl<C: Content> Device<C> {
    ghost use Rattle.nm_locks.specs.Locks.{owner_of};
    ghost use Rattle.nm_partial.specs.Partial.{overlap_with, next_id};
    ghost use Rattle.nm_device.specs.Device.{Answers, Does};
    ghost use Rattle.nm_device.specs.Table.{is_error};
    ghost use Rattle.nm_device.specs.Part.{part_locked, nodes_locked, existing_locked, part_granted, part_unlocked};

    // Locks the nodes of a selection.
    pub(crate) fn lock_part(
        &mut self,
        content: &C,
        tables: &Tables<C>,
        session: SessionId,
        select: SelectNo,
    ) -> Result<Reply, NoMemory>
        ensures locked { Does result self.old self.new (part_locked (C.meaning content.now) self.old session (slice_get tables.now.selects select.0)) }
        ensures clock { self.new.clock ≡ self.old.clock }
        ensures error_changes_nothing { IfOk result (λ reply. is_error reply ≡ true → self.new ≡ self.old) }
    {
        let Some(texts) = tables.select(select) else {
            return Ok(refuse(Tag::OperationFailed));
        };
        match nodes_named(self.alloc, content, texts.as_slice())? {
            Some(nodes) => self.lock_nodes(content, session, nodes),
            None => Ok(refuse(Tag::InvalidValue)),
        }
    }

    // Locks those of the nodes that exist.
    fn lock_nodes(
        &mut self,
        content: &C,
        session: SessionId,
        mut nodes: Vec<C::Node>,
    ) -> Result<Reply, NoMemory>
        ensures locked { Does result self.old self.new (nodes_locked (C.meaning content.now) self.old session nodes.items
            (owner_of self.old.locks Store.Running)) }
        ensures clock { self.new.clock ≡ self.old.clock }
        ensures error_changes_nothing { IfOk result (λ reply. is_error reply ≡ true → self.new ≡ self.old) }
    {
        if let Some(holder) = self.locks.owner(Store::Running) {
            return Ok(deny(holder.get()));
        }
        if is_stranger(&self.pending, session) {
            return Ok(deny(0));
        }
        keep_existing(content, self.stores.running(), &mut nodes);
        self.lock_existing(content, session, nodes)
    }

    // Locks nodes that exist, where there are any.
    fn lock_existing(
        &mut self,
        content: &C,
        session: SessionId,
        nodes: Vec<C::Node>,
    ) -> Result<Reply, NoMemory>
        ensures locked { Does result self.old self.new (existing_locked (C.meaning content.now) self.old session nodes.items) }
        ensures clock { self.new.clock ≡ self.old.clock }
        ensures error_changes_nothing { IfOk result (λ reply. is_error reply ≡ true → self.new ≡ self.old) }
    {
        if nodes.is_empty() {
            return Ok(refuse(Tag::OperationFailed));
        }
        self.grant(content, session, nodes)
    }

    // Locks these nodes.
    fn grant(
        &mut self,
        content: &C,
        session: SessionId,
        nodes: Vec<C::Node>,
    ) -> Result<Reply, NoMemory>
        ensures granted { (let owner = overlap_with (C.meaning content.now) self.old.partials session nodes.items in
            Does result self.old self.new (part_granted self.old session nodes.items owner (next_id self.old.partials))) }
        ensures clock { self.new.clock ≡ self.old.clock }
        ensures error_changes_nothing { IfOk result (λ reply. is_error reply ≡ true → self.new ≡ self.old) }
    {
        match &self.partials.grant(content, session, nodes) {
            Ok(id) => Ok(Reply::LockId(*id)),
            Err(GrantFault::Overlap { owner }) => Ok(deny(owner.get())),
            Err(GrantFault::Full) => Ok(refuse(Tag::ResourceDenied)),
            Err(GrantFault::NoMemory) => Err(NoMemory),
        }
    }

    // Gives a partial lock back.
    pub(crate) fn unlock_part(&mut self, session: SessionId, id: u32) -> Reply
        ensures { Answers result self.new (part_unlocked self.old session id) }
    {
        if self.partials.release(session, id) {
            Reply::Done
        } else {
            refuse(Tag::InvalidValue)
        }
    }
}

ghost use Rattle.nm_device.specs.Part.{nodes_named};

// The nodes that texts name, None where one of them names none.
fn nodes_named<C: Content>(
    alloc: Global,
    content: &C,
    texts: &[Label],
) -> Result<Option<Vec<C::Node>>, NoMemory>
    ensures { IfOk result (λ named. option_map (λ nodes. nodes.items) named ≡ nodes_named (C.meaning content.now) texts.now) }
{
    let mut nodes = Vec::new(alloc);
    for text in texts {
        match content.find(text) {
            Ok(node) => nodes.push(node)?,
            Err(FindFault::BadPath) => return Ok(None),
            Err(FindFault::NoMemory) => return Err(NoMemory),
        }
    }
    Ok(Some(nodes))
}

// Drops the nodes that a configuration lacks.
fn keep_existing<C: Content>(content: &C, config: &C::Config, nodes: &mut Vec<C::Node>)
    ensures { nodes.new.items ≡ filter ((C.meaning content.now).exists config.now) nodes.old.items }
{
    nodes.retain(|node| content.exists(config, node));
}
