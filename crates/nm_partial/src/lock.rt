//! One partial lock, and what it keeps other sessions from.

ghost use Rattle.std.specs.Prelude.{◌≡◌};

use nm_base::SessionId;
use nm_proto::Content;
use std::marker::Model;

/// A partial lock that was granted.
pub(crate) struct GrantedLock<C: Content> {
    pub(crate) id: u32,
    pub(crate) session: SessionId,
    pub(crate) nodes: Vec<C::Node>,
}

impl<C: Content> Drop for GrantedLock<C> {
    fn drop(self) {
        let GrantedLock {
            id: _,
            session: _,
            nodes,
        } = self;
        drop(nodes);
    }
}

impl<C: Content> Model for GrantedLock<C> {
    ghost use Rattle.nm_partial.specs.Partial.{PartialLock};

    ghost Value = { PartialLock C.Node };

    ghost view = { λ lock. record { id = lock.id; session = lock.session; nodes = lock.nodes.items } };
}

impl<C: Content> GrantedLock<C> {
    ghost use Rattle.nm_partial.specs.Partial.{is_of, is_held_as, denies, forbids, without_absent};

    // Whether the session holds the lock.
    pub(crate) fn is_of(&self, session: SessionId) -> bool
        ensures { result ≡ is_of session self.now }
    {
        self.session.get() == session.get()
    }

    // Whether the session holds the lock, and its id is this one.
    pub(crate) fn is_held_as(&self, session: SessionId, id: u32) -> bool
        ensures { result ≡ is_held_as session id self.now }
    {
        self.is_of(session) && self.id == id
    }

    // Whether the lock keeps a session from locking the nodes.
    pub(crate) fn denies(&self, content: &C, session: SessionId, nodes: &[C::Node]) -> bool
        ensures { result ≡ denies (C.meaning content.now) session nodes.now self.now }
    {
        !self.is_of(session) && overlap_any(content, nodes, self.nodes.as_slice())
    }

    // Whether the lock keeps a session from turning one configuration into the other.
    pub(crate) fn forbids(
        &self,
        content: &C,
        session: SessionId,
        old: &C::Config,
        new: &C::Config,
    ) -> bool
        ensures { result ≡ forbids (C.meaning content.now) session old.now new.now self.now }
    {
        !self.is_of(session) && differ_at_any(content, old, new, self.nodes.as_slice())
    }

    // Drops the nodes that the configuration lacks.
    pub(crate) fn forget_absent(&mut self, content: &C, config: &C::Config)
        ensures { self.new ≡ without_absent (C.meaning content.now) config.now self.old }
    {
        self.nodes.retain(|node| content.exists(config, node));
    }
}

ghost use Rattle.std.specs.List.{list_any};
ghost use Rattle.nm_partial.specs.Partial.{overlaps_any, differs_at};

// Whether one of the nodes overlaps a locked one.
fn overlap_any<C: Content>(content: &C, nodes: &[C::Node], locked: &[C::Node]) -> bool
    ensures { result ≡ list_any (overlaps_any (C.meaning content.now) nodes.now) locked.now }
{
    locked
        .iter()
        .any(|locked| overlaps_any(content, nodes, locked))
}

fn overlaps_any<C: Content>(content: &C, nodes: &[C::Node], locked: &C::Node) -> bool
    ensures { result ≡ overlaps_any (C.meaning content.now) nodes.now locked.now }
{
    nodes.iter().any(|node| content.overlaps(locked, node))
}

// Whether the configurations differ at or below one of the locked nodes.
fn differ_at_any<C: Content>(
    content: &C,
    old: &C::Config,
    new: &C::Config,
    locked: &[C::Node],
) -> bool
    ensures { result ≡ list_any (differs_at (C.meaning content.now) old.now new.now) locked.now }
{
    locked.iter().any(|node| !content.same_at(old, new, node))
}
