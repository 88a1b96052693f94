//! The partial locks that stand on a device, in the order of their ids.

ghost use Rattle.std.specs.Prelude.{◌≡◌, ◌↔◌, ℕ, false, length, map, find, Some, None, Err, option_copied, OnOk, OnErr};
ghost use Rattle.std.specs.Option.{option_map};
ghost use Rattle.nm_partial.specs.Partial.{id_after, denies, without_absent};

use crate::fault::GrantFault;
use crate::lock::GrantedLock;
use nm_base::SessionId;
use nm_proto::Content;
use std::alloc::Global;
use std::marker::Model;

/// How many partial locks may stand on a device at once. It bounds what one device keeps.
pub const LOCK_LIMIT: usize = 64;

/// The partial locks of a device (RFC 5717 section 2.4). Ids are 1, 2, 3 and so on, and no id is used
/// again. Only `grant` takes memory.
pub struct PartialLocks<C: Content> {
    // In ascending order of their ids.
    locks: Vec<GrantedLock<C>>,
    // The last id given, 0 before the first.
    last: u32,
}

impl<C: Content> Drop for PartialLocks<C> {
    fn drop(self) {
        let PartialLocks { locks, last: _ } = self;
        drop(locks);
    }
}

impl<C: Content> Model for PartialLocks<C> {
    ghost use Rattle.nm_partial.specs.Partial.{PartialState, IsNumbered};

    ghost Value = { PartialState C.Node };

    ghost view = { λ partials. record { locks = partials.locks.items; last = partials.last } };

    ghost invariant = { λ partials. IsNumbered (record { locks = partials.locks.items; last = partials.last }) };
}

impl<C: Content> PartialLocks<C> {
    ghost use Rattle.nm_partial.specs.declared.fault.GrantFault.TheVariants as grant;
    ghost use Rattle.nm_partial.specs.Partial.{no_partials, next_id, granted, holds, released, without_session, cleared, least_owner, overlap_with, guards, forgotten, Grants, IsNumbered};

    /// No partial locks. It takes no memory.
    pub fn new(alloc: Global) -> PartialLocks<C>
        ensures { result ≡ no_partials }
    {
        PartialLocks {
            locks: Vec::new(alloc),
            last: 0,
        }
    }

    /// Grants a session a partial lock over nodes, and answers its id, one above the last
    /// (RFC 5717 section 2.4.1).
    ///
    /// Answers Overlap exactly where a node overlaps one that another session has locked, with the session
    /// of the least such lock-id, and else Full exactly where 64 partial locks stand or the id 4294967295
    /// was given.
    pub fn grant(
        &mut self,
        content: &C,
        session: SessionId,
        nodes: Vec<C::Node>,
    ) -> Result<u32, GrantFault>
        ensures overlap { (owner : ℕ) →
            (result ≡ Err (grant.Overlap owner)) ↔ (overlap_with (C.meaning content.now) self.old session nodes.items ≡ Some owner) }
        ensures full { (result ≡ Err grant.Full) ↔ ((overlap_with (C.meaning content.now) self.old session nodes.items ≡ None) × (next_id self.old ≡ None)) }
        ensures answer { Grants result (overlap_with (C.meaning content.now) self.old session nodes.items) (next_id self.old) }
        ensures after { OnOk result (self.new ≡ granted self.old session nodes.items) }
        ensures unchanged { OnErr result (self.new ≡ self.old) }
    {
        if let Some(owner) = self.overlap_with(content, session, nodes.as_slice()) {
            return Err(GrantFault::Overlap { owner });
        }
        let Some(id) = id_after(self.locks.len(), self.last) else {
            return Err(GrantFault::Full);
        };
        self.locks.push(GrantedLock { id, session, nodes })?;
        self.last = id;
        Ok(id)
    }

    /// Gives a partial lock back (RFC 5717 section 2.4.2).
    ///
    /// Answers false exactly where the session doesn't hold a lock of this id.
    pub fn release(&mut self, session: SessionId, id: u32) -> bool
        ensures answer { result ≡ holds self.old session id }
        ensures after { self.new ≡ released self.old session id }
        ensures unchanged { result ≡ false → self.new ≡ self.old }
    {
        if !self.holds(session, id) {
            return false;
        }
        self.locks.retain(|lock| !lock.is_held_as(session, id));
        true
    }

    /// Gives back all partial locks of a session that ends (RFC 5717 section 2.1).
    pub fn drop_session(&mut self, session: SessionId)
        ensures { self.new ≡ without_session self.old session }
    {
        self.locks.retain(|lock| !lock.is_of(session));
    }

    /// Whether another session's partial lock keeps this one from turning one configuration into the
    /// other: they differ at or below a node of it (RFC 5717 section 2.5).
    pub fn guards(&self, content: &C, session: SessionId, old: &C::Config, new: &C::Config) -> bool
        ensures { result ≡ guards (C.meaning content.now) self.now session old.now new.now }
    {
        self.locks
            .iter()
            .any(|lock| lock.forbids(content, session, old, new))
    }

    /// Drops the locked nodes that don't exist in the running configuration. The locks stay until they are
    /// given back (this project's own).
    pub fn forget_absent(&mut self, content: &C, running: &C::Config)
        ensures { self.new ≡ forgotten (C.meaning content.now) running.now self.old }
    {
        forget_absent(&mut self.locks, content, running);
    }

    /// The session that holds the partial lock of the least id, and None exactly where none stands.
    pub fn least_owner(&self) -> Option<SessionId>
        ensures { result ≡ least_owner self.now }
    {
        match self.locks.first() {
            Some(lock) => Some(lock.session),
            None => None,
        }
    }

    /// Gives back all partial locks, as a restart does. The last id given stays (this project's own).
    pub fn clear(&mut self)
        ensures { self.new ≡ cleared self.old }
    {
        self.locks.clear();
    }

    /// How many partial locks stand.
    pub fn count(&self) -> usize
        ensures value { result ≡ length self.now.locks }
        ensures numbered { IsNumbered self.now }
    {
        self.locks.len()
    }

    fn holds(&self, session: SessionId, id: u32) -> bool
        ensures { result ≡ holds self.now session id }
    {
        self.locks.iter().any(|lock| lock.is_held_as(session, id))
    }

    fn overlap_with(&self, content: &C, session: SessionId, nodes: &[C::Node]) -> Option<SessionId>
        ensures { result ≡ overlap_with (C.meaning content.now) self.now session nodes.now }
    {
        match first_denying(self.locks.as_slice(), content, session, nodes) {
            Some(lock) => Some(lock.session),
            None => None,
        }
    }
}

// The id of the next partial lock.
fn id_after(count: usize, last: u32) -> Option<u32>
    ensures { result ≡ id_after count last }
{
    if count >= LOCK_LIMIT {
        return None;
    }
    last.checked_add(1)
}

// The first lock that keeps the session from locking the nodes.
fn first_denying<'a, C: Content>(
    locks: &'a [GrantedLock<C>],
    content: &C,
    session: SessionId,
    nodes: &[C::Node],
) -> Option<&'a GrantedLock<C>>
    ensures { option_copied result ≡ find (denies (C.meaning content.now) session nodes.now) locks.now }
{
    locks
        .iter()
        .find(|lock| lock.denies(content, session, nodes))
}

// Drops the nodes that the configuration lacks from each lock.
fn forget_absent<C: Content>(locks: &mut Vec<GrantedLock<C>>, content: &C, running: &C::Config)
    ensures { locks.new.items ≡ map (without_absent (C.meaning content.now) running.now) locks.old.items }
{
    for lock in locks.iter_mut() {
        lock.forget_absent(content, running);
    }
}
