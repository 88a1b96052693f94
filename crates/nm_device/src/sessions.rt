//! Sessions of a device and their global locks (RFC 6241 section 7.5).

ghost use Rattle.std.specs.Prelude.{◌≡◌, Some, None};

use crate::device::{Device, refuse};
use nm_base::{SessionId, Tag};
use nm_pending::is_stranger;
use nm_proto::{Content, Reply, Store};

// Sessions and their locks. No call takes memory.
impl<C: Content> Device<C> {
    ghost use Rattle.nm_locks.specs.Locks.{owner_of};
    ghost use Rattle.nm_partial.specs.Partial.{least_owner};
    ghost use Rattle.nm_device.specs.Device.{Answers, is_held_by_other, with_stores, done};
    ghost use Rattle.nm_device.specs.Table.{locked, lock_running, lock_candidate, unlocked, stores_unlocked, with_lock, discard_by};

    // Takes a global lock.
    pub(crate) fn lock(&mut self, store: Store, session: SessionId) -> Reply
        ensures answered { Answers result self.new (locked self.old session store) }
        ensures clock { self.new.clock ≡ self.old.clock }
    {
        match store {
            Store::Running => self.lock_running(session),
            Store::Candidate => self.lock_candidate(session),
        }
    }

    fn lock_running(&mut self, session: SessionId) -> Reply
        ensures answered { Answers result self.new (lock_running self.old session (owner_of self.old.locks Store.Running) (least_owner self.old.partials)) }
        ensures clock { self.new.clock ≡ self.old.clock }
    {
        if let Some(holder) = self.locks.owner(Store::Running) {
            return deny(holder.get());
        }
        if let Some(owner) = self.partials.least_owner() {
            return deny(owner.get());
        }
        if is_stranger(&self.pending, session) {
            return deny(0);
        }
        self.take(Store::Running, session)
    }

    fn lock_candidate(&mut self, session: SessionId) -> Reply
        ensures answered { Answers result self.new (lock_candidate self.old session (owner_of self.old.locks Store.Candidate)) }
        ensures clock { self.new.clock ≡ self.old.clock }
    {
        if let Some(holder) = self.locks.owner(Store::Candidate) {
            return deny(holder.get());
        }
        if self.stores.modified() {
            return deny(0);
        }
        self.take(Store::Candidate, session)
    }

    // Takes a lock that is free.
    fn take(&mut self, store: Store, session: SessionId) -> Reply
        requires { owner_of self.old.locks store ≡ None }
        ensures answered { Answers result self.new (done (with_lock self.old store session)) }
        ensures clock { self.new.clock ≡ self.old.clock }
    {
        let _ = self.locks.take(store, session);
        Reply::Done
    }

    // Gives a global lock back.
    pub(crate) fn unlock(&mut self, store: Store, session: SessionId) -> Reply
        ensures { Answers result self.new (unlocked self.old session store) }
    {
        if !self.locks.give_back(store, session) {
            return refuse(Tag::OperationFailed);
        }
        self.drop_changes(store);
        Reply::Done
    }

    // With the lock of candidate go the changes.
    fn drop_changes(&mut self, store: Store)
        ensures { self.new ≡ with_stores self.old (stores_unlocked self.old.stores store) }
    {
        match store {
            Store::Running => {}
            Store::Candidate => self.stores.discard(),
        }
    }

    // Makes candidate equal to running again.
    pub(crate) fn discard(&mut self, session: SessionId) -> Reply
        ensures { Answers result self.new (discard_by self.old session) }
    {
        if self.is_held_by_other(Store::Candidate, session) {
            return refuse(Tag::InUse);
        }
        self.stores.discard();
        Reply::Done
    }

    // Whether another session than the asker holds a lock.
    pub(crate) fn is_held_by_other(&self, store: Store, session: SessionId) -> bool
        ensures { result ≡ is_held_by_other self.now store session }
    {
        self.locks.is_owned_by_other(store, session)
    }
}

// A lock that is denied, with its holder, 0 where that is no session.
pub(crate) fn deny(holder: u32) -> Reply
    ensures { result ≡ Reply.Error Tag.LockDenied (Some holder) None }
{
    Reply::Error {
        tag: Tag::LockDenied,
        session: Some(holder),
        path: None,
    }
}
