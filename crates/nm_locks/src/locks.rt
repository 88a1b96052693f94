//! The two global locks of a device, each with its owner.

ghost use Rattle.std.specs.Prelude.{◌≡◌, Some, None, true, false, IfErr, OnOk, OnErr};

use nm_base::SessionId;
use nm_proto::Store;
use std::marker::Model;

/// Which sessions own the global locks of running and of candidate (RFC 6241 section 7.5). No call takes
/// memory.
#[derive(Drop)]
pub struct GlobalLocks {
    running: Option<SessionId>,
    candidate: Option<SessionId>,
}

impl Model for GlobalLocks {
    ghost use Rattle.nm_locks.specs.Locks.{LocksState};

    ghost Value = { LocksState };

    ghost view = { λ locks. record { running = locks.running; candidate = locks.candidate } };
}

impl GlobalLocks {
    ghost use Rattle.nm_locks.specs.Locks.{no_locks, owner_of, with_owner, taken, is_owner, is_other_owner, given_back, without_session};

    /// The locks of a device on which no session holds one.
    pub fn new() -> GlobalLocks
        ensures { result ≡ no_locks }
    {
        GlobalLocks {
            running: None,
            candidate: None,
        }
    }

    /// The session that owns the lock of a datastore.
    pub fn owner(&self, store: Store) -> Option<SessionId>
        ensures { result ≡ owner_of self.now store }
    {
        match store {
            Store::Running => self.running,
            Store::Candidate => self.candidate,
        }
    }

    /// Takes the lock of a datastore for a session (RFC 6241 section 7.5).
    ///
    /// Answers the session that holds it where anybody does, the asker included.
    pub fn take(&mut self, store: Store, session: SessionId) -> Result<(), SessionId>
        ensures free { OnOk result (owner_of self.old store ≡ None) }
        ensures held { IfErr result (λ holder. owner_of self.old store ≡ Some holder) }
        ensures after { self.new ≡ with_owner self.old store (taken (owner_of self.old store) session) }
        ensures unchanged { OnErr result (self.new ≡ self.old) }
    {
        if let Some(holder) = self.owner(store) {
            return Err(holder);
        }
        self.set_owner(store, Some(session));
        Ok(())
    }

    /// Gives the lock of a datastore back (RFC 6241 section 7.6).
    ///
    /// Answers false exactly where the session isn't the owner.
    pub fn give_back(&mut self, store: Store, session: SessionId) -> bool
        ensures answer { result ≡ is_owner (owner_of self.old store) session }
        ensures after { self.new ≡ with_owner self.old store (given_back (owner_of self.old store) session) }
        ensures unchanged { result ≡ false → self.new ≡ self.old }
    {
        if !self.is_owned_by(store, session) {
            return false;
        }
        self.set_owner(store, None);
        true
    }

    /// Whether the session owns the lock of a datastore.
    pub fn is_owned_by(&self, store: Store, session: SessionId) -> bool
        ensures { result ≡ is_owner (owner_of self.now store) session }
    {
        match self.owner(store) {
            Some(owner) => owner.get() == session.get(),
            None => false,
        }
    }

    /// Whether another session than this one owns the lock of a datastore.
    pub fn is_owned_by_other(&self, store: Store, session: SessionId) -> bool
        ensures { result ≡ is_other_owner (owner_of self.now store) session }
    {
        match self.owner(store) {
            Some(owner) => owner.get() != session.get(),
            None => false,
        }
    }

    /// Gives back both locks of a session that ends (RFC 6241 section 7.5).
    pub fn drop_session(&mut self, session: SessionId)
        ensures { self.new ≡ without_session self.old session }
    {
        self.give_back(Store::Running, session);
        self.give_back(Store::Candidate, session);
    }

    /// Gives back all locks, as a restart does (this project's own).
    pub fn clear(&mut self)
        ensures { self.new ≡ no_locks }
    {
        self.running = None;
        self.candidate = None;
    }

    fn set_owner(&mut self, store: Store, owner: Option<SessionId>)
        ensures { self.new ≡ with_owner self.old store owner }
    {
        match store {
            Store::Running => self.running = owner,
            Store::Candidate => self.candidate = owner,
        }
    }
}
