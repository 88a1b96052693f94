//! The open sessions of a device, each with its user.

ghost use Rattle.std.specs.Prelude.{◌≡◌, ◌≢◌, ◌↔◌, false, ℕ, List, Some, None, Err, length, option_copied, IfOk, OnOk, OnErr, IfSome, IfNone, if◌then◌else◌};
ghost use Rattle.slab.specs.Slab.{get};
ghost use Rattle.nm_sessions.specs.Sessions.{id_after};

use crate::fault::EnterFault;
use nm_base::{Label, SessionId};
use slab::Slab;
use std::alloc::Global;
use std::marker::Model;

/// How many sessions may be open on a device at once. It bounds what one device keeps.
pub const SESSION_LIMIT: usize = 64;

/// An open session.
#[derive(Drop)]
struct OpenSession {
    session: SessionId,
    user: Label,
}

impl Model for OpenSession {
    ghost use Rattle.std.specs.Prelude.{ℕ, List};

    ghost Value = { ℕ × List ℕ };

    ghost view = { λ stored. (stored.session, stored.user) };
}

/// The open sessions of a device, each with its user. Ids are 1, 2, 3 and so on, and no id is used again
/// (RFC 6241 section 8.1). Only `enter` takes memory.
#[derive(Drop)]
pub struct Sessions {
    // Under keys that are used again: they aren't the ids.
    table: Slab<OpenSession>,
    // The last id given, 0 before the first.
    last: u32,
}

impl Model for Sessions {
    ghost use Rattle.nm_sessions.specs.Sessions.{SessionsState};
    ghost use Rattle.nm_sessions.specs.Table.{users_in, IsSound};

    ghost Value = { SessionsState };

    ghost view = { λ sessions. record { users = users_in sessions.table.slots; last = sessions.last } };

    ghost invariant = { λ sessions. IsSound sessions.table.slots sessions.last };
}

impl Sessions {
    ghost use Rattle.nm_sessions.specs.Sessions.{no_sessions, user_of, is_open, next_id, entered, left, cleared, IsTable};

    /// No sessions. It takes no memory.
    pub fn new(alloc: Global) -> Sessions
        ensures { result ≡ no_sessions }
    {
        Sessions {
            table: Slab::new(alloc),
            last: 0,
        }
    }

    /// Opens a session of a user, with the id one above the last (RFC 6241 section 8.1).
    ///
    /// Answers Full exactly where 64 sessions are open or the id 4294967295 was given.
    pub fn enter(&mut self, user: Label) -> Result<SessionId, EnterFault>
        ensures full { (result ≡ Err EnterFault.Full) ↔ (next_id self.old ≡ None) }
        ensures id { IfOk result (λ session. next_id self.old ≡ Some session) }
        ensures fresh { IfOk result (λ session. user_of self.old session ≡ None) }
        ensures after { OnOk result (self.new ≡ entered self.old user) }
        ensures unchanged { OnErr result (self.new ≡ self.old) }
    {
        let Some(session) = id_after(self.table.len(), self.last) else {
            return Err(EnterFault::Full);
        };
        self.table.reserve(1)?;
        self.table.insert_reserved(OpenSession { session, user });
        self.last = session.get();
        Ok(session)
    }

    /// Ends a session (RFC 6241 sections 7.8 and 7.9).
    ///
    /// Answers false exactly where the session isn't open.
    pub fn leave(&mut self, session: SessionId) -> bool
        ensures answer { result ≡ is_open self.old session }
        ensures after { self.new ≡ left self.old session }
        ensures unchanged { result ≡ false → self.new ≡ self.old }
    {
        match key_of(&self.table, session) {
            Some(key) => {
                self.table.remove(key);
                true
            }
            None => false,
        }
    }

    /// The user of a session, and None exactly where the session isn't open.
    pub fn user_of(&self, session: SessionId) -> Option<&Label>
        ensures { option_copied result ≡ user_of self.now session }
    {
        match key_of(&self.table, session) {
            Some(key) => match self.table.get(key) {
                Some(stored) => Some(&stored.user),
                None => None,
            },
            None => None,
        }
    }

    /// Whether the session is open.
    pub fn is_open(&self, session: SessionId) -> bool
        ensures { result ≡ is_open self.now session }
    {
        key_of(&self.table, session).is_some()
    }

    /// The session of a number, and None exactly where no session of that number is open.
    pub fn numbered(&self, number: u32) -> Option<SessionId>
        ensures { result ≡ (if is_open self.now number then Some number else None) }
    {
        if self.count() == 0 {
            return None;
        }
        let Some(session) = SessionId::new(number) else {
            return None;
        };
        if self.is_open(session) {
            Some(session)
        } else {
            None
        }
    }

    /// How many sessions are open.
    pub fn count(&self) -> usize
        ensures value { result ≡ length self.now.users }
        ensures table { IsTable self.now }
    {
        self.table.len()
    }

    /// Ends all sessions, as a restart does. The last id given stays (this project's own).
    pub fn clear(&mut self)
        ensures { self.new ≡ cleared self.old }
    {
        self.table.clear();
    }
}

// The id of the next session.
fn id_after(count: usize, last: u32) -> Option<SessionId>
    ensures { result ≡ id_after count last }
{
    if count >= SESSION_LIMIT {
        return None;
    }
    last.checked_add(1).and_then(SessionId::new)
}

// The key of a session in the slab.
fn key_of(table: &Slab<OpenSession>, session: SessionId) -> Option<usize>
    ensures found { IfSome result (λ key. (user : List ℕ) × (get table.now key ≡ Some (session, user))) }
    ensures absent { IfNone result ((key : ℕ) (user : List ℕ) → get table.now key ≢ Some (session, user)) }
{
    for (key, stored) in table.iter() {
        if stored.session.get() == session.get() {
            return Some(key);
        }
    }
    None
}
