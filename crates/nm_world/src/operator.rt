//! What an operator has: at each device the session that it was given last.

ghost use Rattle.std.specs.Prelude.{◌≡◌, IfOk, replicate, None};

use nm_base::{NoMemory, SessionId};
use nm_history::Recorded;
use nm_proto::{Content, Reply};
use std::alloc::Global;
use std::marker::Model;

/// An operator beside the manager: the session that it was last given on each device.
#[derive(Drop)]
pub struct Operator {
    // That on device d stands at place d - 1.
    sessions: Vec<Option<SessionId>>,
}

impl Model for Operator {
    ghost use Rattle.std.specs.Prelude.{List, Option, ℕ};

    ghost Value = { List (Option ℕ) };

    ghost view = { λ operator. operator.sessions.items };
}

impl Operator {
    ghost use Rattle.nm_world.specs.World.{given_on, has_on, with_opened};

    /// An operator that has no session on so many devices.
    pub fn new(alloc: Global, devices: usize) -> Result<Operator, NoMemory>
        ensures { IfOk result (λ operator. operator ≡ replicate devices None) }
    {
        let mut sessions = Vec::new(alloc);
        sessions.resize(devices, None)?;
        Ok(Operator { sessions })
    }

    // The session that it was last given on the device at a place.
    fn given(&self, place: usize) -> Option<SessionId>
        ensures { result ≡ given_on self.now place }
    {
        match self.sessions.as_slice().get(place) {
            Some(session) => *session,
            None => None,
        }
    }

    /// The session that it has on the device at a place, from 0.
    pub fn session<C: Content>(&self, recorded: &Recorded<C>, place: usize) -> Option<SessionId>
        ensures { result ≡ has_on self.now recorded.now place }
    {
        match self.given(place) {
            Some(session) if recorded.device().has_session(session) => Some(session),
            _ => None,
        }
    }

    /// Keeps the session that a reply of the device at a place gives it.
    pub fn keep(&mut self, place: usize, reply: &Reply)
        ensures { self.new ≡ with_opened self.old place reply.now }
    {
        if let Reply::Opened(session) = reply {
            if place < self.sessions.len() {
                self.sessions[place] = Some(*session);
            }
        }
    }
}
