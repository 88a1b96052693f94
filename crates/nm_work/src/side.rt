//! What a worker keeps of one device.

ghost use Rattle.std.specs.Prelude.{◌≡◌, None};
ghost use Rattle.nm_resync.specs.Resync.{fresh_resync, settled_in};
ghost use Rattle.nm_manager.specs.Slot.{asked_in_fact, resync_goes_on};
ghost use Rattle.nm_work.specs.Work.{fresh_side, session_opened, session_closed, session_after, heard, anew, is_opening};

use nm_base::SessionId;
use nm_proto::{Ask, Reply};
use nm_resync::Resync;
use std::marker::Model;

/// The session that a change set is asked on at a device, and its resynchronisation.
#[derive(Drop)]
pub struct Side {
    session: Option<SessionId>,
    resync: Resync,
}

impl Model for Side {
    ghost use Rattle.nm_work.specs.Work.{SideState};

    ghost Value = { SideState };

    ghost view = { λ side. record { session = side.session; resync = side.resync } };
}

impl Side {
    // Nothing was asked.
    pub(crate) fn new() -> Side
        ensures { result ≡ fresh_side }
    {
        Side {
            session: None,
            resync: Resync::new(false),
        }
    }

    // The session, where one is open.
    pub(crate) fn session(&self) -> Option<SessionId>
        ensures { result ≡ self.now.session }
    {
        self.session
    }

    // What is asked in fact.
    pub(crate) fn asked_in_fact(&self, ask: Ask) -> Ask
        ensures { result ≡ asked_in_fact self.now.resync ask }
    {
        match ask {
            Ask::Resync => self.resync.next(),
            _ => ask,
        }
    }

    // Whether the resynchronisation asks for a session next.
    pub(crate) fn is_opening(&self) -> bool
        ensures { result ≡ is_opening self.now.resync.stage }
    {
        matches!(self.resync.next(), Ask::OpenSession)
    }

    // Whether the resynchronisation has found that the device keeps the change set.
    pub(crate) fn settled(&self) -> Option<bool>
        ensures { result ≡ settled_in self.now.resync.stage }
    {
        self.resync.settled()
    }

    // The reply to what was asked in fact is heard.
    pub(crate) fn hear(&mut self, resyncs: bool, ask: Ask, reply: &Reply)
        ensures { self.new ≡ heard resyncs ask reply.now self.old }
    {
        self.session = session_after(ask, reply, self.session);
        if resyncs {
            self.resync.on_reply(reply);
        }
    }

    // The session is gone, and what became of the device is to be found out.
    pub(crate) fn cut_off(&mut self, commit: bool)
        ensures { self.new ≡ record { session = None; resync = fresh_resync commit } }
    {
        self.session = None;
        self.resync = Resync::new(commit);
    }

    // What became of the device is to be found out.
    pub(crate) fn anew(&mut self, commit: bool)
        ensures { self.new ≡ anew commit self.old }
    {
        self.resync = Resync::new(commit);
    }
}

fn session_opened(reply: &Reply, session: Option<SessionId>) -> Option<SessionId>
    ensures { result ≡ session_opened reply.now session }
{
    match reply {
        Reply::Opened(opened) => Some(*opened),
        _ => session,
    }
}

fn session_closed(reply: &Reply, session: Option<SessionId>) -> Option<SessionId>
    ensures { result ≡ session_closed reply.now session }
{
    match reply {
        Reply::Done => None,
        _ => session,
    }
}

// The session after the reply to what was asked in fact.
fn session_after(ask: Ask, reply: &Reply, session: Option<SessionId>) -> Option<SessionId>
    ensures { result ≡ session_after ask reply.now session }
{
    match ask {
        Ask::OpenSession => session_opened(reply, session),
        Ask::CloseSession => session_closed(reply, session),
        _ => session,
    }
}
