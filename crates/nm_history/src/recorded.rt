//! A device with its history: each call notes what happened with what was answered, or changes neither.

ghost use Rattle.std.specs.Prelude.{◌≡◌, IfOk, OnOk, OnErr};
ghost use Rattle.std.specs.List.{All};
ghost use Rattle.std.specs.Prelude.{Some, true, false, option_copied};
ghost use Rattle.nm_proto.specs.Message.{holds_text};
ghost use Rattle.nm_device.specs.Table.{asks_for_end, is_opening, opening_user};

use crate::event::{DeviceEvent, Noted};
use nm_base::{Label, NoMemory, SessionId};
use nm_device::Device;
use nm_proto::{Content, Reply, Request, Tables};
use std::alloc::Global;
use std::marker::Model;

/// What was answered. The reply stands twice, for the asker and for what the asker keeps of it, so that neither can
/// fail for want of memory once the device has changed.
#[derive(Drop)]
pub struct Told {
    pub reply: Reply,
    pub again: Reply,
    /// Whether a pending commit was undone other than by a cancel.
    pub undone: bool,
}

/// A device with its history: what has happened at it, oldest first, with the replies.
pub struct Recorded<C: Content> {
    device: Device<C>,
    history: Vec<Noted>,
}

impl<C: Content> Drop for Recorded<C> {
    fn drop(self) {
        let Recorded { device, history } = self;
        drop(device);
        drop(history);
    }
}

impl<C: Content> Model for Recorded<C> {
    ghost use Rattle.nm_history.specs.History.{RecordedState};

    ghost Value = { RecordedState C.Config C.Node };

    ghost view = { λ r. record { device = r.device; history = r.history.items } };
}

impl<C: Content> Recorded<C> {
    ghost use Rattle.nm_device.specs.Device.{IsInTime, IsSound};
    ghost use Rattle.nm_history.specs.History.{recorded, served, lost, advancing, restarting, Serves, Loses, Changes};

    /// A device with a running configuration, at which nothing has happened. It takes no memory.
    pub fn new(alloc: Global, running: C::Config) -> Recorded<C>
        ensures fresh { result ≡ recorded running }
        ensures in_time { IsInTime result.device.clock }
    {
        Recorded {
            device: Device::new(alloc, running),
            history: Vec::new(alloc),
        }
    }

    /// The device.
    pub fn device(&self) -> &Device<C>
        ensures { result.now ≡ self.now.device }
    {
        &self.device
    }

    /// What has happened, oldest first.
    pub fn history(&self) -> &[Noted]
        ensures { result.now ≡ self.now.history }
    {
        self.history.as_slice()
    }

    /// Serves a request of an open session, or the request for a session, and notes it with its reply.
    ///
    /// Answers None where there is no such session, and then changes nothing.
    pub fn serve(
        &mut self,
        content: &C,
        tables: &Tables<C>,
        session: Option<SessionId>,
        request: &Request,
    ) -> Result<Option<Told>, NoMemory>
        requires sound { IsSound (C.meaning content.now) self.old.device }
        requires in_time { IsInTime self.old.device.clock }
        requires edits_belong { All (C.meaning content.now).edit_belongs tables.now.edits }
        ensures served { IfOk result (λ told. Serves told self.old self.new (served (C.meaning content.now) tables.now self.old session request.now)) }
        ensures unchanged { OnErr result (self.new ≡ self.old) }
        ensures clock { self.new.device.clock ≡ self.old.device.clock }
        ensures sound { IsSound (C.meaning content.now) self.new.device }
    {
        if let Some(user) = opening_user(request) {
            let told = self.enter(user.copy()?)?;
            return Ok(Some(told));
        }
        match session {
            Some(session) => self.serve_on(content, tables, session, request),
            None => Ok(None),
        }
    }

    /// Loses a session, notes that, and tells whether it undid a pending commit.
    ///
    /// Answers None where the session isn't open, and then changes nothing.
    pub fn lose(&mut self, content: &C, session: SessionId) -> Result<Option<bool>, NoMemory>
        requires sound { IsSound (C.meaning content.now) self.old.device }
        ensures lost { IfOk result (λ undone. Loses undone self.old self.new (lost (C.meaning content.now) self.old session)) }
        ensures unchanged { OnErr result (self.new ≡ self.old) }
        ensures clock { self.new.device.clock ≡ self.old.device.clock }
        ensures sound { IsSound (C.meaning content.now) self.new.device }
    {
        if !self.device.has_session(session) {
            return Ok(None);
        }
        self.history.reserve(1)?;
        let undone = self.device.lose(content, session);
        self.history.push_reserved(Noted {
            event: DeviceEvent::Lost { session },
            reply: None,
            undone,
        });
        Ok(Some(undone))
    }

    /// Lets the clock rise by some seconds, notes that, and tells whether it undid a pending commit.
    pub fn advance(&mut self, content: &C, seconds: u32) -> Result<bool, NoMemory>
        requires sound { IsSound (C.meaning content.now) self.old.device }
        requires in_time { IsInTime self.old.device.clock }
        ensures advanced { IfOk result (λ undone. Changes undone self.old self.new (DeviceEvent.Advanced seconds)
            (advancing (C.meaning content.now) self.old.device seconds)) }
        ensures unchanged { OnErr result (self.new ≡ self.old) }
        ensures sound { IsSound (C.meaning content.now) self.new.device }
    {
        self.history.reserve(1)?;
        let undone = self.device.advance(content, seconds);
        self.history.push_reserved(Noted {
            event: DeviceEvent::Advanced { seconds },
            reply: None,
            undone,
        });
        Ok(undone)
    }

    /// Restarts the device, notes that, and tells whether it undid a pending commit.
    pub fn restart(&mut self, content: &C) -> Result<bool, NoMemory>
        requires sound { IsSound (C.meaning content.now) self.old.device }
        ensures restarted { IfOk result (λ undone. Changes undone self.old self.new DeviceEvent.Restarted
            (restarting (C.meaning content.now) self.old.device)) }
        ensures unchanged { OnErr result (self.new ≡ self.old) }
        ensures clock { self.new.device.clock ≡ self.old.device.clock }
        ensures sound { IsSound (C.meaning content.now) self.new.device }
    {
        self.history.reserve(1)?;
        let undone = self.device.restart(content);
        self.history.push_reserved(Noted {
            event: DeviceEvent::Restarted,
            reply: None,
            undone,
        });
        Ok(undone)
    }
}

impl<C: Content> Recorded<C> {
    ghost use Rattle.nm_device.specs.Device.{IsInTime, IsSound};
    ghost use Rattle.nm_history.specs.History.{recorded_after};

    /// Lets an event happen, as an entry of a history names it, and notes it. One that can't happen changes nothing.
    pub fn follow(
        &mut self,
        content: &C,
        tables: &Tables<C>,
        event: &DeviceEvent,
    ) -> Result<(), NoMemory>
        requires sound { IsSound (C.meaning content.now) self.old.device }
        requires in_time { IsInTime self.old.device.clock }
        requires edits_belong { All (C.meaning content.now).edit_belongs tables.now.edits }
        ensures followed { OnOk result (self.new ≡ recorded_after (C.meaning content.now) tables.now self.old event.now) }
        ensures unchanged { OnErr result (self.new ≡ self.old) }
        ensures sound { IsSound (C.meaning content.now) self.new.device }
    {
        match event {
            DeviceEvent::Entered { user } => {
                self.enter(user.copy()?)?;
                Ok(())
            }
            DeviceEvent::Asked { session, request } => {
                self.follow_asked(content, tables, *session, request)
            }
            DeviceEvent::Lost { session } => {
                self.lose(content, *session)?;
                Ok(())
            }
            DeviceEvent::Advanced { seconds } => {
                self.advance(content, *seconds)?;
                Ok(())
            }
            DeviceEvent::Restarted => {
                self.restart(content)?;
                Ok(())
            }
        }
    }

    // A session asks something. That it asks for a session can't happen: nobody has one who does.
    fn follow_asked(
        &mut self,
        content: &C,
        tables: &Tables<C>,
        session: SessionId,
        request: &Request,
    ) -> Result<(), NoMemory>
        requires sound { IsSound (C.meaning content.now) self.old.device }
        requires in_time { IsInTime self.old.device.clock }
        requires edits_belong { All (C.meaning content.now).edit_belongs tables.now.edits }
        ensures followed { OnOk result
            (self.new ≡ recorded_after (C.meaning content.now) tables.now self.old (DeviceEvent.Asked session request.now)) }
        ensures unchanged { OnErr result (self.new ≡ self.old) }
        ensures sound { IsSound (C.meaning content.now) self.new.device }
    {
        if is_opening(request) {
            return Ok(());
        }
        self.serve_on(content, tables, session, request)?;
        Ok(())
    }
}

impl<C: Content> Recorded<C> {
    ghost use Rattle.std.specs.Prelude.{Some, true, false};
    ghost use Rattle.nm_sessions.specs.Sessions.{is_open};
    ghost use Rattle.nm_device.specs.Device.{IsInTime, IsSound};
    ghost use Rattle.nm_device.specs.Table.{device_step, is_opening};
    ghost use Rattle.nm_history.specs.History.{entering, answered, served_as, served_event, Serves};

    // A user asks for a session.
    fn enter(&mut self, user: Label) -> Result<Told, NoMemory>
        ensures served { IfOk result
            (λ told. Serves (Some told) self.old self.new (served_as self.old (DeviceEvent.Entered user) (Some (entering self.old.device user)))) }
        ensures unchanged { OnErr result (self.new ≡ self.old) }
        ensures clock { self.new.device.clock ≡ self.old.device.clock }
        ensures only_sessions { self.new.device ≡ record self.old.device { sessions = self.new.device.sessions } }
    {
        self.history.reserve(1)?;
        let entered = DeviceEvent::Entered { user: user.copy()? };
        let reply = match self.device.open_session(user) {
            Ok(reply) => reply,
            Err(fault) => {
                drop(entered);
                return Err(fault);
            }
        };
        let Copies { kept, told } = match copies_of(reply, false) {
            Ok(copies) => copies,
            Err(fault) => {
                drop(entered);
                return Err(fault);
            }
        };
        self.history.push_reserved(Noted {
            event: entered,
            reply: Some(kept),
            undone: false,
        });
        Ok(told)
    }

    // A session asks something.
    fn serve_on(
        &mut self,
        content: &C,
        tables: &Tables<C>,
        session: SessionId,
        request: &Request,
    ) -> Result<Option<Told>, NoMemory>
        requires sound { IsSound (C.meaning content.now) self.old.device }
        requires in_time { IsInTime self.old.device.clock }
        requires edits_belong { All (C.meaning content.now).edit_belongs tables.now.edits }
        requires asks { is_opening request.now ≡ false }
        ensures served { IfOk result
            (λ told. Serves told self.old self.new (served_event (C.meaning content.now) tables.now self.old
            (Some (DeviceEvent.Asked session request.now)))) }
        ensures unchanged { OnErr result (self.new ≡ self.old) }
        ensures clock { self.new.device.clock ≡ self.old.device.clock }
        ensures sound { IsSound (C.meaning content.now) self.new.device }
    {
        if !self.device.has_session(session) {
            return Ok(None);
        }
        match self.serve_open(content, tables, session, request) {
            Ok(told) => Ok(Some(told)),
            Err(fault) => Err(fault),
        }
    }

    // An open session asks something.
    fn serve_open(
        &mut self,
        content: &C,
        tables: &Tables<C>,
        session: SessionId,
        request: &Request,
    ) -> Result<Told, NoMemory>
        requires sound { IsSound (C.meaning content.now) self.old.device }
        requires in_time { IsInTime self.old.device.clock }
        requires edits_belong { All (C.meaning content.now).edit_belongs tables.now.edits }
        requires open { is_open self.old.device.sessions session ≡ true }
        requires asks { is_opening request.now ≡ false }
        ensures served { IfOk result
            (λ told. Serves (Some told) self.old self.new (served_as self.old (DeviceEvent.Asked session request.now)
            (Some (answered self.old.device request.now (device_step (C.meaning content.now) tables.now self.old.device session request.now))))) }
        ensures unchanged { OnErr result (self.new ≡ self.old) }
        ensures clock { self.new.device.clock ≡ self.old.device.clock }
        ensures sound { IsSound (C.meaning content.now) self.new.device }
    {
        self.history.reserve(1)?;
        let asked = request.copy()?;
        let was_pending = self.device.is_pending();
        let reply = match self.device.step(content, tables, session, request) {
            Ok(reply) => reply,
            Err(fault) => {
                drop(asked);
                return Err(fault);
            }
        };
        let undone = was_pending && !self.device.is_pending() && !asks_for_end(request);
        let Copies { kept, told } = match copies_of(reply, undone) {
            Ok(copies) => copies,
            Err(fault) => {
                drop(asked);
                return Err(fault);
            }
        };
        self.history.push_reserved(Noted {
            event: DeviceEvent::Asked {
                session,
                request: asked,
            },
            reply: Some(kept),
            undone,
        });
        Ok(told)
    }
}

// The user who asks for a session.
fn opening_user(request: &Request) -> Option<&Label>
    ensures { option_copied result ≡ opening_user request.now }
{
    match request {
        Request::OpenSession { user } => Some(user),
        _ => None,
    }
}

// Whether a request asks for a session.
fn is_opening(request: &Request) -> bool
    ensures { result ≡ is_opening request.now }
{
    matches!(request, Request::OpenSession { .. })
}

// Whether a request asks for the end of a pending commit.
fn asks_for_end(request: &Request) -> bool
    ensures { result ≡ asks_for_end request.now }
{
    matches!(
        request,
        Request::Commit { .. } | Request::CancelCommit { .. }
    )
}

// A reply, once for the history and twice for the asker.
#[derive(Drop)]
struct Copies {
    kept: Reply,
    told: Told,
}

// Copies a reply. Only an error may find no memory, since no other reply holds a text.
fn copies_of(reply: Reply, undone: bool) -> Result<Copies, NoMemory>
    ensures kept { IfOk result (λ copies. copies.kept ≡ reply) }
    ensures told { IfOk result (λ copies. copies.told ≡ record { reply = reply; again = reply; undone = undone }) }
    ensures only_errors { OnErr result (holds_text reply ≡ true) }
{
    match twice(&reply) {
        Ok((kept, again)) => Ok(Copies {
            kept,
            told: Told {
                reply,
                again,
                undone,
            },
        }),
        Err(fault) => {
            drop(reply);
            Err(fault)
        }
    }
}

// Two copies of a reply.
fn twice(reply: &Reply) -> Result<(Reply, Reply), NoMemory>
    ensures first { IfOk result (λ copies. copies.0 ≡ reply.now) }
    ensures second { IfOk result (λ copies. copies.1 ≡ reply.now) }
    ensures only_errors { OnErr result (holds_text reply.now ≡ true) }
{
    let first = reply.copy()?;
    match reply.copy() {
        Ok(second) => Ok((first, second)),
        Err(fault) => {
            drop(first);
            Err(fault)
        }
    }
}
