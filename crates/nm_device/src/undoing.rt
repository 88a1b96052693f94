//! What undoes a pending commit without being asked to: the end of a session, the clock, a restart. No call takes memory.

ghost use Rattle.std.specs.Prelude.{◌≡◌, Bool, true};
ghost use Rattle.nm_device.specs.Device.{IsInTime, IsSound};

use crate::device::Device;
use nm_base::SessionId;
use nm_pending::{ends_at, ends_with};
use nm_proto::{Content, Store};

impl<C: Content> Device<C> {
    ghost use Rattle.nm_sessions.specs.Sessions.{is_open};
    ghost use Rattle.nm_device.specs.Device.{is_dropped};
    ghost use Rattle.nm_device.specs.Undoing.{ended, advanced, restarted};

    /// Loses an open session (RFC 6241 section 8.4.1), and tells whether that undid a pending commit.
    pub fn lose(&mut self, content: &C, session: SessionId) -> bool
        requires sound { IsSound (C.meaning content.now) self.old }
        requires open { is_open self.old.sessions session ≡ true }
        ensures ended { self.new ≡ ended (C.meaning content.now) self.old session }
        ensures clock { self.new.clock ≡ self.old.clock }
        ensures undone { result ≡ is_dropped self.old self.new }
        ensures sound { IsSound (C.meaning content.now) self.new }
    {
        let was_pending = self.pending.is_some();
        self.end(content, session);
        was_pending && self.pending.is_none()
    }

    /// Lets the clock rise by some seconds, and tells whether that undid a pending commit (RFC 6241 section 8.4.1).
    #[tactic(auto, unfolding(crate::specs::Device::IsInTime))]
    pub fn advance(&mut self, content: &C, seconds: u32) -> bool
        requires sound { IsSound (C.meaning content.now) self.old }
        requires in_time { IsInTime self.old.clock }
        ensures advanced { self.new ≡ advanced (C.meaning content.now) self.old seconds }
        ensures undone { result ≡ is_dropped self.old self.new }
        ensures sound { IsSound (C.meaning content.now) self.new }
    {
        let was_pending = self.pending.is_some();
        self.clock += u64::from(seconds);
        let undoes = ends_at(&self.pending, self.clock);
        self.undo_if(content, undoes);
        was_pending && self.pending.is_none()
    }

    /// Restarts the device, and tells whether that undid a pending commit (RFC 6241 section 8.4.1). All sessions and
    /// locks go; the clock and the last ids given stay (this project's own).
    pub fn restart(&mut self, content: &C) -> bool
        requires sound { IsSound (C.meaning content.now) self.old }
        ensures restarted { self.new ≡ restarted (C.meaning content.now) self.old }
        ensures clock { self.new.clock ≡ self.old.clock }
        ensures undone { result ≡ is_dropped self.old self.new }
        ensures sound { IsSound (C.meaning content.now) self.new }
    {
        let was_pending = self.pending.is_some();
        self.empty();
        self.undo(content);
        was_pending
    }
}

impl<C: Content> Device<C> {
    ghost use Rattle.nm_device.specs.Undoing.{undone, undone_if, left_by, emptied, ended};

    // Undoes what is pending, where anything is.
    pub(crate) fn undo(&mut self, content: &C)
        ensures undone { self.new ≡ undone (C.meaning content.now) self.old }
        ensures clock { self.new.clock ≡ self.old.clock }
    {
        if let Some(pending) = self.pending.take() {
            self.stores.restore(pending.undo());
            self.partials.forget_absent(content, self.stores.running());
        }
    }

    fn undo_if(&mut self, content: &C, undoes: bool)
        ensures undone { self.new ≡ undone_if (C.meaning content.now) self.old undoes }
        ensures clock { self.new.clock ≡ self.old.clock }
    {
        if undoes {
            self.undo(content);
        }
    }

    // Ends a session, and with it a pending commit that is its own.
    pub(crate) fn end(&mut self, content: &C, session: SessionId)
        ensures ended { self.new ≡ ended (C.meaning content.now) self.old session }
        ensures clock { self.new.clock ≡ self.old.clock }
    {
        let undoes = ends_with(&self.pending, session);
        self.leave(session);
        self.undo_if(content, undoes);
    }

    // Lets a session go: its locks go, the partial ones too, and with that of candidate the changes.
    pub(crate) fn leave(&mut self, session: SessionId)
        ensures { self.new ≡ left_by self.old session }
    {
        if self.locks.is_owned_by(Store::Candidate, session) {
            self.stores.discard();
        }
        self.locks.drop_session(session);
        self.partials.drop_session(session);
        self.sessions.leave(session);
    }

    // Lets all sessions, locks and changes go.
    fn empty(&mut self)
        ensures { self.new ≡ emptied self.old }
    {
        self.sessions.clear();
        self.locks.clear();
        self.partials.clear();
        self.stores.discard();
    }
}
