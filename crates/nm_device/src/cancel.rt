//! The requests that end somebody else's work: a cancel of the pending commit and the kill of a session. No call takes
//! memory.

ghost use Rattle.std.specs.Prelude.{◌≡◌, true, false};
ghost use Rattle.nm_device.specs.Table.{is_error};

use crate::commit::names_reserved;
use crate::device::{Device, refuse};
use nm_base::{Label, SessionId, Tag};
use nm_pending::cancel_refusal;
use nm_proto::{Content, Reply};

impl<C: Content> Device<C> {
    ghost use Rattle.std.specs.Prelude.{Some, None, unwrap_or};
    ghost use Rattle.nm_partial.specs.Partial.{guards};
    ghost use Rattle.nm_device.specs.Device.{Answers, done};
    ghost use Rattle.nm_device.specs.Undoing.{ended};
    ghost use Rattle.nm_device.specs.Cancel.{cancel_by, cancel_tag, is_kept_from_undoing, kill_by};

    // Cancels what is pending, with the tests before.
    pub(crate) fn cancel(
        &mut self,
        content: &C,
        session: SessionId,
        persist_id: &Option<Label>,
    ) -> Reply
        ensures answered { Answers result self.new (cancel_by (C.meaning content.now) self.old session persist_id.now) }
        ensures clock { self.new.clock ≡ self.old.clock }
        ensures error_changes_nothing { is_error result ≡ true → self.new ≡ self.old }
    {
        match self.cancel_tag(content, session, persist_id) {
            Some(tag) => refuse(tag),
            None => {
                self.undo(content);
                Reply::Done
            }
        }
    }

    // The first test that a cancel fails.
    fn cancel_tag(&self, content: &C, session: SessionId, persist_id: &Option<Label>) -> Option<Tag>
        ensures { result ≡ cancel_tag (C.meaning content.now) self.now session persist_id.now }
    {
        if names_reserved(persist_id) && !self.is_manager(session) {
            return Some(Tag::AccessDenied);
        }
        if let Some(tag) = cancel_refusal(&self.pending, session, persist_id) {
            return Some(tag);
        }
        if self.is_locked_out(session) {
            return Some(Tag::InUse);
        }
        if self.is_kept_from_undoing(content, session) {
            return Some(Tag::InUse);
        }
        None
    }

    // Whether another session has a part locked that an undoing would change.
    fn is_kept_from_undoing(&self, content: &C, session: SessionId) -> bool
        ensures { result ≡ is_kept_from_undoing (C.meaning content.now) self.now session self.now.pending }
    {
        match &self.pending {
            Some(pending) => self.is_kept_from(content, session, &pending.before),
            None => false,
        }
    }

    // Whether another session has a part locked in which running differs from what it was.
    fn is_kept_from(&self, content: &C, session: SessionId, before: &Option<C::Config>) -> bool
        ensures { result ≡ guards (C.meaning content.now) self.now.partials session self.now.stores.running (unwrap_or before.now self.now.stores.running) }
    {
        let running = self.stores.running();
        match before {
            Some(before) => self.partials.guards(content, session, running, before),
            None => self.partials.guards(content, session, running, running),
        }
    }

    // Ends another session that is open.
    pub(crate) fn kill(&mut self, content: &C, session: SessionId, other: u32) -> Reply
        ensures answered { Answers result self.new (kill_by (C.meaning content.now) self.old session other) }
        ensures clock { self.new.clock ≡ self.old.clock }
        ensures error_changes_nothing { is_error result ≡ true → self.new ≡ self.old }
    {
        if other == session.get() {
            return refuse(Tag::InvalidValue);
        }
        match self.sessions.numbered(other) {
            Some(other) => self.close(content, other),
            None => refuse(Tag::InvalidValue),
        }
    }

    // Ends a session as it is asked to.
    pub(crate) fn close(&mut self, content: &C, session: SessionId) -> Reply
        ensures answered { Answers result self.new (done (ended (C.meaning content.now) self.old session)) }
        ensures clock { self.new.clock ≡ self.old.clock }
        ensures done { is_error result ≡ false }
    {
        self.end(content, session);
        Reply::Done
    }
}
