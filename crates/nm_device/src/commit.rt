//! Commits of candidate to running (RFC 6241 sections 8.3 and 8.4): the tests that come before, in order, and what moves.

ghost use Rattle.std.specs.Prelude.{◌≡◌, OnErr, OnOk, IfOk, true, false};
ghost use Rattle.nm_stores.specs.Stores.{committed};
ghost use Rattle.nm_pending.specs.Pending.{filled};
ghost use Rattle.nm_device.specs.Table.{is_error};
ghost use Rattle.nm_proto.specs.Content.{Checks};
ghost use Rattle.nm_device.specs.Commit.{names_reserved};

use crate::device::{Device, refuse};
use crate::edits::refuse_at;
use nm_base::token::is_reserved;
use nm_base::{Label, MANAGER, NoMemory, SessionId, Tag};
use nm_pending::{Pending, commit_refusal, deadline_of};
use nm_proto::{CheckFault, Content, Reply, Store};
use nm_stores::Stores;

// Commits of candidate to running.
impl<C: Content> Device<C> {
    ghost use Rattle.nm_sessions.specs.Sessions.{user_of};
    ghost use Rattle.std.specs.Prelude.{None};
    ghost use Rattle.nm_stores.specs.Stores.{committed};
    ghost use Rattle.nm_device.specs.Device.{Does, IsInTime, IsSound, is_manager};
    ghost use Rattle.nm_device.specs.Commit.{commit_by, commit_tag, commit_refusal, candidate_refusal, commit_unless, commit_done, pending_after, violation_of, is_locked_out};

    // Commits candidate, with its tests before.
    #[tactic(auto, unfolding(crate::specs::Device::IsInTime))]
    pub(crate) fn commit(
        &mut self,
        content: &C,
        session: SessionId,
        confirmed: bool,
        timeout: Option<u32>,
        persist: &Option<Label>,
        persist_id: &Option<Label>,
    ) -> Result<Reply, NoMemory>
        requires sound { IsSound (C.meaning content.now) self.old }
        requires in_time { IsInTime self.old.clock }
        ensures stepped { Does result self.old self.new (commit_by (C.meaning content.now) self.old session
            (record { confirmed = confirmed; timeout = timeout; persist = persist.now; persist_id = persist_id.now })) }
        ensures clock { self.new.clock ≡ self.old.clock }
        ensures error_changes_nothing { IfOk result (λ reply. is_error reply ≡ true → self.new ≡ self.old) }
    {
        match self.commit_tag(content, session, confirmed, timeout, persist, persist_id) {
            Some(tag) => Ok(refuse(tag)),
            None => {
                let deadline = deadline_of(self.clock, timeout);
                self.commit_unless(content, session, confirmed, persist, deadline)
            }
        }
    }

    // The first test that a commit fails, validity apart.
    fn commit_tag(
        &self,
        content: &C,
        session: SessionId,
        confirmed: bool,
        timeout: Option<u32>,
        persist: &Option<Label>,
        persist_id: &Option<Label>,
    ) -> Option<Tag>
        ensures { result ≡ commit_tag (C.meaning content.now) self.now session
            (record { confirmed = confirmed; timeout = timeout; persist = persist.now; persist_id = persist_id.now }) }
    {
        match self.commit_refusal(session, confirmed, timeout, persist, persist_id) {
            Some(tag) => Some(tag),
            None => self.candidate_refusal(content, session),
        }
    }

    // The first test that a modified candidate fails, validity apart.
    fn candidate_refusal(&self, content: &C, session: SessionId) -> Option<Tag>
        ensures { result ≡ candidate_refusal (C.meaning content.now) self.now session self.now.stores.candidate }
    {
        if !self.stores.modified() {
            return None;
        }
        let running = self.stores.running();
        let candidate = self.stores.candidate();
        if self.partials.guards(content, session, running, candidate) {
            return Some(Tag::InUse);
        }
        if !self.is_manager(session) && !content.same_marks(running, candidate) {
            return Some(Tag::AccessDenied);
        }
        None
    }

    // The first test that a commit fails, those of candidate apart.
    fn commit_refusal(
        &self,
        session: SessionId,
        confirmed: bool,
        timeout: Option<u32>,
        persist: &Option<Label>,
        persist_id: &Option<Label>,
    ) -> Option<Tag>
        ensures { result
            ≡ commit_refusal self.now session
            (record { confirmed = confirmed; timeout = timeout; persist = persist.now; persist_id = persist_id.now }) }
    {
        if (names_reserved(persist) || names_reserved(persist_id)) && !self.is_manager(session) {
            return Some(Tag::AccessDenied);
        }
        if confirmed && timeout == Some(0) {
            return Some(Tag::InvalidValue);
        }
        if let Some(tag) = commit_refusal(&self.pending, session, persist_id) {
            return Some(tag);
        }
        if self.is_locked_out(session) {
            return Some(Tag::InUse);
        }
        None
    }

    // Whether the session is of the manager.
    pub(crate) fn is_manager(&self, session: SessionId) -> bool
        ensures { result ≡ is_manager (user_of self.now.sessions session) }
    {
        match self.sessions.user_of(session) {
            Some(user) => user.as_str() == MANAGER,
            None => false,
        }
    }

    // Whether another session holds one of the global locks.
    pub(crate) fn is_locked_out(&self, session: SessionId) -> bool
        ensures { result ≡ is_locked_out self.now session }
    {
        self.is_held_by_other(Store::Running, session)
            || self.is_held_by_other(Store::Candidate, session)
    }

    // Commits candidate where it is valid.
    fn commit_unless(
        &mut self,
        content: &C,
        session: SessionId,
        confirmed: bool,
        persist: &Option<Label>,
        deadline: u64,
    ) -> Result<Reply, NoMemory>
        requires sound { IsSound (C.meaning content.now) self.old }
        ensures stepped { (let violation = violation_of (C.meaning content.now) self.old.stores.candidate in
            Does result self.old self.new (commit_unless (C.meaning content.now) self.old session violation confirmed persist.now deadline)) }
        ensures clock { self.new.clock ≡ self.old.clock }
        ensures error_changes_nothing { IfOk result (λ reply. is_error reply ≡ true → self.new ≡ self.old) }
    {
        match self.check_candidate(content) {
            Ok(()) => self.commit_move(content, session, confirmed, persist, deadline),
            Err(CheckFault::Violation { tag, path }) => Ok(refuse_at(tag, path)),
            Err(CheckFault::NoMemory) => Err(NoMemory),
        }
    }

    // A modified candidate is checked; running is valid.
    fn check_candidate(&self, content: &C) -> Result<(), CheckFault>
        requires { IsSound (C.meaning content.now) self.now }
        ensures { Checks result (violation_of (C.meaning content.now) self.now.stores.candidate) }
    {
        if self.stores.modified() {
            content.check(self.stores.candidate())
        } else {
            Ok(())
        }
    }

    // Moves candidate to running, once there is memory for what is pending then.
    fn commit_move(
        &mut self,
        content: &C,
        session: SessionId,
        confirmed: bool,
        persist: &Option<Label>,
        deadline: u64,
    ) -> Result<Reply, NoMemory>
        ensures stepped { Does result self.old self.new (commit_done (C.meaning content.now) self.old session confirmed persist.now deadline) }
        ensures clock { self.new.clock ≡ self.old.clock }
    {
        self.move_stores(session, confirmed, persist, deadline)?;
        self.partials.forget_absent(content, self.stores.running());
        Ok(Reply::Done)
    }

    // Moves candidate to running, and what is pending begins, goes on or ends.
    fn move_stores(
        &mut self,
        session: SessionId,
        confirmed: bool,
        persist: &Option<Label>,
        deadline: u64,
    ) -> Result<(), NoMemory>
        ensures moved { OnOk result (self.new ≡ record self.old {
          stores = committed self.old.stores;
          pending = pending_after self.old session confirmed persist.now deadline self.old.pending;
        }) }
        ensures unchanged { OnErr result (self.new ≡ self.old) }
    {
        if !confirmed {
            self.confirm();
            return Ok(());
        }
        let persist = copy_token(persist)?;
        if let Some(pending) = &mut self.pending {
            pending.follow(session, persist, deadline)?;
            commit_under(pending, &mut self.stores);
            return Ok(());
        }
        let mut pending = Pending::begin(self.alloc, session, persist, deadline)?;
        commit_under(&mut pending, &mut self.stores);
        self.pending = Some(pending);
        Ok(())
    }

    // Moves candidate to running for good.
    fn confirm(&mut self)
        ensures { self.new ≡ record self.old { stores = committed self.old.stores; pending = None } }
    {
        if let Some(pending) = self.pending.take() {
            drop(pending.confirm());
        }
        drop(self.stores.commit_move());
    }
}

// Moves candidate to running, and keeps for the pending commit what was before its first change.
fn commit_under<C: Content>(pending: &mut Pending<C>, stores: &mut Stores<C>)
    ensures before { filled stores.new.running pending.new ≡ filled stores.old.running pending.old }
    ensures after { stores.new ≡ committed stores.old }
{
    let replaced = stores.commit_move();
    if pending.before.is_none() {
        pending.before = replaced;
    }
}

// An equal token. It copies no bytes.
fn copy_token(token: &Option<Label>) -> Result<Option<Label>, NoMemory>
    ensures { IfOk result (λ copied. copied ≡ token.now) }
{
    match token {
        Some(token) => Ok(Some(token.copy()?)),
        None => Ok(None),
    }
}

// Whether a token is one that only the manager may use.
pub(crate) fn names_reserved(token: &Option<Label>) -> bool
    ensures { result ≡ names_reserved token.now }
{
    match token {
        Some(token) => is_reserved(token),
        None => false,
    }
}
