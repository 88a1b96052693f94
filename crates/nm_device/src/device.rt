//! A device: what it holds, what happens at it, and the table of requests.

ghost use Rattle.std.specs.Prelude.{◌≡◌, IfOk, OnOk, OnErr, IsOk, true, false, ◌&&◌, None, is_some};
ghost use Rattle.std.specs.List.{All};
ghost use Rattle.nm_proto.specs.Message.{holds_text};
ghost use Rattle.nm_device.specs.Table.{is_commit, is_done, is_error, is_opening, takes_no_memory};

use nm_base::{Label, NoMemory, SessionId, Tag};
use nm_locks::GlobalLocks;
use nm_partial::PartialLocks;
use nm_pending::Pending;
use nm_proto::{Content, Reply, Request, Store, Tables};
use nm_sessions::{EnterFault, Sessions};
use nm_stores::Stores;
use std::alloc::Global;
use std::marker::Model;

/// A device: its datastores, sessions, global and partial locks and pending confirmed commit (RFC 6241 sections 7 and 8,
/// RFC 5717).
pub struct Device<C: Content> {
    pub(crate) alloc: Global,
    pub(crate) stores: Stores<C>,
    pub(crate) sessions: Sessions,
    pub(crate) locks: GlobalLocks,
    pub(crate) partials: PartialLocks<C>,
    pub(crate) pending: Option<Pending<C>>,
    // In seconds.
    pub(crate) clock: u64,
}

impl<C: Content> Drop for Device<C> {
    fn drop(self) {
        let Device {
            alloc: _,
            stores,
            sessions,
            locks,
            partials,
            pending,
            clock: _,
        } = self;
        drop(stores);
        drop(sessions);
        drop(locks);
        drop(partials);
        drop(pending);
    }
}

impl<C: Content> Model for Device<C> {
    ghost use Rattle.std.specs.Option.{option_map};
    ghost use Rattle.nm_pending.specs.Pending.{filled};
    ghost use Rattle.nm_device.specs.Device.{DeviceState};

    ghost Value = { DeviceState C.Config C.Node };

    ghost view = { λ d. record {
      stores = d.stores;
      sessions = d.sessions;
      locks = d.locks;
      partials = d.partials;
      pending = option_map (filled d.stores.running) d.pending;
      clock = d.clock;
    } };
}

impl<C: Content> Device<C> {
    ghost use Rattle.nm_sessions.specs.Sessions.{is_open};
    ghost use Rattle.nm_stores.specs.Stores.{candidate_of};
    ghost use Rattle.nm_device.specs.Device.{fresh_device, IsInTime};

    /// A device with a running configuration and nothing else. It takes no memory.
    #[tactic(auto, unfolding(crate::specs::Device::IsInTime))]
    pub fn new(alloc: Global, running: C::Config) -> Device<C>
        ensures fresh { result ≡ fresh_device running }
        ensures in_time { IsInTime result.clock }
    {
        Device {
            alloc,
            stores: Stores::new(running),
            sessions: Sessions::new(alloc),
            locks: GlobalLocks::new(),
            partials: PartialLocks::new(alloc),
            pending: None,
            clock: 0,
        }
    }

    /// The running configuration.
    pub fn running(&self) -> &C::Config
        ensures { result.now ≡ self.now.stores.running }
    {
        self.stores.running()
    }

    /// The candidate configuration, also where it is unmodified.
    pub fn candidate(&self) -> &C::Config
        ensures { result.now ≡ candidate_of self.now.stores }
    {
        self.stores.candidate()
    }

    /// The clock, in seconds.
    pub fn clock(&self) -> u64
        ensures { result ≡ self.now.clock }
    {
        self.clock
    }

    /// Whether a commit is pending.
    pub fn is_pending(&self) -> bool
        ensures { result ≡ is_some self.now.pending }
    {
        self.pending.is_some()
    }

    /// Whether the session is open.
    pub fn has_session(&self, session: SessionId) -> bool
        ensures { result ≡ is_open self.now.sessions session }
    {
        self.sessions.is_open(session)
    }
}

impl<C: Content> Device<C> {
    ghost use Rattle.nm_sessions.specs.Sessions.{is_open};
    ghost use Rattle.nm_device.specs.Device.{Does, IsInTime, IsSound};
    ghost use Rattle.nm_device.specs.Table.{opened, device_step, Moves};

    /// Opens a session for a user (RFC 6241 section 8.1), or refuses it with resource-denied.
    pub fn open_session(&mut self, user: Label) -> Result<Reply, NoMemory>
        ensures opened { Does result self.old self.new (opened self.old user) }
        ensures only_sessions { self.new ≡ record self.old { sessions = self.new.sessions } }
        ensures without_text { IfOk result (λ reply. holds_text reply ≡ false) }
    {
        match self.sessions.enter(user) {
            Ok(session) => Ok(Reply::Opened(session)),
            Err(EnterFault::Full) => Ok(refuse(Tag::ResourceDenied)),
            Err(EnterFault::NoMemory) => Err(NoMemory),
        }
    }

    /// Does a request of an open session. It copies no configuration but where an edit makes one.
    pub fn step(
        &mut self,
        content: &C,
        tables: &Tables<C>,
        session: SessionId,
        request: &Request,
    ) -> Result<Reply, NoMemory>
        requires sound { IsSound (C.meaning content.now) self.old }
        requires edits_belong { All (C.meaning content.now).edit_belongs tables.now.edits }
        requires open { is_open self.old.sessions session ≡ true }
        requires asks { is_opening request.now ≡ false }
        requires in_time { IsInTime self.old.clock }
        ensures stepped { Does result self.old self.new (device_step (C.meaning content.now) tables.now self.old session request.now) }
        ensures no_memory { takes_no_memory request.now ≡ true → IsOk result }
        ensures unchanged { OnErr result (self.new ≡ self.old) }
        ensures error_changes_nothing { IfOk result (λ reply. is_error reply ≡ true → self.new ≡ self.old) }
        ensures text_is_an_error { IfOk result (λ reply. holds_text reply ≡ true → is_error reply ≡ true) }
        ensures moves { IfOk result (λ reply. Moves request.now reply self.old self.new) }
        ensures clock { self.new.clock ≡ self.old.clock }
        ensures sound { IsSound (C.meaning content.now) self.new }
    {
        self.answer(content, tables, session, request)
    }
}

impl<C: Content> Device<C> {
    ghost use Rattle.nm_proto.specs.Content.{TablesState};
    ghost use Rattle.nm_device.specs.Device.{Answers, Does, IsInTime, IsSound};
    ghost use Rattle.nm_device.specs.Table.{device_step};

    // One request, by its own function.
    fn answer(
        &mut self,
        content: &C,
        tables: &Tables<C>,
        session: SessionId,
        request: &Request,
    ) -> Result<Reply, NoMemory>
        requires sound { IsSound (C.meaning content.now) self.old }
        requires edits_belong { All (C.meaning content.now).edit_belongs tables.now.edits }
        requires in_time { IsInTime self.old.clock }
        ensures stepped { Does result self.old self.new (device_step (C.meaning content.now) tables.now self.old session request.now) }
        ensures no_memory { takes_no_memory request.now ≡ true → IsOk result }
        ensures unchanged { OnErr result (self.new ≡ self.old) }
        ensures error_changes_nothing { IfOk result (λ reply. is_error reply ≡ true → self.new ≡ self.old) }
        ensures text_is_an_error { IfOk result (λ reply. holds_text reply ≡ true → is_error reply ≡ true) }
        ensures clock { self.new.clock ≡ self.old.clock }
    {
        match request {
            Request::PartialLock { select } => self.lock_part(content, tables, session, *select),
            Request::Edit {
                edit,
                default_operation,
                marks,
            } => self.edit(content, tables, session, *edit, *default_operation, *marks),
            Request::Validate => self.validate(content),
            Request::Commit {
                confirmed,
                timeout,
                persist,
                persist_id,
            } => self.commit(content, session, *confirmed, *timeout, persist, persist_id),
            Request::OpenSession { .. } => Ok(refuse(Tag::OperationFailed)),
            Request::Lock { .. }
            | Request::Unlock { .. }
            | Request::PartialUnlock { .. }
            | Request::CancelCommit { .. }
            | Request::Discard
            | Request::HasMark { .. }
            | Request::GetConfig
            | Request::Kill { .. }
            | Request::CloseSession => Ok(self.answer_at_once(content, session, request)),
        }
    }

    // One request whose answer takes no memory.
    fn answer_at_once(&mut self, content: &C, session: SessionId, request: &Request) -> Reply
        requires at_once { takes_no_memory request.now ≡ true }
        ensures answered { (tables : TablesState C.Edit) → Answers result self.new (device_step (C.meaning content.now) tables self.old session request.now) }
        ensures error_changes_nothing { is_error result ≡ true → self.new ≡ self.old }
        ensures text_is_an_error { holds_text result ≡ true → is_error result ≡ true }
        ensures clock { self.new.clock ≡ self.old.clock }
    {
        match request {
            Request::Lock { store } => self.lock(*store, session),
            Request::Unlock { store } => self.unlock(*store, session),
            Request::PartialUnlock { id } => self.unlock_part(session, *id),
            Request::CancelCommit { persist_id } => self.cancel(content, session, persist_id),
            Request::Discard => self.discard(session),
            Request::HasMark { change } => {
                Reply::Mark(content.has_mark(self.stores.running(), *change))
            }
            Request::GetConfig => Reply::Rows(content.rows(self.stores.running())),
            Request::Kill { session: other } => self.kill(content, session, *other),
            Request::CloseSession => self.close(content, session),
            Request::OpenSession { .. }
            | Request::PartialLock { .. }
            | Request::Edit { .. }
            | Request::Validate
            | Request::Commit { .. } => refuse(Tag::OperationFailed),
        }
    }
}

/// A refusal of this tag.
pub(crate) fn refuse(tag: Tag) -> Reply
    ensures { result ≡ Reply.Error tag None None }
{
    Reply::Error {
        tag,
        session: None,
        path: None,
    }
}
