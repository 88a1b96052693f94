//! A request at a device, under the faults that are planned for it.

ghost use Rattle.std.specs.Prelude.{◌≡◌, ◌≤◌, ◌<◌, ◌+◌, true, false, [], None, Some, IfOk, OnErr, option_copied, length, vec_capacity};
ghost use Rattle.std.specs.List.{All};
ghost use Rattle.nm_device.specs.Table.{opening_user, is_opening};
ghost use Rattle.std.specs.Str.{bytes_eq};
ghost use Rattle.nm_base.specs.Words.{manager};
ghost use Rattle.nm_cells.specs.Kept.{with_room, is_managers};
ghost use Rattle.nm_cells.specs.Grows.{GrowsBy};
ghost use Rattle.nm_cells.specs.Serve.{advance_of, opened_session, happens, tells_end, loses, restarts, cut, cut_off, manager_enters, enters, asking, manager_asks, serve_on, serve_of, Leaves, StaysOrAdvances, may_ask};
ghost use Rattle.nm_cells.specs.Ended.{found};
ghost use Rattle.nm_cells.specs.Pass.{is_operator};
ghost use Rattle.nm_cells.specs.Asking.{is_plain};
ghost use Rattle.nm_cells.specs.Follows.{clock_if, clock_of_due, plans_breaks};

use crate::asked::Asked;
use crate::end::place_after;
use crate::ended;
use crate::kept::KeptDevice;
use crate::pass::{Pass, PassEntry, PassOwner};
use nm_base::{DeviceNo, Label, MANAGER, NoMemory, SessionId};
use nm_history::{DeviceEvent, Noted, Told};
use nm_proto::{Content, PlanFault, Reply, Request, Tables};
use nm_run_plan::RunName;

impl<C: Content, N: RunName<C, C::Config, C::Edit>> KeptDevice<C, N> {
    /// A request of a caller, on a session or for one, under the faults that are planned for the device. Its entry, and that
    /// of what broke the call, stand in the history and in the pass, under this number of the device.
    ///
    /// The call is broken exactly where a planned drop, cut or restart breaks it, or the session isn't open; then the caller
    /// finds what ended it. An operator asks on no session of the manager: such a one counts as one that isn't open. Where
    /// there is no memory, an advance that is planned for the request may have been done, and nothing else has.
    pub fn serve(
        &mut self,
        content: &C,
        tables: &Tables<C>,
        device: DeviceNo,
        pass: &mut Pass,
        session: Option<SessionId>,
        request: &Request,
    ) -> Result<Asked, NoMemory>
        requires content { N.run.content ≡ Some content.now }
        requires tables { N.run.tables ≡ tables.now }
        requires edits_belong { All (C.meaning content.now).edit_belongs tables.now.edits }
        ensures served { IfOk result (λ asked. Leaves asked self.new pass.new.entries
            (serve_of (C.meaning content.now) tables.now device pass.old.owner self.old pass.old.entries session request.now)) }
        ensures owner { pass.new.owner ≡ pass.old.owner }
        ensures no_memory { OnErr result (StaysOrAdvances (C.meaning content.now) self.old self.new) }
        ensures pass { OnErr result (pass.new ≡ pass.old) }
        ensures grows { GrowsBy 3 self.old.recorded.history self.new.recorded.history }
        ensures plain { IfOk result (λ asked. is_plain asked ≡ true) }
    {
        let Pass { owner, entries } = pass;
        entries.reserve(2)?;
        if let Some(user) = opening_user(request) {
            return self.serve_opening(content, device, entries, user);
        }
        match session {
            Some(session) => {
                self.serve_session(content, tables, device, &*owner, entries, session, request)
            }
            None => Ok(Asked::Broken { position: 0 }),
        }
    }

    // A request on a session.
    fn serve_session(
        &mut self,
        content: &C,
        tables: &Tables<C>,
        device: DeviceNo,
        owner: &PassOwner,
        entries: &mut Vec<PassEntry>,
        session: SessionId,
        request: &Request,
    ) -> Result<Asked, NoMemory>
        requires room { length entries.old.items + 2 ≤ vec_capacity entries.old }
        requires content { N.run.content ≡ Some content.now }
        requires tables { N.run.tables ≡ tables.now }
        requires edits_belong { All (C.meaning content.now).edit_belongs tables.now.edits }
        requires asks { is_opening request.now ≡ false }
        ensures served { IfOk result (λ asked. Leaves asked self.new entries.new.items
            (serve_on (C.meaning content.now) tables.now device owner.now self.old entries.old.items session request.now)) }
        ensures no_memory { OnErr result (StaysOrAdvances (C.meaning content.now) self.old self.new) }
        ensures pass { OnErr result (entries.new.items ≡ entries.old.items) }
        ensures plain { IfOk result (λ asked. is_plain asked ≡ true) }
    {
        if !self.may_ask(owner, session) {
            return self.tell_end(device, owner, entries, session);
        }
        self.room()?;
        if !self.is_managers(session) {
            return self.answer(content, tables, device, entries, session, request, false);
        }
        self.prepare(content);
        self.serve_manager(content, tables, device, entries, session, request)
    }

    // The caller may ask on the session.
    fn may_ask(&self, owner: &PassOwner, session: SessionId) -> bool
        ensures { result ≡ may_ask owner.now self.now session }
    {
        self.device.has_session(session) && !(is_operator(owner) && self.is_managers(session))
    }

    // The session isn't open: the caller finds what ended it.
    fn tell_end(
        &mut self,
        device: DeviceNo,
        owner: &PassOwner,
        entries: &mut Vec<PassEntry>,
        session: SessionId,
    ) -> Result<Asked, NoMemory>
        requires room { length entries.old.items + 2 ≤ vec_capacity entries.old }
        ensures found { IfOk result (λ asked. Leaves asked self.new entries.new.items (tells_end device self.old entries.old.items
            (found owner.now device session entries.old.items self.old.recorded.history))) }
        ensures unchanged { self.new ≡ self.old }
        ensures pass { OnErr result (entries.new.items ≡ entries.old.items) }
        ensures plain { IfOk result (λ asked. is_plain asked ≡ true) }
    {
        let managers = self.is_managers(session);
        let it = ended::found_at(
            owner,
            managers,
            device,
            session,
            entries.as_slice(),
            self.history.as_slice(),
        )?;
        let position = it.position;
        ended::keep_found(entries, device, it);
        Ok(Asked::Broken { position })
    }
}

// Requests of open sessions.
impl<C: Content, N: RunName<C, C::Config, C::Edit>> KeptDevice<C, N> {
    ghost use Rattle.nm_sessions.specs.Sessions.{is_open};
    ghost use Rattle.nm_proto.specs.declared.fault.PlanFault.{PlanFault};
    ghost use Rattle.nm_cells.specs.Faults.{due};

    // A request of the manager, by the fault that comes with it.
    #[tactic(auto, using(crate::proofs::Follows::due_breaks))]
    fn serve_manager(
        &mut self,
        content: &C,
        tables: &Tables<C>,
        device: DeviceNo,
        entries: &mut Vec<PassEntry>,
        session: SessionId,
        request: &Request,
    ) -> Result<Asked, NoMemory>
        requires spare { 2 ≤ self.old.spare }
        requires room { length entries.old.items + 2 ≤ vec_capacity entries.old }
        requires content { N.run.content ≡ Some content.now }
        requires tables { N.run.tables ≡ tables.now }
        requires edits_belong { All (C.meaning content.now).edit_belongs tables.now.edits }
        requires open { is_open self.old.recorded.device.sessions session ≡ true }
        requires asks { is_opening request.now ≡ false }
        requires manager { is_managers session self.old.recorded.history ≡ true }
        requires settled { advance_of (due self.old.faults) ≡ None }
        ensures served { IfOk result (λ asked. Leaves asked self.new entries.new.items
            (manager_asks (C.meaning content.now) tables.now device self.old entries.old.items session request.now)) }
        ensures unchanged { OnErr result (self.new ≡ self.old) }
        ensures pass { OnErr result (entries.new.items ≡ entries.old.items) }
        ensures plain { IfOk result (λ asked. is_plain asked ≡ true) }
    {
        match &self.due() {
            None => self.answer(content, tables, device, entries, session, request, true),
            Some(PlanFault::Advance { .. }) => {
                self.answer(content, tables, device, entries, session, request, true)
            }
            Some(PlanFault::Drop) => {
                Ok(self.break_by_loss(content, device, entries, session, true))
            }
            Some(PlanFault::Cut) => self.cut(content, tables, device, entries, session, request),
            Some(PlanFault::Restart) => Ok(self.break_by_restart(content, device, entries)),
        }
    }

    // A request is done and answered: its entry stands in the history and in the pass.
    fn answer(
        &mut self,
        content: &C,
        tables: &Tables<C>,
        device: DeviceNo,
        entries: &mut Vec<PassEntry>,
        session: SessionId,
        request: &Request,
        counts: bool,
    ) -> Result<Asked, NoMemory>
        requires spare { 1 ≤ self.old.spare }
        requires room { length entries.old.items < vec_capacity entries.old }
        requires content { N.run.content ≡ Some content.now }
        requires tables { N.run.tables ≡ tables.now }
        requires edits_belong { All (C.meaning content.now).edit_belongs tables.now.edits }
        requires open { is_open self.old.recorded.device.sessions session ≡ true }
        requires asks { is_opening request.now ≡ false }
        requires counts { counts ≡ is_managers session self.old.recorded.history }
        requires clock { clock_if counts (due self.old.faults) ≡ [] }
        ensures answered { IfOk result (λ asked. Leaves asked self.new entries.new.items
            (happens device counts self.old entries.old.items (DeviceEvent.Asked session request.now)
            (asking (C.meaning content.now) tables.now self.old session request.now))) }
        ensures unchanged { OnErr result (self.new ≡ self.old) }
        ensures pass { OnErr result (entries.new.items ≡ entries.old.items) }
        ensures capacity { vec_capacity entries.new ≡ vec_capacity entries.old }
        ensures plain { IfOk result (λ asked. is_plain asked ≡ true) }
    {
        let asked = request.copy()?;
        let position = place_after(self.history.len());
        let Told {
            reply,
            again,
            undone,
        } = self.ask(content, tables, session, request, counts)?;
        entries.push_reserved(PassEntry {
            device,
            position,
            noted: Noted {
                event: DeviceEvent::Asked {
                    session,
                    request: asked,
                },
                reply: Some(again),
                undone,
            },
        });
        Ok(Asked::Answered { position, reply })
    }

    // A request is done, and then its reply and the session are lost.
    fn cut(
        &mut self,
        content: &C,
        tables: &Tables<C>,
        device: DeviceNo,
        entries: &mut Vec<PassEntry>,
        session: SessionId,
        request: &Request,
    ) -> Result<Asked, NoMemory>
        requires spare { 2 ≤ self.old.spare }
        requires room { length entries.old.items + 2 ≤ vec_capacity entries.old }
        requires content { N.run.content ≡ Some content.now }
        requires tables { N.run.tables ≡ tables.now }
        requires edits_belong { All (C.meaning content.now).edit_belongs tables.now.edits }
        requires open { is_open self.old.recorded.device.sessions session ≡ true }
        requires asks { is_opening request.now ≡ false }
        requires manager { is_managers session self.old.recorded.history ≡ true }
        requires clock { clock_of_due (due self.old.faults) ≡ [] }
        requires breaks { plans_breaks self.old.faults.plan ≡ true }
        ensures cut { IfOk result (λ asked. Leaves asked self.new entries.new.items
            (cut_off (C.meaning content.now) device (Some session) (happens device true self.old entries.old.items
            (DeviceEvent.Asked session request.now) (asking (C.meaning content.now) tables.now self.old session request.now)))) }
        ensures unchanged { OnErr result (self.new ≡ self.old) }
        ensures pass { OnErr result (entries.new.items ≡ entries.old.items) }
        ensures plain { IfOk result (λ asked. is_plain asked ≡ true) }
    {
        let asked = self.answer(content, tables, device, entries, session, request, true)?;
        if !self.device.has_session(session) {
            return Ok(asked);
        }
        Ok(self.break_by_loss(content, device, entries, session, false))
    }

    // The session is lost, which breaks the call.
    fn break_by_loss(
        &mut self,
        content: &C,
        device: DeviceNo,
        entries: &mut Vec<PassEntry>,
        session: SessionId,
        counts: bool,
    ) -> Asked
        requires spare { 1 ≤ self.old.spare }
        requires room { length entries.old.items < vec_capacity entries.old }
        requires content { N.run.content ≡ Some content.now }
        requires open { is_open self.old.recorded.device.sessions session ≡ true }
        requires clock { clock_if counts (due self.old.faults) ≡ [] }
        requires breaks { is_managers session self.old.recorded.history ≡ true → plans_breaks self.old.faults.plan ≡ true }
        ensures broken { Leaves result self.new entries.new.items
            (loses (C.meaning content.now) device counts self.old entries.old.items session) }
        ensures plain { is_plain result ≡ true }
    {
        let position = place_after(self.history.len());
        let undone = self.lose(content, session, counts);
        entries.push_reserved(PassEntry {
            device,
            position,
            noted: Noted {
                event: DeviceEvent::Lost { session },
                reply: None,
                undone,
            },
        });
        Asked::Broken { position }
    }
}

// Openings of sessions, and restarts.
impl<C: Content, N: RunName<C, C::Config, C::Edit>> KeptDevice<C, N> {
    ghost use Rattle.nm_history.specs.History.{entering};
    ghost use Rattle.nm_proto.specs.declared.fault.PlanFault.{PlanFault};
    ghost use Rattle.nm_cells.specs.Faults.{due};

    // Somebody asks for a session.
    fn serve_opening(
        &mut self,
        content: &C,
        device: DeviceNo,
        entries: &mut Vec<PassEntry>,
        user: &Label,
    ) -> Result<Asked, NoMemory>
        requires room { length entries.old.items + 2 ≤ vec_capacity entries.old }
        requires content { N.run.content ≡ Some content.now }
        ensures served { IfOk result (λ asked. Leaves asked self.new entries.new.items
            (enters (C.meaning content.now) device (with_room self.old) entries.old.items user.now)) }
        ensures no_memory { OnErr result (StaysOrAdvances (C.meaning content.now) self.old self.new) }
        ensures pass { OnErr result (entries.new.items ≡ entries.old.items) }
        ensures plain { IfOk result (λ asked. is_plain asked ≡ true) }
    {
        self.room()?;
        if user.as_str() != MANAGER {
            return self.let_in(device, entries, user, false);
        }
        self.prepare(content);
        self.open_manager(content, device, entries, user)
    }

    // The manager asks for one, by the fault that comes with that.
    #[tactic(auto, using(crate::proofs::Follows::due_breaks))]
    fn open_manager(
        &mut self,
        content: &C,
        device: DeviceNo,
        entries: &mut Vec<PassEntry>,
        user: &Label,
    ) -> Result<Asked, NoMemory>
        requires spare { 2 ≤ self.old.spare }
        requires room { length entries.old.items + 2 ≤ vec_capacity entries.old }
        requires content { N.run.content ≡ Some content.now }
        requires manager { bytes_eq user.now manager ≡ true }
        requires settled { advance_of (due self.old.faults) ≡ None }
        ensures served { IfOk result (λ asked. Leaves asked self.new entries.new.items
            (manager_enters (C.meaning content.now) device self.old entries.old.items user.now)) }
        ensures unchanged { OnErr result (self.new ≡ self.old) }
        ensures pass { OnErr result (entries.new.items ≡ entries.old.items) }
        ensures plain { IfOk result (λ asked. is_plain asked ≡ true) }
    {
        match &self.due() {
            None => self.let_in(device, entries, user, true),
            Some(PlanFault::Advance { .. }) => self.let_in(device, entries, user, true),
            Some(PlanFault::Drop) => self.cut_opening(content, device, entries, user),
            Some(PlanFault::Cut) => self.cut_opening(content, device, entries, user),
            Some(PlanFault::Restart) => Ok(self.break_by_restart(content, device, entries)),
        }
    }

    // An opening is done and answered: its entry stands in the history and in the pass.
    fn let_in(
        &mut self,
        device: DeviceNo,
        entries: &mut Vec<PassEntry>,
        user: &Label,
        counts: bool,
    ) -> Result<Asked, NoMemory>
        requires spare { 1 ≤ self.old.spare }
        requires room { length entries.old.items < vec_capacity entries.old }
        requires counts { counts ≡ bytes_eq user.now manager }
        requires clock { clock_if counts (due self.old.faults) ≡ [] }
        ensures answered { IfOk result (λ asked. Leaves asked self.new entries.new.items
            (happens device counts self.old entries.old.items (DeviceEvent.Entered user.now)
            (entering self.old.recorded.device user.now))) }
        ensures unchanged { OnErr result (self.new ≡ self.old) }
        ensures pass { OnErr result (entries.new.items ≡ entries.old.items) }
        ensures capacity { vec_capacity entries.new ≡ vec_capacity entries.old }
        ensures plain { IfOk result (λ asked. is_plain asked ≡ true) }
    {
        let entered = user.copy()?;
        let position = place_after(self.history.len());
        let Told {
            reply,
            again,
            undone,
        } = self.enter(user.copy()?, counts)?;
        entries.push_reserved(PassEntry {
            device,
            position,
            noted: Noted {
                event: DeviceEvent::Entered { user: entered },
                reply: Some(again),
                undone,
            },
        });
        Ok(Asked::Answered { position, reply })
    }

    // An opening is done, and then its reply and the session are lost.
    fn cut_opening(
        &mut self,
        content: &C,
        device: DeviceNo,
        entries: &mut Vec<PassEntry>,
        user: &Label,
    ) -> Result<Asked, NoMemory>
        requires spare { 2 ≤ self.old.spare }
        requires room { length entries.old.items + 2 ≤ vec_capacity entries.old }
        requires content { N.run.content ≡ Some content.now }
        requires manager { bytes_eq user.now manager ≡ true }
        requires clock { clock_of_due (due self.old.faults) ≡ [] }
        requires breaks { plans_breaks self.old.faults.plan ≡ true }
        ensures cut { IfOk result (λ asked. Leaves asked self.new entries.new.items
            (cut (C.meaning content.now) device None (happens device true self.old entries.old.items
            (DeviceEvent.Entered user.now) (entering self.old.recorded.device user.now)))) }
        ensures unchanged { OnErr result (self.new ≡ self.old) }
        ensures pass { OnErr result (entries.new.items ≡ entries.old.items) }
        ensures plain { IfOk result (λ asked. is_plain asked ≡ true) }
    {
        let asked = self.let_in(device, entries, user, true)?;
        let Some(session) = opened_session(&asked) else {
            return Ok(asked);
        };
        if !self.device.has_session(session) {
            return Ok(asked);
        }
        Ok(self.break_by_loss(content, device, entries, session, false))
    }

    // The device restarts, which breaks the call.
    fn break_by_restart(
        &mut self,
        content: &C,
        device: DeviceNo,
        entries: &mut Vec<PassEntry>,
    ) -> Asked
        requires spare { 1 ≤ self.old.spare }
        requires room { length entries.old.items < vec_capacity entries.old }
        requires content { N.run.content ≡ Some content.now }
        requires due { due self.old.faults ≡ Some PlanFault.Restart }
        ensures broken { Leaves result self.new entries.new.items
            (restarts (C.meaning content.now) device self.old entries.old.items) }
        ensures plain { is_plain result ≡ true }
    {
        let position = place_after(self.history.len());
        let undone = self.restart(content);
        entries.push_reserved(PassEntry {
            device,
            position,
            noted: Noted {
                event: DeviceEvent::Restarted,
                reply: None,
                undone,
            },
        });
        Asked::Broken { position }
    }
}

// The user who asks for a session.
fn opening_user(request: &Request) -> Option<&Label>
    ensures { option_copied result ≡ opening_user request.now }
{
    match request {
        Request::OpenSession { user } => Some(user),
        _ => None,
    }
}

// The session that a call was told to have opened.
fn opened_session(asked: &Asked) -> Option<SessionId>
    ensures { result ≡ opened_session asked.now }
{
    let Asked::Answered { reply, .. } = asked else {
        return None;
    };
    match reply {
        Reply::Opened(session) => Some(*session),
        _ => None,
    }
}

fn is_operator(owner: &PassOwner) -> bool
    ensures { result ≡ is_operator owner.now }
{
    match owner {
        PassOwner::Coordinator { .. } => false,
        PassOwner::Operator { .. } => true,
    }
}
