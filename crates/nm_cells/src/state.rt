//! A device of a run with how far each change set has come there. What it does is told to the board that all threads share.

ghost use Rattle.std.specs.Prelude.{◌≡◌, ◌≤◌, ◌+◌, ◌-◌, ◌^◌, ◌<◌, true, Some, IfOk, OnErr, slice_get, take, length};
ghost use Rattle.std.specs.List.{All, sum_by};
ghost use Rattle.nm_base.specs.Token.{token_of};
ghost use Rattle.nm_history.specs.Outcome.{outcome_of};
ghost use Rattle.nm_device.specs.Device.{is_manager};
ghost use Rattle.nm_device.specs.Table.{opening_user};
ghost use Rattle.nm_proto.specs.Fault.{IsPlan};
ghost use Rattle.nm_chronicle.specs.Line.{phase_weight};
ghost use Rattle.nm_chronicle.specs.Phases.{fresh_phases, outcome_phase, Follow};
ghost use Rattle.nm_cells.specs.Asking.{is_plain};
ghost use Rattle.nm_cells.specs.Pass.{is_operator};
ghost use Rattle.nm_cells.specs.State.{acknowledged, is_answered_done, is_in_turn, may_operate, slot_after};

use crate::asked::Asked;
use crate::kept::KeptDevice;
use crate::pass::{Pass, PassOwner};
use nm_base::{ChangeNo, DeviceNo, MANAGER, NoMemory, SessionId};
use nm_chronicle::{CellShare, Chronicle, Phases, SlotShares, commits_for};
use nm_device::Device;
use nm_history::Noted;
use nm_proto::{ChangePlan, Content, PlanEntry, Reply, Request, Tables};
use nm_run_plan::{RunName, RunPlans};
use std::alloc::Global;
use std::marker::Model;
use std::sync::{Mutex, Wait};

/// A device of a run as it stands behind its lock: with its history, the faults that are planned for it, the phase of each
/// change set and its share of the run's ledger.
pub struct CellState<C: Content, N: RunName<C, C::Config, C::Edit>> {
    kept: KeptDevice<C, N>,
    phases: Phases<N>,
}

impl<C: Content, N: RunName<C, C::Config, C::Edit>> Drop for CellState<C, N> {
    fn drop(self) {
        let CellState { kept, phases } = self;
        drop(kept);
        drop(phases);
    }
}

impl<C: Content, N: RunName<C, C::Config, C::Edit>> Model for CellState<C, N> {
    ghost use Rattle.nm_chronicle.specs.Phases.{Follow};
    ghost use Rattle.nm_cells.specs.State.{CellView};

    ghost Value = { CellView C.Config C.Node };

    ghost view = { λ c. record { kept = c.kept; phases = c.phases } };

    ghost invariant = { λ c. Follow c.phases c.kept.recorded.history };
}

impl<C: Content, N: RunName<C, C::Config, C::Edit>> CellState<C, N> {
    ghost use Rattle.nm_device.specs.Device.{fresh_device, IsSound};
    ghost use Rattle.nm_cells.specs.Faults.{planned};
    ghost use Rattle.nm_cells.specs.Kept.{fresh_kept, IsKept};
    ghost use Rattle.nm_cells.specs.Follows.{FollowsPlans};

    /// A device of a run, at which nothing has happened yet, with the faults that are planned for it and its share.
    pub fn new(
        alloc: Global,
        number: DeviceNo,
        device: Device<C>,
        plan: Vec<PlanEntry>,
        share: CellShare<N>,
    ) -> Result<CellState<C, N>, NoMemory>
        requires first { slice_get N.run.starts (number - 1) ≡ Some device.stores.running }
        requires fresh { device ≡ fresh_device device.stores.running }
        requires sound { (content : C) → N.run.content ≡ Some content → IsSound (C.meaning content) device }
        requires plan { IsPlan plan.items }
        requires planned { slice_get N.run.faults (number - 1) ≡ Some plan.items }
        requires share { share ≡ 0 }
        ensures kept { IfOk result (λ cell. cell.kept ≡ fresh_kept number device.stores.running (planned plan.items)) }
        ensures phases { IfOk result (λ cell. cell.phases ≡ fresh_phases) }
    {
        let phases = Phases::new(alloc, share)?;
        Ok(CellState {
            kept: KeptDevice::new(alloc, number, device, plan),
            phases,
        })
    }

    /// The number of the device.
    pub fn number(&self) -> DeviceNo
        ensures { result ≡ self.now.kept.number }
    {
        self.kept.number()
    }

    /// The device, which its history leads to.
    pub fn device(&self) -> &Device<C>
        ensures device { result.now ≡ self.now.kept.recorded.device }
        ensures kept { IsKept C.meaning N.run self.now.kept }
        ensures follows { FollowsPlans self.now.kept.faults.plan self.now.kept.recorded.history }
    {
        self.kept.device()
    }

    /// What has happened at it, oldest first. It takes no memory.
    pub fn history(&self) -> &[Noted]
        ensures { result.now ≡ self.now.kept.recorded.history }
    {
        self.kept.history()
    }

    /// The phase of a change set there, which is that of its outcome by the history: 0 none, 1 applied, 2 confirmed, 3 undone
    /// by a timer, the end of a session or a restart, 4 cancelled.
    pub fn phase(&self, change: ChangeNo) -> u8
        ensures { result ≡ outcome_phase (outcome_of (token_of change) self.now.kept.recorded.history) }
    {
        self.phases.phase(change)
    }

    /// The device, its history and its share, which is what the phases weigh. It takes no memory.
    pub fn into_parts(self) -> (Device<C>, Vec<Noted>, CellShare<N>)
        ensures device { result.0 ≡ self.kept.recorded.device }
        ensures history { result.1.items ≡ self.kept.recorded.history }
        ensures share { result.2 ≡ sum_by phase_weight self.phases.phases }
        ensures kept { IsKept C.meaning N.run self.kept }
    {
        let CellState { kept, phases } = self;
        let (device, history) = kept.into_parts();
        (device, history, phases.into_share())
    }
}

// Calls.
impl<C: Content, N: RunName<C, C::Config, C::Edit>> CellState<C, N> {
    ghost use Rattle.nm_cells.specs.Serve.{serve_of, Leaves, StaysOrAdvances};
    ghost use Rattle.nm_cells.specs.End.{Ends};

    /// A request of an operator, on a session or for one, under the faults that are planned for the device, as
    /// `KeptDevice::serve` does it. Where a phase changes, the board is told, once it is free.
    pub fn serve<R: Wait>(
        &mut self,
        rt: &R,
        device: DeviceNo,
        content: &C,
        tables: &Tables<C>,
        chronicle: &Mutex<Chronicle<N>>,
        pass: &mut Pass,
        session: Option<SessionId>,
        request: &Request,
    ) -> Result<Asked, NoMemory>
        requires operator { may_operate pass.old.owner request.now ≡ true }
        requires content { N.run.content ≡ Some content.now }
        requires tables { N.run.tables ≡ tables.now }
        requires edits_belong { All (C.meaning content.now).edit_belongs tables.now.edits }
        ensures served { IfOk result
            (λ asked. Leaves asked self.new.kept pass.new.entries
            (serve_of (C.meaning content.now) tables.now device pass.old.owner self.old.kept pass.old.entries session request.now)) }
        ensures owner { pass.new.owner ≡ pass.old.owner }
        ensures no_memory { OnErr result (StaysOrAdvances (C.meaning content.now) self.old.kept self.new.kept) }
        ensures pass { OnErr result (pass.new ≡ pass.old) }
        ensures plain { IfOk result (λ asked. is_plain asked ≡ true) }
    {
        let mut board = chronicle.lock(rt);
        board.room()?;
        self.serve_told(&mut board, device, content, tables, pass, session, request)
    }

    /// The same for the coordinator of a change set, whose slot is lent: where its confirmed commit is answered Done, that is
    /// acknowledged. `is_in_turn` tells whether it may ask this.
    pub fn serve_change<R: Wait>(
        &mut self,
        rt: &R,
        device: DeviceNo,
        content: &C,
        tables: &Tables<C>,
        chronicle: &Mutex<Chronicle<N>>,
        slot: &mut SlotShares<N>,
        pass: &mut Pass,
        session: Option<SessionId>,
        request: &Request,
    ) -> Result<Asked, NoMemory>
        requires turn { is_in_turn N.changes pass.old.owner slot.old device request.now ≡ true }
        requires content { N.run.content ≡ Some content.now }
        requires tables { N.run.tables ≡ tables.now }
        requires edits_belong { All (C.meaning content.now).edit_belongs tables.now.edits }
        ensures served { IfOk result
            (λ asked. Leaves asked self.new.kept pass.new.entries
            (serve_of (C.meaning content.now) tables.now device pass.old.owner self.old.kept pass.old.entries session request.now)) }
        ensures owner { pass.new.owner ≡ pass.old.owner }
        ensures slot { IfOk result (λ asked. slot.new ≡ slot_after slot.old (acknowledged pass.old.owner request.now asked)) }
        ensures no_memory { OnErr result (StaysOrAdvances (C.meaning content.now) self.old.kept self.new.kept) }
        ensures pass { OnErr result (pass.new ≡ pass.old) }
        ensures slot_stays { OnErr result (slot.new ≡ slot.old) }
        ensures plain { IfOk result (λ asked. is_plain asked ≡ true) }
    {
        if slot.acked() == u32::MAX {
            return Err(NoMemory);
        }
        let mut board = chronicle.lock(rt);
        board.room()?;
        let asked = self.serve_told(&mut board, device, content, tables, pass, session, request)?;
        if let Some(change) = acknowledged(&pass.owner(), request, &asked) {
            board.acked(change, device, slot);
        }
        Ok(asked)
    }

    /// An operator hangs up a session, as `KeptDevice::end` does it. Where that undoes a commit, the board is told, once it is
    /// free.
    pub fn end<R: Wait>(
        &mut self,
        rt: &R,
        device: DeviceNo,
        content: &C,
        chronicle: &Mutex<Chronicle<N>>,
        pass: &mut Pass,
        session: SessionId,
    ) -> Result<Option<u32>, NoMemory>
        requires operator { is_operator pass.old.owner ≡ true }
        requires content { N.run.content ≡ Some content.now }
        ensures ended { IfOk result (λ position. Ends (C.meaning content.now) position self.old.kept self.new.kept pass.old pass.new device session) }
        ensures unchanged { OnErr result (self.new ≡ self.old) }
        ensures pass { OnErr result (pass.new ≡ pass.old) }
    {
        let mut board = chronicle.lock(rt);
        board.room()?;
        self.end_told(&mut board, device, content, pass, session)
    }

    // A request, told to the board.
    fn serve_told(
        &mut self,
        board: &mut Chronicle<N>,
        device: DeviceNo,
        content: &C,
        tables: &Tables<C>,
        pass: &mut Pass,
        session: Option<SessionId>,
        request: &Request,
    ) -> Result<Asked, NoMemory>
        requires room { 4 ≤ board.old.spare }
        requires content { N.run.content ≡ Some content.now }
        requires tables { N.run.tables ≡ tables.now }
        requires edits_belong { All (C.meaning content.now).edit_belongs tables.now.edits }
        ensures served { IfOk result
            (λ asked. Leaves asked self.new.kept pass.new.entries
            (serve_of (C.meaning content.now) tables.now device pass.old.owner self.old.kept pass.old.entries session request.now)) }
        ensures owner { pass.new.owner ≡ pass.old.owner }
        ensures no_memory { OnErr result (StaysOrAdvances (C.meaning content.now) self.old.kept self.new.kept) }
        ensures pass { OnErr result (pass.new ≡ pass.old) }
        ensures room { 1 ≤ board.new.spare }
        ensures plain { IfOk result (λ asked. is_plain asked ≡ true) }
    {
        let before = self.kept.history().len();
        let asked = self
            .kept
            .serve(content, tables, device, pass, session, request);
        tell_gained(&self.kept, &mut self.phases, board, device, before);
        asked
    }

    // A hanging up, told to the board.
    fn end_told(
        &mut self,
        board: &mut Chronicle<N>,
        device: DeviceNo,
        content: &C,
        pass: &mut Pass,
        session: SessionId,
    ) -> Result<Option<u32>, NoMemory>
        requires room { 4 ≤ board.old.spare }
        requires operator { is_operator pass.old.owner ≡ true }
        requires content { N.run.content ≡ Some content.now }
        ensures ended { IfOk result (λ position. Ends (C.meaning content.now) position self.old.kept self.new.kept pass.old pass.new device session) }
        ensures unchanged { OnErr result (self.new ≡ self.old) }
        ensures pass { OnErr result (pass.new ≡ pass.old) }
    {
        let before = self.kept.history().len();
        let position = self.kept.end(content, device, pass, session)?;
        tell_gained(&self.kept, &mut self.phases, board, device, before);
        Ok(position)
    }
}

// Tells the board what a history gained after so many entries.
fn tell_gained<C: Content, N: RunName<C, C::Config, C::Edit>>(
    kept: &KeptDevice<C, N>,
    phases: &mut Phases<N>,
    board: &mut Chronicle<N>,
    device: DeviceNo,
    before: usize,
)
    requires before { before ≤ length kept.now.recorded.history }
    requires room { length kept.now.recorded.history ≤ before + board.old.spare }
    ensures follow { Follow phases.old (take before kept.now.recorded.history) → Follow phases.new kept.now.recorded.history }
    ensures room { board.old.spare + before ≤ board.new.spare + length kept.now.recorded.history }
{
    let (_, gained) = kept.history().split_at(before);
    phases.tell(board, device, gained);
}

/// Whether a caller is an operator and may ask this: anything but for a session of the manager.
pub fn may_operate(owner: &PassOwner, request: &Request) -> bool
    ensures { result ≡ may_operate owner.now request.now }
{
    match owner {
        PassOwner::Coordinator { .. } => false,
        PassOwner::Operator { .. } => !opens_for_manager(request),
    }
}

/// Whether a caller is the coordinator of a change set, whose slot this is, and may ask this of a device now, as
/// `SlotShares::allows` tells.
pub fn is_in_turn<N: RunPlans>(
    changes: &[ChangePlan],
    owner: &PassOwner,
    slot: &SlotShares<N>,
    device: DeviceNo,
    request: &Request,
) -> bool
    ensures { result ≡ is_in_turn changes.now owner.now slot.now device request.now }
{
    match owner {
        PassOwner::Coordinator { change } => slot.allows(changes, *change, device, request),
        PassOwner::Operator { .. } => false,
    }
}

// Whether a request asks for a session of the manager.
fn opens_for_manager(request: &Request) -> bool
    ensures { result ≡ is_manager (opening_user request.now) }
{
    match request {
        Request::OpenSession { user } => user.as_str() == MANAGER,
        _ => false,
    }
}

// The change set whose coordinator learns that its confirmed commit was done.
fn acknowledged(owner: &PassOwner, request: &Request, asked: &Asked) -> Option<ChangeNo>
    ensures { result ≡ acknowledged owner.now request.now asked.now }
{
    match owner {
        PassOwner::Coordinator { change } => {
            if commits_for(*change, request) && is_answered_done(asked) {
                return Some(*change);
            }
            None
        }
        PassOwner::Operator { .. } => None,
    }
}

fn is_answered_done(asked: &Asked) -> bool
    ensures { result ≡ is_answered_done asked.now }
{
    match asked {
        Asked::Answered { reply, .. } => matches!(reply, Reply::Done),
        Asked::Broken { .. } => false,
    }
}
