//! A device behind its lock.

ghost use Rattle.std.specs.Prelude.{◌≡◌, true, Some, IfOk, OnErr};
ghost use Rattle.std.specs.List.{All};
ghost use Rattle.nm_history.specs.History.{event_of};
ghost use Rattle.nm_cells.specs.Kept.{IsKept};
ghost use Rattle.nm_cells.specs.Asking.{FindsBy, is_plain};
ghost use Rattle.nm_cells.specs.Follows.{FollowsPlans};
ghost use Rattle.nm_cells.specs.Pass.{is_operator};
ghost use Rattle.nm_cells.specs.State.{acknowledged, is_in_turn, may_operate, slot_after};

use crate::asked::Asked;
use crate::pass::Pass;
use crate::state::CellState;
use nm_base::{DeviceNo, NoMemory, SessionId};
use nm_chronicle::{Chronicle, SlotShares};
use nm_proto::{Content, Request, Tables};
use nm_run_plan::RunName;
use std::sync::{Mutex, Wait};

/// A device of a run behind its lock. What its type keeps is so whenever the lock is free.
pub struct DeviceCell<C: Content, N: RunName<C, C::Config, C::Edit>> {
    device: DeviceNo,
    state: Mutex<CellState<C, N>>,
}

impl<C: Content, N: RunName<C, C::Config, C::Edit>> Drop for DeviceCell<C, N> {
    fn drop(self) {
        let DeviceCell { device: _, state } = self;
        drop(state);
    }
}

impl<C: Content, N: RunName<C, C::Config, C::Edit>> DeviceCell<C, N> {
    ghost use Rattle.nm_cells.specs.End.{FoundHungUp};

    /// Puts a device behind a lock, under the number by which passes tell it.
    pub fn new(device: DeviceNo, state: CellState<C, N>) -> DeviceCell<C, N>
        ensures { result.device ≡ device }
    {
        DeviceCell {
            device,
            state: Mutex::new(state),
        }
    }

    /// The number under which passes tell of the device.
    pub fn device(&self) -> DeviceNo
        ensures { result ≡ self.now.device }
    {
        self.device
    }

    /// A request of an operator, once the lock is free, as `CellState::serve` answers it. What the operator finds of it stands in
    /// the pass, at the place that is told.
    pub fn ask<R: Wait>(
        &self,
        rt: &R,
        content: &C,
        tables: &Tables<C>,
        chronicle: &Mutex<Chronicle<N>>,
        pass: &mut Pass,
        session: Option<SessionId>,
        request: &Request,
    ) -> Result<Asked, NoMemory>
        requires operator { may_operate pass.old.owner request.now ≡ true }
        requires content { N.run.content ≡ Some content.now }
        requires tables { N.run.tables ≡ tables.now }
        requires edits_belong { All (C.meaning content.now).edit_belongs tables.now.edits }
        ensures found { IfOk result
            (λ asked. FindsBy pass.old.owner (event_of session request.now) asked pass.old.entries pass.new.entries self.now.device) }
        ensures owner { pass.new.owner ≡ pass.old.owner }
        ensures unchanged { OnErr result (pass.new ≡ pass.old) }
        ensures plain { IfOk result (λ asked. is_plain asked ≡ true) }
    {
        self.state.lock(rt).serve(
            rt,
            self.device,
            content,
            tables,
            chronicle,
            pass,
            session,
            request,
        )
    }

    /// A request of the coordinator of a change set, whose slot is lent, as `CellState::serve_change` answers it. `is_in_turn`
    /// tells whether it may ask this.
    pub fn ask_change<R: Wait>(
        &self,
        rt: &R,
        content: &C,
        tables: &Tables<C>,
        chronicle: &Mutex<Chronicle<N>>,
        slot: &mut SlotShares<N>,
        pass: &mut Pass,
        session: Option<SessionId>,
        request: &Request,
    ) -> Result<Asked, NoMemory>
        requires turn { is_in_turn N.changes pass.old.owner slot.old self.now.device request.now ≡ true }
        requires content { N.run.content ≡ Some content.now }
        requires tables { N.run.tables ≡ tables.now }
        requires edits_belong { All (C.meaning content.now).edit_belongs tables.now.edits }
        ensures found { IfOk result
            (λ asked. FindsBy pass.old.owner (event_of session request.now) asked pass.old.entries pass.new.entries self.now.device) }
        ensures slot { IfOk result (λ asked. slot.new ≡ slot_after slot.old (acknowledged pass.old.owner request.now asked)) }
        ensures owner { pass.new.owner ≡ pass.old.owner }
        ensures unchanged { OnErr result (pass.new ≡ pass.old) }
        ensures slot_stays { OnErr result (slot.new ≡ slot.old) }
        ensures plain { IfOk result (λ asked. is_plain asked ≡ true) }
    {
        self.state.lock(rt).serve_change(
            rt,
            self.device,
            content,
            tables,
            chronicle,
            slot,
            pass,
            session,
            request,
        )
    }

    /// An operator hangs up a session, once the lock is free. Answers the place of the loss in the device's history, and
    /// keeps the loss in the pass at this place. Answers None where the session isn't open or is the manager's.
    pub fn hang_up<R: Wait>(
        &self,
        rt: &R,
        content: &C,
        chronicle: &Mutex<Chronicle<N>>,
        pass: &mut Pass,
        session: SessionId,
    ) -> Result<Option<u32>, NoMemory>
        requires operator { is_operator pass.old.owner ≡ true }
        requires content { N.run.content ≡ Some content.now }
        ensures pass { IfOk result (λ position. FoundHungUp position pass.old pass.new self.now.device session) }
        ensures unchanged { OnErr result (pass.new ≡ pass.old) }
    {
        self.state
            .lock(rt)
            .end(rt, self.device, content, chronicle, pass, session)
    }

    /// The device, taken out of its lock.
    pub fn into_state(self) -> CellState<C, N>
        ensures kept { IsKept C.meaning N.run result.kept }
        ensures follows { FollowsPlans result.kept.faults.plan result.kept.recorded.history }
    {
        let DeviceCell { device: _, state } = self;
        let state = state.into_inner();
        let _ = state.device();
        state
    }
}
