//! What the coordinator of one change set keeps behind its lock.

ghost use Rattle.std.specs.Prelude.{◌≡◌, ◌-◌, true, None, Some, Err, IfOk, OnOk, OnErr, is_some, option_copied, slice_get};
ghost use Rattle.std.specs.List.{All};
ghost use Rattle.nm_proto.specs.declared.journal.Entry.TheVariants.{Decided};
ghost use Rattle.nm_history.specs.History.{event_of};
ghost use Rattle.nm_cells.specs.Asking.{FindsBy, is_plain};
ghost use Rattle.nm_cells.specs.State.{acknowledged, slot_after};
ghost use Rattle.nm_slots.specs.Book.{journal_with};
ghost use Rattle.nm_slots.specs.Slot.{begun, view_asked, view_decided, verdict_stands, IsSlotKept};
ghost use Rattle.nm_slots.specs.declared.fault.RunFault.TheVariants as fault;

use crate::book::Book;
use crate::cause::cause_stands;
use crate::course::may_ask;
use crate::fault::RunFault;
use nm_base::{ChangeNo, DeviceNo, NoMemory, SessionId};
use nm_cells::{Asked, DeviceCell, Pass, PassEntry, PassOwner, is_in_turn};
use nm_chronicle::{Chronicle, SlotShares};
use nm_disk::Disk;
use nm_proto::{ChangePlan, Content, Request, Tables, Verdict};
use nm_run_plan::{RunName, RunPlans};
use std::alloc::Global;
use std::marker::Model;
use std::sync::{Mutex, Wait};

/// A change set's coordinator: its shares of the run's ledger, and its pass.
#[derive(Drop)]
pub struct ChangeSlot<N: RunPlans> {
    change: ChangeNo,
    shares: SlotShares<N>,
    pass: Pass,
}

impl<N: RunPlans> Model for ChangeSlot<N> {
    ghost use Rattle.nm_slots.specs.Slot.{SlotView, IsSlotKept};

    ghost Value = { SlotView };

    ghost view = { λ s. record { change = s.change; shares = s.shares; pass = s.pass } };

    ghost invariant = { λ s. IsSlotKept N.changes (record { change = s.change; shares = s.shares; pass = s.pass }) };
}

impl<N: RunPlans> ChangeSlot<N> {
    /// The coordinator of a change set that isn't decided, and of which nothing was asked yet. It takes no memory.
    #[tactic(auto, using(crate::proofs::Courses::begun_keeps))]
    pub fn new(alloc: Global, change: ChangeNo, shares: SlotShares<N>) -> ChangeSlot<N>
        requires undecided { shares.verdict ≡ None }
        ensures { result ≡ begun change shares }
    {
        ChangeSlot {
            change,
            shares,
            pass: Pass::new(alloc, PassOwner::Coordinator { change }),
        }
    }

    /// The change set.
    pub fn change(&self) -> ChangeNo
        ensures { result ≡ self.now.change }
    {
        self.change
    }

    /// How often it told the board that a device is asked for the confirmed commit.
    pub fn asked(&self) -> u32
        ensures { result ≡ self.now.shares.asked }
    {
        self.shares.asked()
    }

    /// What it decided, where it has.
    pub fn verdict(&self) -> Option<Verdict>
        ensures { result ≡ self.now.shares.verdict }
    {
        self.shares.verdict()
    }

    /// What it found at devices, oldest first.
    pub fn entries(&self) -> &[PassEntry]
        ensures value { result.now ≡ self.now.pass.entries }
        ensures kept { IsSlotKept N.changes self.now }
    {
        self.pass.entries()
    }

    /// The pass. It takes no memory.
    pub fn into_pass(self) -> Pass
        ensures { result ≡ self.pass }
    {
        let ChangeSlot {
            change: _,
            shares,
            pass,
        } = self;
        drop(shares);
        pass
    }
}

// What goes onto the board.
impl<N: RunPlans> ChangeSlot<N> {
    /// Tells the board, once it is free, that a device is asked for the confirmed commit.
    #[tactic(auto, using(crate::proofs::Courses::shares_keep))]
    pub fn tell_asked<R: Wait>(
        &mut self,
        rt: &R,
        chronicle: &Mutex<Chronicle<N>>,
        device: DeviceNo,
    ) -> Result<(), NoMemory>
        ensures told { OnOk result (self.new ≡ view_asked self.old) }
        ensures unchanged { OnErr result (self.new ≡ self.old) }
    {
        if self.shares.asked() == u32::MAX {
            return Err(NoMemory);
        }
        let mut board = chronicle.lock(rt);
        board.room()?;
        board.asked(self.change, device, &mut self.shares);
        Ok(())
    }

    /// Decides: the verdict comes into the journal, and then onto the board, once that is free. An abort is decided only where
    /// the pass has its cause. Where there is no memory, and where the verdict may not come, nothing has changed.
    #[tactic(auto, using(crate::proofs::Courses::decided_keeps))]
    pub fn decide<D: Disk + Drop, R: Wait>(
        &mut self,
        rt: &R,
        plans: &[ChangePlan],
        book: &mut Book<D, N>,
        chronicle: &Mutex<Chronicle<N>>,
        verdict: Verdict,
    ) -> Result<(), RunFault>
        requires plans { N.changes ≡ plans.now }
        ensures decided { OnOk result (self.new ≡ view_decided self.old verdict) }
        ensures entered { OnOk result (book.new.journal ≡ journal_with book.old.journal (Decided self.old.change verdict)) }
        ensures unchanged { OnErr result (self.new ≡ self.old) }
        ensures no_memory { result ≡ Err fault.NoMemory → book.new ≡ book.old }
        ensures disk_fault { result ≡ Err fault.DiskFault → is_some book.new.journal.failed ≡ true }
    {
        let Some(plan) = plan_of(plans, self.change) else {
            return Err(RunFault::NoMemory);
        };
        if self.shares.verdict().is_some()
            || !verdict_stands(plan, self.change, self.pass.entries(), &verdict)
        {
            return Err(RunFault::NoMemory);
        }
        let mut board = chronicle.lock(rt);
        if board.room().is_err() {
            return Err(RunFault::NoMemory);
        }
        book.decide(&mut board, &mut self.shares, &self.change, &verdict)
    }
}

// The plan of a change set.
fn plan_of(plans: &[ChangePlan], change: ChangeNo) -> Option<&ChangePlan>
    ensures { option_copied result ≡ slice_get plans.now (change - 1) }
{
    plans.get(change.get() as usize - 1)
}

// Whether the pass has why the change set is aborted, where it is.
fn verdict_stands(
    plan: &ChangePlan,
    change: ChangeNo,
    entries: &[PassEntry],
    verdict: &Verdict,
) -> bool
    ensures { result ≡ verdict_stands plan.now change entries.now verdict.now }
{
    match verdict {
        Verdict::Commit => true,
        Verdict::Abort(why) => cause_stands(plan, change, entries, why),
    }
}

/// Asks a device for a change set, once the device and the board are free, where the pass says that this may come next there.
/// Where it doesn't, and where there is no memory, answers NoMemory, and then nothing has changed.
pub fn ask<C: Content, N: RunName<C, C::Config, C::Edit>, R: Wait>(
    rt: &R,
    slot: &mut ChangeSlot<N>,
    plans: &[ChangePlan],
    cell: &DeviceCell<C, N>,
    content: &C,
    tables: &Tables<C>,
    chronicle: &Mutex<Chronicle<N>>,
    session: &Option<SessionId>,
    request: &Request,
) -> Result<Asked, NoMemory>
    requires plans { N.changes ≡ plans.now }
    requires content { N.run.content ≡ Some content.now }
    requires tables { N.run.tables ≡ tables.now }
    requires edits_belong { All (C.meaning content.now).edit_belongs tables.now.edits }
    ensures found { IfOk result (λ asked. FindsBy slot.old.pass.owner (event_of session.now request.now) asked
        slot.old.pass.entries slot.new.pass.entries cell.now.device) }
    ensures shares { IfOk result (λ asked. slot.new.shares ≡ slot_after slot.old.shares (acknowledged slot.old.pass.owner request.now asked)) }
    ensures change { slot.new.change ≡ slot.old.change }
    ensures owner { slot.new.pass.owner ≡ slot.old.pass.owner }
    ensures plain { IfOk result (λ asked. is_plain asked ≡ true) }
    ensures unchanged { OnErr result (slot.new ≡ slot.old) }
{
    let ChangeSlot {
        change,
        shares,
        pass,
    } = slot;
    let Some(plan) = plan_of(plans, *change) else {
        return Err(NoMemory);
    };
    let device = cell.device();
    if !may_ask(plan, *change, device, pass.entries(), session, request) {
        return Err(NoMemory);
    }
    if !is_in_turn(plans, &pass.owner(), shares, device, request) {
        return Err(NoMemory);
    }
    cell.ask_change(
        rt, content, tables, chronicle, shares, pass, *session, request,
    )
}
