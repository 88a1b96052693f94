//! The journal of a run with its disk, behind their lock.

ghost use Rattle.std.specs.Prelude.{◌≡◌, ◌≤◌, ◌+◌, ◌-◌, ◌⊎◌, true, false, None, Some, Err, OnOk, OnErr, is_some, slice_get};
ghost use Rattle.nm_base.specs.Count.{Rose};
ghost use Rattle.nm_proto.specs.declared.journal.Entry.TheVariants.{Started, Decided, Ended};
ghost use Rattle.nm_journal.specs.Entries.{may_follow, is_timed, IsInOrder};
ghost use Rattle.nm_journal.specs.Fits.{Fits};
ghost use Rattle.nm_journal.specs.Keeps.{KeepsJournal};
ghost use Rattle.nm_chronicle.specs.Board.{devices_of};
ghost use Rattle.nm_chronicle.specs.Shares.{slot_decided};
ghost use Rattle.nm_slots.specs.Book.{no_entries, journal_with, Stops, IsBookKept};
ghost use Rattle.nm_slots.specs.declared.fault.RunFault.TheVariants as fault;

use crate::fault::RunFault;
use nm_base::{ChangeNo, DeviceMask};
use nm_chronicle::{BookShare, Chronicle, SlotShares};
use nm_disk::Disk;
use nm_journal::{Journal, may_follow};
use nm_proto::{ChangePlan, Entry, Verdict};
use nm_run_plan::RunPlans;
use std::marker::Model;

/// The journal of a run, its disk, and its share of the run's ledger: how many verdicts the board was told.
#[derive(Drop)]
pub struct Book<D: Disk + Drop, N: RunPlans> {
    journal: Journal,
    disk: D,
    share: BookShare<N>,
}

impl<D: Disk + Drop, N: RunPlans> Model for Book<D, N> {
    ghost use Rattle.nm_slots.specs.Book.{BookView, IsBookKept};

    ghost Value = { BookView D };

    ghost view = { λ b. record { journal = b.journal; disk = b.disk; share = b.share } };

    ghost invariant = { λ b. IsBookKept D.state N.changes N.disk_faults (record { journal = b.journal; disk = b.disk; share = b.share }) };
}

impl<D: Disk + Drop, N: RunPlans> Book<D, N> {
    /// The book of a run of which nothing was written yet. It takes no memory.
    #[tactic(auto, using(crate::proofs::Books::fresh_keeps))]
    pub fn new(journal: Journal, disk: D, share: BookShare<N>) -> Book<D, N>
        requires fresh { journal ≡ no_entries }
        requires fits { Fits journal (D.state disk) }
        requires counted { N.disk_faults ≤ (D.state disk).faults }
        requires share { share ≡ 0 }
        ensures { result ≡ record { journal = no_entries; disk = disk; share = 0 } }
    {
        Book {
            journal,
            disk,
            share,
        }
    }

    /// The entries of the journal, oldest first.
    pub fn entries(&self) -> &[Entry]
        ensures value { result.now ≡ self.now.journal.entries }
        ensures in_order { IsInOrder result.now }
        ensures kept { IsBookKept D.state N.changes N.disk_faults self.now }
    {
        self.journal.entries()
    }

    /// Whether the disk failed, so that nothing more is appended.
    pub fn is_stopped(&self) -> bool
        ensures { result ≡ is_some self.now.journal.failed }
    {
        self.journal.is_stopped()
    }

    /// The disk. It takes no memory.
    pub fn into_disk(self) -> D
        ensures disk { result ≡ self.disk }
        ensures kept { IsBookKept D.state N.changes N.disk_faults self }
    {
        let Book {
            journal,
            disk,
            share,
        } = self;
        drop(journal);
        drop(share);
        disk
    }
}

// What is written.
impl<D: Disk + Drop, N: RunPlans> Book<D, N> {
    /// Writes that a change set is started, with the devices and the timeout of its plan. Answers NoMemory where that may not
    /// come next, and then nothing has changed.
    #[tactic(auto, using(crate::proofs::Books::written_keeps, crate::proofs::Books::planned_is))]
    pub fn start(&mut self, change: ChangeNo, plan: &ChangePlan) -> Result<(), RunFault>
        requires plan { slice_get N.changes (change - 1) ≡ Some plan.now }
        requires waits { 1 ≤ plan.now.timeout }
        ensures started { OnOk result (self.new.journal
            ≡ journal_with self.old.journal (Started change (record { 0 = devices_of plan.now }) (Some plan.now.timeout))) }
        ensures no_memory { result ≡ Err fault.NoMemory → self.new ≡ self.old }
        ensures disk_fault { result ≡ Err fault.DiskFault → is_some self.new.journal.failed ≡ true }
        ensures entries { OnErr result (self.new.journal.entries ≡ self.old.journal.entries) }
    {
        let entry = Entry::Started {
            change,
            devices: plan.devices(),
            timeout: Some(plan.timeout),
        };
        append_to(&mut self.journal, &mut self.disk, entry)
    }

    /// Writes that a change set is ended, which these devices have kept. Answers NoMemory where that may not come next, and then
    /// nothing has changed.
    #[tactic(auto, using(crate::proofs::Books::written_keeps))]
    pub fn finish(&mut self, change: ChangeNo, kept: DeviceMask) -> Result<(), RunFault>
        ensures ended { OnOk result (self.new.journal ≡ journal_with self.old.journal (Ended change kept)) }
        ensures no_memory { result ≡ Err fault.NoMemory → self.new ≡ self.old }
        ensures disk_fault { result ≡ Err fault.DiskFault → is_some self.new.journal.failed ≡ true }
        ensures entries { OnErr result (self.new.journal.entries ≡ self.old.journal.entries) }
    {
        append_to(
            &mut self.journal,
            &mut self.disk,
            Entry::Ended { change, kept },
        )
    }

    /// Writes a verdict, and only then tells it to the board, which has room for the call. Answers NoMemory where it may not come
    /// next, and then nothing has changed.
    #[tactic(auto, using(crate::proofs::Books::verdict_keeps, crate::proofs::Books::unwritten_keeps))]
    pub fn decide(
        &mut self,
        board: &mut Chronicle<N>,
        shares: &mut SlotShares<N>,
        change: &ChangeNo,
        verdict: &Verdict,
    ) -> Result<(), RunFault>
        requires room { 1 ≤ board.old.spare }
        requires undecided { shares.old.verdict ≡ None }
        ensures decided { OnOk result (self.new.journal ≡ journal_with self.old.journal (Decided change.now verdict.now)) }
        ensures shares { OnOk result (shares.new ≡ slot_decided shares.old verdict.now) }
        ensures share { OnOk result (self.new.share ≡ self.old.share + 1) }
        ensures no_memory { result ≡ Err fault.NoMemory → self.new ≡ self.old }
        ensures disk_fault { result ≡ Err fault.DiskFault → is_some self.new.journal.failed ≡ true }
        ensures entries { OnErr result (self.new.journal.entries ≡ self.old.journal.entries) }
        ensures unchanged { OnErr result (shares.new ≡ shares.old) }
    {
        let entry = Entry::Decided {
            change: *change,
            verdict: *verdict,
        };
        match append_to(&mut self.journal, &mut self.disk, entry) {
            Ok(()) => {
                board.decided(*change, *verdict, shares, &mut self.share);
                Ok(())
            }
            Err(fault) => Err(fault),
        }
    }
}

// Appends an entry, where it may come next.
fn append_to<D: Disk>(journal: &mut Journal, disk: &mut D, entry: Entry) -> Result<(), RunFault>
    requires timed { is_timed entry ≡ true }
    requires fits { Fits journal.old (D.state disk.old) }
    ensures added { OnOk result (journal.new ≡ journal_with journal.old entry) }
    ensures may { OnOk result (may_follow journal.old.entries entry ≡ true) }
    ensures keeps { OnOk result (KeepsJournal journal.new (D.state disk.old) (D.state disk.new)) }
    ensures no_memory { result ≡ Err fault.NoMemory → (journal.new ≡ journal.old) × (disk.new ≡ disk.old) }
    ensures refused { result ≡ Err fault.NoMemory → may_follow journal.old.entries entry ≡ false }
    ensures stops { result ≡ Err fault.DiskFault → Stops D.state journal.old journal.new disk.old disk.new }
{
    if !may_follow(journal.entries(), &entry) {
        return Err(RunFault::NoMemory);
    }
    if journal.is_stopped() {
        return Err(RunFault::DiskFault);
    }
    match journal.append(disk, entry) {
        Ok(()) => Ok(()),
        Err(_) => Err(RunFault::DiskFault),
    }
}
