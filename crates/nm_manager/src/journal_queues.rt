//! The journal, and the queues of the devices as its entries tell them.

ghost use Rattle.std.specs.Prelude.{◌≡◌, ◌<◌, ◌++◌, ◌∷◌, [], true, false, None, Some, Ok, Err, length, IfOk, IfErr, OnOk, OnErr, IsSome};
ghost use Rattle.nm_base.specs.Count.{Rose};
ghost use Rattle.nm_journal.specs.Entries.{may_follow, is_timed, IsInOrder};
ghost use Rattle.nm_disk.specs.Image.{AnyMoment};
ghost use Rattle.nm_journal.specs.Fits.{Fits, ReadsWithOrWithout};
ghost use Rattle.nm_journal.specs.Keeps.{KeepsJournal};
ghost use Rattle.nm_manager.specs.Queues.{journal_of, is_ready_in, IsOrderOf, entered, failed_at};
ghost use Rattle.nm_manager.specs.declared.action.TurnFault.TheVariants.{DiskFault};

use crate::action::TurnFault;
use nm_base::ChangeNo;
use nm_disk::Disk;
use nm_journal::{Journal, may_follow};
use nm_order::Order;
use nm_proto::Entry;
use std::marker::Model;

/// The journal, with the queues that its entries tell, and whether the manager has failed.
#[derive(Drop)]
pub(crate) struct JournalQueues {
    journal: Journal,
    order: Order,
    has_failed: bool,
}

impl Model for JournalQueues {
    ghost use Rattle.std.specs.Prelude.{◌≡◌, false, None};
    ghost use Rattle.nm_manager.specs.Queues.{JournalQueuesState, IsOrderOf};

    ghost Value = { JournalQueuesState };

    ghost view = { λ journal_queues. record {
      entries = journal_queues.journal.entries;
      failed = journal_queues.journal.failed;
      has_failed = journal_queues.has_failed;
    } };

    ghost invariant = { λ journal_queues. IsOrderOf journal_queues.journal.entries journal_queues.order
        × (journal_queues.has_failed ≡ false → journal_queues.journal.failed ≡ None) };
}

impl JournalQueues {
    /// The queues of a journal of no entries.
    pub(crate) fn new(journal: Journal) -> JournalQueues
        requires empty { journal ≡ record { entries = []; failed = None } }
        ensures { result ≡ record { entries = []; failed = None; has_failed = false } }
    {
        JournalQueues {
            journal,
            order: Order::new(),
            has_failed: false,
        }
    }

    /// The queues of a journal that was reopened.
    pub(crate) fn reopened(journal: Journal) -> JournalQueues
        requires whole { journal.failed ≡ None }
        ensures { result ≡ record { entries = journal.entries; failed = None; has_failed = false } }
    {
        let order = order_of(journal.entries());
        JournalQueues {
            journal,
            order,
            has_failed: false,
        }
    }

    /// The journal couldn't be reopened.
    pub(crate) fn fail(&mut self)
        ensures { self.new ≡ record self.old { has_failed = true } }
    {
        self.has_failed = true;
    }

    /// The entries of the journal.
    pub(crate) fn entries(&self) -> &[Entry]
        ensures value { result.now ≡ self.now.entries }
        ensures whole { self.now.has_failed ≡ false → self.now.failed ≡ None }
    {
        self.journal.entries()
    }

    /// Whether the manager has failed.
    pub(crate) fn has_failed(&self) -> bool
        ensures { result ≡ self.now.has_failed }
    {
        self.has_failed
    }

    /// Whether a change set was submitted, isn't ended, and each that was submitted before it on one of its devices is.
    pub(crate) fn is_ready(&self, change: ChangeNo) -> bool
        ensures value { result ≡ is_ready_in self.now.entries change }
        ensures whole { self.now.has_failed ≡ false → self.now.failed ≡ None }
    {
        self.order.is_ready(change)
    }

    /// Appends an entry where it may come next, and answers whether it may. It takes no memory.
    pub(crate) fn enter<D: Disk>(&mut self, disk: &mut D, entry: Entry) -> Result<bool, TurnFault>
        requires going { self.old.has_failed ≡ false }
        requires timed { is_timed entry ≡ true }
        requires fits { Fits (journal_of self.old) (D.state disk.old) }
        ensures value { IfOk result (λ may. may ≡ may_follow self.old.entries entry) }
        ensures entered { OnOk result (self.new ≡ entered self.old entry) }
        ensures fault { IfErr result (λ fault. fault ≡ DiskFault) }
        ensures failed { OnErr result (self.new ≡ failed_at self.old entry) }
        ensures may { OnErr result (may_follow self.old.entries entry ≡ true) }
        ensures disk_fault { OnErr result (Rose (D.state disk.old).faults (D.state disk.new).faults) }
        ensures keeps { KeepsJournal (journal_of self.new) (D.state disk.old) (D.state disk.new) }
        // A crash at any moment of the call leaves the entries from before it, with the new one or without.
        ensures any_moment { IsSome (D.state disk.old).contents → AnyMoment (D.state disk.old) (D.state disk.new) (ReadsWithOrWithout self.old.entries entry) }
    {
        if !may_follow(self.journal.entries(), &entry) {
            return Ok(false);
        }
        match self.journal.append(disk, entry) {
            Ok(()) => match &entry {
                Entry::Started {
                    change,
                    devices,
                    ..
                } => {
                    self.order.submit(*change, *devices);
                    Ok(true)
                }
                Entry::Ended { change, .. } => {
                    self.order.finish(*change);
                    Ok(true)
                }
                Entry::Decided { .. } => Ok(true),
            },
            Err(_) => {
                self.has_failed = true;
                Err(TurnFault::DiskFault)
            }
        }
    }
}

// The queues that the entries tell.
fn order_of(entries: &[Entry]) -> Order
    requires { IsInOrder entries.now }
    ensures { IsOrderOf entries.now result }
{
    let mut order = Order::new();
    for place in 0..entries.len() {
        follow(&mut order, &entries[..place], &entries[place]);
    }
    order
}

// An entry comes after those before it.
fn follow(order: &mut Order, _before: &[Entry], entry: &Entry)
    requires queues { IsOrderOf _before.now order.old }
    requires may { may_follow _before.now entry.now ≡ true }
    ensures { IsOrderOf (_before.now ++ entry.now ∷ []) order.new }
{
    match entry {
        Entry::Started {
            change,
            devices,
            ..
        } => order.submit(*change, *devices),
        Entry::Ended { change, .. } => order.finish(*change),
        Entry::Decided { .. } => {}
    }
}
