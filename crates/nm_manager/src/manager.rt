//! The manager's calls.

ghost use Rattle.std.specs.Prelude.{◌≡◌, ◌≤◌, ◌<◌, ◌-◌, length, ◌⊎◌, ◌*◌, ℕ, IfSome, IfNone, position, slice_get, map, Err, Some, None, IsSome, option_copied, IfOk, IfErr, OnOk, OnErr, [], true, false, is_ok};
ghost use Rattle.std.specs.List.{All};
ghost use Rattle.nm_base.specs.Count.{Rose};
ghost use Rattle.nm_disk.specs.Image.{AnyMoment};
ghost use Rattle.nm_disk.specs.Keeps.{KeepsDisk};
ghost use Rattle.nm_journal.specs.Fits.{Fits, ReadsAs, ReadsWithOrWithout, IsDamagedAt, WasThereOrReadsAs};
ghost use Rattle.nm_journal.specs.Keeps.{KeepsJournal};
ghost use Rattle.nm_wire.specs.Wire.{outstanding_at, session_at, is_open_at, is_left_open, counts_of, link_at};
ghost use Rattle.nm_manager.specs.Requests.{IsWellFormed};
ghost use Rattle.nm_manager.specs.Slot.{restarted_slot};
ghost use Rattle.nm_manager.specs.Manager.{slots_from, slot_at, sent_by, decided_by, finishes, FailsAt, MayRead, acts, start_at, entry_of, entry_turned, start_anew, fault_of, change_of, is_strange};
ghost use Rattle.nm_proto.specs.declared.journal.Entry.TheVariants.{Decided, Ended};
ghost use Rattle.nm_manager.specs.declared.action.TurnFault.TheVariants as fault;

use crate::action::{Action, TurnFault};
use crate::journal_queues::JournalQueues;
use crate::slot::Slot;
use nm_base::{ChangeNo, DeviceMask, DeviceNo, NoMemory, SessionId};
use nm_decider::NextAction;
use nm_disk::Disk;
use nm_journal::{Journal, JournalFault};
use nm_proto::{Ask, ChangePlan, Entry, Listed, Reply, Request, Verdict};
use nm_recovery::{is_ended_in, is_started, verdict_in};
use nm_wire::Wire;
use std::alloc::Global;
use std::marker::Model;

/// The manager of all change sets: its journal, and for each change set its links and what it knows.
#[derive(Drop)]
pub struct Manager {
    alloc: Global,
    // Change set c and what is kept of it stand at place c - 1.
    plans: Listed<ChangePlan>,
    slots: Vec<Slot>,
    journal_queues: JournalQueues,
}

impl Model for Manager {
    ghost use Rattle.std.specs.Prelude.{◌≡◌, ◌≤◌, length};
    ghost use Rattle.std.specs.List.{All};
    ghost use Rattle.nm_manager.specs.Requests.{IsWellFormed};
    ghost use Rattle.nm_manager.specs.Manager.{Managing};

    ghost Value = { Managing };

    ghost view = { λ m. record {
      plans = m.plans;
      failed = m.journal_queues.failed;
      has_failed = m.journal_queues.has_failed;
      state = record { entries = m.journal_queues.entries; slots = m.slots.items };
    } };

    ghost invariant = { λ m. (length m.slots.items ≡ length m.plans) × All IsWellFormed m.plans × (length m.plans ≤ 64) };
}

impl Manager {
    ghost use Rattle.nm_manager.specs.Manager.{fresh_manager, with_state, journal_of, failed_at, start_of, submitted};

    /// A manager to which nothing was submitted, with a journal that holds nothing.
    pub fn new(
        alloc: Global,
        changes: Listed<ChangePlan>,
        journal: Journal,
    ) -> Result<Manager, NoMemory>
        requires well_formed { All IsWellFormed changes }
        requires few { length changes ≤ 64 }
        requires empty { journal ≡ record { entries = []; failed = None } }
        ensures { IfOk result (λ manager. manager ≡ fresh_manager changes) }
    {
        let slots = fresh_slots(alloc, changes.as_slice())?;
        Ok(Manager {
            alloc,
            plans: changes,
            slots,
            journal_queues: JournalQueues::new(journal),
        })
    }

    /// Submits a change set: it comes into the journal, and into the queues of its devices. Idle exactly where it was submitted
    /// before.
    pub fn submit<D: Disk>(&mut self, disk: &mut D, change: ChangeNo) -> Result<Action, TurnFault>
        requires given { change ≤ length self.old.plans }
        requires going { self.old.has_failed ≡ false }
        requires fits { Fits (journal_of self.old) (D.state disk.old) }
        ensures stepped { IfOk result (λ action. record { action = action; state = self.new.state } ≡ submitted self.old.plans self.old.state change) }
        ensures others { OnOk result (self.new ≡ with_state self.old self.new.state) }
        ensures fault { IfErr result (λ why. why ≡ fault.DiskFault) }
        ensures disk_fault { OnErr result (Rose (D.state disk.old).faults (D.state disk.new).faults) }
        ensures failed { OnErr result (FailsAt (start_at self.old.plans change) self.old self.new) }
        ensures keeps { KeepsJournal (journal_of self.new) (D.state disk.old) (D.state disk.new) }
        // A crash at any moment of the call leaves the entries from before it, with the new one or without.
        ensures any_moment { IsSome (D.state disk.old).contents
            → AnyMoment (D.state disk.old) (D.state disk.new) (MayRead self.old.state.entries (start_at self.old.plans change)) }
    {
        let plan = &self.plans.as_slice()[place_of(change)];
        let entry = Entry::Started {
            change,
            devices: plan.devices(),
            timeout: Some(plan.timeout),
        };
        if self.journal_queues.enter(disk, entry)? {
            Ok(Action::Started)
        } else {
            Ok(Action::Idle)
        }
    }
}

// What the manager does, one action at a time.
impl Manager {
    ghost use Rattle.nm_manager.specs.Manager.{with_state, journal_of, failed_at, turned, received, broken, forgotten, renewed};

    /// Does one action for a change set: asks a device, decides, or ends it. Idle where the change set isn't ready, and where
    /// there is nothing to do.
    ///
    /// A verdict is in the journal before anything that rests on it is sent. Where memory ran out nothing has changed.
    pub fn turn<D: Disk>(&mut self, disk: &mut D, change: ChangeNo) -> Result<Action, TurnFault>
        requires given { change ≤ length self.old.plans }
        requires going { self.old.has_failed ≡ false }
        requires fits { Fits (journal_of self.old) (D.state disk.old) }
        ensures stepped { IfOk result (λ action. record { action = action; state = self.new.state } ≡ turned self.old.plans self.old.state change) }
        ensures others { OnOk result (self.new ≡ with_state self.old self.new.state) }
        ensures keeps { KeepsJournal (journal_of self.new) (D.state disk.old) (D.state disk.new) }
        ensures no_memory { result ≡ Err fault.NoMemory → (self.new ≡ self.old) × (disk.new ≡ disk.old) }
        ensures disk_fault { result ≡ Err fault.DiskFault → Rose (D.state disk.old).faults (D.state disk.new).faults }
        ensures failed { result ≡ Err fault.DiskFault → FailsAt (entry_turned self.old.state change) self.old self.new }
        // A crash at any moment of the call leaves the entries from before it, with the new one or without.
        ensures any_moment { IsSome (D.state disk.old).contents
            → AnyMoment (D.state disk.old) (D.state disk.new) (MayRead self.old.state.entries (entry_turned self.old.state change)) }
        ensures no_other { IfErr result (λ why. (why ≡ fault.NoMemory) ⊎ (why ≡ fault.DiskFault)) }
    {
        if !self.journal_queues.is_ready(change) {
            return Ok(Action::Idle);
        }
        let action = self.slots[place_of(change)].course().next_action();
        self.act(disk, change, &action)
    }

    // Does this action for a change set.
    fn act<D: Disk>(
        &mut self,
        disk: &mut D,
        change: ChangeNo,
        action: &NextAction,
    ) -> Result<Action, TurnFault>
        requires given { change ≤ length self.old.plans }
        requires going { self.old.has_failed ≡ false }
        requires whole { self.old.failed ≡ None }
        requires fits { Fits (journal_of self.old) (D.state disk.old) }
        ensures stepped { IfOk result (λ done. record { action = done; state = self.new.state } ≡ acts self.old.plans self.old.state change action.now) }
        ensures others { OnOk result (self.new ≡ with_state self.old self.new.state) }
        ensures keeps { KeepsJournal (journal_of self.new) (D.state disk.old) (D.state disk.new) }
        ensures no_memory { result ≡ Err fault.NoMemory → (self.new ≡ self.old) × (disk.new ≡ disk.old) }
        ensures disk_fault { result ≡ Err fault.DiskFault → Rose (D.state disk.old).faults (D.state disk.new).faults }
        ensures failed { result ≡ Err fault.DiskFault → FailsAt (entry_of change action.now) self.old self.new }
        ensures any_moment { IsSome (D.state disk.old).contents
            → AnyMoment (D.state disk.old) (D.state disk.new) (MayRead self.old.state.entries (entry_of change action.now)) }
        ensures no_other { IfErr result (λ why. (why ≡ fault.NoMemory) ⊎ (why ≡ fault.DiskFault)) }
    {
        match action {
            NextAction::Wait => Ok(Action::Idle),
            NextAction::Send { device, ask } => match self.send(change, *device, *ask) {
                Ok(action) => Ok(action),
                Err(_) => Err(TurnFault::NoMemory),
            },
            NextAction::Decide(verdict) => self.decide(disk, change, *verdict),
            NextAction::Finish { kept } => self.finish(disk, change, *kept),
        }
    }

    // Asks this of a device.
    fn send(&mut self, change: ChangeNo, device: DeviceNo, ask: Ask) -> Result<Action, NoMemory>
        requires given { change ≤ length self.old.plans }
        ensures stepped { IfOk result (λ action. record { action = action; state = self.new.state }
            ≡ sent_by self.old.state change (slice_get self.old.plans (change - 1)) (slot_at self.old.state change) device ask) }
        ensures others { OnOk result (self.new ≡ with_state self.old self.new.state) }
        ensures unchanged { OnErr result (self.new ≡ self.old) }
    {
        let plan = &self.plans.as_slice()[place_of(change)];
        self.slots[place_of(change)].send(
            self.alloc,
            plan,
            self.journal_queues.entries(),
            device,
            ask,
        )
    }

    // The verdict comes into the journal, and then to the course.
    fn decide<D: Disk>(
        &mut self,
        disk: &mut D,
        change: ChangeNo,
        verdict: Verdict,
    ) -> Result<Action, TurnFault>
        requires given { change ≤ length self.old.plans }
        requires going { self.old.has_failed ≡ false }
        requires fits { Fits (journal_of self.old) (D.state disk.old) }
        ensures stepped { IfOk result (λ action. record { action = action; state = self.new.state }
            ≡ decided_by self.old.state change verdict (slot_at self.old.state change)) }
        ensures others { OnOk result (self.new ≡ with_state self.old self.new.state) }
        ensures failed { OnErr result (self.new ≡ failed_at self.old (Decided change verdict)) }
        ensures any_moment { IsSome (D.state disk.old).contents
            → AnyMoment (D.state disk.old) (D.state disk.new) (ReadsWithOrWithout self.old.state.entries (Decided change verdict)) }
        ensures fault { IfErr result (λ why. why ≡ fault.DiskFault) }
        ensures disk_fault { OnErr result (Rose (D.state disk.old).faults (D.state disk.new).faults) }
        ensures keeps { KeepsJournal (journal_of self.new) (D.state disk.old) (D.state disk.new) }
    {
        let entry = Entry::Decided { change, verdict };
        if !self.journal_queues.enter(disk, entry)? {
            return Ok(Action::Idle);
        }
        self.slots[place_of(change)].decide(verdict);
        Ok(Action::Decided(verdict))
    }

    // The change set ends.
    fn finish<D: Disk>(
        &mut self,
        disk: &mut D,
        change: ChangeNo,
        kept: DeviceMask,
    ) -> Result<Action, TurnFault>
        requires going { self.old.has_failed ≡ false }
        requires fits { Fits (journal_of self.old) (D.state disk.old) }
        ensures stepped { IfOk result (λ action. record { action = action; state = self.new.state } ≡ finishes self.old.state (Ended change kept)) }
        ensures others { OnOk result (self.new ≡ with_state self.old self.new.state) }
        ensures failed { OnErr result (self.new ≡ failed_at self.old (Ended change kept)) }
        ensures any_moment { IsSome (D.state disk.old).contents
            → AnyMoment (D.state disk.old) (D.state disk.new) (ReadsWithOrWithout self.old.state.entries (Ended change kept)) }
        ensures fault { IfErr result (λ why. why ≡ fault.DiskFault) }
        ensures disk_fault { OnErr result (Rose (D.state disk.old).faults (D.state disk.new).faults) }
        ensures keeps { KeepsJournal (journal_of self.new) (D.state disk.old) (D.state disk.new) }
    {
        if !self
            .journal_queues
            .enter(disk, Entry::Ended { change, kept })?
        {
            return Ok(Action::Idle);
        }
        Ok(Action::Ended)
    }

    /// Handles a reply of a link, by its number from 1. Idle where it isn't the next one on the current link. It takes no
    /// memory.
    pub fn receive(&mut self, change: ChangeNo, device: DeviceNo, link: u32, number: u32) -> Action
        requires given { change ≤ length self.old.plans }
        ensures stepped { record { action = result; state = self.new.state } ≡ received self.old.state change device link number }
        ensures entries { self.new.state.entries ≡ self.old.state.entries }
        ensures others { self.new ≡ with_state self.old self.new.state }
    {
        self.slots[place_of(change)].receive(device, link, number)
    }

    /// Ends the manager's side of the current link to a device. Idle exactly where there is none. It takes no memory.
    pub fn break_link(&mut self, change: ChangeNo, device: DeviceNo) -> Action
        requires given { change ≤ length self.old.plans }
        ensures stepped { record { action = result; state = self.new.state } ≡ broken self.old.state change device }
        ensures entries { self.new.state.entries ≡ self.old.state.entries }
        ensures others { self.new ≡ with_state self.old self.new.state }
    {
        self.slots[place_of(change)].break_link(device)
    }

    /// Loses what is known of a change set that was submitted and isn't ended: it goes on from its verdict in the journal, or
    /// with its memory lost where there is none. Idle for any other. It takes no memory.
    pub fn forget(&mut self, change: ChangeNo) -> Action
        requires given { change ≤ length self.old.plans }
        ensures stepped { record { action = result; state = self.new.state } ≡ forgotten self.old.plans self.old.state change }
        ensures entries { self.new.state.entries ≡ self.old.state.entries }
        ensures others { self.new ≡ with_state self.old self.new.state }
    {
        let entries = self.journal_queues.entries();
        if !is_started(entries, change) || is_ended_in(entries, change) {
            return Action::Idle;
        }
        let verdict = verdict_in(entries, change);
        let devices = self.plans.as_slice()[place_of(change)].devices();
        self.slots[place_of(change)].forget(devices, verdict);
        Action::Forgot
    }

    /// Sets the timer of the pending commit of a device anew (RFC 6241 section 8.4.1), where the change set is ready, undecided and
    /// without trouble, and the device has acknowledged and awaits no reply. Else Idle.
    pub fn renew(&mut self, change: ChangeNo, device: DeviceNo) -> Result<Action, NoMemory>
        requires given { change ≤ length self.old.plans }
        ensures stepped { IfOk result (λ action. record { action = action; state = self.new.state } ≡ renewed self.old.plans self.old.state change device) }
        ensures entries { self.new.state.entries ≡ self.old.state.entries }
        ensures others { OnOk result (self.new ≡ with_state self.old self.new.state) }
        ensures unchanged { OnErr result (self.new ≡ self.old) }
    {
        if !self.journal_queues.is_ready(change) {
            return Ok(Action::Idle);
        }
        let plan = &self.plans.as_slice()[place_of(change)];
        self.slots[place_of(change)].renew(self.alloc, plan, self.journal_queues.entries(), device)
    }
}

// What is there, and what a device's restart does.
impl Manager {
    ghost use Rattle.nm_manager.specs.Manager.{with_state, restarted_on};
    ghost use Rattle.nm_manager.specs.Queues.{is_ready_in};

    /// The change sets that were given, the first of them first.
    pub fn plans(&self) -> &[ChangePlan]
        ensures value { result.now ≡ self.now.plans }
        ensures few { length self.now.plans ≤ 64 }
    {
        self.plans.as_slice()
    }

    /// Whether a change set was submitted, isn't ended, and each that was submitted before it on one of its devices is.
    pub fn is_ready(&self, change: ChangeNo) -> bool
        ensures { result ≡ is_ready_in self.now.state.entries change }
    {
        self.journal_queues.is_ready(change)
    }

    /// A device restarts: its sides of all links end, and what was outstanding on them is dropped. It takes time as there are
    /// change sets, and as links were made since the last restart.
    pub fn restart(&mut self, device: DeviceNo)
        ensures restarted { self.new ≡ with_state self.old (restarted_on self.old.state device) }
        ensures entries { self.new.state.entries ≡ self.old.state.entries }
    {
        restart_all(&mut self.slots, device);
    }
}

// The manager starts anew.
impl Manager {
    ghost use Rattle.nm_manager.specs.Manager.{journal_of, recovered, is_strange, IsStrangeAt};

    /// Reads the journal again, as after a crash: all that is known is lost, no link is current, and each change set that was
    /// submitted and isn't ended goes on from its verdict in the journal, or with its memory lost where there is none.
    ///
    /// Where it can't, the manager has failed until it can, and nothing else has changed. It takes the room for the entries first.
    pub fn recover<D: Disk>(&mut self, disk: &mut D) -> Result<(), TurnFault>
        ensures recovered { OnOk result (self.new ≡ recovered self.old self.new.state.entries) }
        ensures read { OnOk result (IfSome (D.state disk.old).contents (ReadsAs self.new.state.entries)) }
        ensures given { OnOk result (position (is_strange self.old.plans) self.new.state.entries ≡ None) }
        ensures fits { OnOk result (Fits (journal_of self.new) (D.state disk.new)) }
        ensures failed { OnErr result (self.new ≡ record self.old { has_failed = true }) }
        ensures damaged { (offset : ℕ) → result ≡ Err (fault.Damaged offset)
            → IfSome (D.state disk.old).contents (IsDamagedAt offset) ⊎ IsStrangeAt self.old.plans (D.state disk.old).contents offset }
        ensures disk_fault { result ≡ Err fault.DiskFault → Rose (D.state disk.old).faults (D.state disk.new).faults }
        ensures no_memory { result ≡ Err fault.NoMemory → disk.new ≡ disk.old }
        // A crash during the call leaves an image that was there, or one that reads as the same list.
        ensures any_moment { IfSome (D.state disk.old).contents
            (λ bytes. AnyMoment (D.state disk.old) (D.state disk.new) (WasThereOrReadsAs (D.state disk.old) bytes)) }
        ensures keeps { KeepsDisk (D.state disk.old) (D.state disk.new) }
    {
        match Journal::reopen(self.alloc, disk) {
            Ok((journal, _)) => self.start_anew(journal),
            Err(fault) => {
                self.journal_queues.fail();
                Err(fault_of(&fault))
            }
        }
    }

    // Goes on from a journal that was reopened.
    fn start_anew(&mut self, journal: Journal) -> Result<(), TurnFault>
        requires whole { journal.failed ≡ None }
        ensures recovered { OnOk result (self.new ≡ recovered self.old journal.entries) }
        ensures given { OnOk result (position (is_strange self.old.plans) journal.entries ≡ None) }
        ensures failed { OnErr result (self.new ≡ record self.old { has_failed = true }) }
        ensures damaged { IfErr result (λ why. (place : ℕ) × (position (is_strange self.old.plans) journal.entries ≡ Some place)
            × (why ≡ fault.Damaged (16 * place))) }
    {
        if let Some(place) = first_strange(self.plans.as_slice(), journal.entries()) {
            self.journal_queues.fail();
            return Err(TurnFault::Damaged {
                offset: 16 * place as u64,
            });
        }
        all_anew(&mut self.slots, self.plans.as_slice(), journal.entries());
        self.journal_queues = JournalQueues::reopened(journal);
        Ok(())
    }
}

// The manager begins again.
impl Manager {
    ghost use Rattle.nm_manager.specs.Manager.{fresh_manager, journal_of};

    /// Begins again, with a journal of no entries on a disk from which all is taken: nothing was submitted. The change sets are
    /// the same.
    ///
    /// It takes its room first.
    pub fn begin_again<D: Disk>(&mut self, disk: &mut D) -> Result<(), TurnFault>
        ensures begun { OnOk result (self.new ≡ fresh_manager self.old.plans) }
        ensures fits { OnOk result (Fits (journal_of self.new) (D.state disk.new)) }
        ensures unchanged { OnErr result (self.new ≡ self.old) }
        ensures disk_fault { result ≡ Err fault.DiskFault → Rose (D.state disk.old).faults (D.state disk.new).faults }
        ensures no_memory { result ≡ Err fault.NoMemory → disk.new ≡ disk.old }
        ensures no_other { IfErr result (λ why. (why ≡ fault.DiskFault) ⊎ (why ≡ fault.NoMemory)) }
        // A crash during the call leaves an image that was there, or one that reads as an empty list.
        ensures any_moment { IsSome (D.state disk.old).contents
            → AnyMoment (D.state disk.old) (D.state disk.new) (WasThereOrReadsAs (D.state disk.old) []) }
        ensures keeps { KeepsDisk (D.state disk.old) (D.state disk.new) }
    {
        let Ok(slots) = fresh_slots(self.alloc, self.plans.as_slice()) else {
            return Err(TurnFault::NoMemory);
        };
        match Journal::anew(self.alloc, disk) {
            Ok(journal) => {
                self.slots = slots;
                self.journal_queues = JournalQueues::new(journal);
                Ok(())
            }
            Err(fault) => Err(fault_of(&fault)),
        }
    }
}

// The links of a change set to a device.
impl Manager {
    ghost use Rattle.nm_manager.specs.Manager.{with_state, wire_in, told_on, lost_on};

    /// The request that a link has outstanding, and None exactly where there is none, or no such link, or the device's side is
    /// closed.
    pub fn outstanding(&self, change: ChangeNo, device: DeviceNo, link: u32) -> Option<&Request>
        requires given { change ≤ length self.now.plans }
        ensures { option_copied result ≡ outstanding_at (wire_in self.now.state change device) link }
    {
        self.wire(change, device).outstanding(link)
    }

    /// The device answers the request that a link has outstanding. It takes no memory.
    pub fn delivered(&mut self, change: ChangeNo, device: DeviceNo, link: u32, reply: Reply)
        requires given { change ≤ length self.old.plans }
        requires outstanding { IsSome (outstanding_at (wire_in self.old.state change device) link) }
        ensures told { self.new ≡ with_state self.old (told_on self.old.state change device link reply) }
        ensures entries { self.new.state.entries ≡ self.old.state.entries }
    {
        self.slots[place_of(change)].delivered(device, link, reply);
    }

    /// The device's side of a link ends, and what was outstanding on it is dropped. Answers whether it was open.
    pub fn drop_link(&mut self, change: ChangeNo, device: DeviceNo, link: u32) -> bool
        requires given { change ≤ length self.old.plans }
        ensures value { result ≡ is_open_at (wire_in self.old.state change device) link }
        ensures lost { self.new ≡ with_state self.old (lost_on self.old.state change device link) }
        ensures entries { self.new.state.entries ≡ self.old.state.entries }
    {
        self.slots[place_of(change)].drop_link(device, link)
    }

    /// Whether a link of a change set that isn't current may be open at its device. Where it is false none is.
    pub fn has_left_open(&self, change: ChangeNo) -> bool
        requires given { change ≤ length self.now.plans }
        ensures { result ≡ false → (device link : ℕ) → is_left_open (wire_in self.now.state change device) link ≡ false }
    {
        self.slots[place_of(change)].has_left_open()
    }

    /// The least link to a device that isn't current and is open there, and None exactly where there is none.
    pub fn first_left_open(&self, change: ChangeNo, device: DeviceNo) -> Option<u32>
        requires given { change ≤ length self.now.plans }
        ensures found { IfSome result (λ number. is_left_open (wire_in self.now.state change device) number ≡ true) }
        ensures least { IfSome result (λ number. (other : ℕ) → other < number → is_left_open (wire_in self.now.state change device) other ≡ false) }
        ensures none { IfNone result ((other : ℕ) → is_left_open (wire_in self.now.state change device) other ≡ false) }
    {
        self.wire(change, device).first_left_open()
    }

    /// How many links were made.
    pub fn links(&self, change: ChangeNo, device: DeviceNo) -> u32
        requires given { change ≤ length self.now.plans }
        ensures { result ≡ length (wire_in self.now.state change device).links }
    {
        self.wire(change, device).links()
    }

    /// Whether the device's side of a link is open.
    pub fn is_open(&self, change: ChangeNo, device: DeviceNo, link: u32) -> bool
        requires given { change ≤ length self.now.plans }
        ensures { result ≡ is_open_at (wire_in self.now.state change device) link }
    {
        self.wire(change, device).is_open(link)
    }

    /// The number of the current link, and None exactly where there is none.
    pub fn current(&self, change: ChangeNo, device: DeviceNo) -> Option<u32>
        requires given { change ≤ length self.now.plans }
        ensures { result ≡ (wire_in self.now.state change device).current }
    {
        self.wire(change, device).current()
    }

    /// How many replies were sent on a link, and how many of them were handled, both 0 where it wasn't made.
    pub fn replies(&self, change: ChangeNo, device: DeviceNo, link: u32) -> (u32, u32)
        requires given { change ≤ length self.now.plans }
        ensures { result ≡ counts_of (link_at (wire_in self.now.state change device) link) }
    {
        self.wire(change, device).replies(link)
    }

    /// The session of the first Opened that was sent on a link, and None exactly where none was.
    pub fn session_of(&self, change: ChangeNo, device: DeviceNo, link: u32) -> Option<SessionId>
        requires given { change ≤ length self.now.plans }
        ensures { result ≡ session_at (wire_in self.now.state change device) link }
    {
        self.wire(change, device).session_of(link)
    }

    /// The entries of the journal, the first of them first.
    pub fn entries(&self) -> &[Entry]
        ensures value { result.now ≡ self.now.state.entries }
        ensures whole { self.now.has_failed ≡ false → self.now.failed ≡ None }
    {
        self.journal_queues.entries()
    }

    /// Whether the manager has failed: its journal takes no more.
    pub fn has_failed(&self) -> bool
        ensures { result ≡ self.now.has_failed }
    {
        self.journal_queues.has_failed()
    }

    // The links to a device.
    fn wire(&self, change: ChangeNo, device: DeviceNo) -> &Wire
        requires given { change ≤ length self.now.plans }
        ensures { result.now ≡ wire_in self.now.state change device }
    {
        &self.slots[place_of(change)].side(device).wire
    }
}

// The place of a change set.
fn place_of(change: ChangeNo) -> usize
    ensures { result ≡ change - 1 }
{
    change.get() as usize - 1
}

// Why the journal couldn't be reopened.
fn fault_of(fault: &JournalFault) -> TurnFault
    ensures { result ≡ fault_of fault.now }
{
    match fault {
        JournalFault::Damaged { offset } => TurnFault::Damaged { offset: *offset },
        JournalFault::NoMemory => TurnFault::NoMemory,
        JournalFault::NotEmpty { .. } | JournalFault::DiskFault | JournalFault::Stopped => {
            TurnFault::DiskFault
        }
    }
}

// The place of the first entry that is of no change set of these, or starts one for other devices than its own.
fn first_strange(plans: &[ChangePlan], entries: &[Entry]) -> Option<usize>
    ensures { result ≡ position (is_strange plans.now) entries.now }
{
    entries.iter().position(|entry| is_strange(plans, entry))
}

fn is_strange(plans: &[ChangePlan], entry: &Entry) -> bool
    ensures { result ≡ is_strange plans.now entry.now }
{
    let Some(plan) = plans.get(place_of(change_of(entry))) else {
        return true;
    };
    match entry {
        Entry::Started { devices, .. } => devices.0 != plan.devices().0,
        Entry::Decided { .. } | Entry::Ended { .. } => false,
    }
}

fn change_of(entry: &Entry) -> ChangeNo
    ensures { result ≡ change_of entry.now }
{
    match entry {
        Entry::Started { change, .. }
        | Entry::Decided { change, .. }
        | Entry::Ended { change, .. } => *change,
    }
}

// All memory of each change set is lost.
fn all_anew(slots: &mut Vec<Slot>, plans: &[ChangePlan], entries: &[Entry])
    requires each { length slots.old.items ≡ length plans.now }
    requires few { length plans.now ≤ 64 }
    ensures anew { slots.new.items ≡ start_anew entries.now 1 plans.now slots.old.items }
    ensures each { length slots.new.items ≡ length plans.now }
{
    for place in 0..plans.len() {
        let change = ChangeNo::new(place as u32 + 1).unwrap();
        slots[place].start_anew(entries, change, plans[place].devices());
    }
}

// A device restarts, for each change set.
fn restart_all(slots: &mut Vec<Slot>, device: DeviceNo)
    ensures { slots.new.items ≡ map (restarted_slot device) slots.old.items }
{
    for place in 0..slots.len() {
        slots[place].restart(device);
    }
}

// What is kept of change sets of which none is submitted.
fn fresh_slots(alloc: Global, plans: &[ChangePlan]) -> Result<Vec<Slot>, NoMemory>
    requires few { length plans.now ≤ 64 }
    ensures { IfOk result (λ slots. slots.items ≡ slots_from 1 plans.now) }
{
    let mut slots = Vec::with_capacity(alloc, plans.len())?;
    for place in 0..plans.len() {
        let change = ChangeNo::new(place as u32 + 1).unwrap();
        slots.push(Slot::new(alloc, change, plans[place].devices())?)?;
    }
    Ok(slots)
}
