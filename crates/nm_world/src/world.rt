//! The world: what stands at a moment, and the trail of what has happened.

ghost use Rattle.std.specs.Prelude.{◌≡◌, ◌≤◌, ◌<◌, ◌*◌, ◌^◌, ◌⊎◌, ℕ, length, [], Err, Some, None, false, IfOk, IfErr, OnOk, OnErr, IfSome, IsSome};
ghost use Rattle.std.specs.Arc.{arc_value};
ghost use Rattle.std.specs.List.{All};
ghost use Rattle.nm_base.specs.Count.{Rose};
ghost use Rattle.nm_disk.specs.Image.{AnyMoment};
ghost use Rattle.nm_disk.specs.Keeps.{KeepsDisk};
ghost use Rattle.nm_journal.specs.Fits.{ReadsAs, IsDamagedAt, WasThereOrReadsAs};
ghost use Rattle.nm_manager.specs.Manager.{IsStrangeAt};
ghost use Rattle.nm_manager.specs.declared.action.TurnFault.TheVariants as fault;
ghost use Rattle.nm_world.specs.Runs.{ComesBy, Does, HasTime, IsBetween, IsNumbered, IsReady, Journals, KeepsTime, LeadsTo, NoneStrange, Reaches};

use crate::happened::{Sending, TraceEntry};
use crate::setup::Setup;
use crate::world_core::WorldCore;
use nm_base::{ChangeNo, DeviceNo, Label, NoMemory, SessionId};
use nm_disk::Disk;
use nm_history::Recorded;
use nm_journal::Journal;
use nm_manager::TurnFault;
use nm_proto::{ChangePlan, Content, Entry, Event, Tables};
use std::alloc::Global;
use std::marker::Model;
use std::sync::Arc;

/// The devices with their histories, the manager of all change sets with its links and journal, the operators beside it, and what
/// has happened.
pub struct World<C: Content + Drop> {
    pub(crate) core: WorldCore<C>,
    trail: Vec<TraceEntry>,
}

impl<C: Content + Drop> Drop for World<C> {
    fn drop(self) {
        let World { core, trail } = self;
        drop(core);
        drop(trail);
    }
}

impl<C: Content + Drop> Model for World<C> {
    ghost use Rattle.nm_world.specs.World.{WorldValue};

    ghost Value = { WorldValue C C.Config C.Edit C.Node };

    ghost view = { λ w. record {
      content = w.core.content;
      setting = w.core.setting;
      first_configs = w.core.first_configs;
      failed = w.core.failed;
      has_failed = w.core.has_failed;
      state = record {
        devices = w.core.state.devices;
        entries = w.core.state.entries;
        slots = w.core.state.slots;
        operators = w.core.state.operators;
        trail = w.trail.items;
        has_diverged = w.core.state.has_diverged;
      };
    } };
}

impl<C: Content + Drop> World<C> {
    ghost use Rattle.nm_world.specs.World.{core_of, fresh_world, operator_session, world_anew, AreSound};

    /// The world before anything happened, with an operator of each user and a journal of no entries. Each device has its first
    /// configuration for itself; the rest of the setup is shared.
    pub fn new(alloc: Global, setup: Arc<Setup<C>>, journal: Journal) -> Result<World<C>, NoMemory>
        requires empty { journal ≡ record { entries = []; failed = None } }
        ensures begun { IfOk result (λ w. w ≡ fresh_world (arc_value setup)) }
        ensures in_time { (seconds : ℕ) → seconds ≤ 2 ^ 62 → IfOk result (λ w. HasTime seconds w.state.devices) }
    {
        let core = WorldCore::new(alloc, setup, journal)?;
        Ok(World {
            core,
            trail: Vec::new(alloc),
        })
    }

    /// Begins again, with an empty journal on a disk from which all is taken.
    ///
    /// It takes its room first. Where it fails the world stays, and where the disk has failed, its journal needn't fit the disk.
    pub fn begin_again<D: Disk>(&mut self, disk: &mut D) -> Result<(), TurnFault>
        ensures begun { OnOk result (self.new ≡ world_anew self.old) }
        ensures in_time { (seconds : ℕ) → seconds ≤ 2 ^ 62 → OnOk result (HasTime seconds self.new.state.devices) }
        ensures ready { OnOk result (IsReady self.new (D.state disk.new)) }
        ensures unchanged { OnErr result (self.new ≡ self.old) }
        ensures disk_fault { result ≡ Err fault.DiskFault → Rose (D.state disk.old).faults (D.state disk.new).faults }
        ensures no_memory { result ≡ Err fault.NoMemory → disk.new ≡ disk.old }
        ensures no_other { IfErr result (λ why. (why ≡ fault.DiskFault) ⊎ (why ≡ fault.NoMemory)) }
        // A crash during the call leaves an image that was there, or one that reads as an empty list.
        ensures any_moment { IsSome (D.state disk.old).contents
            → AnyMoment (D.state disk.old) (D.state disk.new) (WasThereOrReadsAs (D.state disk.old) []) }
        ensures keeps { KeepsDisk (D.state disk.old) (D.state disk.new) }
    {
        self.core.begin_again(disk)?;
        self.trail.clear();
        Ok(())
    }

    /// The content of the devices.
    pub fn content(&self) -> &C
        ensures { result.now ≡ self.now.content }
    {
        self.core.content()
    }

    /// What requests name by number.
    pub fn tables(&self) -> &Tables<C>
        ensures { result.now ≡ self.now.setting.tables }
    {
        self.core.tables()
    }

    /// The users of the operators, that of operator 1 first.
    pub fn users(&self) -> &[Label]
        ensures { result.now ≡ self.now.setting.users }
    {
        self.core.users()
    }

    /// The change sets, the first of them first.
    pub fn plans(&self) -> &[ChangePlan]
        ensures value { result.now ≡ self.now.setting.plans }
        ensures few { length self.now.setting.plans ≤ 64 }
    {
        self.core.plans()
    }

    /// The devices with their histories, device 1 first.
    pub fn devices(&self) -> &[Recorded<C>]
        ensures value { result.now ≡ self.now.state.devices }
        ensures sound { AreSound (C.meaning self.now.content) self.now.state.devices }
        ensures few { length self.now.state.devices ≤ 32 }
    {
        self.core.devices()
    }

    /// The journal's entries, oldest first.
    pub fn entries(&self) -> &[Entry]
        ensures { result.now ≡ self.now.state.entries }
    {
        self.core.entries()
    }

    /// Each elementary event with what came of it, oldest first.
    pub fn trail(&self) -> &[TraceEntry]
        ensures { result.now ≡ self.now.state.trail }
    {
        self.trail.as_slice()
    }

    /// The session that an operator, by its number from 1, has on a device.
    pub fn operator_session(&self, number: u32, device: DeviceNo) -> Option<SessionId>
        ensures { result ≡ operator_session (core_of self.now.state) number device }
    {
        self.core.operator_session(number, device)
    }

    /// Whether the manager has failed: its journal takes no more.
    pub fn has_failed(&self) -> bool
        ensures { result ≡ self.now.has_failed }
    {
        self.core.has_failed()
    }
}

// What happens, one elementary event at a time. Where the journal's disk fails, or there is no memory, the run is over.
impl<C: Content + Drop> World<C> {
    ghost use Rattle.nm_world.specs.World.{IsStill, elementary, core_of, sending_of, world_step, is_crash};
    ghost use Rattle.nm_world.specs.Runs.{seconds_in};

    /// Does an elementary event, notes in the trail what came of it, and answers where it sent a request, if it did. One that
    /// doesn't apply, or isn't elementary, changes nothing else.
    ///
    /// An entry that the event makes is in the journal before anything rests on it. The clock of a device rises by less than 2^32
    /// seconds.
    pub fn apply<D: Disk>(
        &mut self,
        disk: &mut D,
        event: &Event,
    ) -> Result<Option<Sending>, TurnFault>
        requires given { IsNumbered (length self.old.setting.plans) event.now }
        requires ready { IsReady self.old (D.state disk.old) }
        ensures applied { OnOk result (Does (λ w. world_step (C.meaning self.old.content) self.old.setting w event.now) self.old self.new
            (D.state disk.old) (D.state disk.new)) }
        ensures came { OnOk result (ComesBy (λ w. world_step (C.meaning self.old.content) self.old.setting w event.now) self.old.setting.plans event.now
            self.old.state self.new.state) }
        ensures read { is_crash event.now ≡ false → (offset : ℕ) → result ≡ Err (fault.Damaged offset) → ⊥ }
        ensures sound { IsSome (D.state disk.old).contents → NoneStrange self.old.setting.plans self.old.state.entries
            → (offset : ℕ) → result ≡ Err (fault.Damaged offset) → ⊥ }
        ensures sent { IfOk result (λ sending. sending
            ≡ sending_of (elementary (C.meaning self.old.content) self.old.setting (core_of self.old.state) event.now).happened) }
        ensures still { OnErr result (IsStill self.old self.new) }
        ensures no_memory { result ≡ Err fault.NoMemory → is_crash event.now ≡ false → self.new ≡ self.old }
        ensures disk_fault { result ≡ Err fault.DiskFault → Rose (D.state disk.old).faults (D.state disk.new).faults }
        ensures damaged { (offset : ℕ) → result ≡ Err (fault.Damaged offset)
            → IfSome (D.state disk.old).contents (IsDamagedAt offset) ⊎ IsStrangeAt self.old.setting.plans (D.state disk.old).contents offset }
        ensures journals { Journals self.old.state (world_step (C.meaning self.old.content) self.old.setting self.old.state event.now)
            (D.state disk.old) (D.state disk.new) }
        ensures time { KeepsTime (seconds_in event.now) self.old.state.devices self.new.state.devices }
        ensures short { OnOk result (seconds_in event.now < 2 ^ 32) }
    {
        // Once the world has changed, the trail must find room.
        let Ok(()) = self.trail.reserve(1) else {
            return Err(TurnFault::NoMemory);
        };
        let Ok(noted) = event.copy() else {
            return Err(TurnFault::NoMemory);
        };
        let happened = self.core.come(disk, event)?;
        let sending = happened.sending();
        self.trail.push_reserved(TraceEntry {
            event: noted,
            happened,
        });
        Ok(sending)
    }
}

// Rounds, and whole runs.
impl<C: Content + Drop> World<C> {
    ghost use Rattle.nm_manager.specs.Manager.{wire_in};
    ghost use Rattle.nm_world.specs.World.{AreCalm, is_crash, elementary, manager_in, core_of, sending_of, replies_on, last_answered, followed, round, rounds, event_step, run, with_state};

    /// The number of the link of a change set to a device that is current, from 1, and None exactly where none is.
    pub fn current_link(&self, change: ChangeNo, device: DeviceNo) -> Option<u32>
        requires given { change ≤ length self.now.setting.plans }
        ensures { result ≡ (wire_in (manager_in (core_of self.now.state)) change device).current }
    {
        self.core.current_link(change, device)
    }

    // How many replies were sent on a link.
    fn replies_on(&self, change: ChangeNo, device: DeviceNo, link: u32) -> u32
        requires given { change ≤ length self.now.setting.plans }
        ensures { result ≡ replies_on (wire_in (manager_in (core_of self.now.state)) change device) link }
    {
        self.core.replies_on(change, device, link)
    }

    // The answer of the last reply on a link.
    fn answer_last<D: Disk>(
        &mut self,
        disk: &mut D,
        change: ChangeNo,
        sending: Sending,
    ) -> Result<(), TurnFault>
        requires given { change ≤ length self.old.setting.plans }
        requires ready { IsReady self.old (D.state disk.old) }
        ensures answered { OnOk result (Does (λ w. last_answered (C.meaning self.old.content) self.old.setting w change sending) self.old self.new
            (D.state disk.old) (D.state disk.new)) }
        ensures exact { OnOk result (self.new.state ≡ last_answered (C.meaning self.old.content) self.old.setting self.old.state change sending) }
        ensures read { (offset : ℕ) → result ≡ Err (fault.Damaged offset) → ⊥ }
        ensures disk_fault { result ≡ Err fault.DiskFault → Rose (D.state disk.old).faults (D.state disk.new).faults }
        ensures journals { Journals self.old.state (last_answered (C.meaning self.old.content) self.old.setting self.old.state change sending)
            (D.state disk.old) (D.state disk.new) }
        ensures time { KeepsTime 0 self.old.state.devices self.new.state.devices }
    {
        let number = self.replies_on(change, sending.device, sending.link);
        self.apply(
            disk,
            &Event::Answer {
                change,
                device: sending.device,
                link: sending.link,
                number,
            },
        )?;
        Ok(())
    }

    // A turn, and where it sent, the delivery and the answer of the last reply.
    fn round<D: Disk>(&mut self, disk: &mut D, change: ChangeNo) -> Result<(), TurnFault>
        requires given { change ≤ length self.old.setting.plans }
        requires ready { IsReady self.old (D.state disk.old) }
        ensures went { OnOk result (Does (λ w. round (C.meaning self.old.content) self.old.setting w change) self.old self.new (D.state disk.old)
            (D.state disk.new)) }
        ensures exact { OnOk result (self.new.state ≡ round (C.meaning self.old.content) self.old.setting self.old.state change) }
        ensures read { (offset : ℕ) → result ≡ Err (fault.Damaged offset) → ⊥ }
        ensures disk_fault { result ≡ Err fault.DiskFault → Rose (D.state disk.old).faults (D.state disk.new).faults }
        ensures journals { Journals self.old.state (round (C.meaning self.old.content) self.old.setting self.old.state change) (D.state disk.old)
            (D.state disk.new) }
        ensures time { KeepsTime 0 self.old.state.devices self.new.state.devices }
    {
        let Some(sending) = self.apply(disk, &Event::Turn { change })? else {
            return Ok(());
        };
        self.follow(disk, change, sending)
    }

    // The delivery of what was sent, and the answer of the last reply.
    fn follow<D: Disk>(
        &mut self,
        disk: &mut D,
        change: ChangeNo,
        sending: Sending,
    ) -> Result<(), TurnFault>
        requires given { change ≤ length self.old.setting.plans }
        requires ready { IsReady self.old (D.state disk.old) }
        ensures followed { OnOk result (Does (λ w. followed (C.meaning self.old.content) self.old.setting w change (Some sending)) self.old self.new
            (D.state disk.old) (D.state disk.new)) }
        ensures exact { OnOk result (self.new.state ≡ followed (C.meaning self.old.content) self.old.setting self.old.state change (Some sending)) }
        ensures read { (offset : ℕ) → result ≡ Err (fault.Damaged offset) → ⊥ }
        ensures disk_fault { result ≡ Err fault.DiskFault → Rose (D.state disk.old).faults (D.state disk.new).faults }
        ensures journals { Journals self.old.state (followed (C.meaning self.old.content) self.old.setting self.old.state change (Some sending))
            (D.state disk.old) (D.state disk.new) }
        ensures time { KeepsTime 0 self.old.state.devices self.new.state.devices }
    {
        self.apply(
            disk,
            &Event::Deliver {
                change,
                device: sending.device,
                link: sending.link,
            },
        )?;
        self.answer_last(disk, change, sending)
    }

    // So many rounds.
    fn rounds<D: Disk>(
        &mut self,
        disk: &mut D,
        change: ChangeNo,
        turns: u32,
    ) -> Result<(), TurnFault>
        requires given { change ≤ length self.old.setting.plans }
        requires ready { IsReady self.old (D.state disk.old) }
        ensures went { OnOk result (Does (λ w. rounds (C.meaning self.old.content) self.old.setting turns w change) self.old self.new
            (D.state disk.old) (D.state disk.new)) }
        ensures exact { OnOk result (self.new.state ≡ rounds (C.meaning self.old.content) self.old.setting turns self.old.state change) }
        ensures read { (offset : ℕ) → result ≡ Err (fault.Damaged offset) → ⊥ }
        ensures disk_fault { result ≡ Err fault.DiskFault → Rose (D.state disk.old).faults (D.state disk.new).faults }
        ensures journals { Journals self.old.state (rounds (C.meaning self.old.content) self.old.setting turns self.old.state change)
            (D.state disk.old) (D.state disk.new) }
        ensures time { KeepsTime 0 self.old.state.devices self.new.state.devices }
    {
        for _ in 0..turns {
            self.round(disk, change)?;
        }
        Ok(())
    }

    /// Does what an event says, a round by its elementary events.
    pub fn step<D: Disk>(&mut self, disk: &mut D, event: &Event) -> Result<(), TurnFault>
        requires given { IsNumbered (length self.old.setting.plans) event.now }
        requires ready { IsReady self.old (D.state disk.old) }
        ensures stepped { OnOk result (Does (λ w. event_step (C.meaning self.old.content) self.old.setting w event.now) self.old self.new
            (D.state disk.old) (D.state disk.new)) }
        ensures leads { OnOk result (LeadsTo (C.meaning self.old.content) self.old.setting event.now self.old.state self.new.state) }
        ensures read { is_crash event.now ≡ false → (offset : ℕ) → result ≡ Err (fault.Damaged offset) → ⊥ }
        ensures sound { IsSome (D.state disk.old).contents → NoneStrange self.old.setting.plans self.old.state.entries
            → (offset : ℕ) → result ≡ Err (fault.Damaged offset) → ⊥ }
        ensures disk_fault { result ≡ Err fault.DiskFault → Rose (D.state disk.old).faults (D.state disk.new).faults }
        ensures journals { Journals self.old.state (event_step (C.meaning self.old.content) self.old.setting self.old.state event.now)
            (D.state disk.old) (D.state disk.new) }
        ensures time { OnOk result (KeepsTime (2 ^ 32) self.old.state.devices self.new.state.devices) }
    {
        match event {
            Event::Round { change, turns } => self.rounds(disk, *change, *turns),
            _ => {
                self.apply(disk, event)?;
                Ok(())
            }
        }
    }

    /// Does what the events say, in order, and gives the world back; where the disk fails or there is no memory it is gone.
    pub fn run<D: Disk>(self, disk: &mut D, events: &[Event]) -> Result<World<C>, TurnFault>
        requires given { All (IsNumbered (length self.setting.plans)) events.now }
        requires in_time { HasTime (2 ^ 32 * length events.now) self.state.devices }
        requires ready { IsReady self (D.state disk.old) }
        ensures done { IfOk result (λ world. world.state.has_diverged ≡ false
            → world ≡ with_state self (run (C.meaning self.content) self.setting self.state events.now)) }
        // Whatever the manager read of its journal, nothing but the state changes, and it hasn't failed.
        ensures others { IfOk result (λ world. world ≡ with_state self world.state) }
        // Whatever crashes read, the last world is that of the events with what was read.
        ensures reached { IfOk result (λ world. Reaches (C.meaning self.content) self.setting self.state events.now world.state) }
        // Over a disk that tells its bytes no world diverges.
        ensures straight { IsSome (D.state disk.old).contents → IfOk result (λ world. world.state.has_diverged ≡ self.state.has_diverged) }
        // Only a crash can have a world diverge.
        ensures calm { AreCalm events.now → IfOk result (λ world. world.state.has_diverged ≡ self.state.has_diverged) }
        // Without a crash nothing is read of the journal.
        ensures read { AreCalm events.now → (offset : ℕ) → result ≡ Err (fault.Damaged offset) → ⊥ }
        // Over a disk that tells its bytes the journal reads as it was written, so nothing in it is damaged.
        ensures sound { IsSome (D.state disk.old).contents → self.state.has_diverged ≡ false → NoneStrange self.setting.plans self.state.entries
            → (offset : ℕ) → result ≡ Err (fault.Damaged offset) → ⊥ }
        ensures operators { IfOk result (λ world. length world.state.operators ≡ length self.state.operators) }
        // Each event takes less than 2^32 seconds.
        ensures keeps_time { IfOk result (λ world. KeepsTime (2 ^ 32 * length events.now) self.state.devices world.state.devices) }
        ensures ready { IfOk result (λ world. IsReady world (D.state disk.new)) }
        ensures stored { IfOk result (λ world. IfSome (D.state disk.new).contents (ReadsAs world.state.entries)) }
        ensures disk_fault { result ≡ Err fault.DiskFault → Rose (D.state disk.old).faults (D.state disk.new).faults }
        ensures keeps { KeepsDisk (D.state disk.old) (D.state disk.new) }
        // A crash at any moment of the run leaves the entries so far, the one being written with them or not.
        ensures any_moment { IsSome (D.state disk.old).contents → self.state.has_diverged ≡ false → AnyMoment (D.state disk.old) (D.state disk.new)
            (IsBetween self.state.entries (run (C.meaning self.content) self.setting self.state events.now).entries) }
    {
        let mut world = self;
        for event in events {
            world.step(disk, event)?;
        }
        Ok(world)
    }
}
