//! The events that touch the journal: a change set comes into it, the manager acts, and a crash has it read again.

ghost use Rattle.std.specs.Prelude.{◌≡◌, ◌≤◌, ◌⊎◌, length, false, true, Err, None, ◌+◌, ◌<◌, ◌^◌, ℕ, IsSome, IfSome, IfOk, IfErr, OnOk, OnErr};
ghost use Rattle.nm_base.specs.Count.{Rose};
ghost use Rattle.nm_disk.specs.Image.{AnyMoment};
ghost use Rattle.nm_disk.specs.Keeps.{KeepsDisk};
ghost use Rattle.nm_journal.specs.Fits.{Fits, ReadsAs, IsDamagedAt};
ghost use Rattle.nm_manager.specs.declared.action.TurnFault.TheVariants as fault;
ghost use Rattle.nm_manager.specs.Manager.{MayRead, IsStrangeAt, start_at, entry_turned};

use crate::happened::Happened;
use crate::world_core::{WorldCore, happened_of};
use nm_base::{ChangeNo, NoMemory};
use nm_disk::Disk;
use nm_manager::TurnFault;
use nm_proto::{Content, Entry, Event};
use std::alloc::Global;

// The manager writes its journal.
impl<C: Content + Drop> WorldCore<C> {
    ghost use Rattle.nm_world.specs.World.{ComesOrFails, core_journal, manager_in, submitting, turning};

    // The change set comes into the journal, once.
    pub(crate) fn submit<D: Disk>(
        &mut self,
        disk: &mut D,
        change: ChangeNo,
    ) -> Result<Happened, TurnFault>
        requires given { change ≤ length self.old.setting.plans }
        requires going { self.old.has_failed ≡ false }
        requires fits { Fits (core_journal self.old) (D.state disk.old) }
        ensures came { ComesOrFails result self.old self.new (submitting self.old.setting.plans self.old.state change) }
        ensures failed { OnErr result (self.new.has_failed ≡ true) }
        ensures fault { IfErr result (λ why. why ≡ fault.DiskFault) }
        ensures disk_fault { OnErr result (Rose (D.state disk.old).faults (D.state disk.new).faults) }
        ensures fits { Fits (core_journal self.new) (D.state disk.new) }
        ensures keeps { KeepsDisk (D.state disk.old) (D.state disk.new) }
        ensures any_moment { IsSome (D.state disk.old).contents
            → AnyMoment (D.state disk.old) (D.state disk.new) (MayRead self.old.state.entries (start_at self.old.setting.plans change)) }
        ensures devices { self.new.state.devices ≡ self.old.state.devices }
    {
        let action = self.manager.submit(disk, change)?;
        Ok(happened_of(action))
    }

    // One action of the manager for a change set.
    pub(crate) fn turn<D: Disk>(
        &mut self,
        disk: &mut D,
        change: ChangeNo,
    ) -> Result<Happened, TurnFault>
        requires given { change ≤ length self.old.setting.plans }
        requires going { self.old.has_failed ≡ false }
        requires fits { Fits (core_journal self.old) (D.state disk.old) }
        ensures came { ComesOrFails result self.old self.new (turning self.old.setting.plans self.old.state change) }
        ensures no_memory { result ≡ Err fault.NoMemory → self.new ≡ self.old }
        ensures fault { IfErr result (λ why. (why ≡ fault.NoMemory) ⊎ (why ≡ fault.DiskFault)) }
        ensures disk_fault { result ≡ Err fault.DiskFault → Rose (D.state disk.old).faults (D.state disk.new).faults }
        ensures fits { Fits (core_journal self.new) (D.state disk.new) }
        ensures keeps { KeepsDisk (D.state disk.old) (D.state disk.new) }
        ensures any_moment { IsSome (D.state disk.old).contents
            → AnyMoment (D.state disk.old) (D.state disk.new) (MayRead self.old.state.entries (entry_turned (manager_in self.old.state) change)) }
        ensures devices { self.new.state.devices ≡ self.old.state.devices }
    {
        let action = self.manager.turn(disk, change)?;
        Ok(happened_of(action))
    }
}

// The manager's journal is read again.
impl<C: Content + Drop> WorldCore<C> {
    ghost use Rattle.nm_world.specs.World.{IsCome, IsAsBefore, crashing, core_journal};
    ghost use Rattle.nm_world.specs.Runs.{crashed_with};
    ghost use Rattle.nm_world.specs.declared.happened.Happened.TheVariants as happened;

    // All that the manager knows is lost, and it goes on from its journal as it reads. What was written is compared with it.
    pub(crate) fn crash<D: Disk>(&mut self, disk: &mut D) -> Result<Happened, TurnFault>
        requires going { self.old.has_failed ≡ false }
        requires whole { self.old.failed ≡ None }
        requires fits { Fits (core_journal self.old) (D.state disk.old) }
        ensures happened { IfOk result (λ what. what ≡ happened.Crashed) }
        ensures came { OnOk result (self.new.state.has_diverged ≡ false
            → self.new ≡ record self.old { state = (crashing self.old.setting.plans self.old.state).after }) }
        ensures read { OnOk result (self.new ≡ crashed_with self.old self.new.state.entries self.new.state.has_diverged) }
        ensures once { OnOk result (self.new.state.has_diverged ≡ false → self.old.state.has_diverged ≡ false) }
        ensures same { OnOk result (self.new.state.entries ≡ self.old.state.entries → self.new.state.has_diverged ≡ self.old.state.has_diverged) }
        ensures straight { IsSome (D.state disk.old).contents → OnOk result (self.new.state.has_diverged ≡ self.old.state.has_diverged) }
        ensures still { OnErr result (IsAsBefore self.old self.new) }
        ensures disk_fault { result ≡ Err fault.DiskFault → Rose (D.state disk.old).faults (D.state disk.new).faults }
        ensures damaged { (offset : ℕ) → result ≡ Err (fault.Damaged offset)
            → IfSome (D.state disk.old).contents (IsDamagedAt offset) ⊎ IsStrangeAt self.old.setting.plans (D.state disk.old).contents offset }
        ensures fits { OnOk result (Fits (core_journal self.new) (D.state disk.new)) }
        ensures keeps { KeepsDisk (D.state disk.old) (D.state disk.new) }
        ensures any_moment { IsSome (D.state disk.old).contents → AnyMoment (D.state disk.old) (D.state disk.new) (ReadsAs self.old.state.entries) }
        ensures devices { self.new.state.devices ≡ self.old.state.devices }
    {
        let Ok(written) = copied(self.alloc, self.manager.entries()) else {
            return Err(TurnFault::NoMemory);
        };
        self.manager.recover(disk)?;
        self.has_diverged = diverges_now(
            self.has_diverged,
            written.as_slice(),
            self.manager.entries(),
        );
        Ok(Happened::Crashed)
    }
}

// Whether it had has_diverged, or what was read isn't what was written.
fn diverges_now(has_diverged: bool, written: &[Entry], read: &[Entry]) -> bool
    ensures straight { result ≡ false → (has_diverged ≡ false) × (read.now ≡ written.now) }
    ensures same { read.now ≡ written.now → result ≡ has_diverged }
{
    has_diverged || !are_same(written, read)
}

// Whether two lists of entries are one.
fn are_same(first: &[Entry], second: &[Entry]) -> bool
    ensures same { result ≡ true → first.now ≡ second.now }
    ensures other { first.now ≡ second.now → result ≡ true }
{
    if first.len() != second.len() {
        return false;
    }
    for place in 0..first.len() {
        if !first[place].same(&second[place]) {
            return false;
        }
    }
    true
}

// The same entries.
fn copied(alloc: Global, entries: &[Entry]) -> Result<Vec<Entry>, NoMemory>
    ensures { IfOk result (λ copy. copy.items ≡ entries.now) }
{
    let mut copy = Vec::with_capacity(alloc, entries.len())?;
    for entry in entries {
        copy.push(*entry)?;
    }
    Ok(copy)
}

// Any event.
impl<C: Content + Drop> WorldCore<C> {
    ghost use Rattle.nm_world.specs.World.{IsAsBefore, AreInTime, core_journal, elementary, change_in, entry_of, is_crash};
    ghost use Rattle.nm_world.specs.Runs.{KeepsTime, seconds_in, RereadsCore};

    // An elementary event. One that isn't elementary changes nothing.
    pub(crate) fn come<D: Disk>(
        &mut self,
        disk: &mut D,
        event: &Event,
    ) -> Result<Happened, TurnFault>
        requires given { change_in event.now ≤ length self.old.setting.plans }
        requires in_time { AreInTime self.old.state.devices }
        requires going { self.old.has_failed ≡ false }
        requires whole { self.old.failed ≡ None }
        requires fits { Fits (core_journal self.old) (D.state disk.old) }
        ensures happened { IfOk result (λ what. what ≡ (elementary (C.meaning self.old.content) self.old.setting self.old.state event.now).happened) }
        ensures came { OnOk result (self.new.state.has_diverged ≡ false
            → self.new ≡ record self.old { state = (elementary (C.meaning self.old.content) self.old.setting self.old.state event.now).after }) }
        ensures exact { is_crash event.now ≡ false
            → OnOk result (self.new ≡ record self.old { state = (elementary (C.meaning self.old.content) self.old.setting self.old.state event.now).after }) }
        ensures reread { is_crash event.now ≡ true → OnOk result (RereadsCore self.old self.new) }
        ensures others { OnOk result (self.new ≡ record self.old { state = self.new.state }) }
        ensures once { OnOk result (self.new.state.has_diverged ≡ false → self.old.state.has_diverged ≡ false) }
        ensures straight { IsSome (D.state disk.old).contents → OnOk result (self.new.state.has_diverged ≡ self.old.state.has_diverged) }
        ensures calm { is_crash event.now ≡ false → OnOk result (self.new.state.has_diverged ≡ self.old.state.has_diverged) }
        ensures operators { OnOk result (length self.new.state.operators ≡ length self.old.state.operators) }
        ensures still { OnErr result (IsAsBefore self.old self.new) }
        ensures no_memory { result ≡ Err fault.NoMemory → is_crash event.now ≡ false → self.new ≡ self.old }
        ensures disk_fault { result ≡ Err fault.DiskFault → Rose (D.state disk.old).faults (D.state disk.new).faults }
        ensures damaged { (offset : ℕ) → result ≡ Err (fault.Damaged offset)
            → IfSome (D.state disk.old).contents (IsDamagedAt offset) ⊎ IsStrangeAt self.old.setting.plans (D.state disk.old).contents offset }
        ensures read { is_crash event.now ≡ false → (offset : ℕ) → result ≡ Err (fault.Damaged offset) → ⊥ }
        ensures fits { OnOk result (Fits (core_journal self.new) (D.state disk.new)) }
        ensures keeps { KeepsDisk (D.state disk.old) (D.state disk.new) }
        ensures any_moment { IsSome (D.state disk.old).contents
            → AnyMoment (D.state disk.old) (D.state disk.new) (MayRead self.old.state.entries (entry_of self.old.setting self.old.state event.now)) }
        ensures time { KeepsTime (seconds_in event.now) self.old.state.devices self.new.state.devices }
        ensures short { seconds_in event.now < 2 ^ 32 }
    {
        match event {
            Event::Submit { change } => self.submit(disk, *change),
            Event::Turn { change } => self.turn(disk, *change),
            Event::Crash => self.crash(disk),
            _ => match self.come_alone(event) {
                Ok(happened) => Ok(happened),
                Err(_) => Err(TurnFault::NoMemory),
            },
        }
    }
}
