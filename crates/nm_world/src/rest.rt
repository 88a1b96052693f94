//! How a world comes to rest, step by step, and what is reported of it.

ghost use Rattle.std.specs.Prelude.{◌≡◌, ◌<◌, ◌^◌, ℕ, length, is_some, false, Ok, Err, None, IfOk, OnOk, OnErr, IfSome, IsSome};
ghost use Rattle.nm_base.specs.Count.{Rose};
ghost use Rattle.nm_disk.specs.Image.{AnyMoment};
ghost use Rattle.nm_disk.specs.Keeps.{KeepsDisk};
ghost use Rattle.nm_journal.specs.Fits.{ReadsAs};
ghost use Rattle.nm_manager.specs.declared.action.TurnFault.TheVariants as fault;
ghost use Rattle.nm_world.specs.Drain.{drain_in, drain_event, drain_step, drained, drain_limit};
ghost use Rattle.nm_world.specs.Report.{report_in, report_of};
ghost use Rattle.nm_world.specs.Runs.{Does, IsBetween, IsReady, Journals, KeepsTime};

use crate::report::{Report, report_from};
use crate::search::next_step;
use crate::world::World;
use crate::world_core::WorldCore;
use nm_base::NoMemory;
use nm_disk::Disk;
use nm_manager::TurnFault;
use nm_proto::{Content, Event};

/// At most so many steps bring a world to rest: a world that is still not at rest then is left as it stands.
pub const DRAIN_LIMIT: u32 = 1_000_000;

#[tactic(auto, unfolding(crate::specs::Drain::drain_limit))]
fn drain_limit() -> u32
    ensures { result ≡ drain_limit }
{
    DRAIN_LIMIT
}

impl<C: Content + Drop> WorldCore<C> {
    // The next step, and None exactly where the world is at rest.
    fn next_step(&self) -> Option<Event>
        requires numbered { length self.now.state.operators < 2 ^ 32 }
        ensures { result ≡ drain_in (length self.now.setting.plans) self.now.state }
    {
        next_step(&self.devices, &self.operators, &self.manager)
    }

    // What is reported of what stands.
    fn report(&self) -> Result<Report, NoMemory>
        ensures { IfOk result (λ report. report ≡ report_in self.now.setting self.now.state) }
    {
        report_from(self.alloc, &self.devices, &self.manager)
    }
}

impl<C: Content + Drop> World<C> {
    ghost use Rattle.nm_world.specs.World.{IsStill, with_state};

    /// Does the next step that brings the world to rest, and answers whether there was one. Where there was none, the world is at
    /// rest, and nothing changes. The operators are numbered by 32 bits.
    pub fn drain_step<D: Disk>(&mut self, disk: &mut D) -> Result<bool, TurnFault>
        requires numbered { length self.old.state.operators < 2 ^ 32 }
        requires ready { IsReady self.old (D.state disk.old) }
        ensures stepped { OnOk result (Does (λ w. drain_step (C.meaning self.old.content) self.old.setting w) self.old self.new (D.state disk.old)
            (D.state disk.new)) }
        ensures exact { OnOk result (self.new.state ≡ drain_step (C.meaning self.old.content) self.old.setting self.old.state) }
        ensures read { (offset : ℕ) → result ≡ Err (fault.Damaged offset) → ⊥ }
        ensures went { IfOk result (λ went. went ≡ is_some (drain_event self.old.setting self.old.state)) }
        ensures at_rest { drain_event self.old.setting self.old.state ≡ None → (self.new ≡ self.old) × (disk.new ≡ disk.old) }
        ensures still { OnErr result (IsStill self.old self.new) }
        ensures no_memory { result ≡ Err fault.NoMemory → self.new ≡ self.old }
        ensures disk_fault { result ≡ Err fault.DiskFault → Rose (D.state disk.old).faults (D.state disk.new).faults }
        ensures journals { Journals self.old.state (drain_step (C.meaning self.old.content) self.old.setting self.old.state) (D.state disk.old)
            (D.state disk.new) }
        ensures time { KeepsTime 0 self.old.state.devices self.new.state.devices }
    {
        let Some(event) = self.core.next_step() else {
            return Ok(false);
        };
        self.apply(disk, &event)?;
        Ok(true)
    }

    /// Brings the world to rest, step by step, by at most `DRAIN_LIMIT` of them, and gives it back; where the disk fails or there is no
    /// memory it is gone.
    pub fn drain<D: Disk>(self, disk: &mut D) -> Result<World<C>, TurnFault>
        requires numbered { length self.state.operators < 2 ^ 32 }
        requires ready { IsReady self (D.state disk.old) }
        ensures done { IfOk result (λ world. world.state.has_diverged ≡ false
            → world ≡ with_state self (drained (C.meaning self.content) self.setting drain_limit self.state)) }
        ensures others { IfOk result (λ world. world ≡ with_state self world.state) }
        // No step is a crash.
        ensures reached { IfOk result (λ world. world.state ≡ drained (C.meaning self.content) self.setting drain_limit self.state) }
        ensures straight { IfOk result (λ world. world.state.has_diverged ≡ self.state.has_diverged) }
        ensures read { (offset : ℕ) → result ≡ Err (fault.Damaged offset) → ⊥ }
        ensures stored { IfOk result (λ world. IfSome (D.state disk.new).contents (ReadsAs world.state.entries)) }
        ensures disk_fault { result ≡ Err fault.DiskFault → Rose (D.state disk.old).faults (D.state disk.new).faults }
        ensures keeps { KeepsDisk (D.state disk.old) (D.state disk.new) }
        // A crash at any moment leaves the entries so far, the one being written with them or not.
        ensures any_moment { IsSome (D.state disk.old).contents → self.state.has_diverged ≡ false → AnyMoment (D.state disk.old) (D.state disk.new)
            (IsBetween self.state.entries (drained (C.meaning self.content) self.setting drain_limit self.state).entries) }
    {
        let mut world = self;
        let limit = drain_limit();
        for _ in 0..limit {
            if !world.drain_step(disk)? {
                return Ok(world);
            }
        }
        Ok(world)
    }

    /// The devices that differ from a journalled verdict, and those of which it isn't known yet what becomes of a change set.
    pub fn report(&self) -> Result<Report, NoMemory>
        ensures { IfOk result (λ report. report ≡ report_of self.now.setting self.now.state) }
    {
        self.core.report()
    }
}
