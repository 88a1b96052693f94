//! How a world begins, and begins again.

ghost use Rattle.std.specs.Prelude.{◌≡◌, ◌≤◌, ◌⊎◌, ◌++◌, ◌∷◌, [], length, map, replicate, None, Err, IfOk, IfErr, OnOk, OnErr, IsSome};
ghost use Rattle.std.specs.Arc.{arc_value};
ghost use Rattle.nm_base.specs.Count.{Rose};
ghost use Rattle.nm_disk.specs.Image.{AnyMoment};
ghost use Rattle.nm_disk.specs.Keeps.{KeepsDisk};
ghost use Rattle.nm_journal.specs.Fits.{Fits, WasThereOrReadsAs};
ghost use Rattle.nm_history.specs.History.{recorded};
ghost use Rattle.nm_manager.specs.declared.action.TurnFault.TheVariants as fault;
ghost use Rattle.nm_world.specs.World.{AreSound};

use crate::operator::Operator;
use crate::setup::Setup;
use crate::world_core::WorldCore;
use nm_base::NoMemory;
use nm_disk::Disk;
use nm_history::Recorded;
use nm_journal::Journal;
use nm_manager::{Manager, TurnFault};
use nm_proto::Content;
use std::alloc::Global;
use std::sync::Arc;

impl<C: Content + Drop> WorldCore<C> {
    ghost use Rattle.nm_world.specs.World.{fresh_core, core_anew, core_journal};

    // Before anything happened.
    pub(crate) fn new(
        alloc: Global,
        shared: Arc<Setup<C>>,
        journal: Journal,
    ) -> Result<WorldCore<C>, NoMemory>
        requires empty { journal ≡ record { entries = []; failed = None } }
        ensures { IfOk result (λ w. w ≡ fresh_core (arc_value shared)) }
    {
        let setup: &Setup<C> = &shared;
        let operators = fresh_operators(alloc, setup.users().len(), setup.first_configs().len())?;
        let devices = fresh_devices(alloc, setup)?;
        let plans = setup.copy_plans(alloc)?;
        let manager = Manager::new(alloc, plans, journal)?;
        Ok(WorldCore {
            alloc,
            setup: shared,
            manager,
            devices,
            operators,
            has_diverged: false,
        })
    }

    // As before anything happened, with an empty journal on a disk from which all is taken. It takes its room first.
    pub(crate) fn begin_again<D: Disk>(&mut self, disk: &mut D) -> Result<(), TurnFault>
        ensures begun { OnOk result (self.new ≡ core_anew self.old) }
        ensures fits { OnOk result (Fits (core_journal self.new) (D.state disk.new)) }
        ensures unchanged { OnErr result (self.new ≡ self.old) }
        ensures disk_fault { result ≡ Err fault.DiskFault → Rose (D.state disk.old).faults (D.state disk.new).faults }
        ensures no_memory { result ≡ Err fault.NoMemory → disk.new ≡ disk.old }
        ensures no_other { IfErr result (λ why. (why ≡ fault.DiskFault) ⊎ (why ≡ fault.NoMemory)) }
        ensures any_moment { IsSome (D.state disk.old).contents
            → AnyMoment (D.state disk.old) (D.state disk.new) (WasThereOrReadsAs (D.state disk.old) []) }
        ensures keeps { KeepsDisk (D.state disk.old) (D.state disk.new) }
    {
        let setup: &Setup<C> = &self.setup;
        let users = setup.users().len();
        let Ok(operators) = fresh_operators(self.alloc, users, setup.first_configs().len()) else {
            return Err(TurnFault::NoMemory);
        };
        let Ok(devices) = fresh_devices(self.alloc, setup) else {
            return Err(TurnFault::NoMemory);
        };
        self.manager.begin_again(disk)?;
        self.operators = operators;
        self.devices = devices;
        self.has_diverged = false;
        Ok(())
    }
}

// So many operators, without sessions on so many devices. They are numbered by 32 bits.
#[tactic(auto, using(crate::proofs::Loops::repeating))]
fn fresh_operators(alloc: Global, count: usize, devices: usize) -> Result<Vec<Operator>, NoMemory>
    ensures operators { IfOk result (λ operators. operators.items ≡ replicate count (replicate devices None)) }
{
    let mut operators = Vec::new(alloc);
    for _ in 0..count {
        operators.push(Operator::new(alloc, devices)?)?;
    }
    Ok(operators)
}

// A fresh device for each first configuration, of which it has its own.
fn fresh_devices<C: Content + Drop>(
    alloc: Global,
    setup: &Setup<C>,
) -> Result<Vec<Recorded<C>>, NoMemory>
    ensures begun { IfOk result (λ devices. devices.items ≡ map recorded setup.now.first_configs) }
    ensures sound { IfOk result (λ devices. AreSound (C.meaning setup.now.content) devices.items) }
    ensures few { IfOk result (λ devices. length devices.items ≤ 32) }
{
    let content = setup.content();
    let first_configs = setup.first_configs();
    let mut devices = Vec::new(alloc);
    for config in first_configs {
        let own = content.copy(config)?;
        push_fresh(alloc, &mut devices, own)?;
    }
    Ok(devices)
}

fn push_fresh<C: Content>(
    alloc: Global,
    devices: &mut Vec<Recorded<C>>,
    config: C::Config,
) -> Result<(), NoMemory>
    ensures { OnOk result (devices.new.items ≡ devices.old.items ++ (recorded config ∷ [])) }
{
    devices.push(Recorded::new(alloc, config))?;
    Ok(())
}
