//! Runs of events that are judged.

ghost use Rattle.std.specs.Prelude.{◌≡◌, ◌*◌, ◌^◌, ◌+◌, ◌++◌, ℕ, suc, length, Err, Some, false, IfOk, IfErr, OnOk, IfSome, IsSome};
ghost use Rattle.std.specs.List.{All};
ghost use Rattle.nm_base.specs.Count.{Rose};
ghost use Rattle.nm_disk.specs.Image.{AnyMoment};
ghost use Rattle.nm_disk.specs.Keeps.{KeepsDisk};
ghost use Rattle.nm_journal.specs.Fits.{ReadsAs};
ghost use Rattle.nm_manager.specs.declared.action.TurnFault.TheVariants as fault;
ghost use Rattle.nm_world.specs.World.{AreCalm, core_of, is_crash, run, with_state};
ghost use Rattle.nm_world.specs.Runs.{Does, HasTime, IsBetween, IsNumbered, IsReady, Journals, KeepsTime, NoneStrange};
ghost use Rattle.nm_permitted.specs.Permitted.{JudgedTo, PassesTo, denied, judged_step, numbered, permitted};

use crate::judge::{Denial, Judge};
use nm_disk::Disk;
use nm_manager::TurnFault;
use nm_proto::{Content, Event, Listed};
use nm_world::{Denied, World};

// The number of an event in what is told, behind so many that happened and so many that were denied. It is None past the end of the
// range, where no memory holds what came before.
fn next_number(happened: usize, refused: usize) -> Option<usize>
    ensures { IfSome result (λ number. number ≡ suc (happened + refused)) }
{
    happened.checked_add(refused)?.checked_add(1)
}

// A denial comes to the others, with the number of its event.
fn tell(denials: &mut Listed<Denied>, happened: usize, denial: Denial) -> Result<(), TurnFault>
    ensures told { OnOk result (denials.new ≡ denials.old ++ numbered (suc (happened + length denials.old)) (Some denial)) }
    ensures no_other { IfErr result (λ why. why ≡ fault.NoMemory) }
{
    let Some(number) = next_number(happened, denials.len()) else {
        return Err(TurnFault::NoMemory);
    };
    let Denial { by, path } = denial;
    let Ok(()) = denials.push(Denied { number, by, path }) else {
        return Err(TurnFault::NoMemory);
    };
    Ok(())
}

// An event is judged, and happens where it is permitted. One that is denied comes to the others that are.
fn pass<C: Content + Drop, D: Disk, J: Judge<C>>(
    world: &mut World<C>,
    disk: &mut D,
    judge: &J,
    event: &Event,
    denials: &mut Listed<Denied>,
) -> Result<(), TurnFault>
    requires given { IsNumbered (length world.old.setting.plans) event.now }
    requires ready { IsReady world.old (D.state disk.old) }
    ensures passed { OnOk result (Does (λ w. judged_step (C.meaning world.old.content) world.old.setting (J.judges judge.now world.old.content world.old.setting) w event.now)
        world.old world.new (D.state disk.old) (D.state disk.new)) }
    ensures leads { OnOk result (JudgedTo (C.meaning world.old.content) world.old.setting (J.judges judge.now world.old.content world.old.setting) event.now
        world.old.state world.new.state) }
    ensures told { OnOk result (denials.new ≡ denials.old ++ numbered (suc (length world.old.state.trail + length denials.old))
        (J.judges judge.now world.old.content world.old.setting (core_of world.old.state) event.now)) }
    ensures read { is_crash event.now ≡ false → (offset : ℕ) → result ≡ Err (fault.Damaged offset) → ⊥ }
    ensures sound { IsSome (D.state disk.old).contents → NoneStrange world.old.setting.plans world.old.state.entries
        → (offset : ℕ) → result ≡ Err (fault.Damaged offset) → ⊥ }
    ensures disk_fault { result ≡ Err fault.DiskFault → Rose (D.state disk.old).faults (D.state disk.new).faults }
    ensures journals { Journals world.old.state
        (judged_step (C.meaning world.old.content) world.old.setting (J.judges judge.now world.old.content world.old.setting) world.old.state event.now)
        (D.state disk.old) (D.state disk.new) }
    ensures time { OnOk result (KeepsTime (2 ^ 32) world.old.state.devices world.new.state.devices) }
{
    let Ok(judged) = judge.judge(&*world, event) else {
        return Err(TurnFault::NoMemory);
    };
    match judged {
        None => world.step(disk, event),
        Some(denial) => {
            let happened = world.trail().len();
            tell(denials, happened, denial)
        }
    }
}

/// Does what the events say that the judge permits, in order, each judged in the world that those before it led to, and gives the
/// world back; where the disk fails or there is no memory it is gone. Those that are denied come to the others.
///
/// A denied event's number is its place in what is told: each elementary event that happened counts, and each that was denied.
pub fn run_permitted<C: Content + Drop, D: Disk, J: Judge<C>>(
    world: World<C>,
    disk: &mut D,
    judge: &J,
    events: &[Event],
    denials: &mut Listed<Denied>,
) -> Result<World<C>, TurnFault>
    requires given { All (IsNumbered (length world.setting.plans)) events.now }
    requires in_time { HasTime (2 ^ 32 * length events.now) world.state.devices }
    requires ready { IsReady world (D.state disk.old) }
    // It is the run of the events that are permitted.
    ensures done { IfOk result (λ last. last.state.has_diverged ≡ false → last ≡ with_state world (run (C.meaning world.content) world.setting
        world.state (permitted (C.meaning world.content) world.setting (J.judges judge.now world.content world.setting) world.state events.now))) }
    ensures told { IfOk result (λ last. last.state.has_diverged ≡ false → denials.new ≡ denials.old ++ denied (C.meaning world.content) world.setting
        (J.judges judge.now world.content world.setting) world.state (length denials.old) events.now) }
    // Whatever the manager read of its journal, nothing but the state changes, and it hasn't failed.
    ensures others { IfOk result (λ last. last ≡ with_state world last.state) }
    // Whatever crashes read, each event was judged in the world as it stood, and these were denied.
    ensures reached { IfOk result (λ last. PassesTo (C.meaning world.content) world.setting (J.judges judge.now world.content world.setting) world.state denials.old
        events.now last.state denials.new) }
    // Over a disk that tells its bytes no world diverges, and only a crash can have one diverge.
    ensures straight { IsSome (D.state disk.old).contents → IfOk result (λ last. last.state.has_diverged ≡ world.state.has_diverged) }
    ensures calm { AreCalm events.now → IfOk result (λ last. last.state.has_diverged ≡ world.state.has_diverged) }
    // Without a crash nothing is read of the journal, and over a disk that tells its bytes nothing in it is damaged.
    ensures read { AreCalm events.now → (offset : ℕ) → result ≡ Err (fault.Damaged offset) → ⊥ }
    ensures sound { IsSome (D.state disk.old).contents → world.state.has_diverged ≡ false → NoneStrange world.setting.plans world.state.entries
        → (offset : ℕ) → result ≡ Err (fault.Damaged offset) → ⊥ }
    ensures operators { IfOk result (λ last. length last.state.operators ≡ length world.state.operators) }
    // Each event takes less than 2^32 seconds, and a denied one none.
    ensures keeps_time { IfOk result (λ last. KeepsTime (2 ^ 32 * length events.now) world.state.devices last.state.devices) }
    ensures ready { IfOk result (λ last. IsReady last (D.state disk.new)) }
    ensures stored { IfOk result (λ last. IfSome (D.state disk.new).contents (ReadsAs last.state.entries)) }
    ensures disk_fault { result ≡ Err fault.DiskFault → Rose (D.state disk.old).faults (D.state disk.new).faults }
    ensures keeps { KeepsDisk (D.state disk.old) (D.state disk.new) }
    // A crash at any moment of the run leaves the entries so far, the one being written with them or not.
    ensures any_moment { IsSome (D.state disk.old).contents → world.state.has_diverged ≡ false → AnyMoment (D.state disk.old) (D.state disk.new)
        (IsBetween world.state.entries (run (C.meaning world.content) world.setting world.state
        (permitted (C.meaning world.content) world.setting (J.judges judge.now world.content world.setting) world.state events.now)).entries) }
{
    let mut world = world;
    for event in events {
        pass(&mut world, disk, judge, event, denials)?;
    }
    Ok(world)
}
