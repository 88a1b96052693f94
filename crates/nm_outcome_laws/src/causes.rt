//! Why change sets are aborted, in every run of the world.

ghost use Rattle.std.specs.Prelude.{List, ℕ};
ghost use Rattle.nm_proto.specs.declared.plan.Event.{Event as AnEvent};
ghost use Rattle.nm_world.specs.Drain.{drained};
ghost use Rattle.nm_world.specs.World.{Setting, run, start};
ghost use Rattle.nm_safety.specs.Safe.{IsProper};
ghost use Rattle.nm_outcome_laws.specs.Causes.{HaveCauses};

use nm_proto::Content;

/// After any events that a scenario may have, in any order, with any number of change sets and operators: each abort in the journal
/// has the cause that it names. A refusal and a lapse stand on an error that a device replied to a request of the change set, on one of
/// its links and in the device's history; a broken link on a break in the trail, and forgetting on a loss of memory in it, which came before
/// the change set was decided. And the trail tells of the same submissions and decisions as the journal.
pub fn every_abort_has_its_cause<C: Content>(content: &C)
    ensures { (setting : Setting C.Edit) (running : List C.Config) (events : List AnEvent)
        → IsProper {Node = C.Node} (C.meaning content.now) setting running events
        → HaveCauses {Config = C.Config} {Node = C.Node} (run (C.meaning content.now) setting (start setting running) events) }
{}

/// So it is too after any number of steps that bring a world to rest.
pub fn every_drained_abort_has_its_cause<C: Content>(content: &C)
    ensures { (setting : Setting C.Edit) (running : List C.Config) (events : List AnEvent) (steps : ℕ)
        → IsProper {Node = C.Node} (C.meaning content.now) setting running events
        → HaveCauses {Config = C.Config} {Node = C.Node}
        (drained (C.meaning content.now) setting steps (run (C.meaning content.now) setting (start setting running) events)) }
{}
