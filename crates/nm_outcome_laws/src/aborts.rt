//! What becomes of a change set that was to be aborted, once it is ended.

ghost use Rattle.std.specs.Prelude.{ℕ, List};
ghost use Rattle.nm_proto.specs.declared.plan.Event.{Event as AnEvent};
ghost use Rattle.nm_world.specs.World.{Setting, run, start};
ghost use Rattle.nm_world.specs.Drain.{drained};
ghost use Rattle.nm_safety.specs.Safe.{IsProper};
ghost use Rattle.nm_outcome_laws.specs.Aborts.{AbortsAreOver};

use nm_proto::Content;

/// After any events that a scenario may have, in any order, with any number of change sets and operators: of a change set that was to be
/// aborted and is ended no commit is pending at any device. So none ever will be, since this holds after whatever comes later too.
pub fn aborts_are_over<C: Content>(content: &C)
    ensures { (setting : Setting C.Edit) (running : List C.Config) (events : List AnEvent)
        → IsProper {Node = C.Node} (C.meaning content.now) setting running events
        → AbortsAreOver {Config = C.Config} {Node = C.Node} setting (run (C.meaning content.now) setting (start setting running) events) }
{}

/// So after any number of steps that bring such a world to rest.
pub fn drained_aborts_are_over<C: Content>(content: &C)
    ensures { (setting : Setting C.Edit) (running : List C.Config) (events : List AnEvent) (steps : ℕ)
        → IsProper {Node = C.Node} (C.meaning content.now) setting running events
        → AbortsAreOver {Config = C.Config} {Node = C.Node} setting
        (drained (C.meaning content.now) setting steps (run (C.meaning content.now) setting (start setting running) events)) }
{}
