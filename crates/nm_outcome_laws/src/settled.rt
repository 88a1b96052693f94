//! What is reported unsettled, and what has become of change sets in a world that is at rest.

ghost use Rattle.std.specs.Prelude.{◌≡◌, ℕ, List, None};
ghost use Rattle.nm_proto.specs.declared.plan.Event.{Event as AnEvent};
ghost use Rattle.nm_world.specs.World.{Setting, WorldState, run, start};
ghost use Rattle.nm_world.specs.Drain.{drain_event, drained};
ghost use Rattle.nm_safety.specs.Safe.{IsProper, IsSafe};
ghost use Rattle.nm_commit_laws.specs.Marks.{AreUnmarked};
ghost use Rattle.nm_outcome_laws.specs.Settled.{IsAtRest, TellsUnsettled};

use nm_proto::Content;

/// The report of a safe world, as every run comes to, names as unsettled exactly the change sets and devices of which the change set was
/// submitted, and either its commit is pending at the device, or a request is on its way: sent on a link whose side at the device is
/// open, and in no history yet.
pub fn requests_on_their_way_are_told<C: Content>(content: &C)
    ensures { (setting : Setting C.Edit) (running : List C.Config) (events : List AnEvent) (w : WorldState C.Config C.Node)
        → IsSafe (C.meaning content.now) setting running events w → TellsUnsettled setting w }
{}

/// After any events that a scenario may have, in any order, with any number of change sets and operators, and after any number of steps that
/// bring such a world to rest: where no step is left, each change set that was submitted is ended, whichever it is. And where no edit of a
/// change set names a mark and no device began with one, nothing is reported unsettled.
pub fn rest_settles_all<C: Content>(content: &C)
    ensures { (setting : Setting C.Edit) (running : List C.Config) (events : List AnEvent) (steps : ℕ)
        → IsProper {Node = C.Node} (C.meaning content.now) setting running events
        → AreUnmarked {Edit = C.Edit} {Node = C.Node} (C.meaning content.now) running
        → drain_event {Config = C.Config} {Node = C.Node} setting
        (drained (C.meaning content.now) setting steps (run (C.meaning content.now) setting (start setting running) events)) ≡ None
        → IsAtRest (C.meaning content.now) setting
        (drained (C.meaning content.now) setting steps (run (C.meaning content.now) setting (start setting running) events)) }
{}
