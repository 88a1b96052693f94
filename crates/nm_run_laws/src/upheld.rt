//! What each step keeps, and what a manager goes on from that starts anew.

ghost use Rattle.std.specs.Prelude.{List, ℕ, []};
ghost use Rattle.nm_proto.specs.declared.plan.Event.{Event as AnEvent};
ghost use Rattle.nm_world.specs.Drain.{drain_step};
ghost use Rattle.nm_world.specs.Runs.{IsBetween};
ghost use Rattle.nm_world.specs.World.{Setting, WorldState, core_of, start, world_step};
ghost use Rattle.nm_run_laws.specs.Anew.{GoesOnFrom};
ghost use Rattle.nm_safety.specs.Safe.{IsGiven, IsProper, IsSafe};
ghost use Rattle.nm_run_laws.specs.Upheld.{IsUpheld};

use nm_proto::Content;

/// All on which safety rests holds at the beginning, and is kept by each elementary event and each step of a drain; and a world of which
/// it holds is safe, whatever led to it.
pub fn every_step_upholds<C: Content>(content: &C)
    ensures begins { (setting : Setting C.Edit) (running : List C.Config) → IsProper {Node = C.Node} (C.meaning content.now) setting running []
        → IsUpheld {Node = C.Node} (C.meaning content.now) setting running (start setting running) }
    ensures steps { (setting : Setting C.Edit) (running : List C.Config) (w : WorldState C.Config C.Node) (event : AnEvent) → IsGiven setting event
        → IsUpheld (C.meaning content.now) setting running w
        → IsUpheld (C.meaning content.now) setting running (world_step (C.meaning content.now) setting w event) }
    ensures drains { (setting : Setting C.Edit) (running : List C.Config) (w : WorldState C.Config C.Node)
        → IsUpheld (C.meaning content.now) setting running w → IsUpheld (C.meaning content.now) setting running (drain_step (C.meaning content.now) setting w) }
    ensures safe { (setting : Setting C.Edit) (running : List C.Config) (events : List AnEvent) (w : WorldState C.Config C.Node)
        → IsUpheld (C.meaning content.now) setting running w → IsSafe (C.meaning content.now) setting running events w }
{}

/// A crash is a new start: whatever bytes a crash during an event leaves in the journal, a manager that is started from them goes on as the
/// world does after a crash, with the event or without it.
pub fn every_crash_is_a_new_start<C: Content>(content: &C)
    ensures { (setting : Setting C.Edit) (running : List C.Config) (w : WorldState C.Config C.Node) (event : AnEvent) (image : List ℕ)
        → IsUpheld (C.meaning content.now) setting running w
        → IsBetween w.entries (world_step (C.meaning content.now) setting w event).entries image
        → GoesOnFrom (C.meaning content.now) setting (core_of w) event image }
{}
