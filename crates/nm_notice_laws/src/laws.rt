//! What is told of confirmed commits in a world. The function does nothing: its contract is the law.

ghost use Rattle.std.specs.Prelude.{ℕ, List, IfSome, slice_get};
ghost use Rattle.nm_proto.specs.declared.plan.Event.{Event as AnEvent};
ghost use Rattle.nm_world.specs.Drain.{drained};
ghost use Rattle.nm_world.specs.Runs.{Reaches};
ghost use Rattle.nm_world.specs.World.{IsFirst, Setting, WorldState, run, start};
ghost use Rattle.nm_notice_laws.specs.Replays.{TellAsReplayed};

use nm_proto::Content;

/// After any events, with any number of steps that bring the world to rest behind them, what is read from each device's history of
/// confirmed commits is what replaying it tells. So it is of every world that the events lead to where crashes read the journal otherwise
/// than it was written.
pub fn every_world_tells_as_replayed<C: Content>(content: &C)
    ensures ran { (setting : Setting C.Edit) (running : List C.Config) (events : List AnEvent) (steps : ℕ)
        → ((place : ℕ) → IfSome (slice_get running place) (IsFirst (C.meaning content.now)))
        → TellAsReplayed {Node = C.Node} (C.meaning content.now) setting running
        (drained (C.meaning content.now) setting steps (run (C.meaning content.now) setting (start setting running) events)) }
    ensures reached { (setting : Setting C.Edit) (running : List C.Config) (events : List AnEvent) (steps : ℕ) (last : WorldState C.Config C.Node)
        → ((place : ℕ) → IfSome (slice_get running place) (IsFirst (C.meaning content.now)))
        → Reaches (C.meaning content.now) setting (start setting running) events last
        → TellAsReplayed (C.meaning content.now) setting running (drained (C.meaning content.now) setting steps last) }
{}
