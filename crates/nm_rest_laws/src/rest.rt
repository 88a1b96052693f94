//! What brings a world to rest comes to its end.

ghost use Rattle.std.specs.Prelude.{ℕ, ◌≤◌, List, length};
ghost use Rattle.nm_proto.specs.declared.plan.Event.{Event as AnEvent};
ghost use Rattle.nm_world.specs.World.{Setting, WorldState, run, start};
ghost use Rattle.nm_world.specs.Drain.{drain_limit};
ghost use Rattle.nm_safety.specs.Safe.{IsProper};
ghost use Rattle.nm_rest_laws.specs.Steady.{IsOrderly};
ghost use Rattle.nm_rest_laws.specs.Closing.{ClosesWithin, left_to_close};
ghost use Rattle.nm_rest_laws.specs.Turns.{ComesToTurn};
ghost use Rattle.nm_rest_laws.specs.Rest.{HasDevices, ComesToRest, EndsBefore, events_count};

use nm_proto::Content;

/// Whatever the world, a drain first closes all that nobody goes on with, and is done with that in as many steps as operators have
/// sessions and links that aren't current have open sides: then no operator has a session, and no link but current ones is open.
pub fn every_drain_closes<C: Content>(content: &C)
    ensures { (setting : Setting C.Edit) (w : WorldState C.Config C.Node) → ClosesWithin (C.meaning content.now) setting w (left_to_close setting w) }
{}

/// After any events that a scenario may have, in any order, with any number of change sets and operators: links to a device are current
/// for one change set at most, and only while that is ready. And each change set stands where it can go on: before its verdict and without
/// trouble each of its devices is live, under a commit each has acknowledged or is found out anew, and under an abort what was
/// refused is over; its current links have a session, but where one is asked for or was refused.
pub fn every_run_is_orderly<C: Content>(content: &C)
    ensures { (setting : Setting C.Edit) (running : List C.Config) (events : List AnEvent)
        → IsProper {Node = C.Node} (C.meaning content.now) setting running events
        → IsOrderly {Config = C.Config} {Node = C.Node} (run (C.meaning content.now) setting (start setting running) events) }
{}

/// After any events that a scenario may have, in any order, with any number of change sets and operators, a drain comes to rest or to a
/// turn of the manager in as many steps at most as there is left to close, and 9320 more: then either no change set is ready and there is
/// no next step, or the next step is the turn of the least that is ready. This is of worlds in which the devices' session numbers last
/// so long. It isn't said here what a turn brings, nor how many turns there are: so it isn't said that a drain ends.
pub fn every_drain_turns<C: Content>(content: &C)
    ensures { (setting : Setting C.Edit) (running : List C.Config) (events : List AnEvent)
        → IsProper {Node = C.Node} (C.meaning content.now) setting running events
        → ComesToTurn {Node = C.Node} (C.meaning content.now) setting (run (C.meaning content.now) setting (start setting running) events) }
{}

/// After any events that a scenario may have, in any order, with any number of change sets and operators, a drain comes to rest: in as many
/// steps at most as there is left to close, and 9321 for each change set; and no step of it is idle. This is of change sets whose devices
/// are there, and of worlds in which the devices' session numbers last so long.
pub fn every_drain_ends<C: Content>(content: &C)
    ensures { (setting : Setting C.Edit) (running : List C.Config) (events : List AnEvent)
        → IsProper {Node = C.Node} (C.meaning content.now) setting running events
        → HasDevices setting (length running)
        → ComesToRest {Node = C.Node} (C.meaning content.now) setting (run (C.meaning content.now) setting (start setting running) events) }
{}

/// Where these events are 100,000 elementary ones at most, as those of a scenario are, a drain is at rest before it has taken 1,000,000 steps,
/// after as many of which the program would leave it: so that limit is never met, and a drained world is at rest.
pub fn no_drain_meets_the_limit<C: Content>(content: &C)
    ensures { (setting : Setting C.Edit) (running : List C.Config) (events : List AnEvent)
        → IsProper {Node = C.Node} (C.meaning content.now) setting running events
        → HasDevices setting (length running) → events_count events ≤ 100000
        → EndsBefore {Node = C.Node} (C.meaning content.now) setting (run (C.meaning content.now) setting (start setting running) events) drain_limit }
{}
