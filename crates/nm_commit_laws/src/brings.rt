//! What every commit of a change set brings.

ghost use Rattle.std.specs.Prelude.{ℕ, List};
ghost use Rattle.nm_proto.specs.declared.plan.Event.{Event as AnEvent};
ghost use Rattle.nm_world.specs.World.{Setting, run, start};
ghost use Rattle.nm_world.specs.Drain.{drained};
ghost use Rattle.nm_safety.specs.Safe.{IsProper};
ghost use Rattle.nm_commit_laws.specs.Brings.{BringsAlone};

use nm_proto::Content;

/// After any events that a scenario may have, in any order, with any number of change sets and operators: each commit that brought a
/// change set to a device made running there what that change set's own edit makes of what running was, with its mark added and only those
/// marks removed of change sets that were ended before it was decided. So nothing came with it that anybody else had edited in candidate
/// (RFC 6241 sections 7.2 and 8.3). And at each device it was done once at most.
pub fn every_commit_brings_its_own_edit<C: Content>(content: &C)
    ensures { (setting : Setting C.Edit) (running : List C.Config) (events : List AnEvent)
        → IsProper {Node = C.Node} (C.meaning content.now) setting running events
        → BringsAlone {Node = C.Node} (C.meaning content.now) setting running
        (run (C.meaning content.now) setting (start setting running) events) }
{}

/// So after any number of steps that bring such a world to rest.
pub fn every_drained_commit_brings_its_own_edit<C: Content>(content: &C)
    ensures { (setting : Setting C.Edit) (running : List C.Config) (events : List AnEvent) (steps : ℕ)
        → IsProper {Node = C.Node} (C.meaning content.now) setting running events
        → BringsAlone {Node = C.Node} (C.meaning content.now) setting running
        (drained (C.meaning content.now) setting steps (run (C.meaning content.now) setting (start setting running) events)) }
{}
