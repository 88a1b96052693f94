//! What every commit of the manager leaves that brings no change set.

ghost use Rattle.std.specs.Prelude.{ℕ, List};
ghost use Rattle.nm_proto.specs.declared.plan.Event.{Event as AnEvent};
ghost use Rattle.nm_world.specs.World.{Setting, run, start};
ghost use Rattle.nm_world.specs.Drain.{drained};
ghost use Rattle.nm_safety.specs.Safe.{IsProper};
ghost use Rattle.nm_commit_laws.specs.Leaves.{LeavesAlone};

use nm_proto::Content;

/// After any events that a scenario may have, in any order, with any number of change sets and operators: each commit that the manager
/// did at a device and that brought no change set went on with the pending commit of one, named its token, and left running as it was.
/// So what an operator had edited in candidate never came with a confirming commit or a renewal (RFC 6241 sections 8.3 and 8.4).
pub fn other_commits_leave_running<C: Content>(content: &C)
    ensures { (setting : Setting C.Edit) (running : List C.Config) (events : List AnEvent)
        → IsProper {Node = C.Node} (C.meaning content.now) setting running events
        → LeavesAlone {Node = C.Node} (C.meaning content.now) setting running
        (run (C.meaning content.now) setting (start setting running) events) }
{}

/// So after any number of steps that bring such a world to rest.
pub fn other_drained_commits_leave_running<C: Content>(content: &C)
    ensures { (setting : Setting C.Edit) (running : List C.Config) (events : List AnEvent) (steps : ℕ)
        → IsProper {Node = C.Node} (C.meaning content.now) setting running events
        → LeavesAlone {Node = C.Node} (C.meaning content.now) setting running
        (drained (C.meaning content.now) setting steps (run (C.meaning content.now) setting (start setting running) events)) }
{}
