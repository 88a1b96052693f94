//! What has become of a change set where a renewal of it lapsed.

ghost use Rattle.std.specs.Prelude.{ℕ, List};
ghost use Rattle.nm_proto.specs.declared.plan.Event.{Event as AnEvent};
ghost use Rattle.nm_world.specs.World.{Setting, run, start};
ghost use Rattle.nm_world.specs.Drain.{drained};
ghost use Rattle.nm_safety.specs.Safe.{IsProper};
ghost use Rattle.nm_outcome_laws.specs.Lapses.{LapsesAreUndone};

use nm_proto::Content;

/// After any events that a scenario may have, in any order, with any number of change sets and operators: where the journal holds that a
/// change set is aborted because its renewal at a device lapsed, it was undone at that device (RFC 6241 section 8.4).
pub fn what_lapsed_is_undone<C: Content>(content: &C)
    ensures { (setting : Setting C.Edit) (running : List C.Config) (events : List AnEvent)
        → IsProper {Node = C.Node} (C.meaning content.now) setting running events
        → LapsesAreUndone {Config = C.Config} {Node = C.Node} (run (C.meaning content.now) setting (start setting running) events) }
{}

/// So after any number of steps that bring such a world to rest.
pub fn what_lapsed_is_undone_when_drained<C: Content>(content: &C)
    ensures { (setting : Setting C.Edit) (running : List C.Config) (events : List AnEvent) (steps : ℕ)
        → IsProper {Node = C.Node} (C.meaning content.now) setting running events
        → LapsesAreUndone {Config = C.Config} {Node = C.Node}
        (drained (C.meaning content.now) setting steps (run (C.meaning content.now) setting (start setting running) events)) }
{}
