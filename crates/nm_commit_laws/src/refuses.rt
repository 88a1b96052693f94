//! What every confirm, renewal and cancel tells that a device refuses.

ghost use Rattle.std.specs.Prelude.{ℕ, List};
ghost use Rattle.nm_proto.specs.declared.plan.Event.{Event as AnEvent};
ghost use Rattle.nm_world.specs.World.{Setting, run, start};
ghost use Rattle.nm_world.specs.Drain.{drained};
ghost use Rattle.nm_safety.specs.Safe.{IsProper};
ghost use Rattle.nm_commit_laws.specs.Refuses.{RefusesGone};

use nm_proto::Content;

/// After any events that a scenario may have, in any order, with any number of change sets and operators: where a device replied an
/// error to a confirm, a renewal or a cancel of a change set, no commit waited under its token there, before and after. So such an error
/// tells that a timer or a restart undid the change set there, that it was confirmed or cancelled before, or that it was never committed
/// (RFC 6241 section 8.4).
pub fn what_is_refused_is_gone<C: Content>(content: &C)
    ensures { (setting : Setting C.Edit) (running : List C.Config) (events : List AnEvent)
        → IsProper {Node = C.Node} (C.meaning content.now) setting running events
        → RefusesGone {Node = C.Node} (C.meaning content.now) setting running
        (run (C.meaning content.now) setting (start setting running) events) }
{}

/// So after any number of steps that bring such a world to rest.
pub fn what_is_refused_is_gone_when_drained<C: Content>(content: &C)
    ensures { (setting : Setting C.Edit) (running : List C.Config) (events : List AnEvent) (steps : ℕ)
        → IsProper {Node = C.Node} (C.meaning content.now) setting running events
        → RefusesGone {Node = C.Node} (C.meaning content.now) setting running
        (drained (C.meaning content.now) setting steps (run (C.meaning content.now) setting (start setting running) events)) }
{}
