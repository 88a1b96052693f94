//! What the marks of every device tell.

ghost use Rattle.std.specs.Prelude.{ℕ, List};
ghost use Rattle.nm_proto.specs.declared.plan.Event.{Event as AnEvent};
ghost use Rattle.nm_world.specs.World.{Setting, run, start};
ghost use Rattle.nm_world.specs.Drain.{drained};
ghost use Rattle.nm_safety.specs.Safe.{IsProper};
ghost use Rattle.nm_commit_laws.specs.Marks.{ArePlain, AreUnmarked, MarksTell};
ghost use Rattle.nm_commit_laws.specs.Stays.{MarksStay};

use nm_proto::Content;

/// After any events that a scenario may have, in any order, with any number of change sets and operators, where no edit of a change set names
/// a mark and no device began with one: the mark of a change set is in the running configuration of a device only where the change set is
/// pending there or confirmed, and where nothing is pending only where it is confirmed. So a mark that is read then tells that its change
/// set is there for good. What running was before a pending commit has the marks of confirmed change sets alone.
pub fn marks_tell_outcomes<C: Content>(content: &C)
    ensures { (setting : Setting C.Edit) (running : List C.Config) (events : List AnEvent)
        → IsProper {Node = C.Node} (C.meaning content.now) setting running events
        → ArePlain {Node = C.Node} (C.meaning content.now) setting → AreUnmarked {Edit = C.Edit} {Node = C.Node} (C.meaning content.now) running
        → MarksTell {Edit = C.Edit} {Node = C.Node} (C.meaning content.now)
        (run (C.meaning content.now) setting (start setting running) events) }
{}

/// So after any number of steps that bring such a world to rest.
pub fn drained_marks_tell_outcomes<C: Content>(content: &C)
    ensures { (setting : Setting C.Edit) (running : List C.Config) (events : List AnEvent) (steps : ℕ)
        → IsProper {Node = C.Node} (C.meaning content.now) setting running events
        → ArePlain {Node = C.Node} (C.meaning content.now) setting → AreUnmarked {Edit = C.Edit} {Node = C.Node} (C.meaning content.now) running
        → MarksTell {Edit = C.Edit} {Node = C.Node} (C.meaning content.now)
        (drained (C.meaning content.now) setting steps (run (C.meaning content.now) setting (start setting running) events)) }
{}

/// After any events that a scenario may have, in any order, with any number of change sets and operators: change sets come to each device one
/// after another, so that each finds ended all others that are pending or confirmed there, be its commit late on a link that broke. So the
/// mark of a change set that isn't ended is in the running configuration of each device where that is pending or confirmed, and where the
/// mark isn't there the change set isn't either.
pub fn marks_stay<C: Content>(content: &C)
    ensures { (setting : Setting C.Edit) (running : List C.Config) (events : List AnEvent)
        → IsProper {Node = C.Node} (C.meaning content.now) setting running events
        → MarksStay {Edit = C.Edit} {Node = C.Node} (C.meaning content.now)
        (run (C.meaning content.now) setting (start setting running) events) }
{}

/// So after any number of steps that bring such a world to rest.
pub fn drained_marks_stay<C: Content>(content: &C)
    ensures { (setting : Setting C.Edit) (running : List C.Config) (events : List AnEvent) (steps : ℕ)
        → IsProper {Node = C.Node} (C.meaning content.now) setting running events
        → MarksStay {Edit = C.Edit} {Node = C.Node} (C.meaning content.now)
        (drained (C.meaning content.now) setting steps (run (C.meaning content.now) setting (start setting running) events)) }
{}
