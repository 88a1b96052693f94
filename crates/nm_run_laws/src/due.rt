//! What is due comes into the journal.

ghost use Rattle.std.specs.Prelude.{ℕ, List};
ghost use Rattle.nm_proto.specs.declared.plan.Event.{Event as AnEvent};
ghost use Rattle.nm_world.specs.Drain.{drained};
ghost use Rattle.nm_world.specs.World.{Setting, run, start};
ghost use Rattle.nm_safety.specs.Safe.{IsProper};
ghost use Rattle.nm_run_laws.specs.Due.{ComesWhenDue};

use nm_proto::Content;

/// After any events that a scenario may have, in any order, with any number of change sets and operators: a verdict, or the end of a change
/// set, may come into the journal where a turn is to write it. So the test before an entry is appended keeps no turn from what is due.
pub fn every_due_entry_comes<C: Content>(content: &C)
    ensures { (setting : Setting C.Edit) (running : List C.Config) (events : List AnEvent)
        → IsProper {Node = C.Node} (C.meaning content.now) setting running events
        → ComesWhenDue {Config = C.Config} {Node = C.Node} (run (C.meaning content.now) setting (start setting running) events) }
{}

/// So after any number of steps that bring such a world to rest.
pub fn every_due_entry_comes_when_drained<C: Content>(content: &C)
    ensures { (setting : Setting C.Edit) (running : List C.Config) (events : List AnEvent) (steps : ℕ)
        → IsProper {Node = C.Node} (C.meaning content.now) setting running events
        → ComesWhenDue {Config = C.Config} {Node = C.Node}
        (drained (C.meaning content.now) setting steps (run (C.meaning content.now) setting (start setting running) events)) }
{}
