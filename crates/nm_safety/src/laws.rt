//! What every run of the world keeps.

ghost use Rattle.std.specs.Prelude.{List, ℕ};
ghost use Rattle.nm_proto.specs.declared.plan.Event.{Event as AnEvent};
ghost use Rattle.nm_world.specs.Drain.{drained};
ghost use Rattle.nm_world.specs.World.{Setting, run, start};
ghost use Rattle.nm_safety.specs.Safe.{AreSoundFrom, IsProper, IsSafe};

use nm_proto::Content;

/// After any events, in any order, whatever the devices' configurations and the change sets, with any operators beside them: the
/// history of each device that began valid leads to it. So it answers as one thread, its running configuration is valid and
/// changes only by one commit whole or its exact undoing, and never under another session's lock (RFC 6241 sections 7.5 and 8.4,
/// RFC 5717).
pub fn every_device_is_sound<C: Content>(content: &C)
    ensures { (setting : Setting C.Edit) (running : List C.Config) (events : List AnEvent)
        → AreSoundFrom (C.meaning content.now) setting running (run (C.meaning content.now) setting (start setting running) events) }
{}

/// After any events that a scenario may have, in any order, with any number of change sets and operators: an outcome is Confirmed only
/// where a commit is in the journal for the change set; where one is, no outcome of its devices is Never, and each undone one was
/// undone by a timer or a restart; a cancel undid only under an abort; and to each device the confirmed commit was sent once at most
/// (RFC 6241 section 8.4). The devices are as in `every_device_is_sound`.
pub fn every_run_is_safe<C: Content>(content: &C)
    ensures { (setting : Setting C.Edit) (running : List C.Config) (events : List AnEvent)
        → IsProper {Node = C.Node} (C.meaning content.now) setting running events
        → IsSafe (C.meaning content.now) setting running events (run (C.meaning content.now) setting (start setting running) events) }
{}

/// The devices are sound too after any number of steps that bring a world to rest.
pub fn every_drained_device_is_sound<C: Content>(content: &C)
    ensures { (setting : Setting C.Edit) (running : List C.Config) (events : List AnEvent) (steps : ℕ)
        → AreSoundFrom (C.meaning content.now) setting running
        (drained (C.meaning content.now) setting steps (run (C.meaning content.now) setting (start setting running) events)) }
{}

/// A run is safe too after any number of steps that bring its world to rest.
pub fn every_drained_run_is_safe<C: Content>(content: &C)
    ensures { (setting : Setting C.Edit) (running : List C.Config) (events : List AnEvent) (steps : ℕ)
        → IsProper {Node = C.Node} (C.meaning content.now) setting running events
        → IsSafe (C.meaning content.now) setting running events
        (drained (C.meaning content.now) setting steps (run (C.meaning content.now) setting (start setting running) events)) }
{}
