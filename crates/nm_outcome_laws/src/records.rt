//! What the journal records at the end of every change set.

ghost use Rattle.std.specs.Prelude.{ℕ, List};
ghost use Rattle.nm_proto.specs.declared.plan.Event.{Event as AnEvent};
ghost use Rattle.nm_world.specs.World.{Setting, run, start};
ghost use Rattle.nm_world.specs.Drain.{drained};
ghost use Rattle.nm_safety.specs.Safe.{IsProper};
ghost use Rattle.nm_commit_laws.specs.Marks.{ArePlain, AreUnmarked};
ghost use Rattle.nm_outcome_laws.specs.Records.{EndsAsRecorded, RecordsAborts, RecordsCommits};

use nm_proto::Content;

/// After any events that a scenario may have, in any order, with any number of change sets and operators: where the journal records who
/// kept a change set at its end, they are devices of it; and of a change set that was to be aborted it records as keeping it just the
/// devices where it is confirmed, which are none.
pub fn aborts_are_recorded<C: Content>(content: &C)
    ensures { (setting : Setting C.Edit) (running : List C.Config) (events : List AnEvent)
        → IsProper {Node = C.Node} (C.meaning content.now) setting running events
        → RecordsAborts {Config = C.Config} {Node = C.Node} setting (run (C.meaning content.now) setting (start setting running) events) }
{}

/// So after any number of steps that bring such a world to rest.
pub fn drained_aborts_are_recorded<C: Content>(content: &C)
    ensures { (setting : Setting C.Edit) (running : List C.Config) (events : List AnEvent) (steps : ℕ)
        → IsProper {Node = C.Node} (C.meaning content.now) setting running events
        → RecordsAborts {Config = C.Config} {Node = C.Node} setting
        (drained (C.meaning content.now) setting steps (run (C.meaning content.now) setting (start setting running) events)) }
{}

/// After any events that a scenario may have, in any order, with any number of change sets and operators, where no edit of a change set names
/// a mark and no device began with one: where the journal records who kept a change set that was to be committed, it is pending at no
/// device any more, and they are just the devices where it is confirmed.
pub fn commits_are_recorded<C: Content>(content: &C)
    ensures { (setting : Setting C.Edit) (running : List C.Config) (events : List AnEvent)
        → IsProper {Node = C.Node} (C.meaning content.now) setting running events
        → ArePlain {Node = C.Node} (C.meaning content.now) setting → AreUnmarked {Edit = C.Edit} {Node = C.Node} (C.meaning content.now) running
        → RecordsCommits {Config = C.Config} {Node = C.Node} setting (run (C.meaning content.now) setting (start setting running) events) }
{}

/// So after any number of steps that bring such a world to rest.
pub fn drained_commits_are_recorded<C: Content>(content: &C)
    ensures { (setting : Setting C.Edit) (running : List C.Config) (events : List AnEvent) (steps : ℕ)
        → IsProper {Node = C.Node} (C.meaning content.now) setting running events
        → ArePlain {Node = C.Node} (C.meaning content.now) setting → AreUnmarked {Edit = C.Edit} {Node = C.Node} (C.meaning content.now) running
        → RecordsCommits {Config = C.Config} {Node = C.Node} setting
        (drained (C.meaning content.now) setting steps (run (C.meaning content.now) setting (start setting running) events)) }
{}

/// After any events that a scenario may have, in any order, with any number of change sets and operators, where no edit of a change set names
/// a mark and no device began with one: once the journal records the end of a change set, nothing of it is pending at any device, and who is
/// recorded to have kept it are just the devices where it is confirmed.
pub fn ends_are_recorded<C: Content>(content: &C)
    ensures { (setting : Setting C.Edit) (running : List C.Config) (events : List AnEvent)
        → IsProper {Node = C.Node} (C.meaning content.now) setting running events
        → ArePlain {Node = C.Node} (C.meaning content.now) setting → AreUnmarked {Edit = C.Edit} {Node = C.Node} (C.meaning content.now) running
        → EndsAsRecorded {Config = C.Config} {Node = C.Node} setting (run (C.meaning content.now) setting (start setting running) events) }
{}

/// So after any number of steps that bring such a world to rest.
pub fn drained_ends_are_recorded<C: Content>(content: &C)
    ensures { (setting : Setting C.Edit) (running : List C.Config) (events : List AnEvent) (steps : ℕ)
        → IsProper {Node = C.Node} (C.meaning content.now) setting running events
        → ArePlain {Node = C.Node} (C.meaning content.now) setting → AreUnmarked {Edit = C.Edit} {Node = C.Node} (C.meaning content.now) running
        → EndsAsRecorded {Config = C.Config} {Node = C.Node} setting
        (drained (C.meaning content.now) setting steps (run (C.meaning content.now) setting (start setting running) events)) }
{}
