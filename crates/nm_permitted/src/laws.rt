//! Laws of events that are judged. The functions do nothing: their contracts are the laws.

ghost use Rattle.std.specs.Prelude.{◌≡◌, ◌≤◌, ℕ, List, [], length, Option, Some, None};
ghost use Rattle.nm_proto.specs.declared.plan.Event.{Event as AnEvent};
ghost use Rattle.nm_world.specs.World.{CoreState, Setting, WorldState, core_of, run};
ghost use Rattle.nm_permitted.specs.Permitted.{denied, judged_run, judged_step, permitted};
ghost use Rattle.nm_permitted.specs.declared.judge.Denial.{Denial as ADenial};

use nm_proto::Content;

/// A denied event leaves the world as it was, its trail too.
pub fn denied_events_change_nothing<C: Content>(content: &C)
    ensures { (setting : Setting C.Edit) (judge : CoreState C.Config C.Node → AnEvent → Option ADenial) (w : WorldState C.Config C.Node)
        (event : AnEvent) (denial : ADenial)
        → judge (core_of w) event ≡ Some denial → judged_step (C.meaning content.now) setting judge w event ≡ w }
{}

/// What judged events do, one after another, is a run: that of the events that are permitted, whoever judges. So whatever holds of every
/// run holds of it.
pub fn judged_events_are_a_run<C: Content>(content: &C)
    ensures run { (setting : Setting C.Edit) (judge : CoreState C.Config C.Node → AnEvent → Option ADenial) (w : WorldState C.Config C.Node)
        (events : List AnEvent)
        → judged_run (C.meaning content.now) setting judge w events
        ≡ run (C.meaning content.now) setting w (permitted (C.meaning content.now) setting judge w events) }
    ensures fewer { (setting : Setting C.Edit) (judge : CoreState C.Config C.Node → AnEvent → Option ADenial) (w : WorldState C.Config C.Node)
        (events : List AnEvent)
        → length (permitted (C.meaning content.now) setting judge w events) ≤ length events }
{}

/// Where nobody denies anything, all events are permitted and nothing is told.
pub fn undenied_events_are_permitted<C: Content>(content: &C)
    ensures all { (setting : Setting C.Edit) (judge : CoreState C.Config C.Node → AnEvent → Option ADenial)
        → ((w : WorldState C.Config C.Node) (event : AnEvent) → judge (core_of w) event ≡ None) → (w : WorldState C.Config C.Node) (events : List AnEvent)
        → permitted (C.meaning content.now) setting judge w events ≡ events }
    ensures none { (setting : Setting C.Edit) (judge : CoreState C.Config C.Node → AnEvent → Option ADenial)
        → ((w : WorldState C.Config C.Node) (event : AnEvent) → judge (core_of w) event ≡ None) → (w : WorldState C.Config C.Node) (before : ℕ)
        (events : List AnEvent)
        → denied (C.meaning content.now) setting judge w before events ≡ [] }
{}
