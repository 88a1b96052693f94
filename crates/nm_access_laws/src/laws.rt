//! Laws of worlds whose events are judged by access rules. The functions do nothing: their contracts are the laws.

ghost use Rattle.std.specs.Prelude.{◌≡◌, ℕ, List, Bool, Option, Some, None, true, false, slice_get};
ghost use Rattle.std.specs.FinMap.{get};
ghost use Rattle.nm_types.specs.Path.{PathStep};
ghost use Rattle.nm_types.specs.declared.value.Value.{Value as AValue};
ghost use Rattle.nm_proto.specs.declared.plan.Event.{Event as AnEvent};
ghost use Rattle.nm_schema_tree.specs.Nodes.{SchemaTree};
ghost use Rattle.nm_edit.specs.declared.edit.EditNode.{EditNode as AnEditNode};
ghost use Rattle.nm_overlay.specs.Differences.{Overlaid};
ghost use Rattle.nm_content_place.specs.declared.place.YangNode.{YangNode as AYangNode};
ghost use Rattle.nm_content.specs.Mark.{is_in_marker};
ghost use Rattle.nm_content.specs.Meaning.{yang_meaning};
ghost use Rattle.nm_device.specs.Device.{fresh_device};
ghost use Rattle.nm_history.specs.History.{RecordedState, replayed};
ghost use Rattle.nm_access.specs.declared.rule.AccessRules.{AccessRules as TheRules};
ghost use Rattle.nm_access_judge.specs.Judging.{event_denied};
ghost use Rattle.nm_world.specs.World.{CoreState, Setting, core_of};
ghost use Rattle.nm_safety.specs.Along.{Along};
ghost use Rattle.nm_safety.specs.Safe.{IsProper};
ghost use Rattle.nm_access_laws.specs.Allowed.{AreAllowed, AreOwn};
ghost use Rattle.nm_access_laws.specs.Rows.{IsClosed, ManagersKeep, MayAsk, is_foreign, judged_world};

/// What the manager does isn't judged, and nor is what happens by itself: only an operator's request is ever denied.
pub fn only_operators_are_judged()
    ensures { (access : TheRules) (t : SchemaTree) (setting : Setting (List AnEditNode)) (w : CoreState Overlaid AYangNode) (event : AnEvent)
        → is_foreign event ≡ false → event_denied access t setting w event ≡ None }
{}

/// After any events that a scenario may have, in any order: each session that an operator has on a device is of its own user, so that
/// nobody acts as another, and none as the manager.
pub fn operators_act_by_themselves()
    ensures { (access : TheRules) (t : SchemaTree) (setting : Setting (List AnEditNode)) (running : List Overlaid) (events : List AnEvent)
        → IsProper {Node = AYangNode} (yang_meaning t) setting running events → AreOwn setting (core_of (judged_world access t setting running events)) }
{}

/// After any such events: each request in a device's history that isn't the manager's is of an operator's user, and the rules permit it
/// to that user, the operation and each row that it would change in candidate as that stood then.
pub fn operators_do_what_they_may()
    ensures { (access : TheRules) (t : SchemaTree) (setting : Setting (List AnEditNode)) (running : List Overlaid) (events : List AnEvent)
        → IsProper {Node = AYangNode} (yang_meaning t) setting running events
        → AreAllowed (yang_meaning t) setting (MayAsk access t setting.tables setting.users) running
        (core_of (judged_world access t setting running events)) }
{}

/// After any such events: a row outside the marks of change sets that the rules let no operator write has, in each running configuration,
/// the value that it had first, or one that an edit of the manager's gave it. Whatever test the first value passes, and the manager's
/// edits keep, the value passes then: operators change nothing of it, whatever they ask and in whatever order.
pub fn nobody_writes_what_is_closed()
    ensures { (access : TheRules) (t : SchemaTree) (setting : Setting (List AnEditNode)) (running : List Overlaid) (events : List AnEvent)
        (path : List PathStep) (test : Option AValue → Bool) (place : ℕ) (first : Overlaid) (r : RecordedState Overlaid AYangNode)
        → IsProper {Node = AYangNode} (yang_meaning t) setting running events → IsClosed access setting.users path → is_in_marker path ≡ false
        → slice_get running place ≡ Some first → slice_get (judged_world access t setting running events).devices place ≡ Some r
        → test (get first.rows path) ≡ true
        → Along (replayed (yang_meaning t) setting.tables) (ManagersKeep t setting.tables test path) (fresh_device first) r.history
        → test (get r.device.stores.running.rows path) ≡ true }
{}
