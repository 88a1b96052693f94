//! What all pairs of a change set keep, at each step of the manager for it.

ghost use Rattle.std.specs.Prelude.{◌≡◌, ◌&&◌, [], ℕ, List, Option, None, Some, true, false, not, slice_get};
ghost use Rattle.nm_proto.specs.declared.ask.Ask.{Ask as AnAsk};
ghost use Rattle.nm_proto.specs.declared.journal.Entry.{Entry as AnEntry};
ghost use Rattle.nm_proto.specs.declared.journal.Verdict.{Verdict as AVerdict};
ghost use Rattle.nm_proto.specs.declared.plan.ChangePlan.{ChangePlan as APlan};
ghost use Rattle.nm_history.specs.History.{RecordedState};
ghost use Rattle.nm_decider_stage.specs.Stages.{is_acknowledged};
ghost use Rattle.nm_decider.specs.declared.seat.Seat.{Seat as ASeat};
ghost use Rattle.nm_decider.specs.declared.course.NextAction.TheVariants as next;
ghost use Rattle.nm_decider.specs.Course.{next_action};
ghost use Rattle.nm_wire.specs.Wire.{restarted};
ghost use Rattle.nm_manager.specs.Slot.{SideState, SlotState, side_at, sends, renews, receives, breaks, decided, lost_memory, wires_on, lost_wire, to_commit};
ghost use Rattle.nm_recovery.specs.Recovery.{is_started, is_ended_in};
ghost use Rattle.nm_manager.specs.Manager.{starts_anew};
ghost use Rattle.nm_safety.specs.Step.{IsInStep};
ghost use Rattle.nm_safety.specs.Slots.{AllHold};

/// The next request of a change set goes out, or the timer of a pending commit is set anew where it may be.
pub fn turns_keep_all<Config, Node>()
    ensures renewed { (change members : ℕ) (verdict : Option AVerdict) (entries : List AnEntry) (slot : SlotState) (devices : List (RecordedState Config Node))
        (plan : APlan) (device : ℕ) → IsInStep change members entries slot → slot.course.verdict ≡ verdict
        → AllHold change verdict slot devices → AllHold change verdict (renews plan entries slot device).slot devices }
    ensures sent { (change members : ℕ) (verdict : Option AVerdict) (entries : List AnEntry) (slot : SlotState) (devices : List (RecordedState Config Node))
        (plan : APlan) (device : ℕ) (what : AnAsk) → IsInStep change members entries slot → slot.course.verdict ≡ verdict
        → next_action slot.course ≡ next.Send device what → AllHold change verdict slot devices
        → AllHold change verdict (sends plan entries slot device what).slot devices }
{}

/// A reply is handled, a link breaks, what was known of the change set is lost, or the manager starts anew: a change set that begins
/// again undecided has no links then.
pub fn replies_and_breaks_keep_all<Config, Node>()
    ensures handled { (change members : ℕ) (verdict : Option AVerdict) (entries : List AnEntry) (slot : SlotState) (devices : List (RecordedState Config Node))
        (device link number : ℕ) → IsInStep change members entries slot → slot.course.verdict ≡ verdict
        → AllHold change verdict slot devices → AllHold change verdict (receives slot device link number).slot devices }
    ensures broken { (change members : ℕ) (verdict : Option AVerdict) (entries : List AnEntry) (slot : SlotState) (devices : List (RecordedState Config Node))
        (device : ℕ) → IsInStep change members entries slot → slot.course.verdict ≡ verdict
        → AllHold change verdict slot devices → AllHold change verdict (breaks slot device).slot devices }
    ensures forgotten { (change members : ℕ) (verdict found : Option AVerdict) (entries : List AnEntry) (slot : SlotState)
        (devices : List (RecordedState Config Node))
        → IsInStep change members entries slot → slot.course.verdict ≡ verdict
        → AllHold change verdict slot devices → AllHold change verdict (lost_memory slot members found) devices }
    ensures anew { (change members : ℕ) (verdict : Option AVerdict) (entries : List AnEntry) (slot : SlotState) (devices : List (RecordedState Config Node))
        → IsInStep change members entries slot → slot.course.verdict ≡ verdict
        → ((place : ℕ) (side : SideState) → slice_get slot.sides place ≡ Some side
        → (is_started change entries && not (is_ended_in change entries)) ≡ false → verdict ≡ None → side.wire.links ≡ [])
        → AllHold change verdict slot devices → AllHold change verdict (starts_anew entries change members slot) devices }
{}

/// The verdict falls: a commit where each device of the change set has acknowledged.
pub fn verdicts_keep_all<Config, Node>()
    ensures { (change : ℕ) (verdict : AVerdict) (slot : SlotState) (devices : List (RecordedState Config Node))
        → ((place : ℕ) (seat : ASeat) → slice_get slot.course.seats place ≡ Some seat → to_commit (Some verdict) ≡ true → seat.is_member ≡ true
        → is_acknowledged seat.stage ≡ true)
        → AllHold change None slot devices → AllHold change (Some verdict) (decided slot verdict) devices }
{}

/// The device's side of a link ends, or that of all links to it.
pub fn closed_links_keep_all<Config, Node>()
    ensures lost { (change members : ℕ) (verdict : Option AVerdict) (entries : List AnEntry) (slot : SlotState) (devices : List (RecordedState Config Node))
        (device link : ℕ) → IsInStep change members entries slot → slot.course.verdict ≡ verdict
        → AllHold change verdict slot devices → AllHold change verdict (wires_on (lost_wire link) slot device (side_at slot device)) devices }
    ensures restarted { (change members : ℕ) (verdict : Option AVerdict) (entries : List AnEntry) (slot : SlotState)
        (devices : List (RecordedState Config Node))
        (device : ℕ) → IsInStep change members entries slot → slot.course.verdict ≡ verdict
        → AllHold change verdict slot devices → AllHold change verdict (wires_on restarted slot device (side_at slot device)) devices }
{}
