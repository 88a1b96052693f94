//! What every change set keeps, whatever happens to it.

ghost use Rattle.std.specs.Prelude.{◌≡◌, ◌≤◌, ◌++◌, ◌∷◌, [], ℕ, List, length, false, true, None, Some};
ghost use Rattle.std.specs.List.{list_any};
ghost use Rattle.nm_proto.specs.declared.ask.Ask.{Ask as AnAsk};
ghost use Rattle.nm_proto.specs.declared.message.Request.{Request as ARequest};
ghost use Rattle.nm_proto.specs.declared.message.Reply.{Reply as AReply};
ghost use Rattle.nm_proto.specs.declared.journal.Entry.{Entry as AnEntry};
ghost use Rattle.nm_proto.specs.declared.journal.Entry.TheVariants.{Decided};
ghost use Rattle.nm_proto.specs.declared.journal.Verdict.{Verdict as AVerdict};
ghost use Rattle.nm_proto.specs.declared.plan.ChangePlan.{ChangePlan as APlan};
ghost use Rattle.nm_base.specs.declared.mask.DeviceMask.{DeviceMask as AMask};
ghost use Rattle.nm_proto.specs.declared.journal.AbortCause.{AbortCause as ACause};
ghost use Rattle.nm_proto.specs.declared.journal.Verdict.TheVariants as verdict;
ghost use Rattle.nm_journal.specs.Record.{is_change};
ghost use Rattle.nm_journal.specs.Entries.{decides, may_follow};
ghost use Rattle.nm_recovery.specs.Recovery.{devices_in, verdict_in, is_started};
ghost use Rattle.nm_decider.specs.declared.course.NextAction.TheVariants as next;
ghost use Rattle.nm_decider.specs.Course.{seat_count, next_action, may_renew};
ghost use Rattle.nm_wire.specs.Wire.{outstanding_at, restarted};
ghost use Rattle.nm_manager.specs.Slot.{SlotState, fresh_slot, side_at, wire_of_side, wires_on, told_wire, lost_wire, sends, renews, receives, breaks, decided, lost_memory};
ghost use Rattle.nm_manager.specs.Manager.{starts_anew};
ghost use Rattle.nm_safety.specs.Step.{IsInStep, IsPlanned, is_sent, is_fair};

/// A change set that nothing was done for is in step, and one that a manager goes on with which starts anew.
pub fn beginnings_are_in_step()
    ensures fresh { (change devices : ℕ) (entries : List AnEntry) → verdict_in change entries ≡ None
        → IsInStep change devices entries (fresh_slot change devices) }
    ensures anew { (change devices : ℕ) (entries : List AnEntry) (slot : SlotState) → length slot.sides ≡ seat_count
        → (is_started change entries ≡ false → verdict_in change entries ≡ None)
        → IsInStep change devices entries (starts_anew entries change devices slot) }
{}

/// A request that is to go out does, and leaves the change set in step; so does a renewal.
pub fn requests_go_out()
    ensures sent { (change devices : ℕ) (entries : List AnEntry) (slot : SlotState) (plan : APlan) (device : ℕ) (what : AnAsk)
        → IsInStep change devices entries slot → IsPlanned plan devices
        → next_action slot.course ≡ next.Send device what
        → IsInStep change devices entries (sends plan entries slot device what).slot × (is_sent (sends plan entries slot device what).action ≡ true) }
    ensures renewed { (change devices : ℕ) (entries : List AnEntry) (slot : SlotState) (plan : APlan) (device : ℕ)
        → IsInStep change devices entries slot → IsPlanned plan devices → 1 ≤ device
        → may_renew slot.course device ≡ true
        → IsInStep change devices entries (renews plan entries slot device).slot × (is_sent (renews plan entries slot device).action ≡ true) }
{}

/// Whatever reply is handled, and whichever link breaks, the change set stays in step.
pub fn replies_and_breaks_keep_step()
    ensures handled { (change devices : ℕ) (entries : List AnEntry) (slot : SlotState) (device link number : ℕ) → IsInStep change devices entries slot
        → 1 ≤ device
        → IsInStep change devices entries (receives slot device link number).slot }
    ensures broken { (change devices : ℕ) (entries : List AnEntry) (slot : SlotState) (device : ℕ) → IsInStep change devices entries slot → 1 ≤ device
        → IsInStep change devices entries (breaks slot device).slot }
    ensures forgotten { (change devices : ℕ) (entries : List AnEntry) (slot : SlotState) → IsInStep change devices entries slot
        → IsInStep change devices entries (lost_memory slot devices (verdict_in change entries)) }
{}

/// What comes into the journal keeps the change set in step: its verdict with the step that it makes, and anything else.
pub fn entries_keep_step()
    ensures decided { (change devices : ℕ) (entries : List AnEntry) (slot : SlotState) (verdict : AVerdict) → IsInStep change devices entries slot
        → slot.course.verdict ≡ None
        → list_any (decides change) entries ≡ false → IsInStep change devices (entries ++ Decided change verdict ∷ []) (decided slot verdict) }
    ensures other { (change devices : ℕ) (entries : List AnEntry) (slot : SlotState) (entry : AnEntry) → IsInStep change devices entries slot
        → decides change entry ≡ false
        → IsInStep change devices (entries ++ entry ∷ []) slot }
{}

/// A verdict may come into the journal, where the change set was started and isn't decided: a commit, and an abort with the cause that
/// is noted.
pub fn decisions_may_be_journalled()
    ensures commit { (change : ℕ) (mask : AMask) (entries : List AnEntry) → is_change change ≡ true → devices_in change entries ≡ Some mask
        → list_any (decides change) entries ≡ false → may_follow entries (Decided change verdict.Commit) ≡ true }
    ensures abort { (change : ℕ) (mask : AMask) (entries : List AnEntry) (slot : SlotState) (why : ACause) → IsInStep change mask.0 entries slot
        → slot.course.trouble ≡ Some why → is_change change ≡ true → devices_in change entries ≡ Some mask
        → list_any (decides change) entries ≡ false → may_follow entries (Decided change (verdict.Abort why)) ≡ true }
{}

/// What happens at a device's side of a link keeps the change set in step.
pub fn devices_keep_step()
    ensures told { (change devices : ℕ) (entries : List AnEntry) (slot : SlotState) (device link : ℕ) (request : ARequest) (reply : AReply)
        → IsInStep change devices entries slot
        → outstanding_at (wire_of_side (side_at slot device)) link ≡ Some request → is_fair (record { request = request; reply = reply }) ≡ true
        → IsInStep change devices entries (wires_on (told_wire link reply) slot device (side_at slot device)) }
    ensures lost { (change devices : ℕ) (entries : List AnEntry) (slot : SlotState) (device link : ℕ) → IsInStep change devices entries slot
        → IsInStep change devices entries (wires_on (lost_wire link) slot device (side_at slot device)) }
    ensures restarted { (change devices : ℕ) (entries : List AnEntry) (slot : SlotState) (device : ℕ) → IsInStep change devices entries slot
        → IsInStep change devices entries (wires_on restarted slot device (side_at slot device)) }
{}
