//! A worker learns what the manager would. Each function does nothing: its contract is the law.

ghost use Rattle.std.specs.Prelude.{◌≡◌, ℕ, List, Some};
ghost use Rattle.nm_proto.specs.declared.ask.Ask.{Ask as AnAsk};
ghost use Rattle.nm_proto.specs.declared.journal.Verdict.{Verdict as AVerdict};
ghost use Rattle.nm_decider.specs.Course.{CourseState, with_sent};
ghost use Rattle.nm_wire.specs.declared.link.Exchange.{Exchange as AnExchange};
ghost use Rattle.nm_wire.specs.Wire.{due};
ghost use Rattle.nm_manager.specs.Slot.{SideState as ManagersSide, SlotState as ManagersSlot, receives_pair, breaks_pair, decided as managers_decided};
ghost use Rattle.nm_work.specs.Work.{SideState as WorkersSide, WorkState, answered_on, heard_on, broken, decided};

/// An answer teaches a worker's course and resynchronisation what a reply that is due on the current link teaches the manager's.
pub fn answers_teach_as_replies()
    ensures course { (course : CourseState) (sides : List WorkersSide) (device link number : ℕ) (what : AnAsk) (own : WorkersSide) (side : ManagersSide)
        (exchange : AnExchange) → due side.wire link number ≡ Some exchange → own.resync ≡ side.resync
        → (answered_on course sides device what exchange.reply own).course ≡ (receives_pair device link number course side).course }
    ensures resync { (course : CourseState) (device link number : ℕ) (what : AnAsk) (own : WorkersSide) (side : ManagersSide)
        (exchange : AnExchange) → due side.wire link number ≡ Some exchange → own.resync ≡ side.resync
        → (heard_on course device what exchange.reply own).resync ≡ (receives_pair device link number course side).side.resync }
{}

/// A broken call teaches a worker's course what the break of the current link teaches the manager's, and a verdict is taken alike.
pub fn breaks_and_verdicts_teach_alike()
    ensures broken { (work : WorkState) (device number : ℕ) (side : ManagersSide) → side.wire.current ≡ Some number
        → (broken work device).course ≡ (breaks_pair device (with_sent work.course device) side).course }
    ensures decided { (work : WorkState) (slot : ManagersSlot) (verdict : AVerdict) → work.course ≡ slot.course
        → (decided work verdict).course ≡ (managers_decided slot verdict).course }
{}
