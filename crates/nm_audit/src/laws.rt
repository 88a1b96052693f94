//! Laws of what an audit finds. Each function does nothing: its contract is the law.

ghost use Rattle.std.specs.Prelude.{◌≡◌, ◌≤◌, ◌-◌, ◌⊎◌, ◌↔◌, ℕ, List, true, slice_get, Some, None};
ghost use Rattle.nm_base.specs.Mask.{mask_contains};
ghost use Rattle.nm_base.specs.Token.{token_of};
ghost use Rattle.nm_proto.specs.declared.plan.ChangePlan.{ChangePlan};
ghost use Rattle.nm_proto.specs.Content.{TablesState};
ghost use Rattle.nm_device.specs.Device.{fresh_device};
ghost use Rattle.nm_history.specs.declared.event.Noted.{Noted};
ghost use Rattle.nm_history.specs.declared.outcome.Outcome.{Outcome};
ghost use Rattle.nm_history.specs.declared.outcome.Undoing.{Undoing};
ghost use Rattle.nm_history.specs.History.{IsLegal};
ghost use Rattle.nm_history.specs.Outcome.{outcome_of};
ghost use Rattle.nm_device_laws.specs.Token.{commits_done};
ghost use Rattle.nm_chronicle.specs.Board.{BoardHolds};
ghost use Rattle.nm_chronicle.specs.Line.{LineState};
ghost use Rattle.nm_chronicle.specs.Phases.{outcome_phase};
ghost use Rattle.nm_cells.specs.State.{CellView};
ghost use Rattle.nm_audit.specs.declared.mismatch.Mismatch.{Mismatch};
ghost use Rattle.nm_recovery.specs.Recovery.{verdict_in};
ghost use Rattle.nm_audit.specs.declared.slot.SlotRecord.{SlotRecord};
ghost use Rattle.nm_audit.specs.Agree.{Agree, Each};
ghost use Rattle.nm_audit.specs.Audited.{Audited, history_of, number_of};
ghost use Rattle.nm_audit.specs.Audits.{Audits};
ghost use Rattle.nm_audit.specs.Commits.{CommitsOnce, LegalCell, OpensOwn};
ghost use Rattle.nm_audit.specs.Decided.{EndsAsDecided, TellsOutcome};
ghost use Rattle.nm_audit.specs.Marks.{phase_on};

use nm_proto::Content;

/// An audit finds nothing exactly where all agree, and what it finds is one.
pub fn audits_tell<C: Content>(content: &C)
    ensures nothing { (a : Audited C.Config C.Node) → Audits a None ↔ Agree a }
    ensures something { (a : Audited C.Config C.Node) (found : Mismatch) → Audits a (Some found) → Agree a → ⊥ }
    ensures one { (a : Audited C.Config C.Node) (found other : Mismatch) → Audits a (Some found) → Audits a (Some other) → found ≡ other }
{}

/// Where all agree, each change set commits at most once at a device (RFC 6241 section 8.4): no operator opens a session for the
/// manager, and each coordinator commits once and for its own change set alone.
pub fn committed_once<C: Content>(content: &C)
    ensures { (a : Audited C.Config C.Node) (tables : TablesState C.Edit) → Agree a → Each CommitsOnce a.slots → Each OpensOwn a.operators
        → (n change : ℕ) (cell : CellView C.Config C.Node) → slice_get a.cells n ≡ Some cell → LegalCell (C.meaning content.now) tables cell
        → commits_done (token_of change) (history_of cell) ≤ 1 }
{}

/// Where all agree, each phase on the board tells what became of its change set at its device, one way and the other.
pub fn board_tells_outcomes<C: Content>(content: &C)
    ensures { (a : Audited C.Config C.Node) (tables : TablesState C.Edit) → Agree a → (n place : ℕ) (slot : SlotRecord) (cell : CellView C.Config C.Node)
        → slice_get a.slots n ≡ Some slot → slice_get a.cells place ≡ Some cell → LegalCell (C.meaning content.now) tables cell
        → TellsOutcome (phase_on a.board slot.change (number_of cell)) (outcome_of (token_of slot.change) (history_of cell)) }
{}

/// Where all agree over a board that holds what it says, a change set ends at its devices as the journal decided: after Commit each
/// has it, but where a timer or a restart undid it, and after an Abort none confirmed it.
pub fn ended_as_decided<C: Content>(content: &C)
    ensures { (a : Audited C.Config C.Node) (tables : TablesState C.Edit) (devices : ℕ) (changes : List ChangePlan) → Agree a → BoardHolds devices changes a.board
        → (n place : ℕ) (slot : SlotRecord) (cell : CellView C.Config C.Node) (line : LineState) → slice_get a.slots n ≡ Some slot
        → slice_get a.cells place ≡ Some cell → slice_get a.board.lines (slot.change - 1) ≡ Some line → mask_contains line.devices (number_of cell) ≡ true
        → number_of cell ≤ 32 → LegalCell (C.meaning content.now) tables cell
        → EndsAsDecided (verdict_in slot.change a.entries) (outcome_of (token_of slot.change) (history_of cell)) }
{}

/// The phase in which the board has a change set undone stands for a timer or a restart alone: what waits under a token outlives
/// every session.
pub fn undone_by_itself<C: Content>(content: &C)
    ensures { (tables : TablesState C.Edit) (token : List ℕ) (running : C.Config) (history : List Noted)
        → IsLegal (C.meaning content.now) tables (fresh_device running) history → outcome_phase (outcome_of token history) ≡ 3
        → (outcome_of token history ≡ Outcome.Undone Undoing.Timer) ⊎ (outcome_of token history ≡ Outcome.Undone Undoing.Restart) }
{}
