//! What is left of a change set's slot.

use nm_base::ChangeNo;
use nm_cells::Pass;
use nm_proto::Verdict;

/// What is left of a change set's slot once its worker is done.
#[derive(Drop)]
pub struct SlotRecord {
    pub change: ChangeNo,
    /// What was decided, where anything was.
    pub verdict: Option<Verdict>,
    pub pass: Pass,
}
