//! What each caller keeps of the calls that it made.

ghost use Rattle.std.specs.Prelude.{◌≡◌};

use nm_proto::Verdict;
use nm_run_plan::RunPlans;
use std::marker::Model;
use std::sync::ledger::Share;

/// What a device keeps: how many of the calls were about it. Clauses see the number.
#[derive(Drop)]
pub struct CellShare<N: RunPlans> {
    pub(crate) share: Share<N>,
}

impl<N: RunPlans> Model for CellShare<N> {
    ghost use Rattle.std.specs.Prelude.{◌≡◌, ℕ};

    ghost Value = { ℕ };

    ghost view = { λ c. c.share.amount };

    ghost invariant = { λ c. c.share.parts ≡ 1 };
}

/// What the journal keeps: how many verdicts were decided. Clauses see the number.
#[derive(Drop)]
pub struct BookShare<N: RunPlans> {
    pub(crate) share: Share<N>,
}

impl<N: RunPlans> Model for BookShare<N> {
    ghost use Rattle.std.specs.Prelude.{◌≡◌, ℕ};

    ghost Value = { ℕ };

    ghost view = { λ b. b.share.amount };

    ghost invariant = { λ b. b.share.parts ≡ 1 };
}

/// What the coordinator of a change set keeps: how often it asked and was acknowledged, and what it decided.
#[derive(Drop)]
pub struct SlotShares<N: RunPlans> {
    pub(crate) asked: u32,
    pub(crate) acked: u32,
    pub(crate) verdict: Option<Verdict>,
    pub(crate) share: Share<N>,
}

impl<N: RunPlans> Model for SlotShares<N> {
    ghost use Rattle.std.specs.Prelude.{◌≡◌};
    ghost use Rattle.nm_chronicle.specs.Shares.{SlotState, slot_calls};

    ghost Value = { SlotState };

    ghost view = { λ s. record { asked = s.asked; acked = s.acked; verdict = s.verdict } };

    ghost invariant = { λ s. (s.share.parts ≡ 1) × (s.share.amount ≡ slot_calls (record { asked = s.asked; acked = s.acked; verdict = s.verdict })) };
}

impl<N: RunPlans> SlotShares<N> {
    /// How often the coordinator asked a device for the confirmed commit.
    pub fn asked(&self) -> u32
        ensures { result ≡ self.now.asked }
    {
        self.asked
    }

    /// How often the reply to one came.
    pub fn acked(&self) -> u32
        ensures { result ≡ self.now.acked }
    {
        self.acked
    }

    /// What was decided, where anything was.
    pub fn verdict(&self) -> Option<Verdict>
        ensures { result ≡ self.now.verdict }
    {
        self.verdict
    }
}

/// All that callers keep: a slot for each change set, a share for each device, and the journal's.
#[derive(Drop)]
pub struct Shares<N: RunPlans> {
    pub slots: Vec<SlotShares<N>>,
    pub cells: Vec<CellShare<N>>,
    pub book: BookShare<N>,
}
