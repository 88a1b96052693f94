//! The name of a run. No value of a run is made: it is there for what is said of the values that threads share.

ghost use Rattle.std.specs.Prelude.{ℕ, List, [], None};
ghost use Rattle.nm_proto.specs.declared.plan.ChangePlan.{ChangePlan};
ghost use Rattle.nm_run_plan.specs.Run.{Run};

use nm_flat::{FlatConfig, FlatContent, FlatEdit};
use std::marker::Brand;
use std::sync::ledger::Ledger;

/// A run as far as no content is needed for it, over the ledger that counts what happened in it.
pub trait RunPlans: Ledger {
    /// How many devices there are.
    ghost devices: { ℕ };

    /// The change sets.
    ghost changes: { List ChangePlan };

    /// How many faults the journal's disk had counted when it was opened.
    ghost disk_faults: { ℕ };
}

/// A run over a content. A type that stands for a run is picked where the top call names it.
pub trait RunName<C, Config, Edit>: RunPlans {
    ghost run: { Run C Config Edit };
}

impl RunPlans for Brand {
    ghost devices = { 0 };

    ghost changes = { [] };

    ghost disk_faults = { 0 };
}

impl RunName<FlatContent, FlatConfig, FlatEdit> for Brand {
    ghost use Rattle.nm_run_plan.specs.Run.{no_run};

    ghost run = { no_run };
}
