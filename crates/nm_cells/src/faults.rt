//! The faults that are planned for a device, counted along the manager's requests.

ghost use Rattle.std.specs.Prelude.{◌≡◌, ◌≤◌, ◌+◌, ◌<◌, ◌^◌, is_some, if◌then◌else◌};
ghost use Rattle.nm_proto.specs.Fault.{IsPlan};
ghost use Rattle.nm_cells.specs.Faults.{due, planned, come, one_more, counted_if};

use nm_proto::{PlanEntry, PlanFault};
use std::marker::Model;

/// The faults that are planned for a device, and how many requests of the manager were counted there.
#[derive(Drop)]
pub struct Faults {
    plan: Vec<PlanEntry>,
    // How many of them came, which are the first.
    spent: usize,
    // The last request whose fault came, which is the last one that was counted or the one after it.
    reached: u32,
    counted: u32,
}

impl Model for Faults {
    ghost use Rattle.std.specs.Prelude.{◌≤◌, ◌+◌, length};
    ghost use Rattle.nm_cells.specs.Faults.{FaultsState, StandsAt};

    ghost Value = { FaultsState };

    ghost view = { λ f. record { plan = f.plan.items; spent = f.spent; reached = f.reached; counted = f.counted } };

    ghost invariant = { λ f. StandsAt f.reached f.spent f.plan.items × (f.counted ≤ f.reached) × (f.reached ≤ f.counted + 1) × (length f.plan.items ≤ 1000) };
}

impl Faults {
    /// A plan, before any request was counted. It takes no memory.
    pub fn new(plan: Vec<PlanEntry>) -> Faults
        requires plan { IsPlan plan.items }
        ensures { result ≡ planned plan.items }
    {
        Faults {
            plan,
            spent: 0,
            reached: 0,
            counted: 0,
        }
    }

    /// How many requests of the manager were counted.
    pub fn counted(&self) -> u32
        ensures { result ≡ self.now.counted }
    {
        self.counted
    }

    /// The fault that is planned for the next request of the manager, where it hasn't come already.
    pub fn due(&self) -> Option<PlanFault>
        requires few { self.now.counted + 1 < 2 ^ 32 }
        ensures { result ≡ due self.now }
    {
        if self.reached != self.counted {
            return None;
        }
        match self.plan.as_slice().get(self.spent) {
            Some(entry) if entry.at == self.counted + 1 => Some(entry.fault),
            _ => None,
        }
    }

    /// The fault of the next request comes, before the request is counted: an advance does. It takes no memory.
    pub fn come(&mut self)
        requires few { self.old.counted + 1 < 2 ^ 32 }
        ensures came { self.new ≡ come self.old }
        ensures few { self.new.spent ≤ 1000 }
    {
        if self.reached != self.counted {
            return;
        }
        self.spent += count_of(self.due());
        self.reached += 1;
    }

    /// Counts the next request of the manager, whose fault comes with it if it hasn't yet. It takes no memory.
    pub fn count(&mut self)
        requires few { self.old.counted + 1 < 2 ^ 32 }
        ensures counted { self.new ≡ one_more self.old }
        ensures few { self.new.spent ≤ 1000 }
    {
        self.come();
        self.counted += 1;
    }

    /// The same where the request is one of the manager's.
    pub fn count_if(&mut self, counts: bool)
        requires few { self.old.counted + 1 < 2 ^ 32 }
        ensures counted { self.new ≡ counted_if counts self.old }
        ensures few { self.old.spent ≤ 1000 → self.new.spent ≤ 1000 }
    {
        if counts {
            self.count();
        }
    }
}

// How many faults that are: one or none.
fn count_of(fault: Option<PlanFault>) -> usize
    ensures { result ≡ (if is_some fault then 1 else 0) }
{
    match fault {
        Some(_) => 1,
        None => 0,
    }
}
