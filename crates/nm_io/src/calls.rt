//! Which calls are to fail, shared by the source and the sink in memory.

ghost use Rattle.std.specs.Prelude.{◌≡◌, ◌↔◌, ◌≤◌, OnOk, OnErr, IsErr};
ghost use Rattle.nm_io.specs.Memory.{called, faulted, Fails};

use nm_base::{Failed, count_fault};
use std::marker::Model;

// The calls of a source or a sink in memory, and which of them are to fail.
#[derive(Drop)]
pub(crate) struct PlannedCalls {
    made: u64,
    failing: Vec<u64>,
    faults: u64,
}

impl Model for PlannedCalls {
    ghost use Rattle.nm_io.specs.Memory.{Calls};

    ghost Value = { Calls };

    ghost view = { λ calls. record { made = calls.made; failing = calls.failing.items; faults = calls.faults } };
}

impl PlannedCalls {
    // No call yet.
    pub(crate) fn new(failing: Vec<u64>) -> PlannedCalls
        ensures { result ≡ record { made = 0; failing = failing.items; faults = 0 } }
    {
        PlannedCalls {
            made: 0,
            failing,
            faults: 0,
        }
    }

    // Counts a call, and a fault where it is one of those that are to fail.
    pub(crate) fn begin(&mut self) -> Result<(), Failed>
        ensures count { self.old.faults ≤ self.new.faults }
        ensures planned { IsErr result ↔ Fails self.old }
        ensures ok { OnOk result (self.new ≡ called self.old) }
        ensures err { OnErr result (self.new ≡ faulted (called self.old)) }
    {
        self.made = self.made.saturating_add(1);
        if self.failing.contains(&self.made) {
            return Err(self.fail());
        }
        Ok(())
    }

    // Counts a fault.
    pub(crate) fn fail(&mut self) -> Failed
        ensures count { self.old.faults ≤ self.new.faults }
        ensures fault { self.new ≡ faulted self.old }
    {
        count_fault(&mut self.faults)
    }
}
