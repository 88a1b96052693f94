//! What is planned to go wrong at a device.

ghost use Rattle.std.specs.Prelude.{◌≡◌, ◌↔◌, IsTrue};

/// How many faults may be planned for one device. It bounds how far the clock of a device rises, and so its deadlines.
pub const PLAN_LIMIT: usize = 1000;

/// What goes wrong at a request of the manager (this project's own).
#[derive(Clone, Copy, PartialEq, Eq)]
pub enum PlanFault {
    /// The session is lost, and the request isn't done.
    Drop,
    /// The request is done, and then its reply and the session are lost.
    Cut,
    /// The device restarts, and the request isn't done.
    Restart,
    /// The clock rises by some seconds, and then the request is done.
    Advance { seconds: u32 },
}

/// One fault of a device: what goes wrong, and at which request of the manager there.
#[derive(Clone, Copy, PartialEq, Eq)]
pub struct PlanEntry {
    /// The number of the request among those of the manager at the device, from 1.
    pub at: u32,
    pub fault: PlanFault,
}

impl PlanEntry {
    /// Whether the two are equal.
    pub fn same(self, other: PlanEntry) -> bool
        ensures { IsTrue result ↔ (self ≡ other) }
    {
        self == other
    }
}
