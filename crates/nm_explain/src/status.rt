//! How a program ended that tells of scenarios.

ghost use Rattle.std.specs.Prelude.{◌≡◌};

/// How the program ended. Its number is the exit status.
#[derive(Clone, Copy, PartialEq, Eq)]
pub enum Status {
    /// Nothing is wrong with the scenario.
    Fine,
    /// The words are none of the program's.
    Usage,
    /// The input is no scenario, and what is wrong with it was written.
    Scenario,
    /// The input failed. Nothing was written.
    ReadFault,
    /// The output failed.
    WriteFault,
    /// Memory ran out. Nothing was written.
    NoMemory,
}

impl Status {
    ghost use Rattle.nm_explain.specs.Status.{status_code};

    /// The exit status: those of `netm`.
    pub fn code(self) -> u8
        ensures { result ≡ status_code self }
    {
        match self {
            Status::Fine => 0,
            Status::Usage => 2,
            Status::Scenario => 3,
            Status::ReadFault => 4,
            Status::WriteFault => 5,
            Status::NoMemory => 8,
        }
    }
}
