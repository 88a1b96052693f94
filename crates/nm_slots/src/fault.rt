//! Why a run can't go on.

ghost use Rattle.std.specs.Prelude.{◌≡◌};
ghost use Rattle.nm_slots.specs.declared.fault.RunFault.TheVariants as fault;

use nm_base::NoMemory;
use thiserror::Error;

/// Why what is left of a run can't be done.
#[derive(Debug, Drop, Error)]
pub enum RunFault {
    /// The journal's disk failed, so that the journal is stopped.
    #[error("the journal's disk failed")]
    DiskFault,
    /// Memory ran out.
    #[error("out of memory")]
    NoMemory,
}

impl From<NoMemory> for RunFault {
    ghost from_gives = { λ _ given. given ≡ fault.NoMemory };

    fn from(_error: NoMemory) -> RunFault {
        RunFault::NoMemory
    }
}
