//! Why an edit isn't applied.

use nm_base::{Label, NoMemory, Tag};
use std::alloc::{AllocError, AllocFailed};

/// Why an edit isn't applied.
#[derive(Drop)]
pub enum EditFault {
    /// The error tag and the path at fault (RFC 6241 section 4.3). The path is empty where the whole is too large.
    Refused { tag: Tag, path: Label },
    NoMemory,
}

impl From<NoMemory> for EditFault {
    ghost use Rattle.std.specs.Prelude.{◌≡◌};
    ghost use Rattle.nm_edit.specs.declared.fault.EditFault.TheVariants.{NoMemory as OutOfMemory};

    ghost from_gives = { λ _ fault. fault ≡ OutOfMemory };

    fn from(_fault: NoMemory) -> EditFault {
        EditFault::NoMemory
    }
}

impl From<AllocError> for EditFault {
    ghost use Rattle.std.specs.Prelude.{◌≡◌};
    ghost use Rattle.nm_edit.specs.declared.fault.EditFault.TheVariants.{NoMemory as OutOfMemory};

    ghost from_gives = { λ _ fault. fault ≡ OutOfMemory };

    fn from(_fault: AllocError) -> EditFault {
        EditFault::NoMemory
    }
}

impl<T: Drop> From<AllocFailed<T>> for EditFault {
    ghost use Rattle.std.specs.Prelude.{◌≡◌};
    ghost use Rattle.nm_edit.specs.declared.fault.EditFault.TheVariants.{NoMemory as OutOfMemory};

    ghost from_gives = { λ _ fault. fault ≡ OutOfMemory };

    fn from(_fault: AllocFailed<T>) -> EditFault {
        EditFault::NoMemory
    }
}
