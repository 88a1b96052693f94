//! Why nothing takes an edit back.

ghost use Rattle.std.specs.Prelude.{◌≡◌};
ghost use Rattle.nm_undo.specs.Inverse as spec;

use nm_base::{Label, NoMemory, Tag};
use nm_edit::EditFault;

/// Why nothing takes an edit back.
#[derive(Drop)]
pub enum InverseFault {
    /// The edit itself is refused, with this error tag at this path (RFC 6241 section 4.3), as `nm_edit` refuses it.
    Refused { tag: Tag, path: Label },
    /// The edit that takes it back would have more nodes than an edit may have.
    TooLarge,
    NoMemory,
}

impl From<NoMemory> for InverseFault {
    ghost use Rattle.std.specs.Prelude.{◌≡◌};
    ghost use Rattle.nm_undo.specs.declared.fault.InverseFault.TheVariants.{NoMemory as OutOfMemory};

    ghost from_gives = { λ _ fault. fault ≡ OutOfMemory };

    fn from(_fault: NoMemory) -> InverseFault {
        InverseFault::NoMemory
    }
}

/// Why nothing takes back an edit that isn't done.
pub fn fault_of(fault: EditFault) -> InverseFault
    ensures { result ≡ spec.fault_of fault }
{
    match fault {
        EditFault::Refused { tag, path } => InverseFault::Refused { tag, path },
        EditFault::NoMemory => InverseFault::NoMemory,
    }
}
