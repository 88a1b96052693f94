//! Why modules give no schema tree.

use nm_base::NoMemory;
use nm_schema_statements::Flaw;
use std::alloc::{AllocError, AllocFailed};

/// Why modules give no schema tree.
#[derive(Drop)]
pub enum SchemaFault {
    /// A statement is flawed: in the module of a number from 0, at the place of its keyword, in bytes from 0.
    Flawed {
        flaw: Flaw,
        module: usize,
        place: u32,
    },
    /// The modules up to this one have more than 20,000 nodes, or a node of it has more than 64 above it. The place is that of
    /// the module's own statement.
    TooLarge {
        module: usize,
        place: u32,
    },
    NoMemory,
}

impl From<NoMemory> for SchemaFault {
    ghost use Rattle.std.specs.Prelude.{◌≡◌};
    ghost use Rattle.nm_schema.specs.declared.fault.SchemaFault.TheVariants.{NoMemory as OutOfMemory};

    ghost from_gives = { λ _ fault. fault ≡ OutOfMemory };

    fn from(_error: NoMemory) -> SchemaFault {
        SchemaFault::NoMemory
    }
}

impl From<AllocError> for SchemaFault {
    ghost use Rattle.std.specs.Prelude.{◌≡◌};
    ghost use Rattle.nm_schema.specs.declared.fault.SchemaFault.TheVariants.{NoMemory as OutOfMemory};

    ghost from_gives = { λ _ fault. fault ≡ OutOfMemory };

    fn from(_error: AllocError) -> SchemaFault {
        SchemaFault::NoMemory
    }
}

impl<T: Drop> From<AllocFailed<T>> for SchemaFault {
    ghost use Rattle.std.specs.Prelude.{◌≡◌};
    ghost use Rattle.nm_schema.specs.declared.fault.SchemaFault.TheVariants.{NoMemory as OutOfMemory};

    ghost from_gives = { λ _ fault. fault ≡ OutOfMemory };

    fn from(_error: AllocFailed<T>) -> SchemaFault {
        SchemaFault::NoMemory
    }
}
