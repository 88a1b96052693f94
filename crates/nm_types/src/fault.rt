//! Why a text gives no value: the causes that the readers above tell apart.

use nm_base::NoMemory;
use std::alloc::{AllocError, AllocFailed};
use std::error::Error;
use std::fmt;

/// Why a text gives no value of a type.
#[derive(Clone, Copy, Debug, PartialEq, Eq)]
pub enum ValueFault {
    /// The text is no spelling of the type.
    BadText,
    /// The text is a spelling, and its value misses a range or a length.
    OutOfRange,
    NoMemory,
}

impl fmt::Display for ValueFault {
    fn fmt<W: fmt::Write>(&self, f: &mut fmt::Formatter<W>) -> fmt::Result {
        f.write_str(match self {
            ValueFault::BadText => "no spelling of the type",
            ValueFault::OutOfRange => "out of range",
            ValueFault::NoMemory => "out of memory",
        })
    }
}

impl Error for ValueFault {}

impl From<NoMemory> for ValueFault {
    ghost use Rattle.std.specs.Prelude.{◌≡◌};
    ghost use Rattle.nm_types.specs.declared.fault.ValueFault.TheVariants.{NoMemory as OutOfMemory};

    ghost from_gives = { λ _ fault. fault ≡ OutOfMemory };

    fn from(_error: NoMemory) -> ValueFault {
        ValueFault::NoMemory
    }
}

impl From<AllocError> for ValueFault {
    ghost use Rattle.std.specs.Prelude.{◌≡◌};
    ghost use Rattle.nm_types.specs.declared.fault.ValueFault.TheVariants.{NoMemory as OutOfMemory};

    ghost from_gives = { λ _ fault. fault ≡ OutOfMemory };

    fn from(_error: AllocError) -> ValueFault {
        ValueFault::NoMemory
    }
}

impl<T: Drop> From<AllocFailed<T>> for ValueFault {
    ghost use Rattle.std.specs.Prelude.{◌≡◌};
    ghost use Rattle.nm_types.specs.declared.fault.ValueFault.TheVariants.{NoMemory as OutOfMemory};

    ghost from_gives = { λ _ fault. fault ≡ OutOfMemory };

    fn from(_error: AllocFailed<T>) -> ValueFault {
        ValueFault::NoMemory
    }
}
