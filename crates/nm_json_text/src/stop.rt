//! Why writing ends before the last row: no memory, or rows that are in no order.

use nm_base::NoMemory;
use std::alloc::{AllocError, AllocFailed};

/// Why a pass over rows ends before their end.
#[derive(Drop)]
pub enum Stop {
    NoMemory,
    /// Rows don't stand in the order in which JSON has them, as those of a configuration of a schema do.
    OutOfOrder,
}

impl From<AllocError> for Stop {
    fn from(_: AllocError) -> Stop {
        Stop::NoMemory
    }
}

impl From<NoMemory> for Stop {
    fn from(_: NoMemory) -> Stop {
        Stop::NoMemory
    }
}

impl<T: Drop> From<AllocFailed<T>> for Stop {
    fn from(_: AllocFailed<T>) -> Stop {
        Stop::NoMemory
    }
}
