//! Why a journal can't be opened, read or appended to.

ghost use Rattle.std.specs.Prelude.{◌≡◌};
ghost use Rattle.nm_journal.specs.declared.fault.JournalFault.TheVariants.{NoMemory};

use std::alloc::AllocError;
use std::error::Error;
use std::fmt;

/// Why a journal can't be opened, read or appended to.
#[derive(Clone, Copy, Debug, PartialEq, Eq)]
pub enum JournalFault {
    /// The disk for a fresh journal holds so many bytes.
    NotEmpty { length: u64 },
    /// The record at this offset, in bytes, is no record that may stand there.
    Damaged { offset: u64 },
    /// The disk failed.
    DiskFault,
    /// The disk failed before, and the journal wasn't reopened since.
    Stopped,
    /// Memory ran out.
    NoMemory,
}

impl fmt::Display for JournalFault {
    fn fmt<W: fmt::Write>(&self, f: &mut fmt::Formatter<W>) -> fmt::Result {
        match self {
            JournalFault::NotEmpty { length } => {
                write!(f, "the journal isn't empty: {length} bytes")
            }
            JournalFault::Damaged { offset } => write!(
                f,
                "the journal is damaged at byte {offset}"
            ),
            JournalFault::DiskFault => f.write_str("the journal's disk failed"),
            JournalFault::Stopped => f.write_str("the journal is stopped"),
            JournalFault::NoMemory => f.write_str("out of memory"),
        }
    }
}

impl Error for JournalFault {}

impl From<AllocError> for JournalFault {
    ghost from_gives = { λ _ fault. fault ≡ NoMemory };

    fn from(_error: AllocError) -> JournalFault {
        JournalFault::NoMemory
    }
}
