//! What a call of the manager does, and why it can't.

use nm_base::DeviceNo;
use nm_proto::{Request, Verdict};
use thiserror::Error;

/// What a call did (this project's own).
#[derive(Drop)]
pub enum Action {
    /// Nothing: it didn't apply, or there was nothing to do.
    Idle,
    /// The change set was submitted.
    Started,
    /// This request was sent on a link, by its number from 1.
    Sent {
        device: DeviceNo,
        link: u32,
        request: Request,
    },
    /// A reply was handled.
    Handled,
    /// The manager's side of a link ended.
    Broken,
    /// The verdict came into the journal.
    Decided(Verdict),
    /// The change set ended.
    Ended,
    /// What was known of the change set was lost.
    Forgot,
}

/// Why a call of the manager that writes its journal, or reads it, can't be done.
#[derive(Debug, Drop, Error)]
pub enum TurnFault {
    /// The journal's disk failed. The manager has failed then.
    #[error("the journal's disk failed")]
    DiskFault,
    /// The record at this offset, in bytes, is none of this manager's. The manager has failed then.
    #[error("the journal is damaged at byte {offset}")]
    Damaged { offset: u64 },
    /// Memory ran out.
    #[error("out of memory")]
    NoMemory,
}
