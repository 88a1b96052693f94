//! What is marked on the board.

use nm_base::{ChangeNo, DeviceNo};
use nm_proto::Verdict;

/// One thing that is marked on a change set's line of the board (this project's own).
#[derive(Clone, Copy, PartialEq, Eq)]
pub enum Mark {
    /// The device is asked for the change set's confirmed commit.
    Asked { device: DeviceNo },
    /// The device did that commit.
    Applied { device: DeviceNo },
    /// The device's reply to it came.
    Acked { device: DeviceNo },
    /// The verdict stands.
    Decided { verdict: Verdict },
    /// The device confirmed its commit.
    Confirmed { device: DeviceNo },
    /// A timer, the end of a session or a restart undid it.
    Undone { device: DeviceNo },
    /// A cancel undid it.
    Cancelled { device: DeviceNo },
}

/// A call that the board couldn't take.
#[derive(Clone, Copy, PartialEq, Eq)]
pub struct Stray {
    pub change: ChangeNo,
    pub mark: Mark,
}
