//! One thing that may go wrong.

use nm_base::{ChangeNo, DeviceNo};

/// One thing that may go wrong in a run (this project's own).
#[derive(Clone, Copy)]
pub enum Mishap {
    /// The device restarts.
    Restart { device: DeviceNo },
    /// The clock of the device rises, by so many seconds.
    Advance { device: DeviceNo, seconds: u32 },
    /// The manager's side of the current link ends.
    Break { change: ChangeNo, device: DeviceNo },
    /// The device's side of the link that is current then ends.
    Lose { change: ChangeNo, device: DeviceNo },
    /// The manager loses what it knows of the change set.
    Forget { change: ChangeNo },
    /// The manager loses all that it knows, and reads its journal again.
    Crash,
}
