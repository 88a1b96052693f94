//! A change set as the queues see it: its number and its devices, and nothing of what it changes.

use nm_base::{ChangeNo, DeviceMask};

/// A change set that was submitted, and its devices.
#[derive(Clone, Copy)]
pub struct Ticket {
    pub change: ChangeNo,
    pub devices: DeviceMask,
}

// What stands where no ticket was put yet.
impl Default for Ticket {
    fn default() -> Ticket {
        Ticket {
            change: ChangeNo::new(1).unwrap(),
            devices: DeviceMask(0),
        }
    }
}
