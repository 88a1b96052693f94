//! What a run is to do: change sets, and what happens to devices, links, the manager and operators.

ghost use Rattle.std.specs.Prelude.{◌≡◌, ◌↔◌, ◌<◌, ℕ, IsTrue, IfOk};
ghost use Rattle.nm_base.specs.Mask.{mask_contains};
ghost use Rattle.nm_proto.specs.Plan.{devices_in, is_planned};

use crate::listed::Listed;
use crate::message::{DefaultOperation, Request};
use nm_base::{ChangeNo, DeviceMask, DeviceNo, EditNo, NoMemory};

/// One change set: its edits, at most one for each device.
#[derive(Drop)]
pub struct ChangePlan {
    /// How long a confirmed commit waits to be confirmed, in seconds, from 1 (RFC 6241 section 8.4).
    pub timeout: u32,
    /// The edits, ascending by device.
    pub edits: Listed<PlannedEdit>,
}

impl ChangePlan {
    /// The devices of the change set. It takes time as there are edits.
    pub fn devices(&self) -> DeviceMask
        ensures value { result.0 ≡ devices_in self.now.edits }
        ensures contains { (device : ℕ) → 0 < device → mask_contains result.0 device ≡ is_planned device self.now.edits }
    {
        let mut devices = 0;
        for edit in self.edits.as_slice() {
            devices |= 1u32 << u32::from(edit.device.get() - 1);
        }
        DeviceMask(devices)
    }
}

/// One change set's edit of one device.
#[derive(Clone, Copy, PartialEq, Eq)]
pub struct PlannedEdit {
    pub device: DeviceNo,
    pub edit: EditNo,
    pub default_operation: DefaultOperation,
}

/// One thing that happens in a run (this project's own). Links of a change set and a device are numbered from 1, operators too.
#[derive(PartialEq, Drop)]
pub enum Event {
    /// The change set is submitted.
    Submit {
        change: ChangeNo,
    },
    /// The manager does one action for the change set.
    Turn {
        change: ChangeNo,
    },
    /// The device does the request that a link has outstanding.
    Deliver {
        change: ChangeNo,
        device: DeviceNo,
        link: u32,
    },
    /// The manager handles a reply of a link, by its number from 1.
    Answer {
        change: ChangeNo,
        device: DeviceNo,
        link: u32,
        number: u32,
    },
    /// The manager's side of the current link ends.
    Break {
        change: ChangeNo,
        device: DeviceNo,
    },
    /// The device's side of a link ends: its session is lost, and what is outstanding on it is dropped.
    Lose {
        change: ChangeNo,
        device: DeviceNo,
        link: u32,
    },
    /// The clock of the device rises, by so many seconds.
    Advance {
        device: DeviceNo,
        seconds: u32,
    },
    /// The device restarts.
    Restart {
        device: DeviceNo,
    },
    /// The manager loses what it knows of the change set.
    Forget {
        change: ChangeNo,
    },
    /// The manager loses all that it knows, and reads its journal again.
    Crash,
    /// The manager sets the timer of its pending commit on the device anew.
    Renew {
        change: ChangeNo,
        device: DeviceNo,
    },
    /// An operator asks a device, with an OpenSession where it has no session there, and else on its session.
    Foreign {
        operator: u32,
        device: DeviceNo,
        request: Request,
    },
    /// The session that an operator has at a device is lost.
    Leave {
        operator: u32,
        device: DeviceNo,
    },
    /// So many times: a turn, and where it sent, the delivery and the answer.
    Round {
        change: ChangeNo,
        turns: u32,
    },
}

impl Event {
    /// An equal event. It copies no bytes of a text.
    pub fn copy(&self) -> Result<Event, NoMemory>
        ensures { IfOk result (λ event. event ≡ self.now) }
    {
        let event = match self {
            Event::Submit { change } => Event::Submit { change: *change },
            Event::Turn { change } => Event::Turn { change: *change },
            Event::Deliver {
                change,
                device,
                link,
            } => Event::Deliver {
                change: *change,
                device: *device,
                link: *link,
            },
            Event::Answer {
                change,
                device,
                link,
                number,
            } => Event::Answer {
                change: *change,
                device: *device,
                link: *link,
                number: *number,
            },
            Event::Break { change, device } => Event::Break {
                change: *change,
                device: *device,
            },
            Event::Lose {
                change,
                device,
                link,
            } => Event::Lose {
                change: *change,
                device: *device,
                link: *link,
            },
            Event::Advance { device, seconds } => Event::Advance {
                device: *device,
                seconds: *seconds,
            },
            Event::Restart { device } => Event::Restart { device: *device },
            Event::Forget { change } => Event::Forget { change: *change },
            Event::Crash => Event::Crash,
            Event::Renew { change, device } => Event::Renew {
                change: *change,
                device: *device,
            },
            Event::Foreign {
                operator,
                device,
                request,
            } => Event::Foreign {
                operator: *operator,
                device: *device,
                request: request.copy()?,
            },
            Event::Leave { operator, device } => Event::Leave {
                operator: *operator,
                device: *device,
            },
            Event::Round { change, turns } => Event::Round {
                change: *change,
                turns: *turns,
            },
        };
        Ok(event)
    }

    /// Whether the two are equal.
    pub fn same(&self, other: &Event) -> bool
        ensures { IsTrue result ↔ (self.now ≡ other.now) }
    {
        *self == *other
    }
}
