//! What comes of events.

ghost use Rattle.std.specs.Prelude.{◌≡◌};
ghost use Rattle.nm_world.specs.World.{sending_of};

use nm_base::{DeviceNo, Label};
use nm_proto::{Event, Reply, Request, Verdict};

/// What came of an event.
#[derive(Drop)]
pub enum Happened {
    /// The event didn't apply, and changed nothing.
    Idle,
    /// The change set was submitted.
    Started,
    /// A request was sent on a link of a device, by the link's number from 1.
    Sent {
        device: DeviceNo,
        link: u32,
        request: Request,
    },
    /// The verdict came into the journal.
    Decided(Verdict),
    /// The manager is done with the change set.
    Ended,
    /// A device replied. `undone` tells whether a pending commit was undone other than by a cancel.
    Replied {
        reply: Reply,
        undone: bool,
    },
    /// The manager handled a reply.
    Handled,
    /// The manager's side of a link ended.
    Broken,
    /// The device's side of a link ended.
    Lost {
        undone: bool,
    },
    /// An operator's session was lost.
    Left {
        undone: bool,
    },
    /// The clock of a device rose to this, in seconds.
    Now {
        clock: u64,
        undone: bool,
    },
    /// A device restarted.
    Restarted {
        undone: bool,
    },
    /// What the manager knew of a change set was lost.
    Forgot,
    /// All that the manager knew was lost, and it has read its journal again.
    Crashed,
}

/// A link on which a request was sent.
#[derive(Clone, Copy, PartialEq, Eq)]
pub struct Sending {
    pub device: DeviceNo,
    /// The link's number, from 1.
    pub link: u32,
}

impl Happened {
    /// Where a request was sent, if one was.
    pub fn sending(&self) -> Option<Sending>
        ensures { result ≡ sending_of self.now }
    {
        match self {
            Happened::Sent { device, link, .. } => Some(Sending {
                device: *device,
                link: *link,
            }),
            _ => None,
        }
    }
}

/// An elementary event that was passed, and what came of it.
#[derive(Drop)]
pub struct TraceEntry {
    pub event: Event,
    pub happened: Happened,
}

/// An event of an operator that a rule denied, so that it didn't happen.
#[derive(Drop)]
pub struct Denied {
    /// Its place in what is told of a run, from 1: elementary events that came before it count, and those that were denied.
    pub number: usize,
    /// The name of the rule.
    pub by: Label,
    /// The path of the row at which it was denied, and None where the operation was.
    pub path: Option<Label>,
}
