//! What all rows of a picture share, and what an event says of its place.

ghost use Rattle.std.specs.Prelude.{◌≡◌};
ghost use Rattle.nm_picture_events.specs.Scene as spec;

use nm_base::{ChangeNo, DeviceNo};
use nm_picture_frame::Frame;
use nm_proto::Event;

/// Where rows stand, and whether words name the change set that they are of: where a run has more than one.
#[derive(Clone, Copy)]
pub struct Scene {
    pub frame: Frame,
    pub names_changes: bool,
}

impl Scene {
    /// The change set that words name.
    pub fn named(&self, change: Option<ChangeNo>) -> Option<ChangeNo>
        ensures { result ≡ spec.named self.now change }
    {
        if self.names_changes {
            return change;
        }
        None
    }

    /// The lane of an event: that of its device, and else the manager's.
    pub fn lane_x(&self, device: Option<DeviceNo>) -> u32
        ensures { result ≡ spec.lane_x self.now device }
    {
        match device {
            Some(device) => self.frame.device_x(device),
            None => self.frame.manager_x(),
        }
    }
}

/// Where the shapes of a row stand: the middle of its line, and the change set that its words name.
#[derive(Clone, Copy)]
pub struct Place {
    pub frame: Frame,
    pub y: u32,
    pub named: Option<ChangeNo>,
}

/// The place of a row, by its event and its line.
pub fn place_of(scene: &Scene, line: u32, event: &Event) -> Place
    ensures { result ≡ spec.place_of scene.now line event.now }
{
    Place {
        frame: scene.frame,
        y: scene.frame.line_y(line),
        named: scene.named(change_of(event)),
    }
}

/// The change set of an event, where it is of one.
pub fn change_of(event: &Event) -> Option<ChangeNo>
    ensures { result ≡ spec.change_of event.now }
{
    match event {
        Event::Submit { change } => Some(*change),
        Event::Turn { change } => Some(*change),
        Event::Deliver { change, .. } => Some(*change),
        Event::Answer { change, .. } => Some(*change),
        Event::Break { change, .. } => Some(*change),
        Event::Lose { change, .. } => Some(*change),
        Event::Forget { change } => Some(*change),
        Event::Renew { change, .. } => Some(*change),
        Event::Round { change, .. } => Some(*change),
        _ => None,
    }
}

/// The device of an event, where it is at one.
pub fn device_of(event: &Event) -> Option<DeviceNo>
    ensures { result ≡ spec.device_of event.now }
{
    match event {
        Event::Deliver { device, .. } => Some(*device),
        Event::Answer { device, .. } => Some(*device),
        Event::Break { device, .. } => Some(*device),
        Event::Lose { device, .. } => Some(*device),
        Event::Advance { device, .. } => Some(*device),
        Event::Restart { device } => Some(*device),
        Event::Renew { device, .. } => Some(*device),
        Event::Foreign { device, .. } => Some(*device),
        Event::Leave { device, .. } => Some(*device),
        _ => None,
    }
}
