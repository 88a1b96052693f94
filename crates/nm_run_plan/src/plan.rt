//! What operators are to do in a run with threads.

use nm_base::{DeviceNo, Label};
use nm_proto::{Listed, Request};

/// What one operator asks in a run, one request after another, and the user of its sessions (this project's own).
#[derive(Drop)]
pub struct OperatorPlan {
    pub user: Label,
    pub script: Listed<ScriptEntry>,
}

/// One request of an operator, at a device.
#[derive(Drop)]
pub struct ScriptEntry {
    pub device: DeviceNo,
    pub request: Request,
}
