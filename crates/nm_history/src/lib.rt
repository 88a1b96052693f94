//! Devices with their histories: what has happened at each, with the replies, and what became of a change set there.
//!
//! Stands on `nm_device`. The layers above rely on each event as an equation between the device with its history before
//! and after it, on `every_history_is_whole`, and on outcomes that are read from a history alone.
#![tactic(auto)]

pub mod event;
pub mod laws;
pub mod outcome;
pub mod recorded;
pub mod telling;

pub use event::{DeviceEvent, Noted};
pub use outcome::{Outcome, Undoing, outcome_of};
pub use recorded::{Recorded, Told};
pub use telling::{Telling, tellings_of};
