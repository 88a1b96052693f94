//! The world: devices with their histories, the manager of all change sets with its links, and operators beside it.
//!
//! Stands on `nm_history` and `nm_manager`. What every event does, how a world comes to rest and what is reported of it are
//! defined here. The layers above rely on each event as an equation between the world before and after it, on the trail of what
//! came of each, and on the journal's disk holding the entries so far at each moment.
#![tactic(auto)]

mod beginning;
pub mod drain;
pub mod happened;
pub mod operator;
mod places;
pub mod report;
mod rest;
mod search;
pub mod settled;
pub mod setup;
mod turns;
pub mod world;
mod world_core;

pub use happened::{Denied, Happened, Sending, TraceEntry};
pub use report::{Pair, Report};
pub use rest::DRAIN_LIMIT;
pub use setup::Setup;
pub use world::World;
