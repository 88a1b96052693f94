//! The open sessions of a device.
//!
//! Stands on `nm_base` and the kit's `slab`. The layers above rely on the sessions as a list of ids with
//! their users, ascending, and on each call as an equation between the lists before and after it.
#![tactic(auto)]

pub mod fault;
pub mod sessions;

pub use fault::EnterFault;
pub use sessions::Sessions;
