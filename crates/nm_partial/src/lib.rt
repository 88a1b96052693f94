//! The partial locks of a device: which sessions have locked which parts of running.
//!
//! Stands on `nm_base` and `nm_proto`, and is written once over every content. The layers above rely on
//! each call as an equation between the locks before and after it, on ids that are never used again, and
//! on what a change that no lock guards against leaves alone.
#![tactic(auto)]

pub mod fault;
pub mod laws;
pub mod lock;
pub mod locks;

pub use fault::GrantFault;
pub use locks::PartialLocks;
