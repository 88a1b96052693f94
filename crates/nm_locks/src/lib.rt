//! The global locks of a device's datastores.
//!
//! Stands on `nm_base` and `nm_proto`. The layers above rely on each call as an equation between the
//! owners before and after it.
#![tactic(auto)]

pub mod locks;

pub use locks::GlobalLocks;
