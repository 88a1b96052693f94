//! The datastores of a device: running and candidate.
//!
//! Stands on `nm_base` and `nm_proto`, and is written once over every content. The layers above rely on
//! each call as an equation between the datastores before and after it.
#![tactic(auto)]

pub mod stores;

pub use stores::Stores;
