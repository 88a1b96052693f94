//! What may go wrong in a run, in the order in which it is tried: a list alone, which nothing plays.
//!
//! Stands on `nm_proto`. The layers above rely on the list as its definition tells it, and on each mishap naming change sets and
//! devices that there are.
#![tactic(auto)]

pub mod list;
pub mod mishap;

pub use list::mishaps_of;
pub use mishap::Mishap;
