//! Whether a configuration is valid, given a valid one and the paths at or below which the two differ.
//!
//! Stands on `nm_validate_rules`, whose laws say what each rule reads, and on the crates that judge places, leafrefs and unique
//! statements. The layers above rely on the answer being that of the whole check.
#![tactic(auto)]

mod candidates;
pub mod choices;
mod concerned;
mod differing;
pub mod elements;
pub mod groups;
mod guarded;
pub mod judge;
pub mod laws;
pub mod leafs;
mod local;
mod members;
mod paths;
mod reading;
pub mod rows;
mod touched;
pub mod unique;
mod whole;

pub use groups::{Members, members_of};
pub use judge::{judged, rule_at};
pub use touched::check_touched;
