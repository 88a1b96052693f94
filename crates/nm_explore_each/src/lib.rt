//! Goes each way in which faults can be put into a run, in order, and counts what the runs come to.
//!
//! Stands on `nm_explore_ways` and `nm_explore_groups`, and on one who plays the runs, whoever that is. The layer above relies on the
//! groups as an equation: those of the runs of all ways, fewer faults first.
#![tactic(auto)]

pub mod each;
pub mod player;

pub use each::explore;
pub use player::Player;
