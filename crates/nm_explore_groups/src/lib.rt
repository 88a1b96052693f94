//! Ends of runs, those that are alike counted together.
//!
//! Stands on `nm_explore_ways`, whose ways the first runs to an end have. The layers above rely on each end being there once, with the
//! number of its runs and the way of the first of them, and on parts that are counted apart making the whole.
#![tactic(auto)]

pub mod group;
pub mod laws;

pub use group::{Group, add_run};
