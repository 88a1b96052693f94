//! Why change sets are aborted, where a renewal lapsed, what the journal records at the end of change sets, and what is settled: laws alone.
//!
//! Stands on `nm_world` for the world, on `nm_safety` for what every run keeps, and on `nm_commit_laws` for what commits bring and leave.
#![tactic(auto)]

pub mod aborts;
pub mod causes;
pub mod lapses;
pub mod records;
pub mod settled;
