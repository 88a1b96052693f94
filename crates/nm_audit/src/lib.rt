//! What passes, histories, the board, slots and the journal of a run agree on once its threads are joined, and what an audit of
//! them finds: laws, and the mismatches that they speak of.
//!
//! Stands on `nm_cells` for histories and passes, on `nm_chronicle` for the board and on `nm_recovery` for the journal, and on
//! nothing of how change sets are worked on. The layers above rely on an audit that finds nothing meaning that all agree, and on
//! what follows of the commits of change sets where they do.
#![tactic(auto)]

pub mod laws;
pub mod mismatch;
pub mod slot;

pub use mismatch::Mismatch;
pub use slot::SlotRecord;
