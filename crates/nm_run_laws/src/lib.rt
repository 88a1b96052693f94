//! What holds at each step of a run: what is due comes into the journal, each step keeps all on which safety rests, and a crash is a new
//! start of the manager. Laws alone.
//!
//! Stands on `nm_world` for the world, on `nm_safety` for what every run keeps, and on `nm_rest_laws` for how change sets end.
#![tactic(auto)]

pub mod due;
pub mod upheld;
