//! Runs in which events are judged before they happen: one that is denied doesn't happen, and is told with its number.
//!
//! Stands on `nm_world`. Who judges is a parameter. The layers above rely on the run being that of the events that are permitted,
//! as a list, so that whatever is so of every run is so of it.
#![tactic(auto)]

pub mod judge;
pub mod laws;
pub mod run;

pub use judge::{Denial, Everyone, Judge};
pub use run::run_permitted;
