//! A configuration as what it changes of another one, which it shares.
//!
//! Stands on `nm_config`. The layers above rely on an overlay being the finite map of its rows behind `RowMap`, on
//! its base staying as it is, and on its pairs being the paths at which the two differ, in path order, and no others.
#![tactic(auto)]

pub mod laws;
pub mod overlay;
mod pairs;
mod places;
mod rows;

pub use overlay::Overlay;
pub use rows::{count_with, differs, gone_under};
