//! A configuration as a finite map from paths to values, one row for each node that has one.
//!
//! Stands on `nm_base` and `nm_types`. The layers above rely on each call being that of a finite map,
//! on rows in path order, and on the rows at or below a node being found and taken as one. What they write over
//! `RowMap` holds of configurations that lie over others too.
#![tactic(auto)]

mod calls;
pub mod config;
pub mod laws;
mod rough;
pub mod row_map;
mod under;

pub use calls::{copy, get, insert, remove_under};
pub use config::Config;
pub use row_map::RowMap;
pub use under::is_under;
