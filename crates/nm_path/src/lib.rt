//! The texts of paths, read and written by a schema tree.
//!
//! Stands on `nm_schema_tree` and `nm_types`. The layers above rely on exactly the spellings of a path being read, on the one
//! text that is written of it being a spelling of it, and on the node that a path leads to.
#![tactic(auto)]

mod choice;
pub mod fault;
pub mod form;
pub mod laws;
pub mod place;
mod quoted;
pub mod read;
mod steps;
mod text;
pub mod write;

pub use choice::step_of;
pub use fault::PathFault;
pub use form::Written;
pub use place::{are_named, found, node_of};
pub use read::read_path;
pub use steps::steps_of;
pub use write::write_path;
