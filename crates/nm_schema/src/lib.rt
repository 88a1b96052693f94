//! The schema tree of YANG modules.
//!
//! Stands on `nm_schema_faults`, which tells what is wrong with modules and what is known of them, and on `nm_schema_tree`. The layers above
//! rely on `build`: the first fault of the modules, or, where nothing is wrong with them, a tree of all their nodes, with the nodes
//! of the marker module after them. Such a tree is sound as `nm_path` says it, which reads and writes paths by it.
#![tactic(auto)]

mod choice;
mod fault;
mod kind;
pub mod laws;
mod list;
mod marker;
mod modules;
mod node;
mod tree;

pub use fault::SchemaFault;
pub use modules::build;
