//! Leafrefs in the tree of YANG modules: where each leads, which lead to themselves, and the type of each node.
//!
//! Stands on `nm_schema_names`, `nm_schema_typing` and `nm_schema_nodes`, and on `nm_graph` for cycles and for types along them. The layers above rely on
//! where the path of each node leads, on how far up it goes, on the type of each node, and on the fault of each path.
#![tactic(auto)]

mod fault;
mod graph;
pub mod laws;
mod leafrefs;
mod led;
mod leds;
mod paths;
mod tree;
mod types;
mod walk;

pub use fault::PathFault;
pub use leafrefs::{Leafrefs, leafrefs_of};
pub use led::Led;
pub use paths::{Paths, paths_of};
