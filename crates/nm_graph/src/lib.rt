//! Graphs: their orders and cycles, values along them, and what is reached in them.
//!
//! Stands on `nm_base`. The layers above rely on an order of the nodes that lead to no cycle, in which each comes after all
//! that it leads to; on the least node that leads to itself; on each node's value being that of its step; and on exactly the
//! nodes that are reached from others. No call recurses: a graph may be as deep as it is large.
#![tactic(auto)]

mod candidate;
mod edges;
mod growing;
mod reach;
mod sorting;
mod walking;

pub use edges::is_graph;
pub use reach::reached;
pub use sorting::{Ordered, order};
pub use walking::{Visitor, values};
