//! The schema tree of YANG modules, and the nodes that names lead to.
//!
//! Stands on `nm_base` and `nm_types`. The layers above rely on the tree being seen as the lists of its nodes, choices
//! and cases, and on each look-up answering the first node of that list that a definition names.
#![tactic(auto)]

pub mod choice;
mod level;
pub mod node;
pub mod schema;

pub use choice::{CaseNode, ChoiceNode};
pub use node::{Elements, Node, NodeKind, Reference, SharedType};
pub use schema::Schema;
