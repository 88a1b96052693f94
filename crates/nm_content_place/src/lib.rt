//! Nodes of a configuration of YANG data: what names them, and whether two configurations have the same there.
//!
//! Stands on `nm_path` for what a text leads to, and on `nm_config` and `nm_overlay` for rows in path order. The layer above
//! relies on a node having what stands at it and below it, on a key leaf having its entry, on a walk coming to each row at or below a node once, in path order,
//! and on both taking no memory.
#![tactic(auto)]

pub mod place;
pub mod walk;

pub use place::{YangNode, found, same_at};
pub use walk::next_below;
