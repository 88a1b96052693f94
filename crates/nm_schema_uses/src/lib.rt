//! What stands in what in YANG modules, once each `uses` stands for what its grouping holds, and each choice for what its cases
//! hold.
//!
//! Stands on `nm_base`, `nm_schema_statements` and `nm_graph`. The layers above give for each row of a `uses` the row of the grouping
//! that it names, and rely on what each row leads to, on the nodes of data that stand in it, on names that come twice there, on
//! which rows are configuration and state, and on how many nodes stand below a row and how deep. A grouping's nodes are listed
//! once, and its names looked up there, however often it is used.
#![tactic(auto)]

mod config;
mod holding;
mod kinds;
mod members;
mod nodes;
mod passing;
mod settings;
mod shape;
mod sizes;

pub use config::{argument_at, is_kept};
pub use holding::{are_named, grouping_at, one_or_none};
pub use kinds::{is_fork_at, is_node, is_part_at, is_uses};
pub use members::{gathered, is_astray};
pub use nodes::Nodes;
pub use shape::{Shape, shape_of};
