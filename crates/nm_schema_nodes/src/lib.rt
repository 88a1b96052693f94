//! The nodes of the schema tree with their rows, and the choices and cases that stand in statements (RFC 7950 section 7.9).
//!
//! Stands on `nm_schema_uses` for what stands in what. The layers above rely on nodes being made up to the first module that
//! is too large, level by level, each with its row, and on each choice being known with its cases.
#![tactic(auto)]

mod choice_laws;
mod choices;
mod expansion;
mod fork;
mod forks;
mod graph;
mod grow;
mod index;
mod instance;
pub mod laws;
mod limits;
mod table;

pub use choice_laws::spots_of_members;
pub use choices::{Choices, choices_of};
pub use expansion::{Expansion, expand};
pub use fork::{Branch, Fork};
pub use forks::Forks;
pub use instance::Instance;
pub use limits::first_large;
