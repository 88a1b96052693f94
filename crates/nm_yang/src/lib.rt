//! YANG module text: what a module's bytes spell, and one spelling of a statement.
//!
//! Stands on `nm_base` alone. The layers above rely on a statement's keyword, argument and place, and on
//! the first fault of a text that is no module.
#![tactic(auto)]

mod argument;
mod blank;
mod byte;
mod fault;
mod labels;
mod module;
mod quote;
mod reader;
mod statement;
mod text;
mod word;
mod writing;

pub use fault::{YangFault, YangKind};
pub use statement::Statement;
pub use text::read_module;
pub use writing::write_module;
