//! Forms of a scenario's parts: one table, its meaning, its faults with their causes and places, their order, and its readers.
//!
//! Stands on `nm_proto` for what parts stand for. The layers above rely on a reader giving what its form says, and on the fault that
//! is told being the first of all that are there.
#![tactic(auto)]

pub mod fault;
pub mod items;
pub mod leafs;
mod line;
pub mod lists;
pub mod places;
pub mod pointer;
pub mod pointer_laws;
pub mod reader;
pub mod words;

pub use fault::{Cause, Fault, Inner, InnerPlace, ReadError, Step};
pub use items::{ItemReader, Weigh, read_list, read_weighed};
pub use leafs::{Number, Switch, Text, read_above, read_number};
pub use line::write_line;
pub use nm_proto::ScenarioKind;
pub use pointer::write_place;
pub use reader::{Reader, no_other_names, optional, read_object, required};
pub use words::{argument, no_word, or_else, takes};
