//! The statements of YANG modules as rows, and what the grammar asks of each.
//!
//! Stands on `nm_base` and `nm_yang`. The layers above rely on the rows of modules in their order, on what stands
//! in each row, and on the first fault of a row's keyword, place, times and argument.
#![tactic(auto)]

mod fault;
mod flaw;
mod form;
mod grammar;
mod nesting;
mod row;
mod rows;
mod text;
mod word;

pub use flaw::Flaw;
pub use grammar::grammar_flaw;
pub use row::Row;
pub use rows::{Rows, rows_of};
pub use text::{is_builtin, is_identifier, is_reference, name_of, prefix_of};
pub use word::{Word, word_of};
