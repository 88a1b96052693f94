//! The JSON text of rows, by one pass over them: rows in path order stand in the order in which JSON has them, so that
//! containers, lists and entries are opened and closed on the way, and no JSON value is made.
//!
//! Stands on `nm_json`, whose JSON value of a configuration this is the text of, and which makes that value for rows in
//! another order. The layers above rely on the text being that one, of configurations that lie over others too.
#![tactic(auto)]

mod alike;
mod held;
mod keys;
mod nodes;
mod pass;
mod stop;
mod text;
mod values;
pub mod write;

pub use write::write_rows;
