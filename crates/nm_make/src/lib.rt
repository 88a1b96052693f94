//! Scenarios that are made from a number: 32 devices of 400 interfaces each, and 64 change sets that give some of them another MTU.
//!
//! Stands on `nm_base` for numbers, and on `rand_pcg` for the words that are drawn. The layers above rely on one text for one number.
#![tactic(auto)]

mod draw;
mod text;

pub use draw::{MadeChange, MadeEdit, draw_changes};
pub use text::made;
