//! The program's commands, from the bytes of a scenario or of a journal to the bytes of its text.
//!
//! Stands on the reader of scenarios, on the world and its report, on the journal, and on sources, sinks and disks.
//! `console` is the top call: its contract says which bytes it writes for which bytes it reads.
#![tactic(auto)]

pub mod check;
pub mod command;
pub mod console;
pub mod journal;
pub mod laws;
pub mod refusal;
pub mod replay;
mod rows;
pub mod said;
pub mod status;
