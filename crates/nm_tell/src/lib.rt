//! All that is told beside the commands of `netm`: what is wrong with a scenario, in full. The top call of the program `netm_tell`.
//!
//! Stands on `nm_explain` for what is told, and on `nm_io` for where bytes come from and go to.
#![tactic(auto)]

pub mod command;
pub mod program;

pub use command::Command;
pub use program::tell;
