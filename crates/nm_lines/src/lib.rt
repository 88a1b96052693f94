//! Texts as parts of lines.
//!
//! Stands on `nm_base`. The layers above rely on a control character being printed as JSON writes it, so that no text that somebody
//! wrote breaks the line that it is printed in.
#![tactic(auto)]

pub mod laws;
pub mod printing;

pub use printing::{printed, put_printed};
