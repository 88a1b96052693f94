//! In which ways faults can be put into a run, and how many there are: lists alone, which nothing plays.
//!
//! Stands on `std` alone. The layers above rely on each way being there once, on the number of ways, and on stretches of places that
//! make the whole.
#![tactic(auto)]

pub mod count;
pub mod laws;
pub mod put;

pub use count::count_up_to;
pub use put::Put;
