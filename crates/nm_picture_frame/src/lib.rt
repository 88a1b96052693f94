//! Where the lanes and lines of a picture stand, in pixels.
//!
//! Stands on `nm_base` alone. The layers above rely on each place as an equation with `specs/Frame.antt`, and on lanes that stand apart.
#![tactic(auto)]

pub mod frame;
pub mod laws;

pub use frame::{Frame, LINE_HEIGHT, left_of, right_of};
