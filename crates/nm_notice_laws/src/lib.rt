//! What a world tells of confirmed commits, whatever happens in it and whatever its manager reads of a journal. Laws alone.
//!
//! Stands on `nm_notify` for what a history tells, on `nm_world` for the world, and on `nm_safety` for what happens at its devices.
#![tactic(auto)]

pub mod laws;
