//! Every drain comes to rest, and calm runs commit: laws alone.
//!
//! Stands on `nm_world` for the world, and on `nm_safety` for what every run keeps.
#![tactic(auto)]

pub mod calm;
pub mod rest;
