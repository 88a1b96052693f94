//! Every run of the world is safe: laws alone. First what one change set and one device keep of each other, then what all keep.
//!
//! Stands on `nm_world` for the world, and on `nm_device_laws` for what one device keeps.
#![tactic(auto)]

pub mod change_sets;
pub mod device_side;
pub mod laws;
pub mod manager_side;
pub mod pair_laws;
pub mod reported;
