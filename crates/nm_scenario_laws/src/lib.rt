//! What holds of a scenario that is read, and of the faults of one that isn't: laws alone.
//!
//! Stands on `nm_scenario`, which reads the scenario of bytes or their first fault. The layer above may rely on it that the place
//! of a fault leads to a part of the scenario (`specs/Placed.antt`), that a scenario which is read is within all limits
//! (`specs/Kept.antt`), and that the order of the members of objects changes nothing (`specs/Order.antt`).
#![tactic(auto)]

pub mod laws;
