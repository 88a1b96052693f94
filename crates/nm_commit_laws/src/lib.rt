//! What the manager's commits bring and what they leave, what marks tell, and what is refused to the manager: laws alone.
//!
//! Stands on `nm_world` for the world and on `nm_safety` for what every run keeps.
#![tactic(auto)]

pub mod brings;
pub mod leaves;
pub mod marks;
pub mod refuses;
