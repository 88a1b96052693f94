//! What a worker keeps of a change set beside its slot: the course, and of each device the session that is asked on and the
//! resynchronisation.
//!
//! Stands on `nm_decider` and `nm_resync` for what is asked and learnt, in the words of `nm_manager`. The layers above rely on
//! each call being one function of what was kept, and on none taking memory once the work is begun.
#![tactic(auto)]

pub mod laws;
pub mod side;
pub mod work;

pub use side::Side;
pub use work::Work;
