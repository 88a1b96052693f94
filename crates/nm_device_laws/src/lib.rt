//! What one device keeps, whatever happens at it: laws alone, for the layers that reason about many devices.
//!
//! Stands on `nm_history`. The layers above rely on what stands for a session while others act, on what is told of a
//! token that nobody names, and on what each request of a session's own found and left where it was answered Done.
#![tactic(auto)]

pub mod laws;
