//! How many of everything a scenario may have.

/// How many devices a scenario may have.
pub const DEVICE_LIMIT: usize = 32;

/// How many change sets a scenario may have.
pub const CHANGE_LIMIT: usize = 64;

/// How many operators a scenario may have.
pub const OPERATOR_LIMIT: usize = 16;

/// How many elementary events a run may have: time stays in seconds, and no session id is used up.
pub const EVENT_LIMIT: u64 = 100_000;

/// How many turns one round may have.
pub const TURN_LIMIT: u64 = 1_000;

/// How many texts one selection may have: as many as a device may have partial locks.
pub const SELECT_LIMIT: usize = 64;

/// How many bytes a token may have.
pub const TOKEN_LIMIT: usize = 64;
