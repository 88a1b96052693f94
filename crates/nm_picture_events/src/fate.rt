//! What becomes of a message that is under way.

/// What becomes of a message.
#[derive(Clone, Copy)]
pub enum Fate {
    Arrives,
    IsLost,
    /// It is under way when the run ends.
    Waits,
}
