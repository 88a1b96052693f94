//! One fault that is put into a run.

/// A fault that is put into a run.
#[derive(Clone, Copy)]
pub struct Put {
    /// How many events of the run come before it.
    pub place: u32,
    /// Its number in the list of faults, from 0.
    pub fault: u32,
}
