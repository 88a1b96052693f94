//! One device's seat in a course: what the manager knows of it. What comes next is chosen by the seats alone.

use nm_decider_stage::Stage;
use nm_proto::Ask;

/// What the manager knows of one device for a change set.
#[derive(Clone, Copy, PartialEq, Eq)]
pub struct Seat {
    /// Whether it is a device of the change set.
    pub is_member: bool,
    pub stage: Stage,
    /// What was asked and isn't answered, or whose reply isn't handled.
    pub awaited: Option<Ask>,
    /// How many requests were sent since the decision, and before it how many in all.
    pub sent: u64,
}

// What stands where no seat was put yet.
impl Default for Seat {
    fn default() -> Seat {
        Seat {
            is_member: false,
            stage: Stage::Live { done: 0 },
            awaited: None,
            sent: 0,
        }
    }
}
