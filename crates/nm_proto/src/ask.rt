//! What the manager asks of a device.

/// What the manager asks of a device for a change set, by the steps of its protocol (this project's own).
#[derive(Clone, Copy, PartialEq, Eq)]
pub enum Ask {
    OpenSession,
    LockRunning,
    LockCandidate,
    Edit,
    Validate,
    /// The confirmed commit that brings the change set (RFC 6241 section 8.4).
    CommitConfirmed,
    /// The confirmed commit that sets the timer of the pending one anew.
    Renew,
    /// The commit that confirms.
    Confirm,
    /// The cancel of the pending commit.
    Cancel,
    /// Whether the mark of the change set is in running.
    HasMark,
    Discard,
    CloseSession,
    /// The next request of a resynchronisation.
    Resync,
}
