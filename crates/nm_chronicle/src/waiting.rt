//! What waits at a device to be confirmed.

use nm_base::ChangeNo;

/// The confirmed commit that waits at a device to be confirmed (RFC 6241 section 8.4).
#[derive(Clone, Copy, PartialEq, Eq)]
pub enum Waiting {
    /// None does.
    Nothing,
    /// One that is no change set's, or a change set's second one.
    Other,
    /// The first one of a change set.
    Of { change: ChangeNo },
}
