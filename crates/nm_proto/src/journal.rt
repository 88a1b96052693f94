//! What a journal's entries say. They are messages too: the manager writes them, and texts and recovery read them.

ghost use Rattle.std.specs.Prelude.{◌≡◌, ◌↔◌, IsTrue};

use nm_base::{ChangeNo, DeviceMask, DeviceNo, Tag};

/// Why a change set is aborted.
#[derive(Clone, Copy, PartialEq, Eq)]
pub enum AbortCause {
    /// A device answered a request with an error of this tag.
    Refused { device: DeviceNo, tag: Tag },
    /// The manager's link to a device broke.
    Broken { device: DeviceNo },
    /// The manager lost what it knew of the change set.
    Forgotten,
    /// A device refused to renew its pending commit, which a timer, a restart or another session has ended.
    Lapsed { device: DeviceNo },
}

impl AbortCause {
    /// Whether the two are one cause.
    pub fn same(&self, other: &AbortCause) -> bool
        ensures { IsTrue result ↔ (self.now ≡ other.now) }
    {
        *self == *other
    }
}

/// What is decided of a change set.
#[derive(Clone, Copy, PartialEq, Eq)]
pub enum Verdict {
    /// Each of its devices is to have it.
    Commit,
    /// None of its devices is to have it.
    Abort(AbortCause),
}

impl Verdict {
    /// Whether the two are one verdict.
    pub fn same(&self, other: &Verdict) -> bool
        ensures { IsTrue result ↔ (self.now ≡ other.now) }
    {
        *self == *other
    }
}

/// An entry of the manager's journal.
#[derive(Clone, Copy, PartialEq, Eq)]
pub enum Entry {
    /// The change set was submitted, for these devices.
    Started {
        change: ChangeNo,
        devices: DeviceMask,
        /// How long its confirmed commits wait, in seconds (RFC 6241 section 8.4). None exactly where it was read from a
        /// record of version 1, which doesn't hold it.
        timeout: Option<u32>,
    },
    /// The change set's verdict stands.
    Decided {
        change: ChangeNo,
        verdict: Verdict,
    },
    /// The manager is done with the change set, and these devices have kept it.
    Ended {
        change: ChangeNo,
        kept: DeviceMask,
    },
}

impl Entry {
    /// Whether the two are one entry.
    pub fn same(&self, other: &Entry) -> bool
        ensures { IsTrue result ↔ (self.now ≡ other.now) }
    {
        *self == *other
    }
}
