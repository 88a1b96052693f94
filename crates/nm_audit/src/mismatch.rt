//! What an audit finds.

use nm_base::{ChangeNo, DeviceNo};
use nm_history::Noted;
use nm_proto::Verdict;

/// Two things that don't agree (this project's own). Places are counted from 1.
#[derive(Drop)]
pub enum Mismatch {
    /// A device or a slot whose number isn't that of its place.
    Place {
        place: u32,
        number: u32,
    },
    /// An entry of a pass that doesn't stand in its device's history at its place, or not behind all that it is to come
    /// after; or an entry of a history that no pass holds.
    Entry {
        device: DeviceNo,
        /// 0 where the pass tells no place.
        position: u32,
        /// The entry of the pass. None where no pass holds the one of the history.
        kept: Option<Noted>,
        /// The entry of the history. None where it has no such place.
        found: Option<Noted>,
        /// A place at the device that is to come before this one and isn't lower: that of the entry before it in its pass,
        /// and else the highest of a lower change set's pass.
        earlier: Option<u32>,
    },
    /// The phase of a change set at a device: on the board, and by the history.
    Phase {
        change: ChangeNo,
        device: DeviceNo,
        board: u8,
        history: u8,
    },
    /// The verdict of a change set: in the journal, and another one, which is the board's, or where the board agrees the
    /// slot's.
    Verdict {
        change: ChangeNo,
        journal: Option<Verdict>,
        found: Option<Verdict>,
    },
}
