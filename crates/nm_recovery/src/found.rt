//! What is known of each change set after a restart of the manager.

ghost use Rattle.std.specs.Prelude.{◌≡◌, ◌++◌, IfOk, OnOk};
ghost use Rattle.nm_recovery.specs.Recovery.{found_by, found_of, recovered};

use crate::words::{kept_in, verdict_in};
use nm_base::{ChangeNo, DeviceMask, NoMemory};
use nm_proto::{Entry, Verdict};
use std::alloc::Global;

/// What a journal tells of a change set that was submitted.
#[derive(Clone, Copy, PartialEq, Eq)]
pub struct Found {
    pub change: ChangeNo,
    pub devices: DeviceMask,
    /// None exactly where it isn't decided.
    pub verdict: Option<Verdict>,
    /// The devices that kept it. None exactly where the manager isn't done with it.
    pub kept: Option<DeviceMask>,
}

/// What the entries tell of each change set that was submitted, in the order in which they were. How long its
/// confirmed commits wait isn't looked at.
///
/// It takes time as there are entries, times those that start a change set.
pub fn recover(alloc: Global, entries: &[Entry]) -> Result<Vec<Found>, NoMemory>
    ensures { IfOk result (λ found. found.items ≡ recovered entries.now) }
{
    let mut found = Vec::new(alloc);
    for entry in entries {
        push_found(&mut found, entries, entry)?;
    }
    Ok(found)
}

// What is known of the change set that an entry starts.
fn push_found(found: &mut Vec<Found>, entries: &[Entry], entry: &Entry) -> Result<(), NoMemory>
    ensures { OnOk result (found.new.items ≡ found.old.items ++ found_by entries.now entry.now) }
{
    match entry {
        Entry::Started {
            change,
            devices,
            ..
        } => {
            found.push(found_of(entries, *change, *devices))?;
            Ok(())
        }
        Entry::Decided { .. } | Entry::Ended { .. } => Ok(()),
    }
}

// What is known of a change set of these devices.
fn found_of(entries: &[Entry], change: ChangeNo, devices: DeviceMask) -> Found
    ensures { result ≡ found_of entries.now change devices }
{
    Found {
        change,
        devices,
        verdict: verdict_in(entries, change),
        kept: kept_in(entries, change),
    }
}
