//! Words on the entries of a journal. No call takes memory.

ghost use Rattle.std.specs.Prelude.{◌≡◌, ◌<◌, ◌||◌, ◌&&◌, nat_eq, ℕ, find, option_copied};
ghost use Rattle.std.specs.List.{list_any};
ghost use Rattle.nm_base.specs.Mask.{mask_contains};
ghost use Rattle.nm_journal.specs.Entries.{starts, decides, ends};
ghost use Rattle.nm_recovery.specs.Recovery.{devices_in, devices_of, ended_on, is_ended_in, is_ended_on, is_started, kept_in, kept_of, started_on, starts_on, verdict_in, verdict_of, with_ended, with_if, with_started};

use nm_base::{ChangeMask, ChangeNo, DeviceMask, DeviceNo};
use nm_journal::{decides, ends, starts};
use nm_proto::{Entry, Verdict};

/// Whether the change set was submitted.
pub fn is_started(entries: &[Entry], change: ChangeNo) -> bool
    ensures { result ≡ is_started change entries.now }
{
    entries.iter().any(|entry| starts(change, entry))
}

/// The devices of the change set, and None exactly where it wasn't submitted.
pub fn devices_in(entries: &[Entry], change: ChangeNo) -> Option<DeviceMask>
    ensures { result ≡ devices_in change entries.now }
{
    match start_of(entries, change) {
        Some(entry) => devices_of(entry),
        None => None,
    }
}

/// The verdict on the change set, and None exactly where it isn't decided.
pub fn verdict_in(entries: &[Entry], change: ChangeNo) -> Option<Verdict>
    ensures { result ≡ verdict_in change entries.now }
{
    match decision_of(entries, change) {
        Some(entry) => verdict_of(entry),
        None => None,
    }
}

/// Whether the manager is done with the change set.
pub fn is_ended_in(entries: &[Entry], change: ChangeNo) -> bool
    ensures { result ≡ is_ended_in change entries.now }
{
    entries.iter().any(|entry| ends(change, entry))
}

/// The devices that kept the change set, and None exactly where the manager isn't done with it.
pub fn kept_in(entries: &[Entry], change: ChangeNo) -> Option<DeviceMask>
    ensures { result ≡ kept_in change entries.now }
{
    match end_of(entries, change) {
        Some(entry) => kept_of(entry),
        None => None,
    }
}

/// The change sets of the device that the manager is done with. It goes through the entries twice.
pub fn ended_on(entries: &[Entry], device: DeviceNo) -> ChangeMask
    ensures value { result.0 ≡ ended_on device entries.now }
    ensures contains { (change : ℕ) → 0 < change → mask_contains result.0 change ≡ is_ended_on device entries.now change }
{
    let on = started_on(entries, device);
    let mut ended = 0;
    for entry in entries {
        ended = with_ended(on, ended, entry);
    }
    ChangeMask(ended)
}

// The change sets of the device.
fn started_on(entries: &[Entry], device: DeviceNo) -> ChangeMask
    ensures value { result.0 ≡ started_on device entries.now }
    ensures contains { (change : ℕ) → 0 < change → mask_contains result.0 change ≡ list_any (starts_on device change) entries.now }
{
    let mut on = 0;
    for entry in entries {
        on = with_started(device, on, entry);
    }
    ChangeMask(on)
}

// The set with the change set of an entry that starts one of the device.
fn with_started(device: DeviceNo, on: u64, entry: &Entry) -> u64
    ensures value { result ≡ with_started device on entry.now }
    ensures contains { (other : ℕ) → 0 < other → mask_contains result other ≡ (mask_contains on other || starts_on device other entry.now) }
{
    match entry {
        Entry::Started {
            change,
            devices,
            ..
        } => with_if(on, devices.contains(device), *change),
        Entry::Decided { .. } | Entry::Ended { .. } => on,
    }
}

// The set with the change set of an entry that ends one of these.
fn with_ended(on: ChangeMask, ended: u64, entry: &Entry) -> u64
    ensures value { result ≡ with_ended on.0 ended entry.now }
    ensures contains { (other : ℕ) → 0 < other
        → mask_contains result other ≡ (mask_contains ended other || (ends other entry.now && mask_contains on.0 other)) }
{
    match entry {
        Entry::Ended { change, .. } => with_if(ended, on.contains(*change), *change),
        Entry::Started { .. } | Entry::Decided { .. } => ended,
    }
}

// The set with the change set, where it is to come.
#[tactic(auto, unfolding(crate::specs::Recovery::with_change))]
fn with_if(mask: u64, comes: bool, change: ChangeNo) -> u64
    ensures value { result ≡ with_if mask comes change }
    ensures contains { (other : ℕ) → 0 < other → mask_contains result other ≡ (mask_contains mask other || (nat_eq other change && comes)) }
{
    if comes {
        mask | (1u64 << (change.get() - 1))
    } else {
        mask
    }
}

fn devices_of(entry: &Entry) -> Option<DeviceMask>
    ensures { result ≡ devices_of entry.now }
{
    match entry {
        Entry::Started { devices, .. } => Some(*devices),
        Entry::Decided { .. } | Entry::Ended { .. } => None,
    }
}

fn verdict_of(entry: &Entry) -> Option<Verdict>
    ensures { result ≡ verdict_of entry.now }
{
    match entry {
        Entry::Decided { verdict, .. } => Some(*verdict),
        Entry::Started { .. } | Entry::Ended { .. } => None,
    }
}

fn kept_of(entry: &Entry) -> Option<DeviceMask>
    ensures { result ≡ kept_of entry.now }
{
    match entry {
        Entry::Ended { kept, .. } => Some(*kept),
        Entry::Started { .. } | Entry::Decided { .. } => None,
    }
}

fn start_of(entries: &[Entry], change: ChangeNo) -> Option<&Entry>
    ensures { option_copied result ≡ find (starts change) entries.now }
{
    entries.iter().find(|entry| starts(change, entry))
}

fn decision_of(entries: &[Entry], change: ChangeNo) -> Option<&Entry>
    ensures { option_copied result ≡ find (decides change) entries.now }
{
    entries.iter().find(|entry| decides(change, entry))
}

fn end_of(entries: &[Entry], change: ChangeNo) -> Option<&Entry>
    ensures { option_copied result ≡ find (ends change) entries.now }
{
    entries.iter().find(|entry| ends(change, entry))
}
