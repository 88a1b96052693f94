//! One record: its 15 bytes after the gate, written in version 2 and read in version 1 and 2.
ghost use Rattle.std.specs.Prelude.{◌≡◌, ◌+◌, ◌<◌, ◌≤◌, ◌++◌, [], ◌∷◌, ◌&&◌, true, Some, None, length, nat_eq};
ghost use Rattle.std.specs.List.{list_all};
ghost use Rattle.std.specs.Int.{w32, to_be_bytes};
ghost use Rattle.nm_journal.specs.Entries.{has_record, is_timed};
ghost use Rattle.nm_journal.specs.Record.{record_of, verdict_bytes, entry_of, started_of, decided_of, ended_of, timeout_of, names_version, verdict_of, refused_of, number_at, seconds_of};

use nm_base::{ChangeNo, DeviceMask, DeviceNo, Tag};
use nm_proto::{AbortCause, Entry, Verdict};

// The 15 bytes of an entry's record after its gate, and a closed gate behind them.
//
// What is written is read back.
pub(crate) fn block_of(entry: &Entry) -> [u8; 16]
    requires has { has_record entry.now ≡ true }
    requires timed { is_timed entry.now ≡ true }
    ensures read_back { entry_of (record_of entry.now) ≡ Some entry.now }
    ensures block { result ≡ record_of entry.now ++ 0 ∷ [] }
{
    match entry {
        Entry::Started {
            change,
            devices,
            timeout,
        } => block(1, *change, devices.0.to_be_bytes(), seconds_of(timeout)),
        Entry::Decided { change, verdict } => block(2, *change, verdict_bytes(verdict), 0),
        Entry::Ended { change, kept } => block(3, *change, kept.0.to_be_bytes(), 0),
    }
}

fn block(kind: u8, change: ChangeNo, rest: [u8; 4], seconds: u32) -> [u8; 16]
    ensures { result ≡ (kind ∷ to_be_bytes w32 change ++ rest ++ 2 ∷ to_be_bytes w32 seconds ++ 0 ∷ []) ++ 0 ∷ [] }
{
    let [c3, c2, c1, c0] = change.get().to_be_bytes();
    let [r0, r1, r2, r3] = rest;
    let [s3, s2, s1, s0] = seconds.to_be_bytes();
    [
        kind, c3, c2, c1, c0, r0, r1, r2, r3, 2, s3, s2, s1, s0, 0, 0,
    ]
}

fn seconds_of(timeout: &Option<u32>) -> u32
    ensures { result ≡ seconds_of timeout.now }
{
    timeout.unwrap_or(0)
}

fn verdict_bytes(verdict: &Verdict) -> [u8; 4]
    ensures { result ≡ verdict_bytes verdict.now }
{
    match verdict {
        Verdict::Commit => [1, 0, 0, 0],
        Verdict::Abort(cause) => match cause {
            AbortCause::Refused { device, tag } => [2, device.get(), tag.number(), 0],
            AbortCause::Broken { device } => [3, device.get(), 0, 0],
            AbortCause::Forgotten => [4, 0, 0, 0],
            AbortCause::Lapsed { device } => [5, device.get(), 0, 0],
        },
    }
}

// The entry that the 15 bytes after a gate stand for.
pub(crate) fn entry_of(bytes: &[u8]) -> Option<Entry>
    requires { length bytes.now ≡ 15 }
    ensures { result ≡ entry_of bytes.now }
{
    let Some(change) = ChangeNo::new(number_at(bytes, 1)) else {
        return None;
    };
    let number = number_at(bytes, 5);
    match bytes[0] {
        1 => started_of(change, number, &bytes[9..]),
        2 => decided_of(change, &bytes[5..]),
        3 => ended_of(change, number, &bytes[9..]),
        _ => None,
    }
}

// A change set that starts, with these devices.
fn started_of(change: ChangeNo, devices: u32, last: &[u8]) -> Option<Entry>
    requires { length last.now ≡ 6 }
    ensures { result ≡ started_of change devices last.now }
{
    if devices == 0 {
        return None;
    }
    match timeout_of(last) {
        Some(timeout) => Some(Entry::Started {
            change,
            devices: DeviceMask(devices),
            timeout,
        }),
        None => None,
    }
}

// The timeout that the last six bytes of its record stand for: none in version 1.
fn timeout_of(last: &[u8]) -> Option<Option<u32>>
    requires { length last.now ≡ 6 }
    ensures { result ≡ timeout_of last.now }
{
    let seconds = number_at(last, 1);
    match last[0] {
        0 if are_zeros(&last[1..]) => Some(None),
        2 if seconds != 0 && last[5] == 0 => Some(Some(seconds)),
        _ => None,
    }
}

// A change set that is decided, by the last ten bytes of its record.
fn decided_of(change: ChangeNo, rest: &[u8]) -> Option<Entry>
    requires { length rest.now ≡ 10 }
    ensures { result ≡ decided_of change rest.now }
{
    if !names_version(&rest[4..]) {
        return None;
    }
    match verdict_of(rest[4], rest[0], rest[1], rest[2], rest[3]) {
        Some(verdict) => Some(Entry::Decided { change, verdict }),
        None => None,
    }
}

// A change set that is ended, and the devices that kept it.
fn ended_of(change: ChangeNo, kept: u32, last: &[u8]) -> Option<Entry>
    requires { length last.now ≡ 6 }
    ensures { result ≡ ended_of change kept last.now }
{
    if !names_version(last) {
        return None;
    }
    Some(Entry::Ended {
        change,
        kept: DeviceMask(kept),
    })
}

// Whether the last six bytes of a record name its version, and are else zeros.
fn names_version(last: &[u8]) -> bool
    requires { length last.now ≡ 6 }
    ensures { result ≡ names_version last.now }
{
    (last[0] == 0 || last[0] == 2) && are_zeros(&last[1..])
}

fn are_zeros(bytes: &[u8]) -> bool
    ensures { result ≡ list_all (nat_eq 0) bytes.now }
{
    bytes.iter().all(|byte| 0 == *byte)
}

// The number that four bytes spell.
fn number_at(bytes: &[u8], place: usize) -> u32
    requires { place + 4 ≤ length bytes.now }
    ensures { result ≡ number_at bytes.now place }
{
    u32::from_be_bytes([
        bytes[place],
        bytes[place + 1],
        bytes[place + 2],
        bytes[place + 3],
    ])
}

// The verdict that four bytes stand for in a record of a version.
fn verdict_of(version: u8, kind: u8, device: u8, tag: u8, last: u8) -> Option<Verdict>
    ensures { result ≡ verdict_of version kind device tag last }
{
    match (kind, device, tag, last) {
        (1, 0, 0, 0) => Some(Verdict::Commit),
        (2, _, _, 0) => refused_of(device, tag),
        (3, _, 0, 0) => match DeviceNo::new(device) {
            Some(device) => Some(Verdict::Abort(AbortCause::Broken { device })),
            None => None,
        },
        (4, 0, 0, 0) => Some(Verdict::Abort(AbortCause::Forgotten)),
        (5, _, 0, 0) if version == 2 => match DeviceNo::new(device) {
            Some(device) => Some(Verdict::Abort(AbortCause::Lapsed { device })),
            None => None,
        },
        _ => None,
    }
}

// The abort after a refusal, where there are such a device and a tag of such a number in a record.
fn refused_of(device: u8, tag: u8) -> Option<Verdict>
    ensures { result ≡ refused_of device tag }
{
    if tag > 8 {
        return None;
    }
    match (DeviceNo::new(device), Tag::from_number(tag)) {
        (Some(device), Some(tag)) => Some(Verdict::Abort(AbortCause::Refused { device, tag })),
        _ => None,
    }
}
