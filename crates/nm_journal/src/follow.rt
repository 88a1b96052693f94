//! What may follow: each change set is started, decided and ended once, in this order.
ghost use Rattle.std.specs.Prelude.{◌≡◌, ◌&&◌, ◌||◌, ◌==◌, not};
ghost use Rattle.std.specs.List.{list_any};
ghost use Rattle.nm_journal.specs.Record.{is_change, is_device};
ghost use Rattle.nm_journal.specs.Entries.{may_follow, has_record, comes_next, starts, decides, aborts, ends, has_named, is_within, starts_with, starts_over, verdict_has_record};

use nm_base::{ChangeNo, DeviceMask, DeviceNo};
use nm_proto::{AbortCause, Entry, Verdict};

/// Whether an entry has a record and may come next after these. It takes time as there are entries.
pub fn may_follow(before: &[Entry], entry: &Entry) -> bool
    ensures { result ≡ may_follow before.now entry.now }
{
    has_record(entry) && comes_next(before, entry)
}

// Whether an entry has a record.
fn has_record(entry: &Entry) -> bool
    ensures { result ≡ has_record entry.now }
{
    match entry {
        Entry::Started {
            change,
            devices,
            ..
        } => is_change(*change) && devices.0 != 0,
        Entry::Decided { change, verdict } => is_change(*change) && verdict_has_record(verdict),
        Entry::Ended { change, .. } => is_change(*change),
    }
}

fn comes_next(before: &[Entry], entry: &Entry) -> bool
    ensures { result ≡ comes_next before.now entry.now }
{
    match entry {
        Entry::Started { change, .. } => !is_started(before, *change),
        Entry::Decided { change, verdict } => may_decide(before, *change, verdict),
        Entry::Ended { change, kept } => may_end(before, *change, *kept),
    }
}

fn may_decide(before: &[Entry], change: ChangeNo, verdict: &Verdict) -> bool
    ensures { result ≡ (list_any (starts_with change verdict.now) before.now && not (list_any (decides change) before.now)) }
{
    is_started_with(before, change, verdict) && !is_decided(before, change)
}

fn may_end(before: &[Entry], change: ChangeNo, kept: DeviceMask) -> bool
    ensures { result ≡ (list_any (starts_over change kept.0) before.now && list_any (decides change) before.now
        && not (list_any (ends change) before.now) && (kept.0 == 0 || not (list_any (aborts change) before.now))) }
{
    is_started_over(before, change, kept)
        && is_decided(before, change)
        && !is_ended(before, change)
        && (kept.0 == 0 || !is_aborted(before, change))
}

fn is_started(before: &[Entry], change: ChangeNo) -> bool
    ensures { result ≡ list_any (starts change) before.now }
{
    before.iter().any(|earlier| starts(change, earlier))
}

fn is_started_with(before: &[Entry], change: ChangeNo, verdict: &Verdict) -> bool
    ensures { result ≡ list_any (starts_with change verdict.now) before.now }
{
    before
        .iter()
        .any(|earlier| starts_with(change, verdict, earlier))
}

fn is_started_over(before: &[Entry], change: ChangeNo, kept: DeviceMask) -> bool
    ensures { result ≡ list_any (starts_over change kept.0) before.now }
{
    before
        .iter()
        .any(|earlier| starts_over(change, kept, earlier))
}

fn is_decided(before: &[Entry], change: ChangeNo) -> bool
    ensures { result ≡ list_any (decides change) before.now }
{
    before.iter().any(|earlier| decides(change, earlier))
}

fn is_aborted(before: &[Entry], change: ChangeNo) -> bool
    ensures { result ≡ list_any (aborts change) before.now }
{
    before.iter().any(|earlier| aborts(change, earlier))
}

fn is_ended(before: &[Entry], change: ChangeNo) -> bool
    ensures { result ≡ list_any (ends change) before.now }
{
    before.iter().any(|earlier| ends(change, earlier))
}

/// Whether an entry starts the change set.
pub fn starts(change: ChangeNo, entry: &Entry) -> bool
    ensures { result ≡ starts change entry.now }
{
    match entry {
        Entry::Started { change: other, .. } => change.get() == other.get(),
        _ => false,
    }
}

fn starts_with(change: ChangeNo, verdict: &Verdict, entry: &Entry) -> bool
    ensures { result ≡ starts_with change verdict.now entry.now }
{
    match entry {
        Entry::Started {
            change: other,
            devices,
            ..
        } => change.get() == other.get() && has_named(*devices, verdict),
        _ => false,
    }
}

fn starts_over(change: ChangeNo, kept: DeviceMask, entry: &Entry) -> bool
    ensures { result ≡ starts_over change kept.0 entry.now }
{
    match entry {
        Entry::Started {
            change: other,
            devices,
            ..
        } => change.get() == other.get() && is_within(kept, *devices),
        _ => false,
    }
}

/// Whether an entry decides the change set.
pub fn decides(change: ChangeNo, entry: &Entry) -> bool
    ensures { result ≡ decides change entry.now }
{
    match entry {
        Entry::Decided { change: other, .. } => change.get() == other.get(),
        _ => false,
    }
}

fn aborts(change: ChangeNo, entry: &Entry) -> bool
    ensures { result ≡ aborts change entry.now }
{
    match entry {
        Entry::Decided {
            change: other,
            verdict: Verdict::Abort(_),
        } => change.get() == other.get(),
        _ => false,
    }
}

/// Whether an entry ends the change set.
pub fn ends(change: ChangeNo, entry: &Entry) -> bool
    ensures { result ≡ ends change entry.now }
{
    match entry {
        Entry::Ended { change: other, .. } => change.get() == other.get(),
        _ => false,
    }
}

fn has_named(devices: DeviceMask, verdict: &Verdict) -> bool
    ensures { result ≡ has_named devices.0 verdict.now }
{
    match verdict {
        Verdict::Commit => true,
        Verdict::Abort(cause) => match cause {
            AbortCause::Refused { device, .. } => devices.contains(*device),
            AbortCause::Broken { device } => devices.contains(*device),
            AbortCause::Forgotten => true,
            AbortCause::Lapsed { device } => devices.contains(*device),
        },
    }
}

fn verdict_has_record(verdict: &Verdict) -> bool
    ensures { result ≡ verdict_has_record verdict.now }
{
    match verdict {
        Verdict::Commit => true,
        Verdict::Abort(cause) => match cause {
            AbortCause::Refused { device, tag } => is_device(*device) && tag.number() < 9,
            AbortCause::Broken { device } => is_device(*device),
            AbortCause::Forgotten => true,
            AbortCause::Lapsed { device } => is_device(*device),
        },
    }
}

fn is_within(some: DeviceMask, devices: DeviceMask) -> bool
    ensures { result ≡ is_within some.0 devices.0 }
{
    some.0 & devices.0 == some.0
}

fn is_change(change: ChangeNo) -> bool
    ensures { result ≡ is_change change }
{
    0 < change.get() && change.get() < 65
}

fn is_device(device: DeviceNo) -> bool
    ensures { result ≡ is_device device }
{
    0 < device.get() && device.get() < 33
}
