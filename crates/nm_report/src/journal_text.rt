//! The text of a journal.

ghost use Rattle.std.specs.Prelude.{◌≡◌, ◌≤◌, ◌++◌, decimal, IfOk, OnOk};
ghost use Rattle.std.specs.List.{flat_map};
ghost use Rattle.nm_report.specs.Journal.{entry_line, entry_text, journal_text, kept_text, line_if_started, member_text, members_text, up_to};

use crate::change_text::write_change;
use crate::text::put;
use crate::trace::{write_timeout, write_verdict};
use nm_base::{ChangeNo, DeviceMask, DeviceNo, NoMemory, write_decimal};
use nm_proto::{Entry, Verdict};
use nm_recovery::is_started;
use std::alloc::Global;

/// The text of the entries of a journal: a line for each, and then the state of each change set that was submitted.
#[tactic(auto, unfolding(crate::specs::Journal::journal_text))]
pub fn write_journal(alloc: Global, entries: &[Entry]) -> Result<Vec<u8>, NoMemory>
    ensures { IfOk result (λ text. text.items ≡ journal_text entries.now) }
{
    let mut text = Vec::new(alloc);
    put(&mut text, "netm journal 1\n")?;
    write_entries(&mut text, entries)?;
    write_changes(&mut text, entries)?;
    Ok(text)
}

fn write_entries(out: &mut Vec<u8>, entries: &[Entry]) -> Result<(), NoMemory>
    ensures { OnOk result (out.new.items ≡ out.old.items ++ flat_map entry_line entries.now) }
{
    for entry in entries {
        write_entry(out, entry)?;
    }
    Ok(())
}

fn write_entry(out: &mut Vec<u8>, entry: &Entry) -> Result<(), NoMemory>
    ensures { OnOk result (out.new.items ≡ out.old.items ++ entry_line entry.now) }
{
    write_entry_text(out, entry)?;
    put(out, "\n")
}

fn write_entry_text(out: &mut Vec<u8>, entry: &Entry) -> Result<(), NoMemory>
    ensures { OnOk result (out.new.items ≡ out.old.items ++ entry_text entry.now) }
{
    match entry {
        Entry::Started {
            change,
            devices,
            timeout,
        } => write_started(out, *change, *devices, *timeout),
        Entry::Decided { change, verdict } => write_decision(out, *change, verdict),
        Entry::Ended { change, kept } => write_ended(out, *change, *kept),
    }
}

fn write_started(
    out: &mut Vec<u8>,
    change: ChangeNo,
    devices: DeviceMask,
    timeout: Option<u32>,
) -> Result<(), NoMemory>
    ensures { OnOk result (out.new.items ≡ out.old.items ++ entry_text (Entry.Started change devices timeout)) }
{
    write_change_number(out, "start ", change)?;
    put(out, " devices")?;
    write_members(out, devices)?;
    write_timeout(out, timeout)
}

fn write_decision(out: &mut Vec<u8>, change: ChangeNo, verdict: &Verdict) -> Result<(), NoMemory>
    ensures { OnOk result (out.new.items ≡ out.old.items ++ entry_text (Entry.Decided change verdict.now)) }
{
    write_change_number(out, "decide ", change)?;
    put(out, " ")?;
    write_verdict(out, verdict)
}

fn write_ended(out: &mut Vec<u8>, change: ChangeNo, kept: DeviceMask) -> Result<(), NoMemory>
    ensures { OnOk result (out.new.items ≡ out.old.items ++ entry_text (Entry.Ended change kept)) }
{
    write_change_number(out, "end ", change)?;
    put(out, " kept")?;
    write_kept(out, kept)
}

fn write_change_number(out: &mut Vec<u8>, word: &str, change: ChangeNo) -> Result<(), NoMemory>
    ensures { OnOk result (out.new.items ≡ out.old.items ++ word.now ++ decimal change) }
{
    put(out, word)?;
    write_decimal(u64::from(change.get()), out)?;
    Ok(())
}

fn write_kept(out: &mut Vec<u8>, kept: DeviceMask) -> Result<(), NoMemory>
    ensures { OnOk result (out.new.items ≡ out.old.items ++ kept_text kept.0) }
{
    if kept.0 == 0 {
        put(out, " none")
    } else {
        write_members(out, kept)
    }
}

// The devices of a set, ascending.
fn write_members(out: &mut Vec<u8>, devices: DeviceMask) -> Result<(), NoMemory>
    ensures { OnOk result (out.new.items ≡ out.old.items ++ members_text devices.0) }
{
    for number in 1..DeviceNo::LIMIT + 1 {
        write_member(out, devices, number)?;
    }
    Ok(())
}

fn write_member(out: &mut Vec<u8>, devices: DeviceMask, number: u8) -> Result<(), NoMemory>
    requires low { 1 ≤ number }
    requires high { number ≤ 32 }
    ensures { OnOk result (out.new.items ≡ out.old.items ++ member_text devices.0 number) }
{
    match DeviceNo::new(number) {
        Some(device) if devices.contains(device) => {
            put(out, " ")?;
            write_decimal(u64::from(number), out)?;
            Ok(())
        }
        _ => Ok(()),
    }
}

// The states of the change sets that were submitted.
fn write_changes(out: &mut Vec<u8>, entries: &[Entry]) -> Result<(), NoMemory>
    ensures { OnOk result (out.new.items ≡ out.old.items ++ up_to (line_if_started entries.now) 64) }
{
    for number in 1..ChangeNo::LIMIT + 1 {
        write_if_started(out, entries, number)?;
    }
    Ok(())
}

fn write_if_started(out: &mut Vec<u8>, entries: &[Entry], number: u32) -> Result<(), NoMemory>
    requires low { 1 ≤ number }
    requires high { number ≤ 64 }
    ensures { OnOk result (out.new.items ≡ out.old.items ++ line_if_started entries.now number) }
{
    match ChangeNo::new(number) {
        Some(change) if is_started(entries, change) => write_change(out, change, entries),
        _ => Ok(()),
    }
}
