//! The bytes of journals on files and on disks in memory.

use nm_base::{ChangeNo, DeviceMask, DeviceNo, Label, NoMemory, Tag};
use nm_disk::{Disk, FileDisk, MemoryDisk};
use nm_journal::{Journal, JournalFault, may_follow};
use nm_proto::{AbortCause, Entry, Verdict};
use std::alloc::Global;
use std::fs;
use std::test::Fail;

// The journal of one change set on devices 1 and 2 that was committed and kept on both, as it is
// written out by hand from the format. Its timeout is 600 seconds, or 2 times 256 and 88.
const WHOLE: [u8; 49] = [
    1, 1, 0, 0, 0, 1, 0, 0, 0, 3, 2, 0, 0, 2, 88, 0, //
    1, 2, 0, 0, 0, 1, 1, 0, 0, 0, 2, 0, 0, 0, 0, 0, //
    1, 3, 0, 0, 0, 1, 0, 0, 0, 3, 2, 0, 0, 0, 0, 0, //
    0,
];

// Appends the three entries of that journal to a fresh one, and stops at the first fault.
#[tactic(auto, unfolding(nm_journal::specs::Entries::is_within))]
fn run<D: Disk>(alloc: Global, disk: &mut D) -> Result<Journal, JournalFault> {
    let Some(change) = ChangeNo::new(1) else {
        return Err(JournalFault::Stopped);
    };
    let devices = DeviceMask(3);
    let timeout = Some(600);
    let mut journal = Journal::fresh(alloc, disk)?;
    journal.append(
        disk,
        Entry::Started {
            change,
            devices,
            timeout,
        },
    )?;
    let verdict = Verdict::Commit;
    journal.append(disk, Entry::Decided { change, verdict })?;
    let kept = devices;
    journal.append(disk, Entry::Ended { change, kept })?;
    Ok(journal)
}

const FILE: &str = "nm_journal_file.tmp";

// Whether the file has these bytes.
fn has_bytes(rt: HostRuntime, want: &[u8]) -> Result<bool, Fail> {
    Ok(fs::read(&rt, FILE)?.as_slice() == want)
}

fn file_of(rt: HostRuntime) -> Result<FileDisk<HostRuntime>, NoMemory> {
    Ok(FileDisk::at(rt, Label::new(rt.alloc(), FILE)?))
}

// Writes the journal to the file.
fn write_file(rt: HostRuntime) -> Result<Journal, Fail> {
    let mut disk = file_of(rt)?;
    Ok(run(rt.alloc(), &mut disk)?)
}

// Whether the file is reopened as these entries.
fn is_reopened(rt: HostRuntime, entries: &[Entry]) -> Result<bool, Fail> {
    let mut disk = file_of(rt)?;
    let (_, again) = Journal::reopen(rt.alloc(), &mut disk)?;
    Ok(again.as_slice() == entries)
}

// Writes the whole journal with more behind its end.
fn write_longer(rt: HostRuntime) -> Result<(), Fail> {
    let mut longer = WHOLE.to_vec(rt.alloc())?;
    longer.extend_from_slice(b"torn")?;
    Ok(fs::write(&rt, FILE, longer.as_slice())?)
}

// A real file: written, closed, opened again with more behind its end, and its bytes compared.
#[test]
fn a_file_holds_a_journal(rt: HostRuntime) -> Result<(), Fail> {
    let _ = fs::remove_file(&rt, FILE);
    let written = write_file(rt)?;
    assert!(rt; has_bytes(rt, &WHOLE)?);
    write_longer(rt)?;
    assert!(rt; is_reopened(rt, written.entries())? && has_bytes(rt, &WHOLE)?);
    Ok(fs::remove_file(&rt, FILE)?)
}

// The same change set where it was started in version 1.
const FIRST: [u8; 17] = [1, 1, 0, 0, 0, 1, 0, 0, 0, 3, 0, 0, 0, 0, 0, 0, 0];

// What is appended to it: device 2 refused it, tag 3.
const REFUSED: [u8; 17] = [1, 2, 0, 0, 0, 1, 2, 2, 3, 0, 2, 0, 0, 0, 0, 0, 0];

// Whether the journal of version 1 is reopened as it is, with the start of change set 1 alone, and goes on in version 2.
fn goes_on(
    alloc: Global,
    disk: &mut MemoryDisk,
    change: ChangeNo,
    device: DeviceNo,
) -> Result<bool, JournalFault> {
    let (mut journal, entries) = Journal::reopen(alloc, disk)?;
    let started = Entry::Started {
        change,
        devices: DeviceMask(3),
        timeout: None,
    };
    if entries.as_slice() != [started].as_slice() || disk.bytes() != FIRST.as_slice() {
        return Ok(false);
    }
    let tag = Tag::LockDenied;
    let verdict = Verdict::Abort(AbortCause::Refused { device, tag });
    let decided = Entry::Decided { change, verdict };
    if !may_follow(journal.entries(), &decided) {
        return Ok(false);
    }
    journal.append(disk, decided)?;
    Ok(is_gone_on(disk.bytes()))
}

fn is_gone_on(bytes: &[u8]) -> bool {
    bytes.starts_with(&FIRST[..16]) && bytes.ends_with(&REFUSED) && bytes.len() == 33
}

#[test]
fn version_1_goes_on_in_version_2(rt: HostRuntime) -> Result<(), Fail> {
    let change = ChangeNo::new(1).ok_or("1")?;
    let device = DeviceNo::new(2).ok_or("2")?;
    let mut disk = MemoryDisk::with_limit(rt.alloc(), 64, 100)?;
    disk.write_at(0, &FIRST)?;
    assert!(rt; goes_on(rt.alloc(), &mut disk, change, device)?);
    Ok(())
}

// Whether the disk fails at the start of change set 1 on devices 1 and 2, which stops the journal.
fn is_stopped(
    alloc: Global,
    disk: &mut MemoryDisk,
    change: ChangeNo,
) -> Result<bool, JournalFault> {
    let devices = DeviceMask(3);
    let timeout = Some(1);
    let mut journal = Journal::fresh(alloc, disk)?;
    let failed = journal.append(
        disk,
        Entry::Started {
            change,
            devices,
            timeout,
        },
    );
    if failed != Err(JournalFault::DiskFault) {
        return Ok(false);
    }
    let is_stopped = journal.is_stopped();
    let again = journal.append(
        disk,
        Entry::Started {
            change,
            devices,
            timeout,
        },
    );
    Ok(is_stopped && again == Err(JournalFault::Stopped))
}

// Whether a journal that is reopened is empty, and takes the entry.
fn is_taken(alloc: Global, disk: &mut MemoryDisk, change: ChangeNo) -> Result<bool, JournalFault> {
    let (mut again, entries) = Journal::reopen(alloc, disk)?;
    if entries.len() != 0 {
        return Ok(false);
    }
    if disk.bytes() != [0].as_slice() {
        return Ok(false);
    }
    let started = Entry::Started {
        change,
        devices: DeviceMask(3),
        timeout: Some(1),
    };
    Ok(again.append(disk, started) == Ok(()))
}

// The fifth call brings the first record onto the disk. The journal is stopped until it is reopened,
// and then it takes the entry.
#[test]
fn a_stopped_journal_is_reopened(rt: HostRuntime) -> Result<(), Fail> {
    let change = ChangeNo::new(1).ok_or("1")?;
    let mut disk = MemoryDisk::with_limit(rt.alloc(), 8192, 100)?;
    disk.plan(&[5])?;
    assert!(rt;
        is_stopped(rt.alloc(), &mut disk, change)? && is_taken(rt.alloc(), &mut disk, change)?
    );
    Ok(())
}
