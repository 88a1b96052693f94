//! Disks in memory and on files.

use nm_base::{Failed, Label};
use nm_disk::{AnyDisk, Disk, FileDisk, MemoryDisk};
use std::alloc::Global;
use std::fs;
use std::test::Fail;

// Writes a piece behind the bytes, and answers how many there are then.
fn add<D: Disk + Drop>(mut disk: D, piece: &[u8]) -> Result<u64, Failed> {
    let end = disk.len()?;
    disk.write_at(end, piece)?;
    disk.sync()?;
    disk.len()
}

// Cuts off all bytes.
fn empty<D: Disk + Drop>(mut disk: D) -> Result<u64, Failed> {
    disk.cut(0)?;
    disk.sync()?;
    disk.len()
}

fn are_added(disk: &mut MemoryDisk) -> bool {
    add(&mut *disk, b"hello") == Ok(5)
        && add(&mut *disk, b", all") == Ok(10)
        && disk.bytes() == b"hello, all".as_slice()
}

fn is_end_read(disk: &mut MemoryDisk) -> bool {
    let mut piece = [0; 3];
    if disk.bytes().len() < 10 {
        return false;
    }
    disk.read(7, &mut piece) == Ok(3) && piece == *b"all"
}

fn is_written_at(disk: &mut MemoryDisk, at: usize, piece: &[u8]) -> bool {
    if disk.bytes().len() < at {
        return false;
    }
    disk.write_at(at as u64, piece) == Ok(())
}

fn are_written(disk: &mut MemoryDisk) -> bool {
    is_written_at(disk, 1, b"a")
        && is_written_at(disk, 9, b"lo")
        && disk.bytes() == b"hallo, allo".as_slice()
}

fn are_cut(disk: &mut MemoryDisk) -> bool {
    if disk.bytes().len() < 5 {
        return false;
    }
    disk.cut(5) == Ok(()) && disk.bytes() == b"hallo".as_slice() && empty(&mut *disk) == Ok(0)
}

#[test]
fn memory_disks_hold_bytes(rt: HostRuntime) -> Result<(), Fail> {
    let mut disk = MemoryDisk::with_limit(rt.alloc(), 40, 20)?;
    assert!(rt; are_added(&mut disk) && is_end_read(&mut disk));
    assert!(rt; are_written(&mut disk) && are_cut(&mut disk));
    Ok(())
}

// A limit of bytes, one of calls, how many bytes are written, and how many there are then, None for a failure: as many bytes as the
// limit, and one more; no byte; as many bytes as a call notes, and one more; as many calls as are noted, and one more.
static LIMITS: &[(u64, u32, usize, Option<u64>)] = &[
    (3, 4, 3, Some(3)),
    (3, 4, 4, None),
    (0, 4, 0, Some(0)),
    (99, 4, 32, Some(32)),
    (99, 4, 33, None),
    (3, 4, 1, Some(1)),
    (3, 3, 1, None),
];

fn is_kept(
    alloc: Global,
    limits: (u64, u32),
    count: usize,
    want: Option<u64>,
) -> Result<bool, Fail> {
    let bytes = [7; 40];
    let mut disk = MemoryDisk::with_limit(alloc, limits.0, limits.1)?;
    Ok(add(&mut disk, &bytes[..count.min(40)]).ok() == want)
}

#[test]
fn limits_are_kept(rt: HostRuntime) -> Result<(), Fail> {
    for (limit, calls, count, want) in LIMITS {
        assert!(rt;
            is_kept(rt.alloc(), (*limit, *calls), *count, *want)?,
            "{limit} {calls} {count}"
        );
    }
    Ok(())
}

// A new file that is written.
fn is_begun(files: HostRuntime, path: Label) -> bool {
    let mut disk = FileDisk::at(files, path);
    add(&mut disk, b"hello") == Ok(5) && disk.write_at(1, b"a") == Ok(())
}

fn is_part_read(disk: &mut FileDisk<HostRuntime>) -> bool {
    let mut piece = [0; 9];
    disk.read(2, &mut piece) == Ok(6) && piece == *b"llo, a\0\0\0"
}

// The same file, opened again.
fn is_continued(files: HostRuntime, path: Label) -> bool {
    let mut disk = FileDisk::at(files, path);
    add(&mut disk, b", all") == Ok(10)
        && disk.cut(8) == Ok(())
        && is_part_read(&mut disk)
        && empty(&mut disk) == Ok(0)
}

const NAME: &str = "nm_disk_file.tmp";

fn has_bytes(rt: HostRuntime, want: &[u8]) -> Result<bool, Fail> {
    Ok(fs::read(&rt, NAME)?.as_slice() == want)
}

// A real file: written, closed, opened again, and its bytes compared.
#[test]
fn files_keep_bytes(rt: HostRuntime) -> Result<(), Fail> {
    let _ = fs::remove_file(&rt, NAME);
    assert!(rt; is_missing(rt, Label::new(rt.alloc(), NAME)?) && fs::read(&rt, NAME).is_err());
    assert!(rt; is_begun(rt, Label::new(rt.alloc(), NAME)?) && has_bytes(rt, b"hallo")?);
    assert!(rt; is_only_read(rt, Label::new(rt.alloc(), NAME)?) && has_bytes(rt, b"hallo")?);
    assert!(rt; is_continued(rt, Label::new(rt.alloc(), NAME)?) && has_bytes(rt, b"")?);
    Ok(fs::remove_file(&rt, NAME)?)
}

// What is read alone is as it was, and nothing is made of what is missing.
fn is_only_read(files: HostRuntime, path: Label) -> bool {
    let mut disk = FileDisk::read_only(files, path);
    let mut piece = [0; 2];
    disk.len() == Ok(5)
        && disk.read(1, &mut piece) == Ok(2)
        && piece == *b"al"
        && disk.write_at(0, b"b") == Err(Failed)
}

fn is_missing(files: HostRuntime, path: Label) -> bool {
    let mut disk = FileDisk::read_only(files, path);
    disk.len() == Err(Failed) && disk.write_at(0, b"b") == Err(Failed)
}

// A disk may be sent to another thread.
fn sent<D: Disk + Drop + Send>(disk: D) -> D {
    disk
}

// A folder that isn't there.
fn is_failing(files: HostRuntime, path: Label) -> bool {
    let mut disk = sent(AnyDisk::File(FileDisk::at(files, path)));
    disk.len() == Err(Failed)
}

#[test]
fn files_fail(rt: HostRuntime) -> Result<(), Fail> {
    assert!(rt; is_failing(rt, Label::new(rt.alloc(), "no_folder/file")?));
    let mut memory: AnyDisk<HostRuntime> = AnyDisk::Memory(MemoryDisk::with_limit(
        rt.alloc(),
        8,
        8,
    )?);
    assert!(rt; add(&mut memory, b"ab") == Ok(2));
    Ok(())
}
