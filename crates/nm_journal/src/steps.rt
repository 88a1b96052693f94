//! What the calls of a journal do to its disk, step by step, and what a crash leaves at each moment.
ghost use Rattle.std.specs.Prelude.{◌≡◌, ◌≢◌, ◌⊎◌, ◌≤◌, ◌<◌, ◌+◌, ◌*◌, ◌^◌, ◌++◌, [], ◌∷◌, true, List, ℕ, Some, min, length, take, OnOk, OnErr, IfOk, IfSome, IsSome, IfErr, Ok, Err, vec_capacity};
ghost use Rattle.nm_base.specs.Count.{Rose};
ghost use Rattle.nm_disk.specs.Image.{contents_with_piece, LeavesOnly, IsPerhapsCut, NoNewImage, AnyMoment};
ghost use Rattle.nm_disk.specs.Keeps.{KeepsDisk};
ghost use Rattle.nm_journal.specs.Record.{open_record};
ghost use Rattle.nm_journal.specs.Entries.{entries_of, MayAppend, IsInOrder};
ghost use Rattle.nm_journal.specs.Fits.{EndsAtGate, HasLength, IsDamagedAt, OfImage, closed_behind, ReadsAs, ReadsWithOrWithout, MayTear, IsRead, WasThereOrReadsAs};
ghost use Rattle.nm_journal.specs.declared.fault.JournalFault.TheVariants.{Damaged, DiskFault, NotEmpty};

use crate::fault::JournalFault;
use crate::reading::read_into;
use crate::record::block_of;
use nm_base::Failed;
use nm_disk::Disk;
use nm_proto::Entry;

// Writes a piece, and brings it onto the disk.
fn write_and_sync<D: Disk>(disk: &mut D, at: u64, piece: &[u8]) -> Result<(), Failed>
    requires { IfSome (D.state disk.old).contents (λ bytes. at ≤ length bytes) }
    ensures written { OnOk result ((D.state disk.new).contents ≡ contents_with_piece (D.state disk.old).contents at piece.now) }
    ensures durable { OnOk result (IfSome (D.state disk.new).contents (λ bytes. LeavesOnly bytes (D.state disk.new))) }
    ensures any_moment { IsSome (D.state disk.old).contents
        → AnyMoment (D.state disk.old) (D.state disk.new) (MayTear (D.state disk.old) at (length piece.now)) }
    ensures keeps { KeepsDisk (D.state disk.old) (D.state disk.new) }
    ensures failed { OnErr result (Rose (D.state disk.old).faults (D.state disk.new).faults) }
{
    disk.write_at(at, piece)?;
    disk.sync()
}

// Appends the record of an entry behind the records of the others: first the record and a closed gate
// behind it, then the open gate before it.
pub(crate) fn write_record<D: Disk>(
    disk: &mut D,
    entries: &[Entry],
    entry: &Entry,
) -> Result<(), Failed>
    requires may { MayAppend entries.now entry.now }
    requires few { length entries.now < 192 }
    requires fits { IsSome (D.state disk.old).contents → (image : List ℕ) → (D.state disk.old).crash_images image → EndsAtGate entries.now image }
    ensures added { OnOk result (IsSome (D.state disk.old).contents → (image : List ℕ) → (D.state disk.new).crash_images image
        → EndsAtGate (entries.now ++ entry.now ∷ []) image) }
    ensures written { OnOk result ((D.state disk.new).contents
        ≡ contents_with_piece (D.state disk.old).contents (16 * length entries.now) (open_record entry.now)) }
    ensures length { OnOk result (HasLength (D.state disk.old).contents entries.now → HasLength (D.state disk.new).contents (entries.now ++ entry.now ∷ [])) }
    ensures any_moment { IsSome (D.state disk.old).contents → AnyMoment (D.state disk.old) (D.state disk.new) (ReadsWithOrWithout entries.now entry.now) }
    ensures keeps { KeepsDisk (D.state disk.old) (D.state disk.new) }
    ensures failed { OnErr result (Rose (D.state disk.old).faults (D.state disk.new).faults) }
{
    let gate = 16 * entries.len() as u64;
    // The record has to be on the disk before its gate is opened.
    write_and_sync(disk, gate + 1, &block_of(entry))?;
    write_and_sync(disk, gate, &[1])
}

// Reads as many bytes as the piece has, or fewer where there are no more. Answers how many there are, and how many were
// read.
fn read_some<D: Disk>(disk: &mut D, into: &mut [u8]) -> Result<(u64, usize), Failed>
    ensures within { IfOk result (λ sizes. sizes.1 ≤ length into.new) }
    ensures size { IfOk result (λ sizes. IfSome (D.state disk.old).contents (λ bytes. sizes.0 ≡ length bytes)) }
    ensures front { IfOk result (λ sizes. IfSome (D.state disk.old).contents (λ bytes. take sizes.1 into.new ≡ take (length into.old) bytes)) }
    ensures same { (D.state disk.new).contents ≡ (D.state disk.old).contents }
    ensures crash { IsSome (D.state disk.old).contents → NoNewImage (D.state disk.old) (D.state disk.new) }
    ensures any_moment { IsSome (D.state disk.old).contents → AnyMoment (D.state disk.old) (D.state disk.new) (D.state disk.old).crash_images }
    ensures count { (D.state disk.old).faults ≤ (D.state disk.new).faults }
    ensures failed { OnErr result (Rose (D.state disk.old).faults (D.state disk.new).faults) }
{
    let size = disk.len()?;
    let count = size.min(into.len() as u64) as usize;
    let read = disk.read(0, &mut into[..count])?;
    Ok((size, read))
}

// Takes away what is behind the gate at the end of a list.
fn cut_behind<D: Disk>(disk: &mut D, end: u64, size: u64) -> Result<(), Failed>
    requires end { end < 2 ^ 32 }
    requires size { IfSome (D.state disk.old).contents (λ bytes. size ≡ length bytes) }
    ensures done { OnOk result (IfSome (D.state disk.old).contents (λ bytes. (D.state disk.new).contents ≡ Some (take (end + 1) bytes))) }
    ensures durable { OnOk result ((bytes : List ℕ) → (D.state disk.old).contents ≡ Some bytes → LeavesOnly bytes (D.state disk.old)
        → LeavesOnly (take (end + 1) bytes) (D.state disk.new)) }
    ensures any_moment { (bytes : List ℕ) → (D.state disk.old).contents ≡ Some bytes → LeavesOnly bytes (D.state disk.old)
        → AnyMoment (D.state disk.old) (D.state disk.new) (IsPerhapsCut (end + 1) bytes) }
    ensures keeps { KeepsDisk (D.state disk.old) (D.state disk.new) }
    ensures failed { OnErr result (Rose (D.state disk.old).faults (D.state disk.new).faults) }
{
    if size > end + 1 {
        disk.cut(end + 1)?;
    }
    Ok(())
}

// Reads the entries of a disk into an empty list, and answers how many bytes the disk holds. The disk stays as it is.
pub(crate) fn look_at<D: Disk>(
    disk: &mut D,
    bytes: &mut [u8],
    entries: &mut Vec<Entry>,
) -> Result<u64, JournalFault>
    requires piece { length bytes.old ≡ 3089 }
    requires empty { entries.old.items ≡ [] }
    requires room { 192 ≤ vec_capacity entries.old }
    ensures size { IfOk result (λ size. IfSome (D.state disk.old).contents (λ told. size ≡ length told)) }
    ensures read { OnOk result (IfSome (D.state disk.old).contents (ReadsAs entries.new.items)) }
    ensures in_order { IsInOrder entries.new.items }
    ensures room { 192 ≤ vec_capacity entries.new }
    ensures read_some { OnOk result (OfImage (D.state disk.old).contents (ReadsAs entries.new.items)) }
    ensures damaged { (offset : ℕ) → result ≡ Err (Damaged offset) → IfSome (D.state disk.old).contents (λ told. entries_of told ≡ Err offset) }
    ensures damaged_some { (offset : ℕ) → result ≡ Err (Damaged offset) → OfImage (D.state disk.old).contents (IsDamagedAt offset) }
    ensures disk_fault { result ≡ Err DiskFault → Rose (D.state disk.old).faults (D.state disk.new).faults }
    ensures no_other { IfErr result (λ fault. (fault ≡ DiskFault) ⊎ ((offset : ℕ) × (fault ≡ Damaged offset))) }
    ensures same { (D.state disk.new).contents ≡ (D.state disk.old).contents }
    ensures crash { IsSome (D.state disk.old).contents → NoNewImage (D.state disk.old) (D.state disk.new) }
    ensures any_moment { IsSome (D.state disk.old).contents → AnyMoment (D.state disk.old) (D.state disk.new) (D.state disk.old).crash_images }
    ensures count { (D.state disk.old).faults ≤ (D.state disk.new).faults }
{
    let (size, count) = match read_some(disk, bytes) {
        Ok(sizes) => sizes,
        Err(_) => return Err(JournalFault::DiskFault),
    };
    match read_into(&bytes[..count], entries) {
        Ok(()) => Ok(size),
        Err(offset) => Err(JournalFault::Damaged { offset }),
    }
}

// Brings the bytes onto the disk, and reads its entries into an empty list. Answers how many bytes the disk holds.
pub(crate) fn read_back<D: Disk>(
    disk: &mut D,
    bytes: &mut [u8],
    entries: &mut Vec<Entry>,
) -> Result<u64, JournalFault>
    requires piece { length bytes.old ≡ 3089 }
    requires empty { entries.old.items ≡ [] }
    requires room { 192 ≤ vec_capacity entries.old }
    ensures read { IfOk result (λ size. IfSome (D.state disk.old).contents (IsRead entries.new.items size (D.state disk.new))) }
    ensures in_order { IsInOrder entries.new.items }
    ensures room { 192 ≤ vec_capacity entries.new }
    ensures damaged { (offset : ℕ) → result ≡ Err (Damaged offset) → IfSome (D.state disk.old).contents (λ told. entries_of told ≡ Err offset) }
    ensures disk_fault { result ≡ Err DiskFault → Rose (D.state disk.old).faults (D.state disk.new).faults }
    ensures no_other { IfErr result (λ fault. (fault ≡ DiskFault) ⊎ ((offset : ℕ) × (fault ≡ Damaged offset))) }
    ensures same { (D.state disk.new).contents ≡ (D.state disk.old).contents }
    ensures any_moment { IsSome (D.state disk.old).contents → AnyMoment (D.state disk.old) (D.state disk.new) (D.state disk.old).crash_images }
    ensures count { (D.state disk.old).faults ≤ (D.state disk.new).faults }
{
    if disk.sync().is_err() {
        return Err(JournalFault::DiskFault);
    }
    look_at(disk, bytes, entries)
}

// Closes the list behind its last record: takes away what stands there, and writes a closed gate.
//
// The byte behind the last record is never cut away, since that record is read only with it.
pub(crate) fn close<D: Disk>(disk: &mut D, entries: &[Entry], size: u64) -> Result<(), Failed>
    requires few { length entries.now ≤ 192 }
    requires read { IfSome (D.state disk.old).contents (IsRead entries.now size (D.state disk.old)) }
    ensures closed { OnOk result (IsSome (D.state disk.old).contents → (image : List ℕ) → (D.state disk.new).crash_images image
        → EndsAtGate entries.now image) }
    ensures written { OnOk result (IfSome (D.state disk.old).contents (λ bytes. (D.state disk.new).contents ≡ Some (closed_behind entries.now bytes))) }
    ensures length { OnOk result (HasLength (D.state disk.new).contents entries.now) }
    ensures any_moment { IsSome (D.state disk.old).contents → AnyMoment (D.state disk.old) (D.state disk.new) (ReadsAs entries.now) }
    ensures keeps { KeepsDisk (D.state disk.old) (D.state disk.new) }
    ensures failed { OnErr result (Rose (D.state disk.old).faults (D.state disk.new).faults) }
{
    let end = 16 * entries.len() as u64;
    cut_behind(disk, end, size)?;
    write_and_sync(disk, end, &[0])
}

// Takes all from a disk.
fn take_all<D: Disk>(disk: &mut D) -> Result<(), Failed>
    ensures done { OnOk result (IsSome (D.state disk.old).contents → (D.state disk.new).contents ≡ Some []) }
    ensures durable { OnOk result (IsSome (D.state disk.old).contents → LeavesOnly [] (D.state disk.new)) }
    ensures any_moment { IsSome (D.state disk.old).contents → AnyMoment (D.state disk.old) (D.state disk.new) (WasThereOrReadsAs (D.state disk.old) []) }
    ensures keeps { KeepsDisk (D.state disk.old) (D.state disk.new) }
    ensures failed { OnErr result (Rose (D.state disk.old).faults (D.state disk.new).faults) }
{
    disk.cut(0)
}

// Writes the closed gate of an empty list onto a disk from which all is taken.
pub(crate) fn begin_anew<D: Disk>(disk: &mut D) -> Result<(), Failed>
    ensures closed { OnOk result (IsSome (D.state disk.old).contents → (image : List ℕ) → (D.state disk.new).crash_images image → EndsAtGate [] image) }
    ensures written { OnOk result (IsSome (D.state disk.old).contents → (D.state disk.new).contents ≡ Some (0 ∷ [])) }
    ensures length { OnOk result (HasLength (D.state disk.new).contents []) }
    ensures any_moment { IsSome (D.state disk.old).contents → AnyMoment (D.state disk.old) (D.state disk.new) (WasThereOrReadsAs (D.state disk.old) []) }
    ensures keeps { KeepsDisk (D.state disk.old) (D.state disk.new) }
    ensures failed { OnErr result (Rose (D.state disk.old).faults (D.state disk.new).faults) }
{
    take_all(disk)?;
    write_and_sync(disk, 0, &[0])
}

// Writes the closed gate of an empty list onto an empty disk.
pub(crate) fn begin<D: Disk>(disk: &mut D) -> Result<(), JournalFault>
    ensures empty { OnOk result (IfSome (D.state disk.old).contents (λ bytes. bytes ≡ [])) }
    ensures closed { OnOk result (IsSome (D.state disk.old).contents → (image : List ℕ) → (D.state disk.new).crash_images image → EndsAtGate [] image) }
    ensures written { OnOk result (IsSome (D.state disk.old).contents → (D.state disk.new).contents ≡ Some (0 ∷ [])) }
    ensures length { OnOk result (HasLength (D.state disk.new).contents []) }
    ensures not_empty { (size : ℕ) → result ≡ Err (NotEmpty size) → (0 < size) × IfSome (D.state disk.old).contents (λ bytes. size ≡ length bytes)
        × ((D.state disk.new).contents ≡ (D.state disk.old).contents) }
    ensures disk_fault { result ≡ Err DiskFault → Rose (D.state disk.old).faults (D.state disk.new).faults }
    ensures no_other { IfErr result (λ fault. (fault ≡ DiskFault) ⊎ ((size : ℕ) × (fault ≡ NotEmpty size))) }
    ensures any_moment_full { IfSome (D.state disk.old).contents (λ bytes. bytes ≢ []
        → AnyMoment (D.state disk.old) (D.state disk.new) (D.state disk.old).crash_images) }
    ensures any_moment_empty { IsSome (D.state disk.old).contents → LeavesOnly [] (D.state disk.old)
        → AnyMoment (D.state disk.old) (D.state disk.new) (ReadsAs []) }
    ensures keeps { KeepsDisk (D.state disk.old) (D.state disk.new) }
{
    match disk.len() {
        Ok(0) => match write_and_sync(disk, 0, &[0]) {
            Ok(()) => Ok(()),
            Err(_) => Err(JournalFault::DiskFault),
        },
        Ok(length) => Err(JournalFault::NotEmpty { length }),
        Err(_) => Err(JournalFault::DiskFault),
    }
}
