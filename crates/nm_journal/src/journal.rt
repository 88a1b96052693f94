//! The journal's calls: open, append, and what it holds.
ghost use Rattle.std.specs.Prelude.{◌≡◌, ◌≢◌, ◌⊎◌, ◌↔◌, ◌<◌, ◌≤◌, ◌*◌, ◌++◌, [], ◌∷◌, List, ℕ, Some, None, Ok, Err, length, OnOk, OnErr, IfOk, IfErr, IfSome, IsSome, is_some};
ghost use Rattle.nm_base.specs.Count.{Rose};
ghost use Rattle.nm_disk.specs.Image.{contents_with_piece, LeavesOnly, AnyMoment};
ghost use Rattle.nm_disk.specs.Keeps.{KeepsDisk};
ghost use Rattle.nm_journal.specs.Keeps.{KeepsJournal};
ghost use Rattle.nm_journal.specs.Record.{open_record};
ghost use Rattle.nm_journal.specs.Entries.{entries_of, MayAppend, IsInOrder};
ghost use Rattle.nm_journal.specs.Fits.{Fits, HasLength, IsDamagedAt, OfImage, closed_behind, ReadsAs, ReadsWithOrWithout, WasThereOrReadsAs};
ghost use Rattle.nm_journal.specs.declared.fault.JournalFault.TheVariants.{Damaged, DiskFault, NotEmpty, NoMemory, Stopped};

use crate::fault::JournalFault;
use crate::reading::{MOST_BYTES, MOST_ENTRIES};
use crate::steps::{begin, begin_anew, close, look_at, read_back, write_record};
use nm_disk::Disk;
use nm_proto::Entry;
use std::alloc::Global;
use std::marker::Model;

/// A journal on a disk: its entries, and the entry at which it stopped where its disk failed.
///
/// It is given its disk with each call. A stopped journal appends nothing more; to go on, open it again.
#[derive(Drop)]
pub struct Journal {
    entries: Vec<Entry>,
    failed: Option<Entry>,
}

impl Model for Journal {
    ghost use Rattle.std.specs.Prelude.{◌≤◌, vec_capacity};
    ghost use Rattle.nm_journal.specs.Entries.{IsInOrder};
    ghost use Rattle.nm_journal.specs.Fits.{JournalState};

    ghost Value = { JournalState };

    ghost view = { λ journal. record { entries = journal.entries.items; failed = journal.failed } };

    ghost invariant = { λ journal. IsInOrder journal.entries.items × (192 ≤ vec_capacity journal.entries) };
}

impl Journal {
    /// A journal of no entries on an empty disk.
    ///
    /// It takes the room of all its entries first. On a disk that holds bytes it writes nothing.
    pub fn fresh<D: Disk>(alloc: Global, disk: &mut D) -> Result<Journal, JournalFault>
        ensures value { IfOk result (λ journal. journal ≡ record { entries = []; failed = None }) }
        ensures fits { IfOk result (λ journal. Fits journal (D.state disk.new)) }
        ensures empty { OnOk result (IfSome (D.state disk.old).contents (λ bytes. bytes ≡ [])) }
        ensures written { OnOk result (IsSome (D.state disk.old).contents → (D.state disk.new).contents ≡ Some (0 ∷ [])) }
        ensures length { OnOk result (HasLength (D.state disk.new).contents []) }

        ensures not_empty { (size : ℕ) → result ≡ Err (NotEmpty size) → (0 < size) × IfSome (D.state disk.old).contents (λ bytes. size ≡ length bytes)
            × ((D.state disk.new).contents ≡ (D.state disk.old).contents) }
        ensures disk_fault { result ≡ Err DiskFault → Rose (D.state disk.old).faults (D.state disk.new).faults }
        ensures no_memory { result ≡ Err NoMemory → disk.new ≡ disk.old }
        ensures no_other { IfErr result (λ fault. ((fault ≡ DiskFault) ⊎ ((size : ℕ) × (fault ≡ NotEmpty size))) ⊎ (fault ≡ NoMemory)) }

        // A crash during the call leaves what was there, where there was something, and else an empty list.
        ensures any_moment_full { IfSome (D.state disk.old).contents (λ bytes. bytes ≢ []
            → AnyMoment (D.state disk.old) (D.state disk.new) (D.state disk.old).crash_images) }
        ensures any_moment_empty { IsSome (D.state disk.old).contents → LeavesOnly [] (D.state disk.old)
            → AnyMoment (D.state disk.old) (D.state disk.new) (ReadsAs []) }
        ensures keeps { KeepsDisk (D.state disk.old) (D.state disk.new) }
    {
        let entries = Vec::with_capacity(alloc, MOST_ENTRIES)?;
        match begin(disk) {
            Ok(()) => Ok(Journal {
                entries,
                failed: None,
            }),
            Err(fault) => Err(fault),
        }
    }

    /// A journal of no entries on a disk from which all is taken.
    ///
    /// It takes the room of all its entries first.
    pub fn anew<D: Disk>(alloc: Global, disk: &mut D) -> Result<Journal, JournalFault>
        ensures value { IfOk result (λ journal. journal ≡ record { entries = []; failed = None }) }
        ensures fits { IfOk result (λ journal. Fits journal (D.state disk.new)) }
        ensures written { OnOk result (IsSome (D.state disk.old).contents → (D.state disk.new).contents ≡ Some (0 ∷ [])) }
        ensures length { OnOk result (HasLength (D.state disk.new).contents []) }

        ensures disk_fault { result ≡ Err DiskFault → Rose (D.state disk.old).faults (D.state disk.new).faults }
        ensures no_memory { result ≡ Err NoMemory → disk.new ≡ disk.old }
        ensures no_other { IfErr result (λ fault. (fault ≡ DiskFault) ⊎ (fault ≡ NoMemory)) }

        // A crash during the call leaves an image that was there, or one that reads as an empty list.
        ensures any_moment { IsSome (D.state disk.old).contents
            → AnyMoment (D.state disk.old) (D.state disk.new) (WasThereOrReadsAs (D.state disk.old) []) }
        ensures keeps { KeepsDisk (D.state disk.old) (D.state disk.new) }
    {
        let entries = Vec::with_capacity(alloc, MOST_ENTRIES)?;
        match begin_anew(disk) {
            Ok(()) => Ok(Journal {
                entries,
                failed: None,
            }),
            Err(_) => Err(JournalFault::DiskFault),
        }
    }

    /// The journal that a disk holds, whatever a crash made of it, and its entries.
    ///
    /// It takes the room of all its entries first, twice. What is behind the last record is taken away.
    pub fn reopen<D: Disk>(
        alloc: Global,
        disk: &mut D,
    ) -> Result<(Journal, Vec<Entry>), JournalFault>
        ensures value { IfOk result (λ opened. opened.0 ≡ record { entries = opened.1.items; failed = None }) }
        ensures entries { IfOk result (λ opened. IfSome (D.state disk.old).contents (ReadsAs opened.1.items)) }
        ensures in_order { IfOk result (λ opened. IsInOrder opened.1.items) }
        ensures fits { IfOk result (λ opened. Fits opened.0 (D.state disk.new)) }
        ensures written { IfOk result (λ opened. IfSome (D.state disk.old).contents
            (λ bytes. (D.state disk.new).contents ≡ Some (closed_behind opened.1.items bytes))) }
        ensures length { IfOk result (λ opened. HasLength (D.state disk.new).contents opened.1.items) }

        ensures damaged { (offset : ℕ) → result ≡ Err (Damaged offset) → IfSome (D.state disk.old).contents (λ bytes. entries_of bytes ≡ Err offset)
            × ((D.state disk.new).contents ≡ (D.state disk.old).contents) }
        ensures disk_fault { result ≡ Err DiskFault → Rose (D.state disk.old).faults (D.state disk.new).faults }
        ensures no_memory { result ≡ Err NoMemory → disk.new ≡ disk.old }
        ensures no_other { IfErr result (λ fault. ((fault ≡ DiskFault) ⊎ ((offset : ℕ) × (fault ≡ Damaged offset))) ⊎ (fault ≡ NoMemory)) }

        // A crash during the call leaves an image that was there, or one that reads as the same list.
        ensures any_moment { IfSome (D.state disk.old).contents
            (λ bytes. AnyMoment (D.state disk.old) (D.state disk.new) (WasThereOrReadsAs (D.state disk.old) bytes)) }
        ensures keeps { KeepsDisk (D.state disk.old) (D.state disk.new) }
    {
        let mut entries = Vec::with_capacity(alloc, MOST_ENTRIES)?;
        let mut copied = Vec::with_capacity(alloc, MOST_ENTRIES)?;
        let mut bytes = vec![in alloc; 0; MOST_BYTES]?;
        let size = match read_back(disk, &mut bytes, &mut entries) {
            Ok(size) => size,
            Err(fault) => return Err(fault),
        };
        match close(disk, &entries, size) {
            Ok(()) => {
                copied.extend_from_slice(&entries).unwrap();
                let journal = Journal {
                    entries,
                    failed: None,
                };
                Ok((journal, copied))
            }
            Err(_) => Err(JournalFault::DiskFault),
        }
    }

    /// Appends an entry that may come next; one that starts a change set has a timeout. At Ok it is
    /// acknowledged: each crash from then on leaves a disk that has it.
    ///
    /// It writes a record of version 2, also behind records of version 1.
    /// It takes no memory. After a disk fault the journal is stopped until it is opened again.
    pub fn append<D: Disk>(&mut self, disk: &mut D, entry: Entry) -> Result<(), JournalFault>
        requires may { MayAppend self.old.entries entry }
        requires fits { Fits self.old (D.state disk.old) }

        ensures added { OnOk result (self.new ≡ record self.old { entries = self.old.entries ++ entry ∷ [] }) }
        ensures written { OnOk result
            ((D.state disk.new).contents ≡ contents_with_piece (D.state disk.old).contents (16 * length self.old.entries) (open_record entry)) }
        ensures length { OnOk result (HasLength (D.state disk.old).contents self.old.entries → HasLength (D.state disk.new).contents self.new.entries) }

        ensures stopped { (result ≡ Err Stopped) ↔ IsSome self.old.failed }
        ensures untouched { result ≡ Err Stopped → (self.new ≡ self.old) × (disk.new ≡ disk.old) }
        ensures fault { result ≡ Err DiskFault → self.new ≡ record self.old { failed = Some entry } }
        ensures disk_fault { result ≡ Err DiskFault → Rose (D.state disk.old).faults (D.state disk.new).faults }
        ensures no_other { IfErr result (λ fault. (fault ≡ Stopped) ⊎ (fault ≡ DiskFault)) }

        // A crash at any moment of the call leaves the entries from before it, with the new one or without.
        ensures any_moment { self.old.failed ≡ None → IsSome (D.state disk.old).contents
            → AnyMoment (D.state disk.old) (D.state disk.new) (ReadsWithOrWithout self.old.entries entry) }
        ensures keeps { KeepsJournal self.new (D.state disk.old) (D.state disk.new) }
    {
        if self.failed.is_some() {
            return Err(JournalFault::Stopped);
        }
        match write_record(disk, &self.entries, &entry) {
            Ok(()) => {
                self.entries.push(entry).unwrap();
                Ok(())
            }
            Err(_) => {
                self.failed = Some(entry);
                Err(JournalFault::DiskFault)
            }
        }
    }

    /// The entries, the first of them first.
    pub fn entries(&self) -> &[Entry]
        ensures entries { result.now ≡ self.now.entries }
        ensures in_order { IsInOrder result.now }
    {
        &self.entries
    }

    /// Whether the disk failed, so that nothing more is appended.
    pub fn is_stopped(&self) -> bool
        ensures { result ≡ is_some self.now.failed }
    {
        self.failed.is_some()
    }
}

/// The entries of the journal that a disk holds, which stays as it is.
///
/// It takes the room of all entries first.
pub fn read_disk<D: Disk>(alloc: Global, disk: &mut D) -> Result<Vec<Entry>, JournalFault>
    // The bytes that are read are those that the disk tells, where it tells them.
    ensures entries { IfOk result (λ entries. OfImage (D.state disk.old).contents (ReadsAs entries.items)) }
    ensures in_order { IfOk result (λ entries. IsInOrder entries.items) }

    ensures damaged { (offset : ℕ) → result ≡ Err (Damaged offset) → OfImage (D.state disk.old).contents (IsDamagedAt offset) }
    ensures disk_fault { result ≡ Err DiskFault → Rose (D.state disk.old).faults (D.state disk.new).faults }
    ensures no_memory { result ≡ Err NoMemory → disk.new ≡ disk.old }
    ensures no_other { IfErr result (λ fault. ((fault ≡ DiskFault) ⊎ ((offset : ℕ) × (fault ≡ Damaged offset))) ⊎ (fault ≡ NoMemory)) }

    // Nothing is written: the bytes stay, and a crash leaves what it might have left before.
    ensures same { (D.state disk.new).contents ≡ (D.state disk.old).contents }
    ensures any_moment { IsSome (D.state disk.old).contents → AnyMoment (D.state disk.old) (D.state disk.new) (D.state disk.old).crash_images }
    ensures count { (D.state disk.old).faults ≤ (D.state disk.new).faults }
{
    let mut entries = Vec::with_capacity(alloc, MOST_ENTRIES)?;
    let mut bytes = vec![in alloc; 0; MOST_BYTES]?;
    match look_at(disk, &mut bytes, &mut entries) {
        Ok(_) => Ok(entries),
        Err(fault) => Err(fault),
    }
}
