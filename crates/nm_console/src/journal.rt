//! The command `journal`.

ghost use Rattle.std.specs.Prelude.{◌≡◌, ◌≤◌, IfOk, IsErrOf, IsTrue};
ghost use Rattle.nm_base.specs.Count.{Rose};
ghost use Rattle.nm_journal.specs.Fits.{OfImage};
ghost use Rattle.nm_console.specs.Status.{is_whole};
ghost use Rattle.nm_console.specs.Console.{Tells, TellsJournal, damaged, listed};
ghost use Rattle.nm_console.specs.declared.journal.JournalStop.TheVariants as stop;

use crate::refusal::write_damaged;
use crate::said::Said;
use crate::status::Status;
use nm_base::NoMemory;
use nm_disk::Disk;
use nm_journal::{JournalFault, read_disk};
use nm_proto::Entry;
use nm_report::write_journal;
use std::alloc::Global;

/// Why a command that uses a journal says nothing.
#[derive(Clone, Copy, PartialEq, Eq)]
pub enum JournalStop {
    DiskFault,
    NoMemory,
}

impl From<NoMemory> for JournalStop {
    ghost from_gives = { λ _ why. why ≡ stop.NoMemory };

    fn from(_error: NoMemory) -> JournalStop {
        JournalStop::NoMemory
    }
}

/// The answer to the journal on a disk, which stays as it is.
#[tactic(auto, using(crate::proofs::Journals::journals))]
pub fn journal_answer<D: Disk>(alloc: Global, disk: &mut D) -> Result<Said, JournalStop>
    ensures told { IfOk result (λ said. OfImage (D.state disk.old).contents (λ image. TellsJournal image said.status said.text.items)) }
    ensures whole { IfOk result (λ said. IsTrue (is_whole said.status)) }
    ensures disk_fault { IsErrOf result JournalStop.DiskFault → Rose (D.state disk.old).faults (D.state disk.new).faults }
    ensures same { (D.state disk.new).contents ≡ (D.state disk.old).contents }
    ensures count { (D.state disk.old).faults ≤ (D.state disk.new).faults }
{
    match read_disk(alloc, disk) {
        Ok(entries) => say_entries(alloc, entries.as_slice()),
        Err(JournalFault::Damaged { offset }) => say_damaged(alloc, offset),
        Err(JournalFault::DiskFault) => Err(JournalStop::DiskFault),
        Err(_) => Err(JournalStop::NoMemory),
    }
}

fn say_entries(alloc: Global, entries: &[Entry]) -> Result<Said, JournalStop>
    ensures told { IfOk result (λ said. Tells (listed entries.now) said.status said.text.items) }
    ensures no_disk_fault { IsErrOf result JournalStop.DiskFault → ⊥ }
{
    match write_journal(alloc, entries) {
        Ok(text) => Ok(Said {
            status: Status::Ok,
            text,
        }),
        Err(NoMemory) => Err(JournalStop::NoMemory),
    }
}

/// The answer where a journal is damaged from a byte on.
pub fn say_damaged(alloc: Global, offset: u64) -> Result<Said, JournalStop>
    ensures told { IfOk result (λ said. Tells (damaged offset) said.status said.text.items) }
    ensures no_disk_fault { IsErrOf result JournalStop.DiskFault → ⊥ }
{
    let mut text = Vec::new(alloc);
    match write_damaged(&mut text, offset) {
        Ok(()) => Ok(Said {
            status: Status::Journal,
            text,
        }),
        Err(NoMemory) => Err(JournalStop::NoMemory),
    }
}
