//! What follows from the definitions of records, and from a journal's fitting its disk.

ghost use Rattle.std.specs.Prelude.{◌≡◌, ◌==◌, ◌&&◌, not, ℕ, List, Some, None, true, IsSome, slice_index};
ghost use Rattle.nm_proto.specs.declared.journal.Entry.{Entry};
ghost use Rattle.nm_journal.specs.Record.{record_of, entry_of};
ghost use Rattle.nm_journal.specs.Entries.{has_record, is_timed};
ghost use Rattle.nm_journal.specs.Fits.{Fits, ReadsAs, ReadsWithOrWithout};

use crate::journal::Journal;
use crate::record::block_of;
use nm_disk::Disk;
use nm_proto::Entry;

/// A crash between two calls leaves what was there: of a journal that isn't stopped its entries, and of a
/// stopped one these with the entry at which it stopped, or without.
pub fn a_crash_between_calls_leaves_the_entries<D: Disk>(journal: &Journal, disk: &D)
    requires fits { Fits journal.now (D.state disk.now) }
    requires told { IsSome (D.state disk.now).contents }
    ensures running { journal.now.failed ≡ None → (image : List ℕ) → (D.state disk.now).crash_images image → ReadsAs journal.now.entries image }
    ensures stopped { (entry : Entry) → journal.now.failed ≡ Some entry
        → (image : List ℕ) → (D.state disk.now).crash_images image → ReadsWithOrWithout journal.now.entries entry image }
{}

/// The record that is written of an entry stands for it.
pub fn what_is_written_is_read_back(entry: &Entry)
    requires has { has_record entry.now ≡ true }
    requires timed { is_timed entry.now ≡ true }
    ensures { entry_of (record_of entry.now) ≡ Some entry.now }
{
    let _ = block_of(entry);
}

/// An entry that is read has no timeout that could be written exactly where its record starts a change set in
/// version 1. Byte 0 behind the gate is the kind, and byte 9 the version.
pub fn only_starts_of_version_1_have_no_timeout()
    ensures { (bytes : List ℕ) (entry : Entry) → entry_of bytes ≡ Some entry
        → is_timed entry ≡ not (slice_index bytes 0 == 1 && slice_index bytes 9 == 0) }
{}
