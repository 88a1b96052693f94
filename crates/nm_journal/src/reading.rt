//! The bytes of a journal as a list of entries.
ghost use Rattle.std.specs.Prelude.{◌≡◌, ◌≢◌, ◌≤◌, length, ℕ, [], OnOk, IfOk, IfErr, Err, Ok, vec_capacity, IsErrOf};
ghost use Rattle.nm_journal.specs.Entries.{entries_of, IsInOrder, if_follows};
ghost use Rattle.nm_journal.specs.Record.{entry_of};
ghost use Rattle.nm_journal.specs.declared.fault.JournalFault.TheVariants.{Damaged, NoMemory};

use crate::fault::JournalFault;
use crate::follow::may_follow;
use crate::record::entry_of;
use nm_proto::Entry;
use std::alloc::Global;

/// How many entries a journal holds at most: three for each of 64 change sets.
pub(crate) const MOST_ENTRIES: usize = 192;

/// How many bytes a reader needs at most: as many records, and 17 bytes more.
pub(crate) const MOST_BYTES: usize = 3089;

/// Reads the entries that the bytes of a journal stand for.
///
/// Record i takes the 16 bytes from 16i on: a gate, the kind, four bytes for the change set, four for
/// the devices or the verdict, one for the version, four for a timeout, and a zero; numbers are
/// big-endian. Records of both versions may stand side by side. The list ends at a closed gate, or
/// where fewer than 17 bytes stand.
pub fn read_entries(alloc: Global, bytes: &[u8]) -> Result<Vec<Entry>, JournalFault>
    ensures entries { IfOk result (λ entries. entries_of bytes.now ≡ Ok entries.items) }
    ensures in_order { IfOk result (λ entries. IsInOrder entries.items) }
    ensures damaged { (offset : ℕ) → result ≡ Err (Damaged offset) → entries_of bytes.now ≡ Err offset }
    ensures no_other { IfErr result (λ fault. fault ≢ JournalFault.NoMemory → (offset : ℕ) × (fault ≡ Damaged offset)) }
{
    let mut entries = Vec::with_capacity(alloc, MOST_ENTRIES)?;
    match read_into(bytes, &mut entries) {
        Ok(()) => Ok(entries),
        Err(offset) => Err(JournalFault::Damaged { offset }),
    }
}

// Reads the entries into an empty list that has room for all of them, or answers the offset at which
// the bytes are damaged.
pub(crate) fn read_into(bytes: &[u8], entries: &mut Vec<Entry>) -> Result<(), u64>
    requires empty { entries.old.items ≡ [] }
    requires room { 192 ≤ vec_capacity entries.old }
    ensures entries { OnOk result (entries_of bytes.now ≡ Ok entries.new.items) }
    ensures in_order { IsInOrder entries.new.items }
    ensures damaged { IfErr result (λ offset. entries_of bytes.now ≡ Err offset) }
    ensures room { 192 ≤ vec_capacity entries.new }
{
    let mut rest = bytes;
    while rest.len() >= 17 && rest[0] != 0 {
        match next_entry(entries, &rest[1..16]) {
            Some(entry) => entries.push(entry).unwrap(),
            None => return Err(16 * entries.len() as u64),
        }
        rest = &rest[16..];
    }
    Ok(())
}

// The entry of a record, where it may come next.
fn next_entry(before: &[Entry], bytes: &[u8]) -> Option<Entry>
    requires { length bytes.now ≡ 15 }
    ensures { result ≡ if_follows before.now (entry_of bytes.now) }
{
    match entry_of(bytes) {
        Some(entry) if may_follow(before, &entry) => Some(entry),
        _ => None,
    }
}
