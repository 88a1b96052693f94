//! A disk in memory, whose calls are noted and can be made to fail.

ghost use Rattle.std.specs.Prelude.{◌≡◌, ◌≤◌, ◌+◌, ◌^◌, ◌<◌, ◌↔◌, [], ◌++◌, length, take, drop, IfOk, OnOk, OnErr, IsErr, IsTrue, vec_capacity, if◌then◌else◌, replicate};
ghost use Rattle.nm_disk.specs.Image.{with_piece, ImageStep, IsTorn, IsPerhapsCut};
ghost use Rattle.nm_base.specs.Count.{raised};

use crate::disk::Disk;
use nm_base::{Failed, NoMemory, count_fault};
use std::alloc::Global;
use std::marker::Model;

/// A call of a disk in memory, as its record notes it.
#[derive(Clone, Copy)]
pub enum Call {
    /// A call that changes nothing: a length, a read, or a sync that failed.
    Asked,
    /// A write that answered Ok: its piece is the first `count` bytes of `content`.
    Wrote {
        at: u64,
        content: [u8; 32],
        count: usize,
    },
    /// A write of `count` bytes that failed.
    Tore {
        at: u64,
        count: usize,
    },
    /// A cut that answered Ok.
    Cut {
        to: u64,
    },
    /// A cut that failed.
    PerhapsCut {
        to: u64,
    },
    /// A sync that answered Ok.
    Synced,
}

/// How many bytes a write has at most: as many as a call notes.
const PIECE: usize = 32;

/// A disk in memory that notes its calls, and the numbers of the calls that are to fail.
///
/// After a fault the bytes are as they were. What a crash may leave follows from the calls since the
/// last sync that answered Ok.
#[derive(Drop)]
pub struct MemoryDisk {
    alloc: Global,
    bytes: Vec<u8>,
    limit: usize,
    calls: Vec<Call>,
    room: usize,
    failing: Vec<u64>,
    faults: u64,
}

impl Model for MemoryDisk {
    ghost use Rattle.std.specs.Prelude.{◌≡◌, ◌≤◌, length, vec_capacity, reverse};
    ghost use Rattle.nm_disk.specs.Memory.{MemoryState, bytes_after};

    ghost Value = { MemoryState };

    ghost view = { λ disk. record {
      calls = reverse disk.calls.items;
      limit = disk.limit;
      room = disk.room;
      failing =
          disk.failing.items;
      faults = disk.faults;
    } };

    ghost invariant = { λ disk. (disk.bytes.items ≡ bytes_after (reverse disk.calls.items)) × (length disk.bytes.items ≤ disk.limit)
        × (disk.limit ≤ vec_capacity disk.bytes) × (length disk.calls.items ≤ disk.room) × (disk.room ≤ vec_capacity disk.calls) };
}

impl MemoryDisk {
    ghost use Rattle.nm_disk.specs.Memory.{empty_disk, bytes_after, fails_next, fails_write, noted, failed, wrote};

    /// An empty disk of at most `limit` bytes that notes `calls` calls. It takes the room of both at once.
    ///
    /// Each call after these fails.
    pub fn with_limit(alloc: Global, limit: u64, calls: u32) -> Result<MemoryDisk, NoMemory>
        ensures { IfOk result (λ disk. disk ≡ empty_disk limit calls) }
    {
        let limit = limit as usize;
        let room = calls as usize;
        Ok(MemoryDisk {
            alloc,
            bytes: Vec::with_capacity(alloc, limit)?,
            limit,
            calls: Vec::with_capacity(alloc, room)?,
            room,
            failing: Vec::new(alloc),
            faults: 0,
        })
    }

    /// Names the calls that are to fail, by their numbers from 1, in place of those that were named.
    pub fn plan(&mut self, calls: &[u64]) -> Result<(), NoMemory>
        ensures planned { OnOk result (self.new ≡ record self.old { failing = calls.now }) }
        ensures unchanged { OnErr result (self.new ≡ self.old) }
    {
        self.failing = calls.to_vec(self.alloc)?;
        Ok(())
    }

    /// The bytes.
    pub fn bytes(&self) -> &[u8]
        ensures bytes { result.now ≡ bytes_after self.now.calls }
        ensures limited { length result.now ≤ self.now.limit }
    {
        &self.bytes
    }

    // Whether the next call fails.
    fn fails_next(&self) -> bool
        ensures value { result ≡ fails_next self.now }
    {
        self.calls.len() >= self.room || self.failing.contains(&(self.calls.len() as u64 + 1))
    }

    // Notes a call that changes no byte, where there is room.
    fn note(&mut self, call: Call)
        requires { bytes_after (noted self.old call).calls ≡ bytes_after self.old.calls }
        ensures { self.new ≡ noted self.old call }
    {
        if self.calls.len() < self.room {
            self.calls.push(call).unwrap();
        }
    }

    // Notes a call that fails, where there is room, and counts the fault.
    fn fail(&mut self, call: Call) -> Failed
        requires { bytes_after (noted self.old call).calls ≡ bytes_after self.old.calls }
        ensures failed { self.new ≡ failed self.old call }
        ensures count { self.old.faults ≤ self.new.faults }
    {
        self.note(call);
        count_fault(&mut self.faults)
    }
}

// Writes a piece over the bytes from a place on, and past their end.
fn put(bytes: &mut Vec<u8>, at: usize, piece: &[u8])
    requires inside { at ≤ length bytes.old.items }
    requires room { at + length piece.now ≤ vec_capacity bytes.old }
    ensures put { bytes.new.items ≡ with_piece bytes.old.items at piece.now }
    ensures room { vec_capacity bytes.old ≤ vec_capacity bytes.new }
{
    let over = piece.len().min(bytes.len() - at);
    let old = bytes.as_mut_slice();
    old[at..at + over].copy_from_slice(&piece[..over]);
    bytes.extend_from_slice(&piece[over..]).unwrap();
}

// A piece in the front of as many bytes as a call notes.
fn content_of(piece: &[u8]) -> [u8; 32]
    requires { length piece.now ≤ 32 }
    ensures { result ≡ piece.now ++ drop (length piece.now) (replicate 32 0) }
{
    let mut content = [0; 32];
    content[..piece.len()].copy_from_slice(piece);
    content
}

impl Disk for MemoryDisk {
    ghost use Rattle.nm_disk.specs.Memory.{bytes_after, fails_next, fails_write, noted, failed, wrote, memory_state};
    ghost use Rattle.nm_disk.specs.MemoryLaws.{reads_image, image_now, image_only_now};
    ghost use Rattle.nm_disk.specs.declared.memory.Call.TheVariants.{Asked, Tore, Cut, PerhapsCut, Synced};

    ghost state = { memory_state };

    ghost as_read = { reads_image };

    ghost counts_now = { λ disk. image_now disk.calls };

    ghost only_now = { λ disk. image_only_now disk.calls };

    fn len(&mut self) -> Result<u64, Failed>
        ensures planned { IsErr result ↔ IsTrue (fails_next self.old) }
        ensures value { IfOk result (λ n. n ≡ length (bytes_after self.old.calls)) }
        ensures count { self.old.faults ≤ self.new.faults }
        ensures ok { OnOk result (self.new ≡ noted self.old Asked) }
        ensures err { OnErr result (self.new ≡ failed self.old Asked) }
    {
        if self.fails_next() {
            return Err(self.fail(Call::Asked));
        }
        self.note(Call::Asked);
        Ok(self.bytes.len() as u64)
    }

    fn read(&mut self, at: u64, into: &mut [u8]) -> Result<usize, Failed>
        requires { at + length into.old ≤ length (bytes_after self.old.calls) }
        ensures planned { IsErr result ↔ IsTrue (fails_next self.old) }
        ensures value { IfOk result (λ n. n ≡ length into.new) }
        ensures copied { OnOk result (into.new ≡ take (length into.new) (drop at (bytes_after self.old.calls))) }
        ensures count { self.old.faults ≤ self.new.faults }
        ensures ok { OnOk result (self.new ≡ noted self.old Asked) }
        ensures err { OnErr result (self.new ≡ failed self.old Asked) }
    {
        if self.fails_next() {
            return Err(self.fail(Call::Asked));
        }
        self.note(Call::Asked);
        let at = at as usize;
        into.copy_from_slice(&self.bytes[at..at + into.len()]);
        Ok(into.len())
    }

    fn write_at(&mut self, at: u64, piece: &[u8]) -> Result<(), Failed>
        requires { at ≤ length (bytes_after self.old.calls) }
        ensures refused { IsErr result ↔ IsTrue (fails_write self.old at (length piece.now)) }
        ensures crash { ImageStep (IsTorn at (length piece.now)) (memory_state self.old) (memory_state self.new) }
        ensures count { self.old.faults ≤ self.new.faults }
        ensures ok { OnOk result (self.new ≡ noted self.old (wrote at piece.now)) }
        ensures err { OnErr result (self.new ≡ failed self.old (Tore at (length piece.now))) }
    {
        let count = piece.len();
        let start = at as usize;
        if self.fails_next() || count > PIECE || count > self.limit || start > self.limit - count {
            return Err(self.fail(Call::Tore { at, count }));
        }
        put(&mut self.bytes, start, piece);
        let content = content_of(piece);
        self.calls.push(Call::Wrote { at, content, count }).unwrap();
        Ok(())
    }

    fn cut(&mut self, to: u64) -> Result<(), Failed>
        requires { to ≤ length (bytes_after self.old.calls) }
        ensures planned { IsErr result ↔ IsTrue (fails_next self.old) }
        ensures crash { ImageStep (IsPerhapsCut to) (memory_state self.old) (memory_state self.new) }
        ensures count { self.old.faults ≤ self.new.faults }
        ensures ok { OnOk result (self.new ≡ noted self.old (Cut to)) }
        ensures err { OnErr result (self.new ≡ failed self.old (PerhapsCut to)) }
    {
        if self.fails_next() {
            return Err(self.fail(Call::PerhapsCut { to }));
        }
        self.bytes.truncate(to as usize);
        self.calls.push(Call::Cut { to }).unwrap();
        Ok(())
    }

    fn sync(&mut self) -> Result<(), Failed>
        ensures planned { IsErr result ↔ IsTrue (fails_next self.old) }
        ensures count { self.old.faults ≤ self.new.faults }
        ensures ok { OnOk result (self.new ≡ noted self.old Synced) }
        ensures err { OnErr result (self.new ≡ failed self.old Asked) }
    {
        if self.fails_next() {
            return Err(self.fail(Call::Asked));
        }
        self.note(Call::Synced);
        Ok(())
    }
}
