//! A source and a sink in memory whose calls fail as planned, and move no more bytes than planned: what tests give in the
//! place of a file.

ghost use Rattle.std.specs.Prelude.{◌≡◌, ◌≤◌, ◌<◌, ◌+◌, ◌-◌, ◌^◌, ◌++◌, ◌↔◌, [], length, take, drop, min, Some, IfOk, OnOk, OnErr, IsErr};
ghost use Rattle.nm_io.specs.Memory.{first_calls, called, faulted, Fails, Refuses};

use crate::calls::PlannedCalls;
use crate::sink::Sink;
use crate::source::Source;
use crate::sure::SureSource;
use nm_base::{Failed, NoMemory};
use std::alloc::Global;
use std::marker::Model;

/// A list of bytes as a source, the numbers of the reads that are to fail, and how many bytes one read gives at most.
#[derive(Drop)]
pub struct MemorySource {
    bytes: SureSource,
    calls: PlannedCalls,
    most: usize,
}

impl Model for MemorySource {
    ghost use Rattle.std.specs.Prelude.{◌≤◌};
    ghost use Rattle.nm_io.specs.Memory.{Supply};

    ghost Value = { Supply };

    ghost view = { λ source. record { left = source.bytes; calls = source.calls; most = source.most } };

    ghost invariant = { λ source. 1 ≤ source.most };
}

impl MemorySource {
    /// A source of these bytes. Its reads are counted from 1, and those whose numbers `failing` holds
    /// fail.
    pub fn new(bytes: Vec<u8>, failing: Vec<u64>) -> MemorySource
        ensures { result ≡ record { left = bytes.items; calls = first_calls failing.items; most = 2 ^ 64 - 1 } }
    {
        MemorySource::in_pieces(bytes, failing, usize::MAX)
    }

    /// The same, where a read gives at most so many bytes, as a pipe does that is filled bit by bit.
    pub fn in_pieces(bytes: Vec<u8>, failing: Vec<u64>, at_most: usize) -> MemorySource
        requires some { 1 ≤ at_most }
        ensures { result ≡ record { left = bytes.items; calls = first_calls failing.items; most = at_most } }
    {
        MemorySource {
            bytes: SureSource::new(bytes),
            calls: PlannedCalls::new(failing),
            most: at_most,
        }
    }
}

impl Source for MemorySource {
    ghost left = { λ source. Some source.left };

    ghost faults = { λ source. source.calls.faults };

    #[tactic(auto, using(crate::proofs::Pieces::at_end))]
    fn read(&mut self, into: &mut [u8]) -> Result<usize, Failed>
        ensures count { self.old.calls.faults ≤ self.new.calls.faults }
        ensures planned { IsErr result ↔ Fails self.old.calls }
        ensures end { IfOk result (λ n. n ≡ 0 → 0 < length into.new → self.old.left ≡ []) }
        ensures value { IfOk result (λ n. n ≡ min (min (length self.old.left) (length into.new)) self.old.most) }
        ensures copied { IfOk result (λ n. take n into.new ≡ take n self.old.left) }
        ensures rest { IfOk result (λ n. self.new.left ≡ drop n self.old.left) }
        ensures ok { OnOk result (self.new.calls ≡ called self.old.calls) }
        ensures most { self.new.most ≡ self.old.most }
        ensures err { OnErr result (self.new ≡ record self.old { calls = faulted (called self.old.calls) }) }
    {
        self.calls.begin()?;
        let most = self.most;
        Ok(self.bytes.read_front(into, most))
    }
}

/// A sink in memory of a fixed room, the numbers of the writes that are to fail, and how many bytes one write takes at most.
#[derive(Drop)]
pub struct MemorySink {
    bytes: Vec<u8>,
    room: usize,
    calls: PlannedCalls,
    most: usize,
}

impl Model for MemorySink {
    ghost use Rattle.nm_io.specs.Memory.{Store};
    ghost use Rattle.std.specs.Prelude.{◌≤◌, length, vec_capacity};

    ghost Value = { Store };

    ghost view = { λ sink. record { taken = sink.bytes.items; room = sink.room; calls = sink.calls; most = sink.most } };

    ghost invariant = { λ sink. (length sink.bytes.items ≤ sink.room) × (sink.room ≤ vec_capacity sink.bytes) × (1 ≤ sink.most) };
}

impl MemorySink {
    /// A sink that has taken nothing and has room for `room` bytes, which it takes at once. Its writes
    /// are counted from 1, and those whose numbers `failing` holds fail.
    pub fn new(alloc: Global, room: usize, failing: Vec<u64>) -> Result<MemorySink, NoMemory>
        ensures { IfOk result (λ sink. sink ≡ record { taken = []; room = room; calls = first_calls failing.items; most = 2 ^ 64 - 1 }) }
    {
        MemorySink::in_pieces(alloc, room, failing, usize::MAX)
    }

    /// The same, where a write takes at most so many bytes, as a pipe does that is emptied bit by bit.
    pub fn in_pieces(
        alloc: Global,
        room: usize,
        failing: Vec<u64>,
        at_most: usize,
    ) -> Result<MemorySink, NoMemory>
        requires some { 1 ≤ at_most }
        ensures { IfOk result (λ sink. sink ≡ record { taken = []; room = room; calls = first_calls failing.items; most = at_most }) }
    {
        Ok(MemorySink {
            bytes: Vec::with_capacity(alloc, room)?,
            room,
            calls: PlannedCalls::new(failing),
            most: at_most,
        })
    }

    /// The bytes that it has taken.
    pub fn taken(&self) -> &[u8]
        ensures bytes { result.now ≡ self.now.taken }
        ensures fits { length result.now ≤ self.now.room }
    {
        &self.bytes
    }
}

impl Sink for MemorySink {
    ghost taken = { λ sink. Some sink.taken };

    ghost faults = { λ sink. sink.calls.faults };

    /// Takes what fits, and no more than one write does. A piece that isn't empty fails where nothing fits.
    fn write(&mut self, piece: &[u8]) -> Result<usize, Failed>
        ensures count { self.old.calls.faults ≤ self.new.calls.faults }
        ensures refused { IsErr result ↔ Refuses self.old (length piece.now) }
        ensures value { IfOk result (λ n. n ≡ min (min (length piece.now) (self.old.room - length self.old.taken)) self.old.most) }
        ensures some { IfOk result (λ n. 0 < length piece.now → 0 < n) }
        ensures bytes { IfOk result (λ n. self.new.taken ≡ self.old.taken ++ take n piece.now) }
        ensures room { self.new.room ≡ self.old.room }
        ensures most { self.new.most ≡ self.old.most }
        ensures ok { OnOk result (self.new.calls ≡ called self.old.calls) }
        ensures err { OnErr result (self.new ≡ record self.old { calls = faulted (called self.old.calls) }) }
    {
        self.calls.begin()?;
        let room = self.room - self.bytes.len();
        let count = piece.len().min(room).min(self.most);
        if count == 0 && !piece.is_empty() {
            return Err(self.calls.fail());
        }
        self.bytes.extend_from_slice(&piece[..count]).unwrap();
        Ok(count)
    }
}
