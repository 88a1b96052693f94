//! A source and a sink that never fail, for bytes that are in memory as a whole.

ghost use Rattle.std.specs.Prelude.{◌≡◌, ◌≤◌, ◌<◌, ◌++◌, List, ℕ, length, take, drop, min, Some, None, IfOk};

use crate::sink::Sink;
use crate::source::Source;
use nm_base::Failed;
use std::marker::Model;

/// A list of bytes as a source that never fails. It is seen as the bytes that are left.
#[derive(Drop)]
pub struct SureSource {
    bytes: Vec<u8>,
    at: usize,
}

impl Model for SureSource {
    ghost use Rattle.std.specs.Prelude.{List, ℕ, ◌≤◌, drop, length};

    ghost Value = { List ℕ };

    ghost view = { λ source. drop source.at source.bytes.items };

    ghost invariant = { λ source. source.at ≤ length source.bytes.items };
}

impl SureSource {
    /// A source of these bytes.
    pub fn new(bytes: Vec<u8>) -> SureSource
        ensures { result ≡ bytes.items }
    {
        SureSource { bytes, at: 0 }
    }

    /// Reads into the front of a piece, at most so many bytes, and answers how many.
    pub(crate) fn read_front(&mut self, into: &mut [u8], most: usize) -> usize
        ensures value { result ≡ min (min (length self.old) (length into.new)) most }
        ensures copied { take result into.new ≡ take result self.old }
        ensures rest { self.new ≡ drop result self.old }
        ensures given { self.old ≡ take result into.new ++ self.new }
    {
        let count = copy_front(&self.bytes[self.at..], into, most);
        self.at += count;
        count
    }
}

impl Source for SureSource {
    ghost left = { λ source. Some source };

    ghost faults = { λ _. 0 };

    fn read(&mut self, into: &mut [u8]) -> Result<usize, Failed>
        ensures value { result ≡ Ok (min (length self.old) (length into.new)) }
        ensures copied { IfOk result (λ n. take n into.new ≡ take n self.old) }
        ensures rest { IfOk result (λ n. self.new ≡ drop n self.old) }
    {
        let most = into.len();
        Ok(self.read_front(into, most))
    }
}

// Copies as many bytes as both have, at most so many, and answers how many.
fn copy_front(from: &[u8], into: &mut [u8], most: usize) -> usize
    ensures count { result ≡ min (min (length from.now) (length into.old)) most }
    ensures copied { take result into.new ≡ take result from.now }
{
    let count = from.len().min(into.len()).min(most);
    into[..count].copy_from_slice(&from[..count]);
    count
}

/// A sink that takes all, keeps nothing and never fails.
#[derive(Drop)]
pub struct SureSink {}

impl SureSink {
    /// A sink that takes all.
    pub fn new() -> SureSink
        ensures { result ≡ record {} }
    {
        SureSink {}
    }
}

impl Sink for SureSink {
    ghost taken = { λ _. None };

    ghost faults = { λ _. 0 };

    fn write(&mut self, piece: &[u8]) -> Result<usize, Failed>
        ensures value { result ≡ Ok (length piece.now) }
    {
        Ok(piece.len())
    }
}
