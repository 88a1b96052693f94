//! Readers and writers of `std` as sources and sinks: what a program reads and writes.

ghost use Rattle.std.specs.Prelude.{◌≡◌, ◌≤◌, ◌<◌, length, None, IfOk, is_ok, if◌then◌else◌};
ghost use Rattle.std.specs.Io.KnownBytes.{ReadConsumes, WriteAppends};
ghost use Rattle.nm_io.specs.Adapter.{fresh};
ghost use Rattle.nm_base.specs.Count.{raised};

use crate::sink::Sink;
use crate::source::Source;
use nm_base::{Failed, count_fault};
use std::io::{Read, Write};
use std::marker::Model;

/// A reader of `std` as a source. It tells nothing of its bytes, and counts the reader's errors.
#[derive(Drop)]
pub struct StdSource<T> {
    from: T,
    faults: u64,
}

impl<T> Model for StdSource<T> {
    ghost use Rattle.nm_io.specs.Adapter.{Adapter};

    ghost Value = { Adapter T };

    ghost view = { λ source. record { inner = source.from; faults = source.faults } };
}

impl<T> StdSource<T> {
    /// The reader as a source that had no error yet.
    pub fn new(from: T) -> StdSource<T>
        ensures { result ≡ fresh from }
    {
        StdSource { from, faults: 0 }
    }
}

impl<T: Read> Source for StdSource<T> {
    ghost left = { λ _. None };

    ghost faults = { λ source. source.faults };

    fn read(&mut self, into: &mut [u8]) -> Result<usize, Failed>
        ensures within { IfOk result (λ n. n ≤ length into.new) }
        ensures passed { ReadConsumes (T.remaining self.old.inner) (T.remaining self.new.inner) result into.new }
        ensures count { self.old.faults ≤ self.new.faults }
        ensures faults { self.new.faults ≡ (if is_ok result then self.old.faults else raised self.old.faults) }
    {
        match self.from.read(into) {
            Ok(count) => Ok(count),
            Err(_) => Err(count_fault(&mut self.faults)),
        }
    }
}

/// A writer of `std` as a sink. It tells nothing of its bytes, and counts the writer's errors.
#[derive(Drop)]
pub struct StdSink<T> {
    to: T,
    faults: u64,
}

impl<T> Model for StdSink<T> {
    ghost use Rattle.nm_io.specs.Adapter.{Adapter};

    ghost Value = { Adapter T };

    ghost view = { λ sink. record { inner = sink.to; faults = sink.faults } };
}

impl<T> StdSink<T> {
    /// The writer as a sink that had no error yet.
    pub fn new(to: T) -> StdSink<T>
        ensures { result ≡ fresh to }
    {
        StdSink { to, faults: 0 }
    }
}

impl<T: Write> Sink for StdSink<T> {
    ghost taken = { λ _. None };

    ghost faults = { λ sink. sink.faults };

    /// A write that takes nothing of a piece that isn't empty is an error too.
    fn write(&mut self, piece: &[u8]) -> Result<usize, Failed>
        ensures within { IfOk result (λ n. n ≤ length piece.now) }
        ensures some { IfOk result (λ n. 0 < length piece.now → 0 < n) }
        ensures passed { WriteAppends (T.contents self.old.inner) (T.contents self.new.inner) result piece.now }
        ensures count { self.old.faults ≤ self.new.faults }
        ensures faults { self.new.faults ≡ (if is_ok result then self.old.faults else raised self.old.faults) }
    {
        match self.to.write(piece) {
            Ok(count) if 0 < count || piece.is_empty() => Ok(count),
            _ => Err(count_fault(&mut self.faults)),
        }
    }
}
