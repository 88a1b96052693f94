//! A disk that a program chooses as it starts.

use crate::disk::Disk;
use crate::file::FileDisk;
use crate::memory::MemoryDisk;
use nm_base::Failed;
use std::fs::Files;

/// A disk in memory or over a file.
#[derive(Drop)]
pub enum AnyDisk<R: Files> {
    Memory(MemoryDisk),
    File(FileDisk<R>),
}

impl<R: Files> Disk for AnyDisk<R> {
    ghost use Rattle.nm_disk.specs.Any.{any_state, any_as_read, any_counts_now, any_only_now};

    ghost state = { any_state };

    ghost as_read = { any_as_read };

    ghost counts_now = { any_counts_now };

    ghost only_now = { any_only_now };

    fn len(&mut self) -> Result<u64, Failed> {
        match self {
            AnyDisk::Memory(disk) => disk.len(),
            AnyDisk::File(disk) => disk.len(),
        }
    }

    fn read(&mut self, at: u64, into: &mut [u8]) -> Result<usize, Failed> {
        match self {
            AnyDisk::Memory(disk) => disk.read(at, into),
            AnyDisk::File(disk) => disk.read(at, into),
        }
    }

    fn write_at(&mut self, at: u64, piece: &[u8]) -> Result<(), Failed> {
        match self {
            AnyDisk::Memory(disk) => disk.write_at(at, piece),
            AnyDisk::File(disk) => disk.write_at(at, piece),
        }
    }

    fn cut(&mut self, to: u64) -> Result<(), Failed> {
        match self {
            AnyDisk::Memory(disk) => disk.cut(to),
            AnyDisk::File(disk) => disk.cut(to),
        }
    }

    fn sync(&mut self) -> Result<(), Failed> {
        match self {
            AnyDisk::Memory(disk) => disk.sync(),
            AnyDisk::File(disk) => disk.sync(),
        }
    }
}
