//! A disk that is lent is a disk.

use crate::disk::Disk;
use nm_base::Failed;

// A disk that is lent.
impl<D: Disk> Disk for &mut D {
    ghost state = { λ disk. D.state disk.now };

    ghost as_read = { λ disk. D.as_read disk.now };

    ghost counts_now = { λ disk. D.counts_now disk.now };

    ghost only_now = { λ disk. D.only_now disk.now };

    fn len(&mut self) -> Result<u64, Failed> {
        Disk::len(&mut **self)
    }

    fn read(&mut self, at: u64, into: &mut [u8]) -> Result<usize, Failed> {
        Disk::read(&mut **self, at, into)
    }

    fn write_at(&mut self, at: u64, piece: &[u8]) -> Result<(), Failed> {
        Disk::write_at(&mut **self, at, piece)
    }

    fn cut(&mut self, to: u64) -> Result<(), Failed> {
        Disk::cut(&mut **self, to)
    }

    fn sync(&mut self) -> Result<(), Failed> {
        Disk::sync(&mut **self)
    }
}
