//! A disk, in memory or over a file, and what a crash may leave of it.
//!
//! Stands on `nm_base`. The layers above rely on what a read gives, on a count that rose behind each
//! `Failed`, and on the images that a crash may leave at each moment, during a call or between two.
#![tactic(auto)]

mod any;
pub mod disk;
pub mod file;
mod lent;
pub mod memory;

pub use any::AnyDisk;
pub use disk::Disk;
pub use file::FileDisk;
pub use memory::MemoryDisk;
