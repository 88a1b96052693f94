//! Where bytes come from and where they go: sources and sinks, in memory and over `std`.
//!
//! Stands on `nm_base`. The layers above rely on what is read being a front of what was left, on what
//! is taken being a front of what was written, and on a count that rose behind each `Failed`.
#![tactic(auto)]

mod calls;
pub mod memory;
pub mod reading;
pub mod sink;
pub mod source;
pub mod standard;
pub mod sure;
pub mod writing;

pub use memory::{MemorySink, MemorySource};
pub use reading::{ReadAllFault, read_all};
pub use sink::Sink;
pub use source::Source;
pub use standard::{StdSink, StdSource};
pub use sure::{SureSink, SureSource};
pub use writing::write_all;
