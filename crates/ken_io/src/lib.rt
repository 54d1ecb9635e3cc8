//! Where bytes come from and where they go: the traits `Source` and `Sink`, which count their faults, the two whole
//! transfers over them, objects in memory for tests, and the adapters over standard input and output.
#![tactic(auto)]

mod calls;
mod faults;
mod mem_sink;
mod mem_source;
mod sinks;
mod sources;
mod standard;

pub use faults::{Failed, ReadFault};
pub use mem_sink::MemSink;
pub use mem_source::MemSource;
pub use sinks::{Sink, write_all};
pub use sources::{Source, read_all};
pub use standard::{StdSink, StdSource};
