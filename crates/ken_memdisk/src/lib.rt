//! A disk in memory, for tests and worlds of runs: it fails at the calls that it is told to, and a pick chooses what a
//! crash leaves of it.
#![tactic(auto)]

mod bytes;
mod calls;
mod cut;
mod cuts;
mod mem_disk;
mod picks;
mod platter;
mod story;
mod trace;

pub use cut::Cut;
pub use mem_disk::MemDisk;
