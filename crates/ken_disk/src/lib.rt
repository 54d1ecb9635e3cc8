//! A disk that a crash may tear: the trait `Disk`, what a crash may leave of one, and a write with its sync.
#![tactic(auto)]

mod disk;
mod faults;
mod laws;
mod writes;

pub use disk::{Disk, MAX_LEN};
pub use faults::DiskFault;
pub use laws::{crashes, falls, moments, synced_writes};
pub use writes::write_through;
