//! What a node's saved disks recover to, as text.
#![tactic(auto)]

mod dumping;
mod faults;
mod noted;
mod opening;
mod telling;
mod text;

pub use dumping::dump;
pub use faults::DumpFault;
