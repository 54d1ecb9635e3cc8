//! Objects inside a heap of pages: blocks that are allocated and freed, with a layout that is a format.
#![tactic(auto)]

mod adopt;
mod carve;
mod copy;
mod faults;
mod format;
mod fronts;
mod head;
mod objects;
mod walk;

pub use faults::Broken;
pub use objects::Objects;
