//! Rounds of threads over the nodes of a run: the workers of all nodes side by side, and what becomes of the faults at which they stop.
#![tactic(auto)]

mod lending;
mod raising;
mod rounds;

pub use rounds::threaded;
