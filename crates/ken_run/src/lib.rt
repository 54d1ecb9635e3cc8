//! A run of nodes on one thread: visits of its nodes, one after the other, and passes over all of them until it has ended.
#![tactic(auto)]

mod creation;
mod drain;
mod ending;
mod faults;
mod inboxes;
mod run;
mod station;

pub use faults::RunFault;
pub use run::Run;
pub use station::Station;
