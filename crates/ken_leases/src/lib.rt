//! Leases of names over the nodes of a run: each name has a keeper, which grants it to one node at a time.
#![tactic(auto)]

mod blocks;
mod commands;
mod keeper;
mod laws;
mod leases;
mod texts;

pub use laws::{leases_are_decided, leases_never_overlap};
pub use leases::Leases;
