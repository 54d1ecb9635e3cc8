//! A node's externaliser: it sends what the node's turns sent until that is acknowledged, and emits what they output.
#![tactic(auto)]

mod backlog;
mod copies;
mod emit;
mod faults;
mod hearing;
mod items;
mod laws;
mod outlet;
mod sending;
mod worker;

pub use emit::Emit;
pub use faults::{NodeFault, OutFault};
pub use hearing::MOST_TAKEN;
pub use items::{Progress, Sealed, Told};
pub use laws::{
    acks_are_events, an_emission_is_an_event, sends_are_events, what_is_handed_over_is_due,
    what_waits_was_handed_over,
};
pub use outlet::Outlet;
pub use sending::MOST_DUE;
pub use worker::{MOST_REFUSALS, SendWorker};
