//! One order of the steps of a node's three workers that run side by side: laws, which nothing runs yet.
#![tactic(auto)]

mod laws;
mod workers;

pub use laws::{order_keeps, steps_may_not_weave, steps_weave};
pub use workers::{Fact, Workers};
