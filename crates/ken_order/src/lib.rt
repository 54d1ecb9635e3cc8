//! Delivery once and in order: which message of a sender comes next, and the stamps of turns. Nothing here takes memory.
#![tactic(auto)]

mod order;

pub use order::{Order, SENDERS, Verdict};
