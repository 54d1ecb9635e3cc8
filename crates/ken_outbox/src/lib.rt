//! What a node has sent and output and may still have to send or emit.
#![tactic(auto)]

mod line;
mod lines;
mod outbox;

pub use outbox::Outbox;
