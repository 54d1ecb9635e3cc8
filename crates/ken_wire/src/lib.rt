//! Wires between nodes that run as threads: queues that no schedule of threads can make lie.
#![tactic(auto)]

mod laws;
mod rounds;
mod rule;
mod send_end;
mod take_end;
mod view;
mod wire;
mod wire_net;

pub use laws::{delivered, each_step_keeps_the_rule, no_loss_is_uncounted, nothing_is_lost};
pub use rounds::{hand_out, take_back, takers};
pub use rule::Carries;
pub use send_end::SendEnd;
pub use take_end::{MAX_WIRE, TakeEnd};
pub use view::{Sent, View};
pub use wire::{Closed, Wire, close};
pub use wire_net::WireNet;
