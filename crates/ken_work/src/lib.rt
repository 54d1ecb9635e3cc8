//! The workers of a node, each to be called on its own: its handler and its patcher, with the rings between them.
#![tactic(auto)]

mod calls;
mod capped;
mod effects;
mod faults;
mod hearing;
mod inputs;
mod items;
mod listening;
mod making;
mod meeting;
mod parts;
mod patcher;
mod renewing;
mod running;
mod took;
mod worker;

pub use faults::answered;
pub use hearing::Heard;
pub use items::{Frozen, Settled};
pub use meeting::meet;
pub use parts::Parts;
pub use patcher::PatchWorker;
pub use renewing::MOST_RECORDS;
pub use took::Took;
pub use worker::TurnWorker;
