//! A service on trial: its turns by given draws, without a run.
#![tactic(auto)]

mod given;
mod heap;
mod laws;
mod player;
mod trial;

pub use heap::Heap;
pub use laws::limited_is_decided;
pub use player::ServicePlayer;
pub use trial::{Answer, Trial, TrialFault};
