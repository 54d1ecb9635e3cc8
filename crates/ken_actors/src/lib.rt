//! The abstract network as a program plays it, whoever makes the turns. The definitions that it is held against are those of
//! `ken_model`.
#![tactic(auto)]

mod actors;
mod faults;
mod kinds;
mod laws;
mod network;
mod node;
mod player;

pub use actors::Actors;
pub use faults::StepFault;
pub use kinds::{KindHeap, KindPlayer};
pub use laws::kinds_are_decided;
pub use player::{Played, Player};
