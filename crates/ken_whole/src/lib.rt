//! What the workers of a node stand for, and what their calls are as events of it: laws for a node.
#![tactic(auto)]

mod laws;

pub use laws::{
    a_meeting_keeps_the_whole, a_patch_keeps_the_whole, a_sync_keeps_the_whole,
    a_turn_keeps_the_whole, acks_keep_the_whole, an_emission_keeps_the_whole, kinds_keep_limits,
    new_workers_are_whole, sends_keep_the_whole,
};
