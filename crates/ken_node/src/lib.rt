//! A node: its handler, its patcher and its externaliser together, from its creation over crashes and restarts.
#![tactic(auto)]

mod far;
mod laws;
mod left;
mod node;
mod restarting;
mod stage;
mod steps;
mod together;
mod watched;

pub use laws::{
    a_failed_creation_goes_down, a_failed_turn_goes_down, a_meeting_stays_down, a_node_has_synced,
    a_seal_in_doubt_goes_down, a_turnover_in_doubt_goes_down, a_whole_node_goes_down,
};
pub use node::Node;
pub use watched::Watched;
