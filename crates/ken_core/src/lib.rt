//! What a node may do, and what a group of nodes comes to whatever happens in whatever order. The definitions are in
//! `specs/`.
#![tactic(auto)]

mod bases;
mod bytes;
mod cluster;
mod copies;
mod crashes;
mod events;
mod first;
mod group;
mod heap;
mod laws;
mod ledger;
mod machine;
mod marks;
mod merging;
mod number_set;
mod pages;
mod patches;
mod posting;
mod sealing;
mod seals;
mod timeline;
mod turnovers;

pub use cluster::Cluster;
pub use events::{Event, Outcome, Told};
pub use laws::{
    call_keeps_accord, events_keep_accord, history_is_legal, puts_are_handed_in,
    restart_keeps_heap, runs_apart_keep_accord, runs_keep_accord, seal_in_doubt,
    start_is_in_accord, step_keeps_accord, turnover_in_doubt,
};
pub use timeline::Timeline;
