//! What flows between the nodes of a run, and the group that they stand for: laws for a drive.
#![tactic(auto)]

mod laws;

pub use laws::{
    acks_go_no_further, call_keeps_group, first_are_known, first_is_in_accord, given_are_known,
    known_stays, never_more_open, passed_are_known, put_stays_put, puts_are_put, runs_keep_group,
    spelled_are_known, stamps_are_low, standstill_ends, turns_are_modest,
};
