//! What a node's three workers make side by side, as events of the node: laws, which nothing runs yet.
#![tactic(auto)]

mod laws;
mod taking;

pub use laws::{
    a_call_and_a_meeting, a_failed_turn_comes_last, a_handler_goes_on, a_meeting_is_up,
    a_patcher_goes_on, a_run_is_over_more, a_sender_goes_on, calm_events_emit_in_order,
    no_disk_failed, one_disk_failed, puts_hand_in_themselves, rounds_keep_group,
    steps_and_a_meeting, steps_side_by_side, up_is_on, what_is_heard_comes,
};
pub use taking::Taking;
