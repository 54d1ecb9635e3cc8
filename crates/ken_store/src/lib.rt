//! The store of a node: a heap of objects that survives any crash, on the disks of its logs and its image.
#![tactic(auto)]

mod apart;
mod base_of;
mod base_size;
mod bases;
mod calls;
mod creation;
mod disks;
mod faults;
mod handing;
mod heads;
mod heap;
mod kept;
mod laws;
mod may_seal;
mod numbers;
mod owner;
mod patch_laws;
mod patching;
mod recovery;
mod resume;
mod short_base;
mod state;
mod store;
mod syncs;
mod telling;
mod together;
mod turning;
mod turnover;
mod waiting;

pub use apart::{
    abort_keeps_apart, apart_recovers, begin_keeps_apart, hand_keeps_apart, patch_keeps_apart,
    patch_keeps_told, patch_recovers_apart, patches_are_behind, room_keeps_apart, seal_keeps_apart,
    seal_keeps_told, seal_recovers_apart, sync_keeps_apart, sync_keeps_told, sync_recovers_apart,
    told_is_sealed, told_is_settled, turn_keeps_apart, turnover_keeps_apart,
    turnover_recovers_apart, unsealed_recovers_apart, waiting_keeps_settled, waiting_may_be_handed,
    work_keeps_apart, work_may_be_undone, work_stands_undone,
};
pub use creation::create;
pub use disks::Disks;
pub use faults::StoreFault;
pub use laws::standing_stores;
pub use may_seal::SEAL_ROOM;
pub use patch_laws::{
    hand_keeps_ahead, hand_keeps_settled, patch_keeps_ahead, patch_keeps_settled,
    recovery_is_ahead, seal_alone_keeps_ahead, seal_alone_keeps_settled, seal_keeps_ahead,
    seal_keeps_settled, settled_pages_are_clean, start_is_ahead, sync_keeps_ahead,
    sync_keeps_settled, turnover_keeps_ahead, turnover_keeps_settled,
};
pub use patching::PatchSide;
pub use recovery::recover;
pub use store::{Recovered, Store};
pub use syncs::{a_creation_takes_three_syncs, a_seal_takes_two_syncs, a_turnover_keeps_the_syncs};
pub use turning::TurnSide;
