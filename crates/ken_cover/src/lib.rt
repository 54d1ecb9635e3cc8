//! What is said of one node's pages, and that each event of the node keeps it. The definitions are in `specs/`.
#![tactic(auto)]

mod laws;
mod layers;

pub use laws::{
    crash_keeps_coverage, crash_leaves_image, down_keeps_coverage, images_are_left, images_recover,
    patch_keeps_coverage, recovery_keeps_coverage, seal_keeps_coverage, start_is_covered,
    sync_keeps_coverage, turnover_keeps_coverage,
};
pub use layers::{Change, Layer};
