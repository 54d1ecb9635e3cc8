//! Frames: pages of bytes of one fixed size.
#![tactic(auto)]

mod frame;
mod raw;
mod shelf;

pub use frame::{FRAME, Frame};
pub use shelf::Shelf;

// Both may go to other threads and be shared among them.
fn may_cross<T: Send + Sync>() {}

fn they_cross() {
    may_cross::<Frame>();
    may_cross::<Shelf>();
}
