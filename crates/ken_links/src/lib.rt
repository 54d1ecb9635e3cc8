//! Rings between the workers of a node: first in, first out, and never full.
#![tactic(auto)]

mod pop_end;
mod push_end;
mod rings;

pub use pop_end::PopEnd;
pub use push_end::{PushEnd, SLOTS};
pub use rings::{beside, empty, is_drained, ring};
