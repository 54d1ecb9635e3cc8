//! A heap of pages that a turn changes, and that a turn can be taken back from.
#![tactic(auto)]

mod frames;
mod heap;
mod page;
mod turn;

pub use heap::{MAX_PAGES, PageHeap};
