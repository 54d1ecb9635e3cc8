//! Bytes that are compared many at a time.
#![tactic(auto)]

mod compare;

pub use compare::{equal_page, first_difference};
