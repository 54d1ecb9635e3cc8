use crate::sent::Sent;
use ken_model::{Out, Shared};

/// What a sealed turn did, but for its place among the turns of its node and the pages that it changed.
#[derive(Debug, Drop)]
pub struct Effects {
    /// The sender of the message that it took: a node, or 255 for the outside.
    pub from: u8,
    /// The number of that message, from 1.
    pub number: u64,
    /// Its stamp, from 1.
    pub stamp: u64,
    pub draws: Shared<u64>,
    /// What it sent, in order.
    pub sends: Shared<Sent>,
    /// What it output, in order.
    pub outs: Shared<Out>,
}
