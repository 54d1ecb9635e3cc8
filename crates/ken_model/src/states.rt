use crate::{Items, Message, Out};

/// What a node's log tells of it, but for its heap.
#[derive(Debug, Drop)]
pub struct State {
    /// The turns that it made.
    pub turns: u64,
    /// The stamp of the last turn, 0 where there is none.
    pub stamp: u64,
    /// Of each sender how many of its messages were consumed: nodes 0 to 7, then the outside.
    pub consumed: Items<u64>,
    /// How many messages it ever sent to each of the nodes 0 to 7.
    pub sent: Items<u64>,
    /// How many outputs it ever made.
    pub outputs: u64,
    /// What it sent and may still be asked for, by the node that it goes to and then by number, rising.
    pub messages: Items<Message>,
    /// What it output and may still have to emit, rising.
    pub outs: Items<Out>,
}
