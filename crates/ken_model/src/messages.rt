use crate::{Items, Octets, Shared, Single};

/// The sender of a script's inputs, which is no node.
pub const OUTSIDE: u8 = 255;

/// A message of the link (from, to).
#[derive(Debug, Drop)]
pub struct Message {
    pub from: u8,
    pub to: u8,
    /// Its place on its link, from 1.
    pub number: u64,
    /// The stamp of the turn that sent it, 0 for an input.
    pub stamp: u64,
    pub bytes: Octets,
}

/// What a handler sends, before it has a number.
#[derive(Debug, Drop)]
pub struct Send {
    pub to: u8,
    pub bytes: Octets,
}

/// A turn of a node, by what may differ between two runs: whose message comes next, and what was drawn.
#[derive(Debug, Drop)]
pub struct Step {
    pub node: u8,
    pub from: u8,
    pub draws: Shared<u64>,
}

/// An output of a node.
#[derive(Debug, Drop)]
pub struct Out {
    /// Its place among the node's outputs, from 1.
    pub number: u64,
    pub text: Octets,
}

impl Single for Out {
    fn alone(&self) -> &[Out] {
        std::slice::from_ref(self)
    }
}

/// What a step did.
#[derive(Debug, Drop)]
pub struct Done {
    pub stamp: u64,
    /// The number of the message that it took.
    pub number: u64,
    /// What its node sent, in order.
    pub sends: Items<Message>,
    /// What its node output, in order.
    pub outs: Items<Out>,
}
