// What the ends of a wire know. No value of these types is made: contracts alone see them.
use ken_model::{Message, Octets};
use std::collections::LinkedList;

/// What a node has put on a wire, and what it handed in with that: sealed messages, and nodes, each with a number up to
/// which its messages were consumed.
pub struct Sent {
    pub put: LinkedList<Octets>,
    pub sealed: LinkedList<Message>,
    pub consumed: LinkedList<(u8, u64)>,
}

/// What one end knows. An end that sends knows its node and what it sent. The end that takes knows what it heard, how many
/// sending ends were made, one for each node from 0 on, and what those that came back had sent.
pub struct View {
    pub sends: bool,
    pub from: u8,
    pub sent: Sent,
    pub takes: bool,
    pub heard: LinkedList<Octets>,
    pub made: u8,
    pub joined: LinkedList<Sent>,
}
