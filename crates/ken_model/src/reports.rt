use crate::{Items, Out, Step, Value};

/// How a run ended.
#[derive(Clone, Copy, Debug, PartialEq, Eq)]
pub enum Ending {
    /// Nothing waits, and each output was emitted.
    Settled,
    /// Each output was emitted, something waits, and all that waits is for nodes that have made all their turns.
    Cut,
}

/// A turn, as a line of a report.
#[derive(Debug, Drop)]
pub struct TurnLine {
    pub stamp: u64,
    pub step: Step,
    /// The number of the message that it took.
    pub number: u64,
}

/// An output that a node emitted.
#[derive(Debug, Drop)]
pub struct Emission {
    pub node: u8,
    pub out: Out,
}

/// A restart of a node, with the turns that it recovered.
#[derive(Clone, Copy, Debug, PartialEq, Eq)]
pub struct RestartLine {
    pub node: u8,
    pub turns: u64,
}

/// All that a report says.
#[derive(Debug, Drop)]
pub struct Lines {
    pub turns: Items<TurnLine>,
    pub emissions: Items<Emission>,
    pub restarts: Items<RestartLine>,
    /// The heap of each node.
    pub heaps: Items<Value>,
    pub ending: Ending,
    /// How many messages and inputs wait.
    pub waiting: u64,
}
