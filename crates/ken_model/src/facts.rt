use crate::{Items, Kind, Octets};

/// The most nodes of a run.
pub const MAX_NODES: u8 = 8;

/// The most turns of a node.
pub const MAX_TURNS: u64 = 100_000;

/// The size of a page of a heap in bytes.
pub const PAGE: u64 = 256;

/// The most pages of a heap.
pub const MAX_PAGES: u64 = 4096;

/// The most inputs of a script.
pub const MAX_INPUTS: usize = 10_000;

/// The most bytes of a message or an output.
pub const MAX_TEXT: usize = 512;

/// A message from outside.
#[derive(Debug, Drop)]
pub struct Input {
    pub node: u8,
    pub text: Octets,
}

/// What a run is of. Calls that take it ask for 1 to 8 nodes, 1 to 100,000 `turns`, a size of 1 to 4,096 pages and
/// at most 10,000 inputs, each for one of the nodes and of at most 512 bytes.
#[derive(Debug, Drop)]
pub struct Facts {
    pub nodes: u8,
    pub kind: Kind,
    /// The size of each heap in bytes: 256 for each page.
    pub size: u64,
    /// The most turns of a node.
    pub turns: u64,
    pub inputs: Items<Input>,
}
