use ken_model::{Facts, Items};
use ken_net::LinkAct;

/// The longest script in bytes.
pub const LIMIT: usize = 1_048_576;

/// The pages of each heap, where a script doesn't say.
pub const DEFAULT_PAGES: u64 = 16;

/// Where the random words start, where a script doesn't say.
pub const DEFAULT_SEED: u64 = 0;

/// The most turns of a node, where a script doesn't say.
pub const DEFAULT_TURNS: u64 = 1000;

/// The most restarts of a node, where a script doesn't say.
pub const DEFAULT_RESTARTS: u64 = 64;

/// The most restarts of a node that a script may allow.
pub const MAX_RESTARTS: u64 = 1000;

/// The rounds of threads before a run is drained, where a script doesn't say.
pub const DEFAULT_ROUNDS: u64 = 0;

/// The most rounds of threads that a script may ask for.
pub const MAX_ROUNDS: u64 = 1000;

/// The most items of `cuts`.
pub const MAX_CUTS: usize = 256;

/// The most items of `mail`, and of `acks`.
pub const MAX_ACTS: usize = 1024;

/// The most items of `outlets`.
pub const MAX_OUT_FAILS: usize = 256;

/// The greatest number of a call or of a put that a script may name. They are counted from 1.
pub const MAX_COUNT: u64 = 1_000_000_000;

/// How many disks of a node a script can name: 0 is the log, 1 the image, 2 the second log.
pub const DISKS: u8 = 3;

/// The most later puts for which a script may hold a packet. The least is 1.
pub const MAX_HOLD: u8 = 8;

/// A call of a node's disk at which the disk fails.
#[derive(Clone, Copy, Debug, PartialEq, Eq)]
pub struct DiskCut {
    pub node: u8,
    /// 0 is the log, 1 the image, 2 the second log.
    pub disk: u8,
    /// The number of the call, from 1.
    pub call: u64,
    /// Which of the written bytes a restart then finds.
    pub pick: u64,
}

/// A call of a node's outlet that fails.
#[derive(Clone, Copy, Debug, PartialEq, Eq)]
pub struct OutFail {
    pub node: u8,
    /// The number of the call, from 1.
    pub call: u64,
}

/// What a script says.
#[derive(Debug, Drop)]
pub struct Script {
    pub facts: Facts,
    /// Where the random words start.
    pub seed: u64,
    /// How many rounds of threads there are before the run is drained, 0 to `MAX_ROUNDS`.
    pub rounds: u64,
    /// The most restarts of a node, 0 to `MAX_RESTARTS`.
    pub restarts: u64,
    /// The calls of disks at which a disk fails, each at most once.
    pub cuts: Items<DiskCut>,
    /// What becomes of puts of messages; at most one act for a put.
    pub mail: Items<LinkAct>,
    /// The same of puts of acknowledgements.
    pub acks: Items<LinkAct>,
    /// The calls of outlets that fail, each at most once.
    pub outlets: Items<OutFail>,
}
