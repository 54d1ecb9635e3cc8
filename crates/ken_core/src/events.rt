ghost use Rattle.std.specs.Prelude.{◌≡◌};
ghost use Rattle.ken_core.specs.Clusters.{node_of};

use ken_model::Items;
use ken_record::Page;

/// What a handler was told when it makes a turnover.
#[derive(Debug, Drop)]
pub struct Told {
    /// Each page that last changed in this turn or before is safe in the image; 0 tells none.
    pub settled: u64,
    /// For each node of the run, the number through which it acknowledged the messages to it.
    pub acked: Items<u64>,
    /// The number through which the outputs were emitted.
    pub emitted: u64,
}

/// How a turnover ended.
#[derive(Clone, Copy, Debug, PartialEq, Eq)]
pub enum Outcome {
    /// It was made.
    Whole,
    /// It was cut, and made all the same; the node is down.
    Landed,
    /// It was cut and not made; the node is down.
    Lost,
}

/// Something that happens at one node.
#[derive(Debug, Drop)]
pub enum Event {
    /// A turn is sealed: the next message of `from` is taken with these draws, and changes these pages.
    Seal {
        node: u8,
        from: u8,
        draws: Items<u64>,
        pages: Items<Page>,
    },
    /// A seal is cut. It landed or not, and the node is down.
    SealCut {
        node: u8,
        from: u8,
        draws: Items<u64>,
        pages: Items<Page>,
        landed: bool,
    },
    /// A page of the oldest record to patch is written to the image.
    Patch {
        node: u8,
        page: u32,
    },
    /// The image is synced.
    SyncImage {
        node: u8,
    },
    /// A base takes the place of the live records.
    Turnover {
        node: u8,
        outcome: Outcome,
        told: Told,
    },
    /// The mail of the i-th message to `to` past the acknowledged number is put, counted from 0.
    Send {
        node: u8,
        to: u8,
        i: u64,
    },
    /// What was consumed from `from` is acknowledged.
    Ack {
        node: u8,
        from: u8,
    },
    /// An acknowledgement of `from` through this number is taken.
    TakeAck {
        node: u8,
        from: u8,
        through: u64,
    },
    /// The next output is emitted.
    Emit {
        node: u8,
    },
    /// The node crashes, and the open pages hold these bytes.
    Crash {
        node: u8,
        pages: Items<Page>,
    },
    /// The node recovers.
    Recover {
        node: u8,
    },
}

impl Event {
    /// The node at which it happens.
    pub fn node(&self) -> u8
        ensures { result ≡ node_of self.now }
    {
        match self {
            Event::Seal { node, .. }
            | Event::SealCut { node, .. }
            | Event::Patch { node, .. }
            | Event::SyncImage { node }
            | Event::Turnover { node, .. }
            | Event::Send { node, .. }
            | Event::Ack { node, .. }
            | Event::TakeAck { node, .. }
            | Event::Emit { node }
            | Event::Crash { node, .. }
            | Event::Recover { node } => *node,
        }
    }
}
