ghost use Rattle.ken_ship.specs.Fits.{AreSent};

use ken_model::{MAX_NODES, Out, Shared};
use ken_record::Sent;

/// What a node's handler hands to its externaliser: what a sealed turn sent and output.
#[derive(Debug, Drop)]
pub struct Sealed {
    /// The turn's place among those of its node, from 1.
    pub turn: u64,
    /// Its stamp, from 1.
    pub stamp: u64,
    /// What it sent, in order. Each can be spelled as mail.
    pub sends: Shared<Sent>,
    /// What it output, in order.
    pub outs: Shared<Out>,
    ghost fits: { AreSent stamp sends },
}

/// How far a node's messages and outputs came.
#[derive(Clone, Copy, Debug, Drop, PartialEq, Eq)]
pub struct Progress {
    /// For each of the nodes 0 to 7 the number through which it acknowledged the messages to it.
    pub acked: [u64; MAX_NODES as usize],
    /// The number through which the outputs were emitted.
    pub emitted: u64,
}

/// What a node's externaliser tells its handler, and when.
#[derive(Clone, Copy, Debug, Drop, PartialEq, Eq)]
pub struct Told {
    /// How many turns it had been handed by then: the number of the last one.
    pub by: u64,
    /// How far its messages and outputs came.
    pub progress: Progress,
}

impl Progress {
    ghost use Rattle.std.specs.Prelude.{◌≡◌, ◌<◌, max, slice_index, slice_set};

    // Raises the number of a node. A number that isn't larger than each before changes nothing.
    pub(crate) fn raise(&mut self, node: u8, through: u64)
        requires { node < 8 }
        ensures { self.new ≡ record self.old { acked = slice_set self.old.acked node (max (slice_index self.old.acked node) through) } }
    {
        let number = &mut self.acked[usize::from(node)];
        *number = (*number).max(through);
    }
}
