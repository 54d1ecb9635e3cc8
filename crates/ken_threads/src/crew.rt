// A node's workers as a round takes and leaves them.
use ken_net::Links;
use ken_ship::{NodeFault, SendWorker};
use ken_work::{PatchWorker, TurnWorker};

/// The faults at which a node's workers stopped, each at its first.
#[derive(Clone, Copy, Debug, PartialEq, Eq)]
pub struct Faults {
    pub handler: Option<NodeFault>,
    pub patcher: Option<NodeFault>,
    pub externaliser: Option<NodeFault>,
}

/// A node's three workers with all that they work on.
#[derive(Drop)]
pub struct Crew<D, O, U> {
    pub turns: TurnWorker<D>,
    pub patches: PatchWorker<D>,
    pub sends: SendWorker,
    pub oracle: O,
    pub outlet: U,
    /// The links of the mail that leaves the node.
    pub mail: Links,
    /// And those of its acknowledgements.
    pub acks: Links,
    /// At what they stopped in the last round.
    pub faults: Faults,
}
