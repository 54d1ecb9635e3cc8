ghost use Rattle.std.specs.Prelude.{◌≡◌, ◌≤◌, IfOk};
ghost use Rattle.ken_links.specs.Rings.{free, IsRing};

use ken_links::{PopEnd, PushEnd, ring};
use ken_model::{Octets, Out, Shared};
use ken_ship::{Sealed, SendWorker, Told};
use std::alloc::{AllocError, Global};

// The externaliser of node 0 of a run of so many nodes, with the ends of its rings that its handler holds.
#[derive(Drop)]
pub(crate) struct Desk {
    pub worker: SendWorker,
    pub sealed: PushEnd<Sealed>,
    pub told: PopEnd<Told>,
}

pub(crate) fn new_desk(alloc: Global, nodes: u8) -> Result<Desk, AllocError>
    requires { (1 ≤ nodes) × (nodes ≤ 8) }
    ensures node { IfOk result (λ d. (d.worker.backlog.node ≡ 0) × (d.worker.nodes ≡ nodes)) }
    ensures free { IfOk result (λ d. (free d.sealed ≡ 64) × (free d.worker.told ≡ 64)) }
    ensures rings { IfOk result (λ d. IsRing d.sealed d.worker.sealed × IsRing d.worker.told d.told) }
{
    let (sealed, pop) = ring(alloc)?;
    let (push, told) = ring(alloc)?;
    let worker = SendWorker::new(alloc, 0, nodes, pop, push)?;
    Ok(Desk {
        worker,
        sealed,
        told,
    })
}

// Outputs with the numbers from `first` up to `end`, without that.
pub(crate) fn outs(alloc: Global, first: u64, end: u64) -> Result<Vec<Out>, AllocError> {
    let mut outs = Vec::new(alloc);
    for number in first..end {
        outs.push(Out {
            number,
            text: Octets::new(Vec::from_slice(alloc, b"o")?),
        })?;
    }
    Ok(outs)
}

// A turn that outputs two.
pub(crate) fn emitting(alloc: Global) -> Result<Sealed, AllocError> {
    Ok(Sealed {
        turn: 1,
        stamp: 1,
        sends: Shared::empty(),
        outs: Shared::new(alloc, outs(alloc, 1, 3)?)?,
    })
}
