// A store's answer, as a worker's.
ghost use Rattle.std.specs.Prelude.{◌≡◌};
ghost use Rattle.ken_work.specs.Faults.{node_answer};

use ken_ship::NodeFault;
use ken_store::StoreFault;

/// A store's answer, as a worker's: the same, but for its type.
pub fn answered<T>(answer: Result<T, StoreFault>) -> Result<T, NodeFault>
    ensures { result ≡ node_answer answer }
{
    match answer {
        Ok(value) => Ok(value),
        Err(StoreFault::Disk) => Err(NodeFault::Disk),
        Err(StoreFault::Memory) => Err(NodeFault::Memory),
        Err(StoreFault::Damaged { disk, place }) => Err(NodeFault::Damaged { disk, place }),
    }
}
