// A node before it is created and after.
ghost use Rattle.std.specs.Prelude.{◌≡◌, ℕ};
ghost use Rattle.ken_model.specs.Game.{Game};
ghost use Rattle.ken_node.specs.Created.{IsCreation};
ghost use Rattle.ken_node.specs.Down.{AreTold};
ghost use Rattle.ken_work.specs.Faults.{IsFaultOfWorker};
ghost use Rattle.ken_node.specs.Stages.{IsUncreated, MayBeCreated};
ghost use Rattle.ken_node.specs.Synced.{IsSynced};

use ken_disk::Disk;
use ken_order::Order;
use ken_ship::{NodeFault, SendWorker};
use ken_store::{Disks, create};
use ken_work::{Parts, PatchWorker, TurnWorker, answered};

#[derive(Drop)]
pub(crate) enum Stage<D> {
    Uncreated(Disks<D>, Parts),
    Created(TurnWorker<D>, PatchWorker<D>, SendWorker),
    // Only while the node is created.
    Moved,
}

impl<D: Disk> Stage<D> {
    // Creates the node on its disks. After an error it isn't created, and has its disks.
    pub(crate) fn created(self) -> (Stage<D>, Result<(), NodeFault>)
        requires { MayBeCreated D.told self }
        ensures creation { (g : Game) (v : ℕ) (disks : Disks D) → IsUncreated g v disks self → IsCreation D.told D.size D.faults D.fate g v result.1 disks result.0 }
        ensures synced { (g : Game) (v : ℕ) (disks : Disks D) → IsUncreated g v disks self → AreTold D.told disks → IsSynced D.told D.faults g v result.0 }
        ensures here { result.0 ≡ Stage.Moved → ⊥ }
        ensures sound { IsFaultOfWorker result.1 }
    {
        match self {
            Stage::Uncreated(disks, parts) => {
                match create(parts.alloc, disks, parts.node, parts.nodes, parts.size) {
                    Ok(store) => {
                        let order = Order::new(parts.nodes);
                        let (turns, patches, sends) = parts.over(store, order);
                        (Stage::Created(turns, patches, sends), Ok(()))
                    }
                    Err((fault, disks)) => (Stage::Uncreated(disks, parts), answered(Err(fault))),
                }
            }
            Stage::Created(..) | Stage::Moved => unreachable!(),
        }
    }
}
