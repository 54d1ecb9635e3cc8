ghost use Rattle.std.specs.Prelude.{◌≡◌};
ghost use Rattle.ken_store.specs.Answers.{disks_in};

use crate::disks::Disks;
use crate::patching::PatchSide;
use crate::together::together;
use crate::turning::TurnSide;
use ken_disk::Disk;
use ken_model::{Items, State};
use ken_record::Record;

/// A node's heap of objects, on the disks of its logs and its image. It is made of its two sides.
#[derive(Debug, Drop)]
pub struct Store<D> {
    pub(crate) turns: TurnSide<D>,
    pub(crate) patches: PatchSide<D>,
}

/// What a recovery finds.
#[derive(Debug, Drop)]
pub enum Recovered<D> {
    /// There is no log on any of the disks.
    Fresh(Disks<D>),
    /// A store, what its log tells but for the heap, and the records of its current log.
    Whole(Store<D>, State, Items<Record>),
}

impl<D: Disk> Store<D> {
    /// Gives the disks back as they are.
    pub fn release(self) -> Disks<D>
        ensures { result ≡ disks_in self }
    {
        let Store { turns, patches } = self;
        let TurnSide {
            log,
            which,
            other,
            ..
        } = turns;
        let PatchSide { image, .. } = patches;
        together(which, log.release(), image.release(), other)
    }
}
