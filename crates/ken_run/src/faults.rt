use ken_ship::NodeFault;
use std::alloc::{AllocError, AllocFailed};
use thiserror::Error;

/// Why a run didn't go on.
#[derive(Clone, Copy, Debug, Drop, PartialEq, Eq, Error)]
pub enum RunFault {
    /// Bytes of a disk are none that a node writes. Over disks that keep the model it never comes.
    #[error("node {node} disk {disk} is damaged at {place}")]
    Damaged { node: u8, disk: u8, place: u64 },
    /// A disk of a node failed once more than the node may be restarted, or its outlet refused one output once too often.
    #[error("node {node} is down")]
    Down { node: u8 },
    #[error("out of memory")]
    Memory,
}

impl From<AllocError> for RunFault {
    ghost use Rattle.std.specs.Prelude.{◌≡◌};
    ghost use Rattle.ken_run.specs.declared.faults.RunFault.TheVariants.{Memory};

    ghost from_gives = { λ _ fault. fault ≡ Memory };

    fn from(_refused: AllocError) -> Self {
        RunFault::Memory
    }
}

impl<T: Drop> From<AllocFailed<T>> for RunFault {
    ghost use Rattle.std.specs.Prelude.{◌≡◌};
    ghost use Rattle.ken_run.specs.declared.faults.RunFault.TheVariants.{Memory};

    ghost from_gives = { λ _ fault. fault ≡ Memory };

    fn from(_refused: AllocFailed<T>) -> Self {
        RunFault::Memory
    }
}
