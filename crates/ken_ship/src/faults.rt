use std::alloc::AllocError;
use thiserror::Error;

/// Why an outlet emitted nothing, as far as it knows.
#[derive(Clone, Copy, Debug, Drop, PartialEq, Eq, Error)]
pub enum OutFault {
    /// The outlet failed: nothing is known of what the outside saw.
    #[error("the outlet failed")]
    Failed,
    /// Nothing was emitted.
    #[error("out of memory")]
    Memory,
}

impl From<AllocError> for OutFault {
    ghost use Rattle.std.specs.Prelude.{◌≡◌};
    ghost use Rattle.ken_ship.specs.declared.faults.OutFault.TheVariants.{Memory};

    ghost from_gives = { λ _ fault. fault ≡ Memory };

    fn from(_refused: AllocError) -> Self {
        OutFault::Memory
    }
}

/// Why a call of a node's worker ended early.
#[derive(Clone, Copy, Debug, Drop, PartialEq, Eq, Error)]
pub enum NodeFault {
    /// A disk of the node failed.
    #[error("a disk failed")]
    Disk,
    /// Bytes of a disk are none that a node writes.
    #[error("disk {disk} is damaged at {place}")]
    Damaged { disk: u8, place: u64 },
    /// One output was refused 65 times in a row.
    #[error("an output was refused too often")]
    Outlet,
    #[error("out of memory")]
    Memory,
}

impl From<AllocError> for NodeFault {
    ghost use Rattle.std.specs.Prelude.{◌≡◌};
    ghost use Rattle.ken_ship.specs.declared.faults.NodeFault.TheVariants.{Memory};

    ghost from_gives = { λ _ fault. fault ≡ Memory };

    fn from(_refused: AllocError) -> Self {
        NodeFault::Memory
    }
}
