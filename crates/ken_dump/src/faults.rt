use std::alloc::AllocError;
use thiserror::Error;

/// Why a node's files were not dumped.
#[derive(Clone, Copy, Debug, PartialEq, Eq, Error)]
pub enum DumpFault {
    /// The file of that disk can't be opened.
    #[error("the file of disk {disk} can't be opened")]
    Open { disk: u8 },
    /// That file failed while it was read.
    #[error("the file of disk {disk} failed")]
    Device { disk: u8 },
    /// Its bytes are none that a node writes, from this place on.
    #[error("disk {disk} is damaged at {place}")]
    Damaged { disk: u8, place: u64 },
    #[error("out of memory")]
    Memory,
}

impl From<AllocError> for DumpFault {
    ghost use Rattle.std.specs.Prelude.{◌≡◌};
    ghost use Rattle.ken_dump.specs.declared.faults.DumpFault.TheVariants.{Memory};

    ghost from_gives = { λ _ e. e ≡ Memory };

    fn from(_: AllocError) -> Self {
        DumpFault::Memory
    }
}
