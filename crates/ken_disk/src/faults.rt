use std::alloc::AllocError;
use thiserror::Error;

/// Why a call of a disk was not done.
#[derive(Clone, Copy, Debug, PartialEq, Eq, Error)]
pub enum DiskFault {
    /// The disk failed, and counted a fault.
    #[error("the disk failed")]
    Failed,
    /// There wasn't memory for the call. Nothing was done.
    #[error("out of memory")]
    Memory,
}

impl From<AllocError> for DiskFault {
    ghost use Rattle.std.specs.Prelude.{◌≡◌};
    ghost use Rattle.ken_disk.specs.declared.faults.DiskFault.TheVariants.{Memory};

    ghost from_gives = { λ _ e. e ≡ Memory };

    fn from(_: AllocError) -> Self {
        DiskFault::Memory
    }
}
