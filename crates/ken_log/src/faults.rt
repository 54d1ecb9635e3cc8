ghost use Rattle.std.specs.Prelude.{◌≡◌};
ghost use Rattle.ken_log.specs.declared.faults.SealFault.TheVariants.{Memory};
ghost use Rattle.ken_log.specs.Seals.{as_fault};

use ken_disk::DiskFault;
use std::alloc::{AllocError, AllocFailed};
use thiserror::Error;

/// Why a log was not formatted, or a record not sealed.
#[derive(Clone, Copy, Debug, PartialEq, Eq, Error)]
pub enum SealFault {
    /// The disk failed, and counted a fault. Whether the gate stands open is in doubt.
    #[error("the disk failed")]
    Disk,
    /// There wasn't memory. The gate stands closed.
    #[error("out of memory")]
    Memory,
}

impl From<DiskFault> for SealFault {
    ghost from_gives = { λ fault e. e ≡ as_fault fault };

    fn from(fault: DiskFault) -> Self {
        match fault {
            DiskFault::Failed => SealFault::Disk,
            DiskFault::Memory => SealFault::Memory,
        }
    }
}

impl From<AllocError> for SealFault {
    ghost from_gives = { λ _ fault. fault ≡ Memory };

    fn from(_refused: AllocError) -> Self {
        SealFault::Memory
    }
}

/// Why a disk was not mounted.
#[derive(Clone, Copy, Debug, PartialEq, Eq, Error)]
pub enum LogFault {
    /// There is no log: the disk is shorter than 32 bytes, or its first gate is closed.
    #[error("there is no log")]
    Unformatted,
    /// The item at this place is wrong.
    #[error("the item at {place} is damaged")]
    Damaged { place: u64 },
    /// The disk failed, and counted a fault.
    #[error("the disk failed")]
    Disk,
    #[error("out of memory")]
    Memory,
}

impl<T: Drop> From<AllocFailed<T>> for LogFault {
    ghost use Rattle.std.specs.Prelude.{◌≡◌};
    ghost use Rattle.ken_log.specs.declared.faults.LogFault.TheVariants as faults;

    ghost from_gives = { λ _ fault. fault ≡ faults.Memory };

    fn from(_refused: AllocFailed<T>) -> Self {
        LogFault::Memory
    }
}
