ghost use Rattle.std.specs.Prelude.{◌≡◌};
ghost use Rattle.ken_store.specs.declared.faults.StoreFault.TheVariants.{Memory};
ghost use Rattle.ken_store.specs.Reads.{of_disk, of_image, of_seal, of_log};

use crate::disks::Which;
use ken_disk::DiskFault;
use ken_image::ImageFault;
use ken_log::{LogFault, SealFault};
use std::alloc::AllocError;
use thiserror::Error;

/// Why a call of a store was not done.
#[derive(Clone, Copy, Debug, PartialEq, Eq, Error)]
pub enum StoreFault {
    /// By the bytes of its disks there is no store: the item at this place of this disk is wrong.
    #[error("disk {disk} is damaged at {place}")]
    Damaged { disk: u8, place: u64 },
    /// A disk failed, and counted a fault.
    #[error("a disk failed")]
    Disk,
    #[error("out of memory")]
    Memory,
}

impl From<DiskFault> for StoreFault {
    ghost from_gives = { λ fault e. e ≡ of_disk fault };

    fn from(fault: DiskFault) -> Self {
        match fault {
            DiskFault::Failed => StoreFault::Disk,
            DiskFault::Memory => StoreFault::Memory,
        }
    }
}

impl From<ImageFault> for StoreFault {
    ghost from_gives = { λ fault e. e ≡ of_image fault };

    fn from(fault: ImageFault) -> Self {
        match fault {
            ImageFault::Disk => StoreFault::Disk,
            ImageFault::Memory => StoreFault::Memory,
        }
    }
}

impl From<SealFault> for StoreFault {
    ghost from_gives = { λ fault e. e ≡ of_seal fault };

    fn from(fault: SealFault) -> Self {
        match fault {
            SealFault::Disk => StoreFault::Disk,
            SealFault::Memory => StoreFault::Memory,
        }
    }
}

impl From<AllocError> for StoreFault {
    ghost from_gives = { λ _ fault. fault ≡ Memory };

    fn from(_refused: AllocError) -> Self {
        StoreFault::Memory
    }
}

// The fault of a log on its disk.
pub(crate) fn of_log(which: Which, fault: LogFault) -> StoreFault
    ensures { result ≡ of_log which fault }
{
    match fault {
        LogFault::Unformatted => StoreFault::Damaged {
            disk: which.number(),
            place: 0,
        },
        LogFault::Damaged { place } => StoreFault::Damaged {
            disk: which.number(),
            place,
        },
        LogFault::Disk => StoreFault::Disk,
        LogFault::Memory => StoreFault::Memory,
    }
}
