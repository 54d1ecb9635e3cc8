ghost use Rattle.std.specs.Prelude.{◌≡◌};
ghost use Rattle.ken_image.specs.Faults.{as_fault};

use ken_disk::DiskFault;
use thiserror::Error;

/// Why a call of an image was not done.
#[derive(Clone, Copy, Debug, PartialEq, Eq, Error)]
pub enum ImageFault {
    /// The disk failed, and counted a fault. A page that was to be written counts as written.
    #[error("the disk failed")]
    Disk,
    /// There wasn't memory. The call of the disk that wanted it did nothing.
    #[error("out of memory")]
    Memory,
}

impl From<DiskFault> for ImageFault {
    ghost from_gives = { λ fault e. e ≡ as_fault fault };

    fn from(fault: DiskFault) -> Self {
        match fault {
            DiskFault::Failed => ImageFault::Disk,
            DiskFault::Memory => ImageFault::Memory,
        }
    }
}
