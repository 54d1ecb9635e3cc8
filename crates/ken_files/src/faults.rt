// Why files were not opened, copied or saved.
use std::alloc::AllocError;
use thiserror::Error;

/// Why a file was not opened.
#[derive(Clone, Copy, Debug, PartialEq, Eq, Error)]
pub enum OpenFault {
    /// It can't be opened, or isn't there. This is counted.
    #[error("a file can't be opened")]
    Failed,
    #[error("out of memory")]
    Memory,
}

impl From<AllocError> for OpenFault {
    ghost use Rattle.std.specs.Prelude.{◌≡◌};
    ghost use Rattle.ken_files.specs.declared.faults.OpenFault.TheVariants.{Memory};

    ghost from_gives = { λ _ e. e ≡ Memory };

    fn from(_: AllocError) -> Self {
        OpenFault::Memory
    }
}

/// Why a disk was not copied to a file.
#[derive(Clone, Copy, Debug, PartialEq, Eq, Error)]
pub enum CopyFault {
    /// The disk failed, and counted a fault.
    #[error("the disk failed")]
    Kept,
    /// The file failed, and counted a fault.
    #[error("the file failed")]
    File,
    #[error("out of memory")]
    Memory,
}

/// Why a disk was not saved.
#[derive(Clone, Copy, Debug, PartialEq, Eq, Error)]
pub enum SaveFault {
    /// Its file can't be opened. This is counted.
    #[error("a file can't be opened")]
    Open,
    /// The disk failed, and counted a fault.
    #[error("the disk failed")]
    Kept,
    /// The file failed, and counted a fault.
    #[error("the file failed")]
    File,
    #[error("out of memory")]
    Memory,
}

impl From<OpenFault> for SaveFault {
    ghost use Rattle.std.specs.Prelude.{◌≡◌};
    ghost use Rattle.ken_files.specs.Faults.{of_open};

    ghost from_gives = { λ fault e. e ≡ of_open fault };

    fn from(fault: OpenFault) -> Self {
        match fault {
            OpenFault::Failed => SaveFault::Open,
            OpenFault::Memory => SaveFault::Memory,
        }
    }
}

impl From<CopyFault> for SaveFault {
    ghost use Rattle.std.specs.Prelude.{◌≡◌};
    ghost use Rattle.ken_files.specs.Faults.{of_copy};

    ghost from_gives = { λ fault e. e ≡ of_copy fault };

    fn from(fault: CopyFault) -> Self {
        match fault {
            CopyFault::Kept => SaveFault::Kept,
            CopyFault::File => SaveFault::File,
            CopyFault::Memory => SaveFault::Memory,
        }
    }
}
