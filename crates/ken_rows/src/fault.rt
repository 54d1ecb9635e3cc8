use hex::FromHexError;
use ken_io::{Failed, ReadFault};
use std::alloc::{AllocError, AllocFailed};
use thiserror::Error;

/// Why a program ends before all rows are answered.
#[derive(Clone, Copy, Debug, PartialEq, Eq, Error)]
pub enum RowFault {
    /// A line is no command of the program, or its arguments aren't those of the command.
    #[error("no such row")]
    Usage,
    /// Standard input couldn't be read.
    #[error("read failed")]
    Read,
    /// The transcript couldn't be written.
    #[error("write failed")]
    Write,
    /// There wasn't memory enough.
    #[error("out of memory")]
    Memory,
}

impl RowFault {
    /// The exit status of the process.
    pub(crate) fn exit_code(self) -> u8 {
        match self {
            RowFault::Usage => 1,
            RowFault::Read => 6,
            RowFault::Write => 7,
            RowFault::Memory => 8,
        }
    }
}

impl From<AllocError> for RowFault {
    fn from(_refused: AllocError) -> Self {
        RowFault::Memory
    }
}

impl<T: Drop> From<AllocFailed<T>> for RowFault {
    fn from(_refused: AllocFailed<T>) -> Self {
        RowFault::Memory
    }
}

impl From<ReadFault> for RowFault {
    fn from(fault: ReadFault) -> Self {
        match fault {
            ReadFault::Failed => RowFault::Read,
            ReadFault::Memory => RowFault::Memory,
        }
    }
}

impl From<Failed> for RowFault {
    fn from(_failed: Failed) -> Self {
        RowFault::Write
    }
}

impl From<FromHexError> for RowFault {
    fn from(fault: FromHexError) -> Self {
        match fault {
            FromHexError::OutOfMemory => RowFault::Memory,
            _ => RowFault::Usage,
        }
    }
}
