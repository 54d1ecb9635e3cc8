use std::alloc::AllocError;
use thiserror::Error;

/// Why there are no figures.
#[derive(Clone, Copy, Debug, Error)]
pub(crate) enum Fault {
    #[error("usage: ken_bench WORK COUNTS, as the crate's README.md tells them")]
    Usage,
    #[error("out of memory")]
    Memory,
}

impl From<AllocError> for Fault {
    fn from(_refused: AllocError) -> Self {
        Fault::Memory
    }
}
