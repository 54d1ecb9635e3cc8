use ken_io::Failed;
use std::alloc::AllocError;
use thiserror::Error;

/// Why a report isn't printed whole.
#[derive(Clone, Copy, Debug, PartialEq, Eq, Error)]
pub enum ReportFault {
    /// A call of the sink failed.
    #[error("a write failed")]
    Failed,
    /// There wasn't memory for a line.
    #[error("out of memory")]
    Memory,
}

impl From<Failed> for ReportFault {
    ghost use Rattle.std.specs.Prelude.{◌≡◌};
    ghost use Rattle.ken_report.specs.declared.faults.ReportFault.TheVariants.{Failed};

    ghost from_gives = { λ _ e. e ≡ Failed };

    fn from(_: Failed) -> Self {
        ReportFault::Failed
    }
}

impl From<AllocError> for ReportFault {
    ghost use Rattle.std.specs.Prelude.{◌≡◌};
    ghost use Rattle.ken_report.specs.declared.faults.ReportFault.TheVariants.{Memory};

    ghost from_gives = { λ _ e. e ≡ Memory };

    fn from(_: AllocError) -> Self {
        ReportFault::Memory
    }
}
