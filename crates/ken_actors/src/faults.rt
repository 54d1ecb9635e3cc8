use std::alloc::AllocError;
use thiserror::Error;

/// Why a step was not made. Each is tried in this order.
#[derive(Clone, Copy, Debug, PartialEq, Eq, Error)]
pub enum StepFault {
    /// The node has made all its turns.
    #[error("the node has made all its turns")]
    Capped,
    /// Nothing waits on the link.
    #[error("no message waits on the link")]
    NoMessage,
    /// The handler takes other draws for the message that waits.
    #[error("the handler takes another number of draws")]
    Draws,
    #[error("out of memory")]
    Memory,
}

impl From<AllocError> for StepFault {
    ghost use Rattle.std.specs.Prelude.{◌≡◌};
    ghost use Rattle.ken_actors.specs.declared.faults.StepFault.TheVariants.{Memory};

    ghost from_gives = { λ _ fault. fault ≡ Memory };

    fn from(_refused: AllocError) -> Self {
        StepFault::Memory
    }
}
