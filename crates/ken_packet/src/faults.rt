use std::alloc::AllocError;
use thiserror::Error;

/// Why no packet was read.
#[derive(Clone, Copy, Debug, Drop, PartialEq, Eq, Error)]
pub enum PacketFault {
    /// The bytes are no packet.
    #[error("the bytes are no packet")]
    BadPacket,
    #[error("out of memory")]
    Memory,
}

impl From<AllocError> for PacketFault {
    ghost use Rattle.std.specs.Prelude.{◌≡◌};
    ghost use Rattle.ken_packet.specs.declared.faults.PacketFault.TheVariants.{Memory};

    ghost from_gives = { λ _ fault. fault ≡ Memory };

    fn from(_refused: AllocError) -> Self {
        PacketFault::Memory
    }
}
