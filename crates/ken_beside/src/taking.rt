/// The packets that a run may take.
pub trait Taking {
    ghost use Rattle.ken_core.specs.Packets.{Packet};

    ghost takes: { Packet → Type 0 };
}
