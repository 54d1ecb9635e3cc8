// How many turns a node may still make.
use crate::node::Node;
use crate::stage::Stage;
use ken_disk::Disk;

impl<D: Disk> Node<D> {
    ghost use Rattle.std.specs.Prelude.{◌≡◌};
    ghost use Rattle.ken_node.specs.Remaining.{turns_to_make};

    /// How many turns it may still make: those of the game without the ones that it has sealed for certain.
    pub fn turns_left(&self) -> u64
        ensures { result ≡ turns_to_make self.now.stage }
    {
        match &self.stage {
            Stage::Uncreated(_, parts) => parts.cap.saturating_sub(parts.turns.len() as u64),
            Stage::Created(turns, _, _) => turns.cap.saturating_sub(turns.turns().len() as u64),
            Stage::Moved => unreachable!(),
        }
    }
}
