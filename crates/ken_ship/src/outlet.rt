ghost use Rattle.std.specs.Prelude.{◌≡◌, ℕ, List};
ghost use Rattle.std.specs.declared.option.Option.{Option};
ghost use Rattle.ken_model.specs.declared.messages.Out.{Out};
ghost use Rattle.ken_ship.specs.Causes.{HasCause};
ghost use Rattle.ken_ship.specs.Fates.{Fate, Suffers, Follows};
ghost use Rattle.ken_ship.specs.Outlets.{if_taken, also_took};

use crate::OutFault;

/// Where a node's outputs go to the outside.
pub trait Outlet {
    /// What it took with `Ok`, oldest first, where it tells.
    ghost took: { Self → Option (List Out) };

    /// Whose it is, how many calls were made and which fail, where it tells this: it then fails only at the calls of a list.
    ghost fate: { Self → Option Fate };

    /// How many calls have failed. An implementation may let the count stand at 2^64 - 1.
    ghost faults: { Self → ℕ };

    /// Emits a node's output with its number. After an error it tells of no output more: after `Memory` nothing was
    /// emitted, and after `Failed` nothing is known of what the outside saw.
    fn emit(&mut self, number: u64, text: &[u8]) -> Result<(), OutFault>
        ensures took { took self.new ≡ also_took (if_taken result (record { number = number; text = text.now })) (took self.old) }
        ensures cause { HasCause (faults self.old) (faults self.new) result }
        ensures fate { Follows (Suffers result) (fate self.old) (fate self.new) };
}
