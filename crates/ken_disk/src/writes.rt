ghost use Rattle.std.specs.Prelude.{◌+◌, ◌≤◌, ◌∷◌, [], length};
ghost use Rattle.ken_disk.specs.Causes.{HasCause};
ghost use Rattle.ken_disk.specs.Fates.{Suffers};
ghost use Rattle.ken_disk.specs.Story.{IsAtRest, Follows};
ghost use Rattle.ken_disk.specs.Steps.{SizeAfter};
ghost use Rattle.ken_disk.specs.Through.{WroteThrough};
ghost use Rattle.ken_disk.specs.Writes.{Made};

use crate::{Disk, DiskFault, MAX_LEN};

/// Writes `bytes` from the place `at` on, and syncs. After Ok they are safe. After Failed a crash may leave any part of
/// them. After Memory nothing is written.
pub fn write_through<D: Disk>(disk: &mut D, at: u64, bytes: &[u8]) -> Result<(), DiskFault>
    requires place { at ≤ D.size disk.old }
    requires end { at + length bytes.now ≤ MAX_LEN }
    ensures calls { Follows (Made result ((at, bytes.now) ∷ [])) (D.told disk.old) (D.told disk.new) }
    ensures story { Follows (λ h s. IsAtRest h.now → WroteThrough at bytes.now result h s) (D.told disk.old) (D.told disk.new) }
    ensures size { SizeAfter at (length bytes.now) result (D.size disk.old) (D.size disk.new) }
    ensures cause { HasCause (D.faults disk.old) (D.faults disk.new) result }
    ensures fate { Follows (Suffers result) (D.fate disk.old) (D.fate disk.new) }
{
    disk.write(at, bytes)?;
    disk.sync()
}
