ghost use Rattle.std.specs.Prelude.{◌+◌, ◌≤◌, length, OnOk, IsErrOf};
ghost use Rattle.ken_disk.specs.Causes.{HasCause};
ghost use Rattle.ken_disk.specs.Fates.{Suffers};
ghost use Rattle.ken_disk.specs.Story.{Follows};
ghost use Rattle.ken_disk.specs.Writes.{Made};
ghost use Rattle.ken_log.specs.Calls.{gate_writes};

use crate::log::OPEN;
use ken_disk::{Disk, DiskFault, MAX_LEN, write_through};

// Writes `body` behind the closed gate at the place `at`, and then opens the gate. The gate's own write comes last, so that
// what a crash leaves is what was there before, or all of it.
pub(crate) fn open_gate<D: Disk>(disk: &mut D, at: u64, body: &[u8]) -> Result<(), DiskFault>
    requires place { at + 1 ≤ D.size disk.old }
    requires room { at + (1 + length body.now) ≤ MAX_LEN }
    ensures calls { Follows (Made result (gate_writes at body.now)) (D.told disk.old) (D.told disk.new) }
    ensures size { OnOk result (at + (1 + length body.now) ≤ D.size disk.new) }
    ensures memory { IsErrOf result DiskFault.Memory → at + 1 ≤ D.size disk.new }
    ensures cause { HasCause (D.faults disk.old) (D.faults disk.new) result }
    ensures fate { Follows (Suffers result) (D.fate disk.old) (D.fate disk.new) }
{
    write_through(disk, at + 1, body)?;
    write_through(disk, at, &[OPEN])
}
