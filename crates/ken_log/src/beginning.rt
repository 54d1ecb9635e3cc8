// A log is written over what a disk held.
ghost use Rattle.std.specs.Prelude.{◌≡◌, ◌+◌, ◌≤◌, ◌∷◌, [], length, get_or, true, false, ◌⊎◌, OnOk, OnErr, IfOk};
ghost use Rattle.ken_disk.specs.Causes.{HasCause};
ghost use Rattle.ken_disk.specs.Fates.{Suffers};
ghost use Rattle.ken_disk.specs.Story.{Tells, Follows};
ghost use Rattle.ken_log.specs.Calls.{closing, first_writes, MadeAfterRead};

use crate::log::{CLOSED, OPEN};
use crate::opening::open_gate;
use ken_disk::{Disk, DiskFault, MAX_LEN, write_through};

// Closes the first gate, and then opens it on `body`: a header, its base, and the next gate.
pub(crate) fn begin<D: Disk>(disk: &mut D, body: &[u8]) -> Result<(), DiskFault>
    requires { 1 + length body.now ≤ MAX_LEN }
    ensures calls { Follows (λ h s. MadeAfterRead result (first_writes body.now h.now.seen) h s) (D.told disk.old) (D.told disk.new) }
    ensures size { OnOk result (1 + length body.now ≤ D.size disk.new) }
    ensures cause { HasCause (D.faults disk.old) (D.faults disk.new) result }
    ensures fate { Follows (Suffers result) (D.fate disk.old) (D.fate disk.new) }
{
    close_first_gate(disk)?;
    open_gate(disk, 0, body)
}

// Makes the first gate a closed one, by a write of no bytes where it is.
fn close_first_gate<D: Disk>(disk: &mut D) -> Result<(), DiskFault>
    ensures calls { Follows (λ h s. MadeAfterRead result ((0, closing h.now.seen) ∷ []) h s) (D.told disk.old) (D.told disk.new) }
    ensures size { OnOk result (1 ≤ D.size disk.new) }
    ensures cause { HasCause (D.faults disk.old) (D.faults disk.new) result }
    ensures fate { Follows (Suffers result) (D.fate disk.old) (D.fate disk.new) }
{
    if first_gate_is_closed(disk)? {
        write_through(disk, 0, &[])
    } else {
        write_through(disk, 0, &[CLOSED])
    }
}

// Whether the first gate is there and closed.
fn first_gate_is_closed<D: Disk>(disk: &mut D) -> Result<bool, DiskFault>
    ensures there { IfOk result (λ is. is ≡ true → 1 ≤ D.size disk.old) }
    ensures closed { IfOk result (λ is. is ≡ true → Tells (D.told disk.old) (λ h. get_or h.now.seen 0 0 ≡ 165 → ⊥)) }
    ensures open { IfOk result (λ is. is ≡ false → Tells (D.told disk.old) (λ h. (length h.now.seen ≡ 0) ⊎ (get_or h.now.seen 0 0 ≡ 165))) }
    ensures story { D.told disk.new ≡ D.told disk.old }
    ensures size { D.size disk.new ≡ D.size disk.old }
    ensures cause { HasCause (D.faults disk.old) (D.faults disk.new) result }
    ensures fate { OnErr result (Follows (Suffers result) (D.fate disk.old) (D.fate disk.new)) }
    ensures same { OnOk result (D.fate disk.new ≡ D.fate disk.old) }
{
    if disk.len() == 0 {
        return Ok(false);
    }
    let mut gate = [CLOSED];
    disk.read(0, &mut gate)?;
    Ok(gate[0] != OPEN)
}
