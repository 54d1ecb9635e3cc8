// A disk is saved under a path.
ghost use Rattle.std.specs.Prelude.{◌≡◌};
ghost use Rattle.ken_files.specs.Copies.{IsReadIn, Saves};

use crate::{CopyFault, Files, OpenFault, SaveFault, copy};
use ken_disk::Disk;

/// Saves a disk under a path: a fresh file is opened there, the disk is copied to it, and it is put back, also where the copying
/// failed. `Open`: the file can't be opened; what stood there may be gone.
pub fn save<D: Disk, W: Files>(disk: &mut D, path: &str, files: &mut W) -> Result<(), SaveFault>
    ensures saves { Saves (record { tells = W.tells; told = W.File.told; size = W.File.size; faults = W.File.faults })
        path.now (D.told disk.old) (W.filing files.old) (W.filing files.new) result }
    ensures disk { IsReadIn D.told D.faults D.fate result disk.old disk.new }
    ensures rest { W.rest files.new ≡ W.rest files.old }
{
    let mut file = files.found(path, true)?;
    let copied = copy(disk, &mut file);
    files.put_back(path, file);
    Ok(copied?)
}
