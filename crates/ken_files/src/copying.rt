// A disk is copied to a file.
ghost use Rattle.std.specs.Prelude.{◌≡◌, ◌+◌, ◌≤◌, length, OnOk, IsErrOf};
ghost use Rattle.ken_disk.specs.Causes.{Rose};
ghost use Rattle.ken_disk.specs.Story.{Follows, Tells};
ghost use Rattle.ken_files.specs.Copies.{HasFront, IsCopy, IsNotSynced, IsReadBy, IsSyncedBy};
ghost use Rattle.ken_files.specs.Faults.{of_disk, of_file};

use crate::CopyFault;
use ken_disk::{Disk, DiskFault, MAX_LEN};

/// The most bytes of one read and one write.
const PIECE: usize = 4096;

/// Copies what a read of a disk gives to an empty file, in pieces of at most 4,096 bytes, and syncs the file. A disk is at most
/// `MAX_LEN` bytes long, as every write of it ends there; what stood past that would stay behind. After an error a front of the
/// bytes may be in the file. A file is synced exactly once, after its last piece.
pub fn copy<D: Disk, F: Disk>(disk: &mut D, file: &mut F) -> Result<(), CopyFault>
    requires empty { F.size file.old ≡ 0 }
    ensures copied { OnOk result (Tells (D.told disk.old) (λ h. Tells (F.told file.new) (IsCopy h))) }
    ensures disk { IsReadBy D.told D.faults D.fate result disk.old disk.new }
    ensures told { Follows (IsSyncedBy result) (F.told file.old) (F.told file.new) }
    ensures failed { IsErrOf result CopyFault.File → Rose (F.faults file.old) (F.faults file.new) }
    ensures no_failed_file { (IsErrOf result CopyFault.File → ⊥) → F.faults file.new ≡ F.faults file.old }
{
    let mut piece = [0; PIECE];
    let end = disk.len().min(MAX_LEN);
    let mut at = 0;
    while at < end {
        let count = (end - at).min(PIECE as u64) as usize;
        copy_piece(disk, file, at, &mut piece[..count])?;
        at += count as u64;
    }
    file.sync().map_err(of_file)
}

// Copies as many bytes from a place on as the buffer holds. The bytes before them are copied already.
fn copy_piece<D: Disk, F: Disk>(
    disk: &mut D,
    file: &mut F,
    at: u64,
    piece: &mut [u8],
) -> Result<(), CopyFault>
    requires there { at + length piece.old ≤ D.size disk.old }
    requires end { at + length piece.old ≤ MAX_LEN }
    requires size { F.size file.old ≡ at }
    requires front { HasFront at (D.told disk.old) (F.told file.old) }
    ensures front { OnOk result (HasFront (at + length piece.old) (D.told disk.new) (F.told file.new)) }
    ensures size { OnOk result (F.size file.new ≡ at + length piece.old) }
    ensures disk { IsReadBy D.told D.faults D.fate result disk.old disk.new }
    ensures disk_size { D.size disk.new ≡ D.size disk.old }
    ensures told { Follows IsNotSynced (F.told file.old) (F.told file.new) }
    ensures failed { IsErrOf result CopyFault.File → Rose (F.faults file.old) (F.faults file.new) }
    ensures no_failed_file { (IsErrOf result CopyFault.File → ⊥) → F.faults file.new ≡ F.faults file.old }
{
    disk.read(at, piece).map_err(of_disk)?;
    file.write(at, piece).map_err(of_file)
}

// The fault of the disk that is read.
fn of_disk(fault: DiskFault) -> CopyFault
    ensures { result ≡ of_disk fault }
{
    match fault {
        DiskFault::Failed => CopyFault::Kept,
        DiskFault::Memory => CopyFault::Memory,
    }
}

// The fault of the file that is written.
fn of_file(fault: DiskFault) -> CopyFault
    ensures { result ≡ of_file fault }
{
    match fault {
        DiskFault::Failed => CopyFault::File,
        DiskFault::Memory => CopyFault::Memory,
    }
}
