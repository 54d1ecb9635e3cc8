// Files under paths.
ghost use Rattle.std.specs.Prelude.{◌≡◌, Bool, true};
ghost use Rattle.ken_files.specs.Filing.{FileViews, Filing, Finds, PutsBack};

use crate::OpenFault;
use ken_disk::Disk;

/// Files under paths, each of which is a disk while it is open. A path is text, and what it leads to is the implementation's
/// own affair: to a folder of the system, or to memory.
pub trait Files {
    /// A file that is open.
    type File: Disk + Drop;

    /// All else that contracts see of it.
    ghost Rest: { Type 0 };

    /// What stands under each path, how many openings failed, and where a file may be put back.
    ghost filing: { Self → Filing Self.File };

    /// Whether it tells what stands under its paths, and its files what they hold.
    ghost tells: { Bool };

    /// This, which its calls leave alone.
    ghost rest: { Self → Rest };

    /// Opens the file under a path: an empty one in the place of what may stand there where it is to be fresh, and else the one
    /// that stands there, for reading. Nothing is pending in it, and no call of it has failed. `Failed`: it can't be opened, or
    /// isn't there.
    fn found(&mut self, path: &str, fresh: bool) -> Result<Self::File, OpenFault>
        ensures finds { Finds (record { tells = tells; told = Self.File.told; size = Self.File.size; faults = Self.File.faults })
            path.now fresh (filing self.old) (filing self.new) result }
        ensures rest { rest self.new ≡ rest self.old };

    /// Puts a file back that was opened under this path. `found` has made the room, so this takes no memory.
    fn put_back(&mut self, path: &str, file: Self::File)
        requires { (filing self.old).room path.now ≡ true }
        ensures puts { PutsBack (record { tells = tells; told = Self.File.told; size = Self.File.size; faults = Self.File.faults })
            path.now file (filing self.old) (filing self.new) }
        ensures rest { rest self.new ≡ rest self.old };
}
