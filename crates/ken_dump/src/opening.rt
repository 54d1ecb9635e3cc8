// The files of a node's disks are opened.
ghost use Rattle.std.specs.Prelude.{◌≡◌, IfOk};
ghost use Rattle.ken_dump.specs.Openings.{of_open, OpensBy};
ghost use Rattle.ken_dump.specs.Out.{AreApart, ArePaths};

use crate::DumpFault;
use ken_files::{Files, OpenFault, path};
use ken_store::Disks;
use std::alloc::{AllocError, Global};

/// The paths of a node's disks.
#[derive(Debug, Drop)]
pub(crate) struct Paths {
    pub(crate) log: String,
    pub(crate) image: String,
    pub(crate) second: String,
}

impl Paths {
    /// The paths of this node's disks. The error is want of memory.
    pub(crate) fn of(alloc: Global, prefix: &str, node: u8) -> Result<Paths, AllocError>
        ensures { IfOk result (ArePaths prefix.now node) }
    {
        Ok(Paths {
            log: path(alloc, prefix, node, 0)?,
            image: path(alloc, prefix, node, 1)?,
            second: path(alloc, prefix, node, 2)?,
        })
    }
}

/// Opens the files of a node's disks for reading, or none: each that was opened before one that can't be is put back.
pub(crate) fn open<W: Files>(paths: &Paths, files: &mut W) -> Result<Disks<W::File>, DumpFault>
    requires { AreApart paths.now }
    ensures opens { OpensBy (record { tells = W.tells; told = W.File.told; size = W.File.size; faults = W.File.faults })
        paths.now (W.filing files.old) (W.filing files.new) result }
    ensures rest { W.rest files.new ≡ W.rest files.old }
{
    let log = match files.found(paths.log.as_str(), false) {
        Ok(log) => log,
        Err(fault) => return Err(of_open(0, fault)),
    };
    let image = match files.found(paths.image.as_str(), false) {
        Ok(image) => image,
        Err(fault) => {
            files.put_back(paths.log.as_str(), log);
            return Err(of_open(1, fault));
        }
    };
    match files.found(paths.second.as_str(), false) {
        Ok(second) => Ok(Disks { log, image, second }),
        Err(fault) => {
            files.put_back(paths.image.as_str(), image);
            files.put_back(paths.log.as_str(), log);
            Err(of_open(2, fault))
        }
    }
}

// The fault of an opening, of this disk.
fn of_open(disk: u8, fault: OpenFault) -> DumpFault
    ensures { result ≡ of_open disk fault }
{
    match fault {
        OpenFault::Failed => DumpFault::Open { disk },
        OpenFault::Memory => DumpFault::Memory,
    }
}
