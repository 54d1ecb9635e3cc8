// A node's files are opened, recovered, told as text and put back.
ghost use Rattle.std.specs.Prelude.{◌≡◌, ◌<◌, ◌≤◌};
ghost use Rattle.ken_dump.specs.Dumped.{Dumps};

use crate::DumpFault;
use crate::opening::{Paths, open};
use crate::telling::tell;
use ken_files::Files;
use ken_model::Octets;
use std::alloc::Global;

/// Tells what a node's saved disks recover to, as text: `fresh`, or its counts, its heap, what it consumed and sent, and what may
/// still be asked for. Its three files are opened for reading, nothing is written to them, and each that was opened is put back,
/// whatever the answer.
pub fn dump<W: Files>(
    alloc: Global,
    prefix: &str,
    node: u8,
    nodes: u8,
    pages: u32,
    files: &mut W,
) -> Result<Octets, DumpFault>
    requires node { node < nodes }
    requires nodes { nodes ≤ 8 }
    requires some { 1 ≤ pages }
    requires most { pages ≤ 4096 }
    ensures dumps { Dumps (record { tells = W.tells; told = W.File.told; size = W.File.size; faults = W.File.faults })
        (record { node = node; nodes = nodes; pages = pages }) prefix.now (W.filing files.old) (W.filing files.new) result }
    ensures rest { W.rest files.new ≡ W.rest files.old }
{
    let paths = Paths::of(alloc, prefix, node)?;
    let disks = open(&paths, files)?;
    let (told, disks) = tell(alloc, disks, node, nodes, pages);
    files.put_back(paths.second.as_str(), disks.second);
    files.put_back(paths.image.as_str(), disks.image);
    files.put_back(paths.log.as_str(), disks.log);
    told
}
