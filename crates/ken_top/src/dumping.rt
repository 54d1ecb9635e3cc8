// What a node's files recover to is written.
ghost use Rattle.std.specs.Prelude.{◌≡◌, ◌<◌, ◌≤◌, ℕ};
ghost use Rattle.ken_drive.specs.Clauses.{files_of};
ghost use Rattle.ken_model.specs.declared.facts.TheConstants.{MAX_NODES, MAX_PAGES};
ghost use Rattle.ken_top.specs.Does.{TellsNode};
ghost use Rattle.ken_top.specs.Statuses.{of_dumping};

use crate::status::Status;
use crate::writing::written;
use ken_drive::World;
use ken_dump::{DumpFault, dump};
use ken_io::Sink;
use std::alloc::Global;

/// Recovers what the files of a node under the prefix hold, and writes it as text. No file changes, and the world keeps what it kept.
pub(crate) fn dumped<K: Sink, W: World>(
    alloc: Global,
    prefix: &str,
    node: u8,
    nodes: u8,
    pages: u32,
    sink: &mut K,
    world: &mut W,
) -> Status
    requires node { node < nodes }
    requires nodes { nodes ≤ MAX_NODES }
    requires some { 1 ≤ pages }
    requires most { pages ≤ MAX_PAGES }
    ensures tells { TellsNode K.Sink (files_of W.File.Disk W.tells) (record { node = node; nodes = nodes; pages = pages })
        prefix.now (W.filing world.old) (W.filing world.new) sink.old sink.new result }
    ensures kept { (v : ℕ) → W.kept world.new v ≡ W.kept world.old v }
{
    match dump(alloc, prefix, node, nodes, pages, world) {
        Ok(text) => written(sink, text.as_slice(), Status::Dumped),
        Err(fault) => not_dumped(node, fault),
    }
}

/// The status of a node that isn't dumped for this fault.
fn not_dumped(node: u8, fault: DumpFault) -> Status
    ensures { result ≡ of_dumping node fault }
{
    match fault {
        DumpFault::Open { disk } => Status::Open { node, disk },
        DumpFault::Device { disk } => Status::Device { node, disk },
        DumpFault::Damaged { disk, place } => Status::Damaged { node, disk, place },
        DumpFault::Memory => Status::Memory,
    }
}
