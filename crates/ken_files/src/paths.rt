// Where a node's disk is saved.
ghost use Rattle.std.specs.Prelude.{◌≡◌, IfOk, string_bytes};
ghost use Rattle.ken_files.specs.Filing.{path_of};

use std::alloc::{AllocError, Global};

/// The path of a node's disk: the prefix, the node, a dot and the disk's number. The error is want of memory.
pub fn path(alloc: Global, prefix: &str, node: u8, disk: u8) -> Result<String, AllocError>
    ensures { IfOk result (λ path. string_bytes path ≡ path_of prefix.now node disk) }
{
    format!(in alloc; "{prefix}{node}.{disk}")
}
