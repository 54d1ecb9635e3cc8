// Copies of blocks.
ghost use Rattle.std.specs.Prelude.{◌≡◌, ◌+◌, ◌≤◌, length, IfOk};
ghost use Rattle.ken_model.specs.Layout.{StandsFor, part};
ghost use Rattle.ken_model.specs.Reading.{value_of};

use crate::walk::{self, Found};
use ken_model::{Block, CELLS, Octets};
use ken_pages::PageHeap;
use std::alloc::{AllocError, Global};

fn block(pages: &PageHeap, found: Found, alloc: Global) -> Result<Block, AllocError>
    requires { found.place + found.len ≤ length pages.now.bytes }
    ensures { IfOk result (λ b. b ≡ record { place = found.place; bytes = part found.place found.len pages.now.bytes }) }
{
    let mut bytes = vec![in alloc; 0; found.len as usize]?;
    pages.read(found.place, &mut bytes);
    Ok(Block {
        place: found.place,
        bytes: Octets::new(bytes),
    })
}

// All of them, in their order.
pub(crate) fn blocks(pages: &PageHeap, alloc: Global) -> Result<Vec<Block>, AllocError>
    requires { StandsFor pages.now.bytes (value_of pages.now.bytes) }
    ensures { IfOk result (λ copies. copies.items ≡ (value_of pages.now.bytes).blocks) }
{
    let mut copies = Vec::new(alloc);
    let mut from = CELLS;
    while let Some(found) = walk::block_from(pages, from) {
        copies.push(block(pages, found, alloc)?)?;
        from = found.end();
    }
    Ok(copies)
}
