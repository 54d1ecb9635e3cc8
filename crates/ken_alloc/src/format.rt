// A heap with no block.
ghost use Rattle.std.specs.Prelude.{◌≡◌, ◌*◌, ◌≤◌, length, IsSome, OnOk};
ghost use Rattle.ken_frame.specs.Written.{written};
ghost use Rattle.ken_model.specs.Layout.{first_bytes};

use crate::head;
use ken_model::{CELLS, Head, empty_header};
use ken_pages::{MAX_PAGES, PageHeap};
use std::alloc::AllocError;

// Writes root 0, the name, the number of pages, and one gap.
pub(crate) fn format(pages: &mut PageHeap, count: u32) -> Result<(), AllocError>
    requires begun { IsSome pages.old.begun }
    requires some { 1 ≤ count }
    requires most { count ≤ MAX_PAGES }
    requires size { length pages.old.bytes ≡ 256 * count }
    ensures bytes { OnOk result (pages.new.bytes ≡ written pages.old.bytes 0 (first_bytes count)) }
    ensures begun { pages.new.begun ≡ pages.old.begun }
{
    pages.write(0, &empty_header(count))?;
    let gap = Head {
        span: (head::size(pages) - CELLS) as u32,
        len: 0,
    };
    head::write(pages, CELLS, gap)
}
