// Whether the bytes of a heap stand for a value.
ghost use Rattle.std.specs.Prelude.{OnOk, IfErr};
ghost use Rattle.ken_model.specs.Layout.{StandsFor};
ghost use Rattle.ken_model.specs.Broken.{BreaksAt};
ghost use Rattle.ken_model.specs.Reading.{value_of};
ghost use Rattle.ken_model.specs.Checks.{HasHeader};

use crate::{Broken, head};
use ken_model::{CELLS, Head, wrong_header};
use ken_pages::PageHeap;

// Tests what stands before the cells.
fn check_header(pages: &PageHeap) -> Result<(), Broken>
    ensures header { OnOk result (HasHeader pages.now.bytes) }
    ensures place { IfErr result (λ broken. BreaksAt pages.now.bytes broken.place) }
{
    let count = pages.pages();
    let mut bytes = [0; 16];
    pages.read(0, &mut bytes);
    match wrong_header(&bytes, count) {
        Some(place) => Err(Broken { place }),
        None => Ok(()),
    }
}

// Walks the cells.
fn check_cells(pages: &PageHeap) -> Result<(), Broken>
    requires { HasHeader pages.now.bytes }
    ensures stands { OnOk result (StandsFor pages.now.bytes (value_of pages.now.bytes)) }
    ensures place { IfErr result (λ broken. BreaksAt pages.now.bytes broken.place) }
{
    let size = head::size(pages);
    let mut at = CELLS;
    let mut after_gap = false;
    while at < size {
        let mut bytes = [0; 16];
        pages.read(at, &mut bytes);
        let Some(head) = Head::of(&bytes, size - at, after_gap) else {
            return Err(Broken { place: at });
        };
        after_gap = head.len == 0;
        at += u64::from(head.span);
    }
    Ok(())
}

// Tests the name, the number of pages and then each cell.
pub(crate) fn check(pages: &PageHeap) -> Result<(), Broken>
    ensures stands { OnOk result (StandsFor pages.now.bytes (value_of pages.now.bytes)) }
    ensures place { IfErr result (λ broken. BreaksAt pages.now.bytes broken.place) }
{
    check_header(pages)?;
    check_cells(pages)
}
