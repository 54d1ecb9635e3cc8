// The heap that an image and a log's pages come to.
ghost use Rattle.std.specs.Prelude.{◌≡◌, ◌*◌, ◌≤◌, ◌++◌, ℕ, length, take, None, IfOk, OnOk, IsErrOf};
ghost use Rattle.std.specs.List.{AllByRecursion, flat_map};
ghost use Rattle.ken_disk.specs.Story.{Tells};
ghost use Rattle.ken_cover.specs.Overlay.{overlay, AreWithin};
ghost use Rattle.ken_image.specs.Whole.{IsWhole};
ghost use Rattle.ken_store.specs.Answers.{Stands};
ghost use Rattle.ken_store.specs.Kept.{record_pages, HasPagesWithin};
ghost use Rattle.ken_store.specs.Reads.{Reads};

use crate::StoreFault;
use crate::handing::fill;
use ken_alloc::Objects;
use ken_disk::Disk;
use ken_frame::{FRAME, Frame};
use ken_image::Image;
use ken_pages::PageHeap;
use ken_record::{Page, Record};
use std::alloc::{AllocError, Global};

// Reads all pages of an image into a heap of as many, each by one read.
pub(crate) fn load_image<D: Disk>(
    image: &mut Image<D>,
    heap: &mut PageHeap,
    frame: &mut Frame,
) -> Result<(), StoreFault>
    requires whole { IsWhole D.told D.size image.old }
    requires idle { heap.old.begun ≡ None }
    requires size { length heap.old.bytes ≡ 256 * image.old.pages }
    ensures bytes { Tells (D.told image.old.disk) (λ h. OnOk result (heap.new.bytes ≡ take (256 * image.old.pages) h.now.seen)) }
    ensures idle { heap.new.begun ≡ None }
    ensures size { length heap.new.bytes ≡ 256 * image.old.pages }
    ensures whole { OnOk result (IsWhole D.told D.size image.new) }
    ensures count { image.new.pages ≡ image.old.pages }
    ensures reads { Reads D.told D.faults D.fate result image.old.disk image.new.disk }
    ensures sound { (n : ℕ) (place : ℕ) → IsErrOf result (StoreFault.Damaged n place) → ⊥ }
{
    for page in 0..image.pages() {
        image.load(page, frame)?;
        prove!(frame.as_slice().len() == FRAME);
        heap.load(page, frame)?;
    }
    Ok(())
}

// Lays pages over a heap, one after the other. After an error some of them lie over it.
pub(crate) fn lay_over(
    heap: &mut PageHeap,
    frame: &mut Frame,
    pages: &[Page],
    count: u32,
) -> Result<(), AllocError>
    requires within { AreWithin count pages.now }
    requires idle { heap.old.begun ≡ None }
    requires size { length heap.old.bytes ≡ 256 * count }
    ensures bytes { OnOk result (heap.new.bytes ≡ overlay heap.old.bytes pages.now) }
    ensures idle { heap.new.begun ≡ None }
    ensures size { length heap.new.bytes ≡ 256 * count }
{
    for page in pages {
        fill(frame, page.bytes.as_slice());
        heap.load(page.page, frame)?;
    }
    Ok(())
}

// The heap that an image, a base's pages and records' pages come to.
pub(crate) fn rebuild<D: Disk>(
    alloc: Global,
    image: &mut Image<D>,
    base: &[Page],
    records: &[Record],
) -> Result<Objects, StoreFault>
    requires whole { IsWhole D.told D.size image.old }
    requires some { 1 ≤ image.old.pages }
    requires most { image.old.pages ≤ 4096 }
    requires base { AreWithin image.old.pages base.now }
    requires records { AllByRecursion (HasPagesWithin image.old.pages) records.now }
    ensures stands { Tells (D.told image.old.disk) (λ h. Stands result (overlay (take (256 * image.old.pages) h.now.seen) (base.now ++ flat_map record_pages records.now))) }
    ensures bytes { Tells (D.told image.old.disk) (λ h. IfOk result (λ o. o.bytes ≡ overlay (take (256 * image.old.pages) h.now.seen) (base.now ++ flat_map record_pages records.now))) }
    ensures size { IfOk result (λ o. length o.bytes ≡ 256 * image.old.pages) }
    ensures idle { IfOk result (λ o. o.begun ≡ None) }
    ensures whole { OnOk result (IsWhole D.told D.size image.new) }
    ensures count { image.new.pages ≡ image.old.pages }
    ensures reads { Reads D.told D.faults D.fate result image.old.disk image.new.disk }
{
    let count = image.pages();
    let mut heap = PageHeap::new(alloc, count)?;
    let mut frame = Frame::zeroed(alloc)?;
    load_image(image, &mut heap, &mut frame)?;
    lay_over(&mut heap, &mut frame, base, count)?;
    lay_records(&mut heap, &mut frame, records, count)?;
    adopted(heap)
}

// Lays the pages of records over a heap, one record after the other. After an error some of them lie over it.
fn lay_records(
    heap: &mut PageHeap,
    frame: &mut Frame,
    records: &[Record],
    count: u32,
) -> Result<(), AllocError>
    requires within { AllByRecursion (HasPagesWithin count) records.now }
    requires idle { heap.old.begun ≡ None }
    requires size { length heap.old.bytes ≡ 256 * count }
    ensures bytes { OnOk result (heap.new.bytes ≡ overlay heap.old.bytes (flat_map record_pages records.now)) }
    ensures idle { heap.new.begun ≡ None }
    ensures size { length heap.new.bytes ≡ 256 * count }
{
    for record in records {
        lay_over(heap, frame, record.pages.as_slice(), count)?;
    }
    Ok(())
}

// The objects of a heap, or where the image is damaged.
fn adopted(heap: PageHeap) -> Result<Objects, StoreFault>
    requires { heap.begun ≡ None }
    ensures stands { Stands result heap.bytes }
    ensures same { IfOk result (λ o. o.bytes ≡ heap.bytes) }
    ensures idle { IfOk result (λ o. o.begun ≡ None) }
    ensures no_disk { IsErrOf result StoreFault.Disk → ⊥ }
{
    match Objects::adopt(heap) {
        Ok(objects) => Ok(objects),
        Err(broken) => Err(StoreFault::Damaged {
            disk: 1,
            place: broken.place,
        }),
    }
}
