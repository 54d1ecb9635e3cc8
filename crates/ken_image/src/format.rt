ghost use Rattle.std.specs.Prelude.{◌≡◌, ◌≤◌, length, take, OnOk, IfOk};
ghost use Rattle.ken_disk.specs.Causes.{HasCause};
ghost use Rattle.ken_disk.specs.Fates.{Suffers};
ghost use Rattle.ken_disk.specs.Moments.{Through};
ghost use Rattle.ken_disk.specs.Story.{Tells, Follows, IsAtRest};
ghost use Rattle.ken_disk.specs.Through.{Torn};
ghost use Rattle.ken_image.specs.Calls.{Called};
ghost use Rattle.ken_image.specs.Faults.{HasImageCause, as_disk, disk_of, answer_of};
ghost use Rattle.ken_image.specs.Pages.{place_of, first_page, first_image, format_calls};
ghost use Rattle.ken_image.specs.Whole.{IsWhole};

use crate::image::place;
use crate::{Image, ImageFault};
use ken_disk::{Disk, DiskFault};
use ken_frame::{FRAME, Frame};

const ZEROS: [u8; FRAME] = [0; FRAME];

impl<D: Disk> Image<D> {
    /// Makes an image of so many pages over what a disk holds: one write a page, rising, and then a sync. The first page is
    /// `first`, and the others are zeros. What the disk has past them stays. After `Ok` all of it is safe. After an error a
    /// front of the calls was made; after `Disk` the next one failed, and a write that fails counts as written.
    pub fn format(mut disk: D, pages: u32, first: &Frame) -> Result<Image<D>, (ImageFault, D)>
        ensures calls { Follows (Called (as_disk (answer_of result)) (format_calls pages first.now)) (D.told disk) (D.told (disk_of result)) }
        ensures any_moment { Follows (λ h s. IsAtRest h.now → Through (Torn 0 (place_of pages) h.now.seen) h s) (D.told disk) (D.told (disk_of result)) }
        ensures whole { IfOk result (λ image. IsWhole D.told D.size image) }
        ensures count { IfOk result (λ image. image.pages ≡ pages) }
        ensures holds { IfOk result (λ image. Tells (D.told image.disk) (λ h. IsAtRest h.now × (take (place_of pages) h.now.seen ≡ first_image pages first.now))) }
        ensures cause { HasImageCause (D.faults disk) (D.faults (disk_of result)) (answer_of result) }
        ensures fate { Follows (Suffers (as_disk (answer_of result))) (D.fate disk) (D.fate (disk_of result)) }
    {
        match fill(&mut disk, pages, first) {
            Ok(()) => Ok(Image {
                disk,
                pages,
                spent: false,
            }),
            Err(fault) => Err((ImageFault::from(fault), disk)),
        }
    }
}

// Writes the pages, rising, and syncs.
fn fill<D: Disk>(disk: &mut D, pages: u32, first: &Frame) -> Result<(), DiskFault>
    ensures calls { Follows (Called result (format_calls pages first.now)) (D.told disk.old) (D.told disk.new) }
    ensures size { OnOk result (place_of pages ≤ D.size disk.new) }
    ensures whole { length first.now ≡ 256 }
    ensures cause { HasCause (D.faults disk.old) (D.faults disk.new) result }
    ensures fate { Follows (Suffers result) (D.fate disk.old) (D.fate disk.new) }
{
    prove!(first.as_slice().len() == FRAME);
    for page in 0..pages {
        disk.write(place(page), first_bytes(first, page))?;
    }
    disk.sync()
}

// The bytes that a page of a new image has.
fn first_bytes(first: &Frame, page: u32) -> &[u8]
    ensures bytes { result.now ≡ first_page first.now page }
    ensures whole { length result.now ≡ 256 }
{
    if page == 0 { first.as_slice() } else { &ZEROS }
}
