ghost use Rattle.std.specs.Prelude.{◌≡◌, ◌*◌, ◌<◌, ◌≤◌, ◌∷◌, [], true, OnOk, OnErr, IsErrOf};
ghost use Rattle.ken_disk.specs.Fates.{Suffers};
ghost use Rattle.ken_disk.specs.Moments.{Through};
ghost use Rattle.ken_disk.specs.Story.{Tells, Follows, IsImage, IsAtRest};
ghost use Rattle.ken_image.specs.Calls.{Write, Sync, Called};
ghost use Rattle.ken_image.specs.Faults.{HasImageCause, as_disk, as_fault};
ghost use Rattle.ken_image.specs.Pages.{place_of, page_in, ChangesPage, IsTornPage};
ghost use Rattle.ken_image.specs.Whole.{HasAllPages, IsWhole};

use crate::ImageFault;
use ken_disk::{Disk, DiskFault};
use ken_frame::{FRAME, Frame};

/// The pages of a heap on a disk, each of 256 bytes, in their order from the disk's front. A page that is written is open: a
/// crash may leave any bytes in it, until a sync answers Ok.
#[derive(Debug, Drop)]
pub struct Image<D> {
    pub(crate) disk: D,
    pub(crate) pages: u32,
    // A call of the disk failed: it is to be released.
    pub(crate) spent: bool,
}

impl<D: Disk> Image<D> {
    /// Takes a disk that holds an image of so many pages, by no call of it. What the disk has past them is passed over.
    pub fn mount(disk: D, pages: u32) -> Image<D>
        requires rests { Tells (D.told disk) (λ h. IsAtRest h.now) }
        requires long { place_of pages ≤ D.size disk }
        ensures disk { result.disk ≡ disk }
        ensures count { result.pages ≡ pages }
        ensures whole { IsWhole D.told D.size result }
    {
        Image {
            disk,
            pages,
            spent: false,
        }
    }

    /// Writes one page, by one call of the disk, and opens it alone. After `Disk` it counts as written, and only `release`
    /// follows. After `Memory` nothing has changed.
    pub fn patch(&mut self, page: u32, bytes: &Frame) -> Result<(), ImageFault>
        requires whole { IsWhole D.told D.size self.old }
        requires page { page < self.old.pages }
        ensures calls { Follows (Called (as_disk result) (Write (place_of page) bytes.now ∷ [])) (D.told self.old.disk) (D.told self.new.disk) }
        ensures any_moment { Follows (λ h s. Through (IsTornPage page h.now) h s) (D.told self.old.disk) (D.told self.new.disk) }
        ensures changes { OnOk result (Follows (λ h s. ChangesPage page bytes.now h.now.seen s.now.seen) (D.told self.old.disk) (D.told self.new.disk)) }
        ensures whole { OnOk result (IsWhole D.told D.size self.new) }
        ensures goes_on { IsErrOf result ImageFault.Memory → IsWhole D.told D.size self.new }
        ensures fails { OnErr result (Tells (D.told self.new.disk) (λ h. HasAllPages D.told D.size self.new)) }
        ensures spent { IsErrOf result ImageFault.Disk → self.new.spent ≡ true }
        ensures count { self.new.pages ≡ self.old.pages }
        ensures cause { HasImageCause (D.faults self.old.disk) (D.faults self.new.disk) result }
        ensures fate { Follows (Suffers (as_disk result)) (D.fate self.old.disk) (D.fate self.new.disk) }
    {
        match self.disk.write(place(page), bytes.as_slice()) {
            Ok(()) => Ok(()),
            Err(fault) => Err(self.failed(fault)),
        }
    }

    /// Makes safe what reads give, by one call of the disk. After `Ok` no page is open. After an error the open pages are open
    /// still, and after `Disk` only `release` follows.
    pub fn sync(&mut self) -> Result<(), ImageFault>
        requires { IsWhole D.told D.size self.old }
        ensures calls { Follows (Called (as_disk result) (Sync ∷ [])) (D.told self.old.disk) (D.told self.new.disk) }
        ensures any_moment { Follows (λ h s. Through (IsImage h.now) h s) (D.told self.old.disk) (D.told self.new.disk) }
        ensures stable { OnOk result (Follows (λ h s. IsAtRest s.now × (s.now.seen ≡ h.now.seen)) (D.told self.old.disk) (D.told self.new.disk)) }
        ensures whole { OnOk result (IsWhole D.told D.size self.new) }
        ensures goes_on { IsErrOf result ImageFault.Memory → IsWhole D.told D.size self.new }
        ensures fails { OnErr result (Tells (D.told self.new.disk) (λ h. HasAllPages D.told D.size self.new)) }
        ensures spent { IsErrOf result ImageFault.Disk → self.new.spent ≡ true }
        ensures count { self.new.pages ≡ self.old.pages }
        ensures cause { HasImageCause (D.faults self.old.disk) (D.faults self.new.disk) result }
        ensures fate { Follows (Suffers (as_disk result)) (D.fate self.old.disk) (D.fate self.new.disk) }
    {
        match self.disk.sync() {
            Ok(()) => Ok(()),
            Err(fault) => Err(self.failed(fault)),
        }
    }

    /// Reads one page into `frame`, by one read of the disk. After an error the frame is as before, and after `Disk` only
    /// `release` follows.
    pub fn load(&mut self, page: u32, frame: &mut Frame) -> Result<(), ImageFault>
        requires whole { IsWhole D.told D.size self.old }
        requires page { page < self.old.pages }
        ensures read { Tells (D.told self.old.disk) (λ h. OnOk result (frame.new ≡ page_in page h.now.seen)) }
        ensures kept { OnErr result (frame.new ≡ frame.old) }
        ensures story { D.told self.new.disk ≡ D.told self.old.disk }
        ensures whole { OnOk result (IsWhole D.told D.size self.new) }
        ensures goes_on { IsErrOf result ImageFault.Memory → IsWhole D.told D.size self.new }
        ensures fails { OnErr result (HasAllPages D.told D.size self.new) }
        ensures spent { IsErrOf result ImageFault.Disk → self.new.spent ≡ true }
        ensures count { self.new.pages ≡ self.old.pages }
        ensures cause { HasImageCause (D.faults self.old.disk) (D.faults self.new.disk) result }
        ensures fate { Follows (Suffers (as_disk result)) (D.fate self.old.disk) (D.fate self.new.disk) }
    {
        let mut bytes = [0; FRAME];
        match self.disk.read(place(page), &mut bytes) {
            Ok(()) => {
                prove!(frame.as_slice().len() == bytes.len());
                frame.write(0, &bytes);
                Ok(())
            }
            Err(fault) => Err(self.failed(fault)),
        }
    }

    // The image's fault for that of its disk. Where the disk failed, the image is spent.
    fn failed(&mut self, fault: DiskFault) -> ImageFault
        ensures fault { result ≡ as_fault fault }
        ensures disk { self.new.disk ≡ self.old.disk }
        ensures count { self.new.pages ≡ self.old.pages }
        ensures spent { result ≡ ImageFault.Disk → self.new.spent ≡ true }
        ensures unspent { result ≡ ImageFault.Memory → self.new.spent ≡ self.old.spent }
    {
        match fault {
            DiskFault::Failed => {
                self.spent = true;
                ImageFault::Disk
            }
            DiskFault::Memory => ImageFault::Memory,
        }
    }

    /// How many pages it has.
    pub fn pages(&self) -> u32
        ensures { result ≡ self.now.pages }
    {
        self.pages
    }

    /// Gives the disk back as it is.
    pub fn release(self) -> D
        ensures { result ≡ self.disk }
    {
        self.disk
    }
}

// Where the bytes of a page stand.
pub(crate) fn place(page: u32) -> u64
    ensures { result ≡ place_of page }
{
    FRAME as u64 * u64::from(page)
}
