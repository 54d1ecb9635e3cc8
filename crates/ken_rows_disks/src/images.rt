// Rows of an image. Each but `image` restarts the disk, and takes it as an image of so many pages.
use crate::disks::{Disks, Told};
use ken_disk::Disk;
use ken_frame::{FRAME, Frame};
use ken_image::Image;
use ken_rows::{Answer, RowFault, Words};

impl Disks {
    // A page that begins with these bytes.
    fn page(&self, words: &mut Words<'_>) -> Result<Frame, RowFault> {
        let bytes = self.bytes(words)?;
        if bytes.len() > FRAME {
            return Err(RowFault::Usage);
        }
        let mut frame = Frame::zeroed(self.alloc)?;
        frame.write(0, &bytes);
        Ok(frame)
    }

    /// Makes an image of so many pages with this first one.
    pub(crate) fn image(&mut self, words: &mut Words<'_>, answer: &mut Answer) -> Told {
        let pages = words.within(0, u64::from(u32::MAX))? as u32;
        let first = self.page(words)?;
        let disk = self.disk.take().ok_or(RowFault::Usage)?;
        let (made, disk) = match Image::format(disk, pages, &first) {
            Ok(image) => (Ok(()), image.release()),
            Err((fault, disk)) => (Err(fault), disk),
        };
        self.disk = Some(disk);
        self.tell(made, answer)
    }

    pub(crate) fn patch(&mut self, words: &mut Words<'_>, answer: &mut Answer) -> Told {
        let pages = words.within(1, u64::from(u32::MAX))? as u32;
        let place = words.within(0, u64::from(pages - 1))? as u32;
        let page = self.page(words)?;
        let mut disk = self.disk.take().ok_or(RowFault::Usage)?;
        disk.restart(1)?;
        if disk.len() < FRAME as u64 * u64::from(pages) {
            return Err(RowFault::Usage);
        }
        let mut image = Image::mount(disk, pages);
        let done = image.patch(place, &page);
        let done = if done.is_ok() { image.sync() } else { done };
        self.disk = Some(image.release());
        self.tell(done, answer)
    }

    /// Tells a page after a restart with a pick, where the disk has so many.
    pub(crate) fn load(&mut self, words: &mut Words<'_>, answer: &mut Answer) -> Told {
        let mut disk = self.disk.take().ok_or(RowFault::Usage)?;
        disk.restart(words.number()?)?;
        let pages = words.within(1, u64::from(u32::MAX))? as u32;
        let place = words.within(0, u64::from(pages - 1))? as u32;
        if disk.len() < FRAME as u64 * u64::from(pages) {
            return Ok(answer.word("short")?);
        }
        let mut image = Image::mount(disk, pages);
        let mut page = Frame::zeroed(self.alloc)?;
        let loaded = image.load(place, &mut page);
        self.disk = Some(image.release());
        match loaded {
            Ok(()) => Ok(answer.bytes(page.as_slice())?),
            Err(fault) => self.tell(Err(fault), answer),
        }
    }
}
