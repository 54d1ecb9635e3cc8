// Rows of a heap of pages.
ghost use Rattle.std.specs.Prelude.{◌≡◌, None, IsSome, length};

use crate::row::{Answered, Row};
use ken_frame::{FRAME, Frame};
use ken_pages::PageHeap;
use ken_rows::RowFault;

/// Pages of which a turn is always begun.
#[derive(Drop)]
pub(crate) struct Pages {
    heap: PageHeap,
    ghost begun: { IsSome heap.begun },
}

impl Pages {
    pub(crate) fn new(mut heap: PageHeap) -> Self
        requires { heap.begun ≡ None }
    {
        heap.begin();
        Pages { heap }
    }

    pub(crate) fn answer(&mut self, command: &[u8], row: &mut Row<'_, '_>) -> Answered {
        match command {
            b"write" => self.write(row)?,
            b"load" => self.load(row)?,
            b"reserve" => self.heap.reserve(row.words.within(0, 1 << 32)? as usize)?,
            b"freeze" => row.answer.number(self.heap.freeze()?.len() as u64)?,
            b"commit" => {
                self.heap.commit();
                self.heap.begin();
            }
            b"abort" => {
                self.heap.abort();
                self.heap.begin();
            }
            _ => self.tell(command, row)?,
        }
        Ok(())
    }

    // What changes nothing.
    fn tell(&self, command: &[u8], row: &mut Row<'_, '_>) -> Answered {
        match command {
            b"read" => {
                let at = row.words.within(0, self.size())?;
                let len = row.words.within(0, self.size() - at)?;
                let mut bytes = vec![in row.alloc; 0; len as usize]?;
                self.heap.read(at, &mut bytes);
                Ok(row.answer.bytes(&bytes)?)
            }
            b"spare" => Ok(row.answer.number(self.heap.spare() as u64)?),
            b"dirty" => row.put(format!(in row.alloc; "{:?}", self.heap.dirty()?)?),
            _ => Err(RowFault::Usage),
        }
    }

    fn size(&self) -> u64
        ensures { result ≡ length self.now.heap.bytes }
    {
        256 * u64::from(self.heap.pages())
    }

    // AT BYTES
    fn write(&mut self, row: &mut Row<'_, '_>) -> Answered {
        let at = row.words.within(0, self.size())?;
        let bytes = row.bytes(self.size() - at)?;
        Ok(self.heap.write(at, &bytes)?)
    }

    // PAGE BYTES: zeros stand behind fewer bytes than a page has. What the turn did is kept.
    fn load(&mut self, row: &mut Row<'_, '_>) -> Answered {
        let page = row.words.within(0, u64::from(self.heap.pages()) - 1)? as u32;
        let mut frame = Frame::zeroed(row.alloc)?;
        frame.write(0, &row.bytes(FRAME as u64)?);
        self.heap.commit();
        let loaded = self.heap.load(page, &frame);
        self.heap.begin();
        Ok(loaded?)
    }

    /// The pages, once the turn is kept.
    pub(crate) fn kept(self) -> PageHeap
        ensures { result.begun ≡ None }
    {
        let mut heap = self.heap;
        heap.commit();
        heap
    }
}
