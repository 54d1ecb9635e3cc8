// A heap of pages, with the turn that is begun on it.
ghost use Rattle.std.specs.Prelude.{◌≡◌, ◌+◌, ◌-◌, ◌*◌, ◌/◌, ◌%◌, ◌<◌, ◌≤◌, ◌^◌, false, length, take, drop, replicate, None, Some, IfOk, OnOk, OnErr, IsOk, IfSome, IsSome};
ghost use Rattle.std.specs.Arc.{arc_value};
ghost use Rattle.ken_frame.specs.Written.{written};
ghost use Rattle.ken_pages.specs.Paged.{dirty_pages, page_of, frozen_pages, shared_pages, touched, with_own, lacking, own_count, without_own};

use crate::page::Page;
use crate::{frames, turn};
use ken_frame::{FRAME, Frame, Shelf};
use std::alloc::{AllocError, Global};
use std::marker::Model;
use std::sync::Arc;

/// The most pages that a heap has.
pub const MAX_PAGES: u32 = 4096;

/// Pages of 256 bytes, seen as one list of bytes. A turn that is begun on them can be kept or taken back.
#[derive(Debug, Drop)]
pub struct PageHeap {
    alloc: Global,
    pages: Vec<Page>,
    first: Vec<u32>,
    shelf: Shelf,
    begun: bool,
}

impl Model for PageHeap {
    ghost use Rattle.std.specs.Prelude.{vec_capacity};
    ghost use Rattle.ken_pages.specs.Paged.{Paged};
    ghost use Rattle.ken_pages.specs.Layout.{paged_of, IsHeap};

    ghost Value = { Paged };

    ghost view = { λ h. paged_of h.begun h.pages.items h.shelf };

    ghost invariant = { λ h. IsHeap h.begun h.pages.items h.first.items (vec_capacity h.first) h.shelf };
}

impl PageHeap {
    /// Pages of zeros, with no turn begun and no spare frame. All share one frame until they are written.
    pub fn new(alloc: Global, pages: u32) -> Result<PageHeap, AllocError>
        requires some { 1 ≤ pages }
        requires most { pages ≤ MAX_PAGES }
        ensures { IfOk result (λ h. h ≡ record {
          bytes = replicate (256 * pages) 0;
          begun = None;
          spare = 0;
          own = replicate pages false;
        }) }
    {
        let zeros = Arc::new(alloc, Frame::zeroed(alloc)?)?;
        let mut all = Vec::with_capacity(alloc, pages as usize)?;
        for _page in 0..pages {
            all.push(Page::new(Arc::try_clone(&zeros)?))?;
        }
        Ok(PageHeap {
            alloc,
            pages: all,
            first: Vec::new(alloc),
            shelf: Shelf::new(alloc),
            begun: false,
        })
    }

    /// How many pages there are.
    pub fn pages(&self) -> u32
        ensures some { 1 ≤ result }
        ensures most { result ≤ MAX_PAGES }
        ensures bytes { length self.now.bytes ≡ 256 * result }
        ensures begun { IfSome self.now.begun (λ before. length before ≡ 256 * result) }
        ensures own { length self.now.own ≡ result }
    {
        self.pages.len() as u32
    }

    /// Reads as many bytes as `buf` takes, from the place `at` on.
    pub fn read(&self, at: u64, buf: &mut [u8])
        requires { at + length buf.old ≤ length self.now.bytes }
        ensures { buf.new ≡ take (length buf.old) (drop at self.now.bytes) }
    {
        frames::read(&self.pages, at as usize, buf);
    }

    /// The bytes from the place `at` on, up to the end of its page.
    pub fn rest(&self, at: u64) -> &[u8]
        requires { at < length self.now.bytes }
        ensures bytes { result.now ≡ take (256 - at % 256) (drop at self.now.bytes) }
        ensures length { length result.now ≡ 256 - at % 256 }
    {
        frames::rest(&self.pages, at as usize)
    }

    /// A page's bytes as they are now. They are copied only where the heap alone has the page's frame.
    pub fn lend(&self, page: u32) -> Result<Arc<Frame>, AllocError>
        requires { 256 * page + 256 ≤ length self.now.bytes }
        ensures { IfOk result (λ frame. arc_value frame ≡ page_of self.now.bytes page) }
    {
        frames::lend(self.alloc, &self.pages, page)
    }

    /// How many frames are spare.
    pub fn spare(&self) -> usize
        ensures { result ≡ self.now.spare }
    {
        self.shelf.len()
    }

    /// Makes frames spare until there are `count`. After an error some of them may be, and all else is as before.
    pub fn reserve(&mut self, count: usize) -> Result<(), AllocError>
        requires { count ≤ 2 ^ 32 }
        ensures enough { OnOk result (count ≤ self.new.spare) }
        ensures least { self.old.spare ≤ self.new.spare }
        ensures most { count ≤ self.old.spare → self.new.spare ≡ self.old.spare }
        ensures exact { self.old.spare ≤ count → self.new.spare ≤ count }
        ensures covered { count ≤ self.old.spare → IsOk result }
        ensures bytes { self.new.bytes ≡ self.old.bytes }
        ensures begun { self.new.begun ≡ self.old.begun }
        ensures own { self.new.own ≡ self.old.own }
    {
        if self.shelf.len() < count {
            self.first.reserve(count)?;
            self.shelf.reserve(count)?;
        }
        Ok(())
    }

    /// Writes the bytes over those from the place `at` on. A page that the turn has no frame of its own for, as it
    /// didn't write it since `begin` or `freeze`, takes a spare frame, and memory where none is left. After an error
    /// nothing has changed but that more frames may be spare.
    pub fn write(&mut self, at: u64, bytes: &[u8]) -> Result<(), AllocError>
        requires begun { IsSome self.old.begun }
        requires within { at + length bytes.now ≤ length self.old.bytes }
        ensures bytes { OnOk result (self.new.bytes ≡ written self.old.bytes at bytes.now) }
        ensures length { length self.new.bytes ≡ length self.old.bytes }
        ensures begun { self.new.begun ≡ self.old.begun }
        ensures own { OnOk result (self.new.own ≡ with_own (at / 256) (touched at (length bytes.now)) self.old.own) }
        ensures spare { OnOk result
            (self.new.spare ≡ self.old.spare - lacking (at / 256) (touched at (length bytes.now)) self.old.own) }
        ensures covered { lacking (at / 256) (touched at (length bytes.now)) self.old.own ≤ self.old.spare → IsOk result }
        ensures unchanged { OnErr result (self.new.bytes ≡ self.old.bytes) }
        ensures owned { OnErr result (self.new.own ≡ self.old.own) }
        ensures more { OnErr result (self.old.spare ≤ self.new.spare) }
    {
        if bytes.is_empty() {
            return Ok(());
        }
        self.own(at as usize, bytes.len())?;
        frames::write(&mut self.pages, at as usize, bytes);
        Ok(())
    }

    // Gives the turn frames of its own for the pages that these bytes touch.
    fn own(&mut self, at: usize, len: usize) -> Result<(), AllocError>
        requires begun { IsSome self.old.begun }
        requires some { 1 ≤ len }
        requires within { at + len ≤ length self.old.bytes }
        ensures bytes { self.new.bytes ≡ self.old.bytes }
        ensures begun { self.new.begun ≡ self.old.begun }
        ensures own { OnOk result (self.new.own ≡ with_own (at / 256) (touched at len) self.old.own) }
        ensures spare { OnOk result
            (self.new.spare ≡ self.old.spare - lacking (at / 256) (touched at len) self.old.own) }
        ensures covered { lacking (at / 256) (touched at len) self.old.own ≤ self.old.spare → IsOk result }
        ensures owned { OnErr result (self.new.own ≡ self.old.own) }
        ensures more { OnErr result (self.old.spare ≤ self.new.spare) }
    {
        let pages = &self.pages;
        let from = at / FRAME;
        let end = (at + len - 1) / FRAME + 1;
        let lacking = turn::lacking(pages, from, end);
        self.reserve(lacking)?;
        turn::take_all(&mut self.pages, &mut self.first, &mut self.shelf, from, end);
        Ok(())
    }

    /// Begins a turn.
    pub fn begin(&mut self)
        requires { self.old.begun ≡ None }
        ensures { self.new ≡ record self.old { begun = Some self.old.bytes } }
    {
        self.begun = true;
    }

    /// The pages that the turn changed, in rising order.
    pub fn dirty(&self) -> Result<Vec<u32>, AllocError>
        requires { IsSome self.now.begun }
        ensures { IfOk result (λ pages.
            IfSome self.now.begun (λ before. pages.items ≡ dirty_pages before self.now.bytes)) }
    {
        turn::changed(self.alloc, &self.pages, &self.first)
    }

    /// Those pages, each with a share of its bytes as they are now: none is copied. The turn then has no frames of its
    /// own for them. After an error this may be so of some of them, and all else is as before.
    pub fn freeze(&mut self) -> Result<Vec<(u32, Arc<Frame>)>, AllocError>
        requires { IsSome self.old.begun }
        ensures pages { IfOk result (λ frozen.
            IfSome self.old.begun (λ before. shared_pages frozen.items ≡ frozen_pages before self.old.bytes)) }
        ensures bytes { self.new.bytes ≡ self.old.bytes }
        ensures begun { self.new.begun ≡ self.old.begun }
        ensures spare { self.new.spare ≡ self.old.spare }
        ensures own { OnOk result (IfSome self.old.begun (λ before.
            self.new.own ≡ without_own (dirty_pages before self.old.bytes) self.old.own)) }
    {
        self.first.sort_unstable();
        turn::freeze(self.alloc, &mut self.pages, &self.first)
    }

    /// Ends the turn, and keeps what it wrote. The frames that its pages had before are spare, where nobody shares
    /// them.
    pub fn commit(&mut self)
        requires { IsSome self.old.begun }
        ensures bytes { self.new.bytes ≡ self.old.bytes }
        ensures begun { self.new.begun ≡ None }
        ensures spare { self.old.spare ≤ self.new.spare }
        ensures own { self.new.own ≡ replicate (length self.old.own) false }
    {
        turn::keep(&mut self.pages, &self.first, &mut self.shelf);
        self.first.clear();
        self.begun = false;
    }

    /// Ends the turn, where one is begun, with all bytes as they were when it began. Its own frames are spare again.
    pub fn abort(&mut self)
        ensures bytes { IfSome self.old.begun (λ before. self.new.bytes ≡ before) }
        ensures begun { self.new.begun ≡ None }
        ensures spare { self.new.spare ≡ self.old.spare + own_count self.old.own }
        ensures own { self.new.own ≡ replicate (length self.old.own) false }
        ensures none { self.old.begun ≡ None → self.new ≡ self.old }
    {
        turn::put_back(&mut self.pages, &self.first, &mut self.shelf);
        self.first.clear();
        self.begun = false;
    }

    /// Writes the frame over a page. After an error nothing has changed.
    pub fn load(&mut self, page: u32, frame: &Frame) -> Result<(), AllocError>
        requires idle { self.old.begun ≡ None }
        requires within { 256 * page < length self.old.bytes }
        ensures bytes { OnOk result (self.new.bytes ≡ written self.old.bytes (256 * page) frame.now) }
        ensures begun { self.new.begun ≡ None }
        ensures length { length self.new.bytes ≡ length self.old.bytes }
        ensures spare { self.new.spare ≡ self.old.spare }
        ensures own { self.new.own ≡ self.old.own }
        ensures unchanged { OnErr result (self.new ≡ self.old) }
    {
        frames::load(self.alloc, &mut self.pages, page, frame)
    }
}
