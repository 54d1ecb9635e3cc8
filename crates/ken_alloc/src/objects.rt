// Objects in a heap.
ghost use Rattle.std.specs.Prelude.{◌≡◌, ℕ, ◌+◌, ◌*◌, ◌<◌, ◌≤◌, length, take, drop, replicate, Some, None, IfOk, OnOk, OnErr, IfErr, IfSome, IsSome, IsOk, IsSomeAnd, is_some, ◌^◌, false};
ghost use Rattle.std.specs.Arc.{arc_value};
ghost use Rattle.byteorder.specs.Endian.{big_bytes};
ghost use Rattle.ken_frame.specs.Written.{written};
ghost use Rattle.ken_model.specs.declared.values.Value.{Value};
ghost use Rattle.ken_model.specs.Network.{empty_heap};
ghost use Rattle.ken_model.specs.Heap.{IsHeap, first_gap, without_block, block_at, place_past};
ghost use Rattle.ken_pages.specs.Paged.{dirty_pages, page_of, frozen_pages, shared_pages, own_count, without_own};
ghost use Rattle.ken_model.specs.Layout.{StandsFor, first_bytes, first_heap};
ghost use Rattle.ken_model.specs.Broken.{BreaksAt};
ghost use Rattle.ken_model.specs.Reading.{value_of};
ghost use Rattle.ken_alloc.specs.Objects.{heap_in, IsBlock, with_zeros, rewritten, place_of_front};
ghost use Rattle.ken_alloc.specs.Changes.{after_alloc, after_free, room_start};
ghost use Rattle.ken_alloc.specs.Frames.{HasMoreSpare, LosesNone, frames_in, lacks, taken, alloc_lacks, alloc_taken};

use crate::walk::{self, Found};
use crate::{Broken, adopt, carve, copy, format, fronts, head};
use byteorder::{BigEndian, ByteOrder};
use ken_frame::Frame;
use ken_model::{CELLS, HEAD, Head, Items, Value};
use ken_pages::PageHeap;
use std::alloc::{AllocError, Global};
use std::marker::Model;
use std::sync::Arc;

/// Blocks of bytes in a heap of pages. They are changed within a turn, which is kept or taken back as a whole.
#[derive(Debug, Drop)]
pub struct Objects {
    pages: PageHeap,
}

impl Model for Objects {
    ghost use Rattle.ken_alloc.specs.Objects.{FramedHeap, heap_of, IsHeld};

    ghost Value = { FramedHeap };

    ghost view = { λ o. heap_of o.pages };

    ghost invariant = { λ o. IsHeld o.pages };
}

impl Objects {
    // The block at a place.
    fn block(&self, place: u64) -> Found
        requires { IsBlock self.now.value place }
        ensures block { IfSome (block_at place self.now.value.blocks) (λ bytes. result ≡ record { place = place; len = length bytes }) }
        ensures small { result.place < 2 ^ 32 }
    {
        Found {
            place,
            len: head::read(&self.pages, place - HEAD).len,
        }
    }

    /// A heap with no block and the root 0, over pages of any bytes: their first 32 bytes change, and no other. No turn is
    /// begun, before and after.
    pub fn format(mut pages: PageHeap) -> Result<Objects, AllocError>
        requires { pages.begun ≡ None }
        ensures value { IfOk result (λ o. o.value ≡ empty_heap (length pages.bytes)) }
        ensures idle { IfOk result (λ o. o.begun ≡ None) }
        ensures bytes { (n : ℕ) → length pages.bytes ≡ 256 * n → IfOk result (λ o. o.bytes ≡ written pages.bytes 0 (first_bytes n)) }
        ensures zeroed { (n : ℕ) → pages.bytes ≡ replicate (256 * n) 0 → IfOk result (λ o. o.bytes ≡ first_heap n) }
    {
        let count = pages.pages();
        pages.begin();
        format::format(&mut pages, count)?;
        pages.commit();
        Ok(Objects { pages })
    }

    /// The objects that stand in the pages. `Broken` exactly where the bytes stand for no value. No turn is begun.
    pub fn adopt(pages: PageHeap) -> Result<Objects, Broken>
        requires { pages.begun ≡ None }
        ensures same { IfOk result (λ o. (o.bytes ≡ pages.bytes) × (o.begun ≡ None)) }
        ensures frames { IfOk result (λ o. (o.spare ≡ pages.spare) × (o.own ≡ pages.own)) }
        ensures stands { IfOk result (λ o. StandsFor pages.bytes o.value) }
        ensures none { OnErr result ((v : Value) → StandsFor pages.bytes v → ⊥) }
        ensures place { IfErr result (λ broken. BreaksAt pages.bytes broken.place) }
    {
        adopt::check(&pages)?;
        Ok(Objects { pages })
    }

    /// The pages again.
    pub fn into_pages(self) -> PageHeap
        ensures same { (result.bytes ≡ self.bytes) × (result.begun ≡ self.begun) }
        ensures frames { (result.spare ≡ self.spare) × (result.own ≡ self.own) }
        ensures stands { StandsFor self.bytes self.value }
    {
        self.pages
    }

    /// How many frames are spare.
    pub fn spare(&self) -> usize
        ensures { result ≡ self.now.spare }
    {
        self.pages.spare()
    }

    /// Makes frames spare until there are `count`. After an error some of them may be, and all else is as before.
    pub fn reserve(&mut self, count: usize) -> Result<(), AllocError>
        requires { count ≤ 2 ^ 32 }
        ensures enough { OnOk result (count ≤ self.new.spare) }
        ensures least { self.old.spare ≤ self.new.spare }
        ensures most { count ≤ self.old.spare → self.new.spare ≡ self.old.spare }
        ensures exact { self.old.spare ≤ count → self.new.spare ≤ count }
        ensures covered { count ≤ self.old.spare → IsOk result }
        ensures same { heap_in self.new ≡ heap_in self.old }
        ensures own { self.new.own ≡ self.old.own }
    {
        self.pages.reserve(count)
    }

    /// A block of `size` zeros, in the first gap that it fits into: its place, a multiple of 16. `None` exactly where
    /// it fits into none. Its head and its zeros are written, and the head of what is left of the gap: their pages take
    /// spare frames, and memory where none is left. After an error the value is as before.
    pub fn alloc(&mut self, size: u64) -> Result<Option<u64>, AllocError>
        requires begun { IsSome self.old.begun }
        requires some { 1 ≤ size }
        ensures place { IfOk result (λ place. place ≡ first_gap self.old.value size) }
        ensures value { IfOk result (λ place. self.new.value ≡ with_zeros place size self.old.value) }
        ensures bytes { IfOk result (λ place. self.new.bytes ≡ after_alloc place size self.old.value self.old.bytes) }
        ensures begun { self.new.begun ≡ self.old.begun }
        ensures unchanged { OnErr result (self.new.value ≡ self.old.value) }
        ensures covered { alloc_lacks (first_gap self.old.value size) size self.old.value (frames_in self.old) ≤ self.old.spare →
            IsOk result }
        ensures frames { IfOk result (λ place.
            frames_in self.new ≡ alloc_taken place size self.old.value (frames_in self.old)) }
        ensures kept { LosesNone (frames_in self.old) (frames_in self.new) }
    {
        let Some(gap) = walk::first_fit(&self.pages, size) else {
            return Ok(None);
        };
        carve::carve(&mut self.pages, gap, size)?;
        Ok(Some(gap.from + HEAD))
    }

    /// Gives the block at a place back. The head of the gap that is left is written: where the turn has no frame of its
    /// own for the page, it takes a spare one, and memory where none is. After an error nothing has changed but that
    /// more frames may be spare.
    pub fn free(&mut self, place: u64) -> Result<(), AllocError>
        requires begun { IsSome self.old.begun }
        requires block { IsBlock self.old.value place }
        ensures value { OnOk result (self.new.value ≡ record self.old.value { blocks = without_block place self.old.value.blocks }) }
        ensures bytes { OnOk result (self.new.bytes ≡ after_free place self.old.value self.old.bytes) }
        ensures begun { self.new.begun ≡ self.old.begun }
        ensures unchanged { OnErr result (heap_in self.new ≡ heap_in self.old) }
        ensures covered { lacks (room_start self.old.value place) 16 (frames_in self.old) ≤ self.old.spare → IsOk result }
        ensures frames { OnOk result
            (frames_in self.new ≡ taken (room_start self.old.value place) 16 (frames_in self.old)) }
        ensures more { OnErr result (HasMoreSpare (frames_in self.old) (frames_in self.new)) }
    {
        let Some(hole) = walk::hole(&self.pages, place) else {
            unreachable!()
        };
        let gap = Head {
            span: (hole.to - hole.from) as u32,
            len: 0,
        };
        head::write(&mut self.pages, hole.from, gap)
    }

    /// Whether a block stands at the place.
    pub fn is_block(&self, place: u64) -> bool
        ensures { result ≡ is_some (block_at place self.now.value.blocks) }
    {
        walk::hole(&self.pages, place).is_some()
    }

    /// The place of the first block.
    pub fn first(&self) -> Option<u64>
        ensures place { result ≡ place_past 0 self.now.value.blocks }
        ensures heap { IsHeap self.now.value }
    {
        walk::block_from(&self.pages, CELLS).map(|found| found.place)
    }

    /// The place of the next block.
    pub fn next(&self, place: u64) -> Option<u64>
        requires { IsBlock self.now.value place }
        ensures { result ≡ place_past place self.now.value.blocks }
    {
        let end = self.block(place).end();
        walk::block_from(&self.pages, end).map(|found| found.place)
    }

    /// The length of a block in bytes, at least 1.
    pub fn len_of(&self, place: u64) -> u64
        requires { IsBlock self.now.value place }
        ensures { IfSome (block_at place self.now.value.blocks) (λ bytes. result ≡ length bytes) }
    {
        u64::from(self.block(place).len)
    }

    /// Reads as many bytes of a block as `buf` takes, from its byte `at` on.
    pub fn read(&self, place: u64, at: u64, buf: &mut [u8])
        requires { IsSomeAnd (block_at place self.now.value.blocks) (λ bytes. at + length buf.old ≤ length bytes) }
        ensures { IfSome (block_at place self.now.value.blocks) (λ bytes. buf.new ≡ take (length buf.old) (drop at bytes)) }
    {
        self.pages.read(place + at, buf);
    }

    /// Writes bytes over those of a block, from its byte `at` on. Their pages take spare frames, and memory where none
    /// is left. After an error nothing has changed but that more frames may be spare.
    pub fn write(&mut self, place: u64, at: u64, bytes: &[u8]) -> Result<(), AllocError>
        requires begun { IsSome self.old.begun }
        requires within { IsSomeAnd (block_at place self.old.value.blocks) (λ old. at + length bytes.now ≤ length old) }
        ensures value { OnOk result (self.new.value ≡ record self.old.value { blocks = rewritten place at bytes.now self.old.value.blocks }) }
        ensures bytes { OnOk result (self.new.bytes ≡ written self.old.bytes (place + at) bytes.now) }
        ensures begun { self.new.begun ≡ self.old.begun }
        ensures unchanged { OnErr result (heap_in self.new ≡ heap_in self.old) }
        ensures covered { lacks (place + at) (length bytes.now) (frames_in self.old) ≤ self.old.spare → IsOk result }
        ensures frames { OnOk result (frames_in self.new ≡ taken (place + at) (length bytes.now) (frames_in self.old)) }
        ensures more { OnErr result (HasMoreSpare (frames_in self.old) (frames_in self.new)) }
    {
        self.pages.write(place + at, bytes)
    }

    /// The place of the first block that begins with the key and then the byte `behind`.
    pub fn find_front(&self, key: &[u8], behind: u8) -> Option<u64>
        ensures place { result ≡ place_of_front key.now behind self.now.value.blocks }
        ensures heap { IsHeap self.now.value }
    {
        fronts::find(&self.pages, key, behind)
    }

    /// The root: a number that the handler keeps.
    pub fn root(&self) -> u64
        ensures { result ≡ self.now.value.root }
    {
        let mut bytes = [0; 8];
        self.pages.read(0, &mut bytes);
        BigEndian::read_u64(&bytes)
    }

    /// Sets the root. Its page takes a spare frame, and memory where none is left. After an error nothing has changed
    /// but that more frames may be spare.
    pub fn set_root(&mut self, root: u64) -> Result<(), AllocError>
        requires { IsSome self.old.begun }
        ensures value { OnOk result (self.new.value ≡ record self.old.value { root = root }) }
        ensures bytes { OnOk result (self.new.bytes ≡ written self.old.bytes 0 (big_bytes 8 root)) }
        ensures begun { self.new.begun ≡ self.old.begun }
        ensures unchanged { OnErr result (heap_in self.new ≡ heap_in self.old) }
        ensures covered { lacks 0 8 (frames_in self.old) ≤ self.old.spare → IsOk result }
        ensures frames { OnOk result (frames_in self.new ≡ taken 0 8 (frames_in self.old)) }
        ensures more { OnErr result (HasMoreSpare (frames_in self.old) (frames_in self.new)) }
    {
        let mut bytes = [0; 8];
        BigEndian::write_u64(&mut bytes, root);
        self.pages.write(0, &bytes)
    }

    /// A page's bytes as they are now. They are copied only where the heap alone has the page's frame.
    pub fn lend_page(&self, page: u32) -> Result<Arc<Frame>, AllocError>
        requires { 256 * page + 256 ≤ length self.now.bytes }
        ensures { IfOk result (λ frame. arc_value frame ≡ page_of self.now.bytes page) }
    {
        self.pages.lend(page)
    }

    /// A law, and no work: the bytes stand for the value, and so did those at `begin`, which are as many.
    pub fn stands(&self)
        ensures now { StandsFor self.now.bytes self.now.value }
        ensures before { IfSome self.now.begun (λ before. StandsFor before (value_of before)) }
        ensures long { IfSome self.now.begun (λ before. length before ≡ length self.now.bytes) }
    {
        let _pages = self.pages.pages();
    }

    /// A copy of the value that the heap's bytes stand for.
    pub fn value(&self, alloc: Global) -> Result<Value, AllocError>
        ensures { IfOk result (λ v. v ≡ self.now.value) }
    {
        Ok(Value {
            size: head::size(&self.pages),
            root: self.root(),
            blocks: Items::new(copy::blocks(&self.pages, alloc)?),
        })
    }

    /// Begins a turn.
    pub fn begin(&mut self)
        requires { self.old.begun ≡ None }
        ensures { self.new ≡ record self.old { begun = Some self.old.bytes } }
    {
        self.pages.begin();
    }

    /// The pages that the turn changed, in rising order.
    pub fn dirty(&self) -> Result<Vec<u32>, AllocError>
        requires { IsSome self.now.begun }
        ensures { IfOk result (λ pages. IfSome self.now.begun (λ before. pages.items ≡ dirty_pages before self.now.bytes)) }
    {
        self.pages.dirty()
    }

    /// Those pages, each with a share of its bytes as they are now: none is copied. The turn then has no frames of its
    /// own for them. After an error this may be so of some of them, and all else is as before.
    pub fn freeze(&mut self) -> Result<Vec<(u32, Arc<Frame>)>, AllocError>
        requires { IsSome self.old.begun }
        ensures pages { IfOk result (λ frozen. IfSome self.old.begun (λ before. shared_pages frozen.items ≡ frozen_pages before self.old.bytes)) }
        ensures same { heap_in self.new ≡ heap_in self.old }
        ensures spare { self.new.spare ≡ self.old.spare }
        ensures own { OnOk result (IfSome self.old.begun (λ before.
            self.new.own ≡ without_own (dirty_pages before self.old.bytes) self.old.own)) }
    {
        self.pages.freeze()
    }

    /// Ends the turn, and keeps what it changed. The frames that its pages had before are spare, where nobody shares
    /// them.
    pub fn commit(&mut self)
        requires { IsSome self.old.begun }
        ensures same { heap_in self.new ≡ record (heap_in self.old) { begun = None } }
        ensures spare { self.old.spare ≤ self.new.spare }
        ensures own { self.new.own ≡ replicate (length self.old.own) false }
    {
        self.pages.commit();
    }

    /// Ends the turn, where one is begun, with all bytes as they were when it began. Its own frames are spare again.
    pub fn abort(&mut self)
        ensures begun { IfSome self.old.begun (λ before.
            heap_in self.new ≡ record { value = value_of before; bytes = before; begun = None }) }
        ensures spare { self.new.spare ≡ self.old.spare + own_count self.old.own }
        ensures own { self.new.own ≡ replicate (length self.old.own) false }
        ensures none { self.old.begun ≡ None → self.new ≡ self.old }
    {
        self.pages.abort();
    }
}
