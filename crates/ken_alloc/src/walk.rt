// Walks over the cells.
ghost use Rattle.std.specs.Prelude.{◌≡◌, ◌+◌, ◌-◌, ◌<◌, ◌≤◌, ◌^◌, List, length};
ghost use Rattle.ken_model.specs.Heap.{rounded};
ghost use Rattle.ken_model.specs.Layout.{StandsFor};
ghost use Rattle.ken_model.specs.Reading.{value_of};
ghost use Rattle.ken_alloc.specs.Walk.{CanWalk, IsWalk, start_of, first_of, page_rest, fit_from, hole_from};

use crate::head;
use ken_model::{CELLS, HEAD, rounded};
use ken_pages::PageHeap;

// A block: the place of its first byte, and how many it has.
#[derive(Clone, Copy)]
pub(crate) struct Found {
    pub(crate) place: u64,
    pub(crate) len: u32,
}

// Where cells end, and where the next begin.
#[derive(Clone, Copy)]
pub(crate) struct Gap {
    pub(crate) from: u64,
    pub(crate) to: u64,
}

impl Found {
    // Where its cell ends.
    pub(crate) fn end(self) -> u64
        requires { self.place < 2 ^ 62 }
        ensures { result ≡ self.place + rounded self.len }
    {
        self.place + rounded(u64::from(self.len))
    }
}

// Where the gap ends that may begin where a block's cell ends.
pub(crate) fn gap_end(pages: &PageHeap, from: u64) -> u64
    requires { CanWalk pages.now.bytes from }
    ensures { (rest : List _) → IsWalk pages.now.bytes from rest → result ≡ start_of (length pages.now.bytes) rest }
{
    if from == head::size(pages) {
        return from;
    }
    let head = head::read(pages, from);
    if head.len == 0 {
        from + u64::from(head.span)
    } else {
        from
    }
}

// The first block from the end of another on.
pub(crate) fn block_from(pages: &PageHeap, from: u64) -> Option<Found>
    requires { CanWalk pages.now.bytes from }
    ensures { (rest : List _) → IsWalk pages.now.bytes from rest → result ≡ first_of rest }
{
    let size = head::size(pages);
    if from == size {
        return None;
    }
    let first = head::read(pages, from);
    if first.len > 0 {
        let place = from + HEAD;
        return Some(Found {
            place,
            len: first.len,
        });
    }
    let at = from + u64::from(first.span);
    if at == size {
        return None;
    }
    Some(Found {
        place: at + HEAD,
        len: head::read(pages, at).len,
    })
}

// The bytes from the end of a cell on, up to the end of their page: none where the heap ends. `rest` are those from the
// cell's beginning on.
pub(crate) fn past<'p>(pages: &'p PageHeap, rest: &'p [u8], at: u64, span: u64) -> &'p [u8]
    requires rest { rest.now ≡ page_rest at pages.now.bytes }
    requires within { at + span ≤ length pages.now.bytes }
    ensures { result.now ≡ page_rest (at + span) pages.now.bytes }
{
    if span < rest.len() as u64 {
        return &rest[span as usize..];
    }
    let size = head::size(pages);
    let end = at + span;
    if end < size { pages.rest(end) } else { &[] }
}

// The first gap that a block of so many bytes fits into.
pub(crate) fn first_fit(pages: &PageHeap, len: u64) -> Option<Gap>
    requires { StandsFor pages.now.bytes (value_of pages.now.bytes) }
    ensures { result ≡ fit_from 16 (length pages.now.bytes) (value_of pages.now.bytes).blocks len }
{
    let size = head::size(pages);
    if len > size {
        return None;
    }
    let room = HEAD + rounded(len);
    let mut at = CELLS;
    let mut rest = pages.rest(CELLS);
    while at < size {
        let cell = head::of(rest);
        let span = u64::from(cell.span);
        if cell.len == 0 && span >= room {
            let to = at + span;
            return Some(Gap { from: at, to });
        }
        rest = past(pages, rest, at, span);
        at += span;
    }
    None
}

// The gap that is left where a block goes, with those on both sides of it.
pub(crate) fn hole(pages: &PageHeap, place: u64) -> Option<Gap>
    requires { StandsFor pages.now.bytes (value_of pages.now.bytes) }
    ensures { result ≡ hole_from 16 (length pages.now.bytes) place (value_of pages.now.bytes).blocks }
{
    let size = head::size(pages);
    let mut from = CELLS;
    let mut at = CELLS;
    let mut rest = pages.rest(CELLS);
    while at < size {
        let cell = head::of(rest);
        let span = u64::from(cell.span);
        let end = at + span;
        if cell.len > 0 {
            if at + HEAD == place {
                let to = gap_end(pages, end);
                return Some(Gap { from, to });
            }
            from = end;
        }
        rest = past(pages, rest, at, span);
        at = end;
    }
    None
}
