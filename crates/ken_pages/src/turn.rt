// The pages that a turn wrote.
ghost use Rattle.std.specs.Prelude.{◌≡◌, ℕ, ◌+◌, ◌-◌, ◌*◌, ◌<◌, ◌≤◌, ◌^◌, length, take, drop, map, replicate, true, false, All, IfOk, OnOk, slice_index_or, slice_set, vec_len, vec_capacity};
ghost use Rattle.std.specs.Arc.{arc_value};
ghost use Rattle.std.specs.List.Sorted.{IsSorted};
ghost use Rattle.std.specs.Ordering.{nat_cmp};
ghost use Rattle.ken_pages.specs.Paged.{dirty_pages, frozen_pages, page_of, shared_pages, lacking, with_own, missing, without_own, own_count};
ghost use Rattle.ken_pages.specs.Layout.{ArePages, Lists, now_of, was_of, now_bytes, was_bytes, own_pages, kept_pages};

use crate::page::Page;
use ken_frame::{Frame, Shelf};
use std::alloc::{AllocError, Global};
use std::sync::Arc;

// How many of the pages from `from` up to `end` the turn has no frame of its own for.
pub(crate) fn lacking(pages: &[Page], from: usize, end: usize) -> usize
    requires order { from ≤ end }
    requires within { end ≤ length pages.now }
    ensures { result ≡ lacking from (end - from) (own_pages pages.now) }
{
    let mut count = 0;
    for page in from..end {
        if !pages[page].is_own() {
            count += 1;
        }
    }
    count
}

// Gives the turn a frame of its own for the page, where it has none.
pub(crate) fn take(pages: &mut [Page], first: &mut Vec<u32>, shelf: &mut Shelf, page: u32)
    requires whole { ArePages pages.old }
    requires inside { page < length pages.old }
    requires listed { Lists first.old.items (kept_pages pages.old) }
    requires spare { missing (slice_index_or (own_pages pages.old) page false) ≤ length shelf.old }
    requires room { vec_len first.old + length shelf.old ≤ vec_capacity first.old }
    ensures whole { ArePages pages.new }
    ensures now { map now_of pages.new ≡ map now_of pages.old }
    ensures was { map was_of pages.new ≡ map was_of pages.old }
    ensures count { length pages.new ≡ length pages.old }
    ensures own { own_pages pages.new ≡ slice_set (own_pages pages.old) page true }
    ensures spare { length shelf.new ≡ length shelf.old - missing (slice_index_or (own_pages pages.old) page false) }
    ensures listed { Lists first.new.items (kept_pages pages.new) }
    ensures room { vec_len first.new + length shelf.new ≤ vec_capacity first.new }
{
    let at = page as usize;
    if pages[at].is_own() {
        return;
    }
    let Some(frame) = shelf.pop() else {
        unreachable!()
    };
    if !pages[at].is_kept() {
        first.push_reserved(page);
    }
    pages[at].own(frame);
}

// Gives the turn frames of its own for the pages from `from` up to `end`.
pub(crate) fn take_all(
    pages: &mut [Page],
    first: &mut Vec<u32>,
    shelf: &mut Shelf,
    from: usize,
    end: usize,
)
    requires whole { ArePages pages.old }
    requires order { from ≤ end }
    requires within { end ≤ length pages.old }
    requires few { length pages.old ≤ 4096 }
    requires listed { Lists first.old.items (kept_pages pages.old) }
    requires spare { lacking from (end - from) (own_pages pages.old) ≤ length shelf.old }
    requires room { vec_len first.old + length shelf.old ≤ vec_capacity first.old }
    ensures whole { ArePages pages.new }
    ensures now { map now_of pages.new ≡ map now_of pages.old }
    ensures was { map was_of pages.new ≡ map was_of pages.old }
    ensures count { length pages.new ≡ length pages.old }
    ensures own { own_pages pages.new ≡ with_own from (end - from) (own_pages pages.old) }
    ensures spare { length shelf.new ≡ length shelf.old - lacking from (end - from) (own_pages pages.old) }
    ensures listed { Lists first.new.items (kept_pages pages.new) }
    ensures room { vec_len first.new + length shelf.new ≤ vec_capacity first.new }
{
    for page in from..end {
        take(pages, first, shelf, page as u32);
    }
}

// Makes each page that the turn wrote what it was at `begin`, and lays the turn's own frames on the shelf.
pub(crate) fn put_back(pages: &mut [Page], first: &[u32], shelf: &mut Shelf)
    requires whole { ArePages pages.old }
    requires listed { Lists first.now (kept_pages pages.old) }
    requires room { length first.now + length shelf.old < 2 ^ 63 }
    ensures whole { ArePages pages.new }
    ensures now { map now_of pages.new ≡ map was_of pages.old }
    ensures kept { kept_pages pages.new ≡ replicate (length pages.old) false }
    ensures spare { length shelf.new ≡ length shelf.old + own_count (own_pages pages.old) }
    ensures most { length shelf.new ≤ length shelf.old + length first.now }
    ensures count { length pages.new ≡ length pages.old }
{
    for page in first {
        if let Some(frame) = pages[*page as usize].put_back() {
            shelf.push(frame);
        }
    }
}

// Leaves each page that the turn wrote as it is, and lays the frames that it had on the shelf, where nobody shares
// them.
pub(crate) fn keep(pages: &mut [Page], first: &[u32], shelf: &mut Shelf)
    requires whole { ArePages pages.old }
    requires listed { Lists first.now (kept_pages pages.old) }
    requires room { length first.now + length shelf.old < 2 ^ 63 }
    ensures whole { ArePages pages.new }
    ensures now { map now_of pages.new ≡ map now_of pages.old }
    ensures kept { kept_pages pages.new ≡ replicate (length pages.old) false }
    ensures least { length shelf.old ≤ length shelf.new }
    ensures most { length shelf.new ≤ length shelf.old + length first.now }
    ensures count { length pages.new ≡ length pages.old }
{
    for page in first {
        if let Some(frame) = pages[*page as usize].keep() {
            shelf.push(frame);
        }
    }
}

// The pages whose bytes are not as they were at `begin`, in rising order.
pub(crate) fn changed(alloc: Global, pages: &[Page], first: &[u32]) -> Result<Vec<u32>, AllocError>
    requires whole { ArePages pages.now }
    requires listed { Lists first.now (kept_pages pages.now) }
    ensures changed { IfOk result (λ changed.
        changed.items ≡ dirty_pages (was_bytes pages.now) (now_bytes pages.now)) }
    ensures kept { IfOk result (λ changed.
        All (λ p. slice_index_or (kept_pages pages.now) p false ≡ true) changed.items) }
{
    let mut changed = Vec::with_capacity(alloc, first.len())?;
    for page in first {
        if pages[*page as usize].differs() {
            changed.push(*page)?;
        }
    }
    changed.sort_unstable();
    Ok(changed)
}

// A share of one page that the turn wrote. The turn then has no frame of its own for it.
fn share_page(alloc: Global, pages: &mut [Page], page: u32) -> Result<Arc<Frame>, AllocError>
    requires whole { ArePages pages.old }
    requires kept { slice_index_or (kept_pages pages.old) page false ≡ true }
    ensures whole { ArePages pages.new }
    ensures share { IfOk result (λ frame. arc_value frame ≡ page_of (now_bytes pages.old) page) }
    ensures now { map now_of pages.new ≡ map now_of pages.old }
    ensures was { map was_of pages.new ≡ map was_of pages.old }
    ensures kept { kept_pages pages.new ≡ kept_pages pages.old }
    ensures own { OnOk result (own_pages pages.new ≡ slice_set (own_pages pages.old) page false) }
    ensures count { length pages.new ≡ length pages.old }
{
    pages[page as usize].share(alloc)
}

// A share of each page whose bytes are not as they were at `begin`, with its number, in rising order. No byte is copied.
pub(crate) fn freeze(
    alloc: Global,
    pages: &mut [Page],
    first: &[u32],
) -> Result<Vec<(u32, Arc<Frame>)>, AllocError>
    requires whole { ArePages pages.old }
    requires listed { Lists first.now (kept_pages pages.old) }
    requires sorted { IsSorted nat_cmp first.now }
    ensures whole { ArePages pages.new }
    ensures shares { IfOk result (λ frozen.
        shared_pages frozen.items ≡ frozen_pages (was_bytes pages.old) (now_bytes pages.old)) }
    ensures now { map now_of pages.new ≡ map now_of pages.old }
    ensures was { map was_of pages.new ≡ map was_of pages.old }
    ensures kept { kept_pages pages.new ≡ kept_pages pages.old }
    ensures own { OnOk result (own_pages pages.new
        ≡ without_own (dirty_pages (was_bytes pages.old) (now_bytes pages.old)) (own_pages pages.old)) }
    ensures count { length pages.new ≡ length pages.old }
{
    let mut frozen = Vec::with_capacity(alloc, first.len())?;
    for page in first {
        if pages[*page as usize].differs() {
            frozen.push_reserved((*page, share_page(alloc, pages, *page)?));
        }
    }
    Ok(frozen)
}
