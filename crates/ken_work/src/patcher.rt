// A node's patcher.
ghost use Rattle.std.specs.Prelude.{◌≡◌, ◌+◌, ◌<◌, ◌≤◌, ◌↔◌, ◌∷◌, [], ◌++◌, length, IsTrue, OnOk, OnErr};
ghost use Rattle.std.specs.VecDeque.{deque_capacity, deque_len};
ghost use Rattle.ken_links.specs.Rings.{pushed, free, popped, known, nones, IsRing, SamePopEnd, SamePushEnd};
ghost use Rattle.ken_cover.specs.Overlay.{AreWithin, IsWithin};
ghost use Rattle.ken_store.specs.Ahead.{frame_page, frame_pages};
ghost use Rattle.ken_store.specs.Apart.{MayHand};
ghost use Rattle.ken_store.specs.Patching.{TakesPatches};
ghost use Rattle.ken_work.specs.Faults.{IsFaultOfWorker, store_answer};
ghost use Rattle.ken_work.specs.Patches.{IsHandedOver, IsSamePatcher, PatchesOnce, Received, SettlesOnce, TakesNone, TakesOver};

use crate::faults::answered;
use crate::items::{Frozen, Settled};
use ken_disk::Disk;
use ken_frame::{FRAME, Frame};
use ken_links::{PopEnd, PushEnd, SLOTS, beside, is_drained};
use ken_ship::NodeFault;
use ken_store::PatchSide;
use std::alloc::AllocError;
use std::sync::Arc;

/// A node's patcher: it writes the pages of sealed turns to the image, and tells the handler which turns are safe there.
#[derive(Drop)]
pub struct PatchWorker<D> {
    pub(crate) side: PatchSide<D>,
    pub(crate) pages: PopEnd<Frozen>,
    pub(crate) settled: PushEnd<Settled>,
}

// Whether this is a whole page of a heap of so many.
fn is_within(pages: u32, page: &(u32, Arc<Frame>)) -> bool
    ensures { IsTrue result ↔ IsWithin pages (frame_page page.now) }
{
    page.0 < pages && page.1.as_slice().len() == FRAME
}

// Whether these are.
fn are_within(pages: u32, frames: &[(u32, Arc<Frame>)]) -> bool
    ensures { IsTrue result ↔ AreWithin pages (frame_pages frames.now) }
{
    frames.iter().all(|page| is_within(pages, page))
}

// Whether a turn's pages may be handed to a side: they come after all before, and lie in its heap.
fn may_follow<D: Disk>(side: &PatchSide<D>, frozen: &Frozen) -> bool
    ensures { IsTrue result ↔ MayHand side.now frozen.now.turn (frame_pages frozen.now.pages.items) }
{
    side.known() < frozen.turn && are_within(side.pages(), &frozen.pages)
}

// Hands a turn's pages to a side, where they may be. There is room for one record more.
fn hand<D: Disk>(side: &mut PatchSide<D>, frozen: Frozen)
    requires room { deque_len side.old.ahead < deque_capacity side.old.ahead }
    ensures handed { IsHandedOver D.told D.size (frozen ∷ []) side.old side.new }
    ensures room { deque_capacity side.new.ahead ≡ deque_capacity side.old.ahead }
    ensures count { deque_len side.new.ahead ≤ deque_len side.old.ahead + 1 }
{
    if may_follow(side, &frozen) {
        side.hand(frozen.turn, frozen.pages);
    }
}

impl<D: Disk> PatchWorker<D> {
    // Takes sealed turns from the ring until it gives none, or 64 were given. After an error none left it.
    fn take_over(&mut self) -> Result<(), AllocError>
        ensures same { IsSamePatcher self.old self.new }
        ensures ok { OnOk result (TakesOver D.told D.size self.old self.new) }
        ensures err { OnErr result (TakesNone D.told D.size self.old self.new) }
    {
        self.side.reserve(SLOTS)?;
        for _given in 0..SLOTS {
            match self.pages.pop() {
                Some(frozen) => hand(&mut self.side, frozen),
                None => return Ok(()),
            }
        }
        Ok(())
    }

    /// Takes sealed turns from its ring until that gives none, or 64 were given, and writes the next page of the oldest that is to
    /// patch, by one call of the image's disk: false exactly where there is none. The errors are `Disk`, after which the page
    /// counts as written and no call may follow but a restart; and `Memory`, after which nothing was written, and turns that
    /// were taken are to patch.
    pub fn patch_once(&mut self) -> Result<bool, NodeFault>
        requires { TakesPatches D.told D.size self.old.side }
        ensures same { IsSamePatcher self.old self.new }
        ensures patches { PatchesOnce D.told D.size D.faults D.fate (store_answer result) self.old self.new }
        ensures sound { IsFaultOfWorker result }
    {
        self.take_over()?;
        answered(self.side.patch_next())
    }

    /// Syncs the image, by one call of its disk, and tells the handler through which turn all pages are safe there: the last turn
    /// before the oldest record that is to patch, 0 where that is a base, and the last turn that it knows where nothing is to
    /// patch. With it the last turn that it knows is told. A slot of the ring must be known to be free. After an error nothing more
    /// is safe than before, and nothing is told; after `Disk` no call may follow but a restart.
    pub fn settle(&mut self) -> Result<(), NodeFault>
        requires takes { TakesPatches D.told D.size self.old.side }
        requires slot { 0 < free self.old.settled }
        ensures same { IsSamePatcher self.old self.new }
        ensures settles { SettlesOnce D.told D.size D.faults D.fate (store_answer result) self.old self.new }
        ensures sound { IsFaultOfWorker result }
    {
        let turn = answered(self.side.settle())?;
        self.settled.push(Settled {
            by: self.side.known(),
            turn,
        });
        Ok(())
    }

    // Takes over each turn that the ring holds, from the end at which the handler pushes: then 64 slots are known there to be free.
    // After an error what is in the ring is there still, and is known.
    pub(crate) fn receive(&mut self, ring: &mut PushEnd<Frozen>) -> Result<(), AllocError>
        requires { IsRing ring.old self.old.pages }
        ensures same { IsSamePatcher self.old self.new }
        ensures ends { SamePushEnd ring.old ring.new × IsRing ring.new self.new.pages }
        ensures ring { (pushed ring.new ≡ pushed ring.old) × (nones self.new.pages ≡ nones self.old.pages) }
        ensures settled { self.new.settled ≡ self.old.settled }
        ensures handed { Received D.told D.size self.old self.new }
        ensures queued { popped self.new.pages ++ known self.new.pages ≡ pushed ring.new }
        ensures ok { OnOk result ((popped self.new.pages ≡ pushed ring.new) × (64 ≤ free ring.new)) }
        ensures err { OnErr result (popped self.new.pages ≡ popped self.old.pages) }
    {
        if is_drained(ring, &mut self.pages) {
            return Ok(());
        }
        beside(ring, &mut self.pages);
        self.side.reserve(self.pages.known())?;
        self.hand_known();
        beside(ring, &mut self.pages);
        Ok(())
    }

    // Takes over each turn that is known to be in the ring. There is room.
    fn hand_known(&mut self)
        requires { deque_len self.old.side.ahead + length (known self.old.pages) ≤ deque_capacity self.old.side.ahead }
        ensures end { SamePopEnd self.old.pages self.new.pages × (nones self.new.pages ≡ nones self.old.pages) }
        ensures handed { Received D.told D.size self.old self.new }
        ensures settled { self.new.settled ≡ self.old.settled }
        ensures all { popped self.new.pages ≡ popped self.old.pages ++ known self.old.pages }
    {
        for _moved in 0..self.pages.known() {
            let frozen = self.pages.pop_known();
            hand(&mut self.side, frozen);
        }
    }
}
